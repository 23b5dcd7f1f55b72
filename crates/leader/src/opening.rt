// The opening of a ballot: when a site may, and the frame that goes out.
ghost use Rattle.std.specs.Prelude.{◌≡◌};
ghost use Rattle.site.specs.Reply.{Handed, sends};
ghost use Rattle.leader.specs.Leader as spec;

use super::State;
use frame::Heading;
use roster::{Ballot, Roster, View};

// Whether this site may open a ballot: one above its last, in a view that it leads.
#[tactic(auto, unfolding(crate::specs::Leader::may_open))]
pub(crate) fn may_open(r: Roster, own: u8, s: &State, ballot: Ballot) -> bool
    ensures { result ≡ spec.may_open r own s.now ballot }
{
    ballot > s.ballot && r.leader_of(s.view) == own
}

// Sends the frame that opens a ballot, P1A where `fast` is 0, else FAST, and answers the length of its line.
pub(crate) fn invite(own: u8, view: View, ballot: Ballot, fast: u8, out: &mut [u8]) -> usize
    ensures { Handed (sends (spec.invitation own view ballot fast)) result out.old out.new }
{
    let kind = if fast == 0 { frame::P1A } else { frame::FAST };
    site::send(
        Heading {
            kind,
            sender: own,
            view,
            ballot,
            ..Heading::default()
        },
        &[],
        &[],
        out,
    )
}
