// P1A and FAST: a ballot is opened.
ghost use Rattle.std.specs.Prelude.{[], ◌≡◌, ◌≤◌, length, Ok};
ghost use Rattle.words.specs.Sizes.{capacity};
ghost use Rattle.refusal.specs.Rules.{answer};
ghost use Rattle.frame.specs.Format.{frame_with};
ghost use Rattle.site.specs.Reply as reply;
ghost use Rattle.acceptor.specs.Acceptor as spec;
ghost use Rattle.acceptor.specs.Code.Effects as effects;

use super::State;
use frame::Heading;
use refusal::{Answer, Refusal, given};
use roster::{Ballot, Roster, View};

// Whether a frame for a view is not from the view's leader.
#[tactic(auto, unfolding(crate::specs::Acceptor::not_leader))]
pub(crate) fn outsider(r: Roster, site: u8, view: View) -> bool
    ensures { result ≡ spec.not_leader r site view }
{
    r.n <= site || site != r.leader_of(view)
}

// The answer to a P1A or FAST.
pub(crate) fn check(r: Roster, view: View, s: &State, head: Heading) -> Answer
    ensures { result ≡ answer (spec.opening_rules r view s.now (frame_with head [])) }
{
    let unknown = outsider(r, head.sender, head.view);
    let stale = !(head.view == view && head.ballot > s.ballot);
    given(
        unknown,
        Refusal::Sender,
        given(stale, Refusal::Stale, Ok(())),
    )
}

// Takes a ballot: what was signed and verified before is forgotten. In a classic one a P1B goes out that reports what is proven and what is held.
pub(crate) fn perform(fast: bool, own: u8, s: &mut State, ballot: Ballot, out: &mut [u8]) -> usize
    requires { (length (spec.held_of s.old) ≤ capacity) × (length (spec.proven_of s.old) ≤ capacity) }
    ensures { effects.Done (spec.opening fast own s.old ballot) out.old (reply.outcome (Ok result) s.new) out.new }
{
    let report = Heading {
        kind: frame::P1B,
        sender: own,
        ballot,
        proven_ballot: s.proven_ballot,
        mask: s.certificate,
        ..Heading::default()
    };
    let sent = site::send_if(!fast, report, s.proven.commands(), s.held.commands(), out);
    s.ballot = ballot;
    s.fast = fast as u8;
    s.signed = 0;
    s.verified.clear();
    sent
}
