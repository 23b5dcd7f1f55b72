// LEADER: the site takes a view that it is to lead.
ghost use Rattle.std.specs.Prelude.{List, [], ◌≡◌, ℕ};
ghost use Rattle.refusal.specs.Rules.{answer};
ghost use Rattle.frame.specs.Format.{frame_with};
ghost use Rattle.leader.specs.Leader as spec;
ghost use Rattle.leader.specs.Code.Calls as calls;

use super::State;
use frame::Heading;
use refusal::{Answer, Refusal, given};
use roster::{Roster, View};

// Whether this site leads in a view that is above its own.
#[tactic(auto, unfolding(crate::specs::Leader::leads))]
fn leads(r: Roster, own: u8, s: &State, view: View) -> bool
    ensures { result ≡ spec.leads r own s.now view }
{
    r.leader_of(view) == own && view > s.view
}

// The answer to a LEADER.
fn check(r: Roster, own: u8, s: &State, head: Heading) -> Answer
    ensures { result ≡ answer (spec.leader_rules r own s.now (frame_with head [])) }
{
    let unknown = r.n <= head.sender;
    let stale = !leads(r, own, s, head.view);
    let weak = roster::unproven(head.mask, r.n, r.quorum());
    given(
        unknown,
        Refusal::Sender,
        given(stale, Refusal::Stale, given(weak, Refusal::Proof, Ok(()))),
    )
}

// Takes a LEADER: the site is in its view.
pub(crate) fn take(r: Roster, own: u8, s: &mut State, head: Heading) -> Result<usize, Refusal>
    ensures { (words : List ℕ) → calls.Silently (calls.taken_as spec.LEADER r own s.old (frame_with head words)) result s.new }
{
    check(r, own, s, head)?;
    s.view = head.view;
    Ok(0)
}
