// P2A: the leader's history is signed.
ghost use Rattle.std.specs.Prelude.{[], ◌≡◌, ◌≤◌, length};
ghost use Rattle.words.specs.Sizes.{capacity};
ghost use Rattle.refusal.specs.Rules.{answer};
ghost use Rattle.frame.specs.Format.{frame_with};
ghost use Rattle.acceptor.specs.Acceptor as spec;

use super::{State, opening};
use frame::Heading;
use refusal::{Answer, Refusal, given};
use roster::{Roster, View};

// The answer to the heading.
fn check_heading(r: Roster, view: View, s: &State, head: Heading) -> Answer
    ensures { result ≡ answer (spec.order_heading r view s.now (frame_with head [])) }
{
    let unknown = opening::outsider(r, head.sender, head.view);
    let stale = !(head.view == view && (head.ballot == s.ballot && s.fast == 0));
    given(
        unknown,
        Refusal::Sender,
        given(stale, Refusal::Stale, Ok(())),
    )
}

// Whether h does not extend the proven history or, if one was signed in this ballot, the held one.
fn lags(s: &State, h: &[u64]) -> bool
    requires { length h.now ≤ capacity }
    ensures { result ≡ spec.lags s.now h.now }
{
    !history::extends(h, s.proven.commands())
        || s.signed != 0 && !history::extends(h, s.held.commands())
}

// The answer to a P2A: the heading, then the commands, then what the history must extend.
pub(crate) fn check(r: Roster, view: View, s: &State, head: Heading, h: &[u64]) -> Answer
    requires { length h.now ≤ capacity }
    ensures { result ≡ answer (spec.order_rules r view s.now (frame_with head []) h.now) }
{
    check_heading(r, view, s, head)?;
    content::ordered(h)?;
    let behind = lags(s, h);
    given(behind, Refusal::Behind, Ok(()))
}
