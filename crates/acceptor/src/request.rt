// PROPOSE: the requested commands are appended to what is held, and the result is signed.
ghost use Rattle.std.specs.Prelude.{[], ◌≡◌, ◌≤◌, length, take};
ghost use Rattle.words.specs.Sizes.{capacity};
ghost use Rattle.history.specs.Words.{commands};
ghost use Rattle.merge.specs.Merge.{appended};
ghost use Rattle.refusal.specs.Rules.{answer};
ghost use Rattle.frame.specs.Format.{frame_with};
ghost use Rattle.acceptor.specs.Acceptor as spec;

use super::State;
use frame::Heading;
use history::History;
use refusal::{Answer, Refusal, given};

// The answer to the heading.
fn check_heading(s: &State, head: Heading) -> Answer
    ensures { result ≡ answer (spec.propose_heading s.now (frame_with head [])) }
{
    let nobody = head.sender == 0;
    let stale = !(head.ballot == s.ballot && s.fast != 0);
    given(
        nobody,
        Refusal::Sender,
        given(stale, Refusal::Stale, Ok(())),
    )
}

// The answer to a PROPOSE: the heading, then the commands, then the histories.
pub(crate) fn check(s: &State, head: Heading, h: &[u64]) -> Answer
    requires { length (spec.held_of s.now) ≤ capacity }
    ensures { result ≡ answer (spec.propose_rules s.now (frame_with head []) h.now) }
{
    check_heading(s, head)?;
    content::requested(head.sender, h)?;
    let held = s.held.commands();
    let behind = !history::extends(held, s.proven.commands());
    if behind {
        return Err(Refusal::Behind);
    }
    content::appendable(words::LIMIT, held, h)
}

// Puts what is held and those commands of h that are new, in canonical order, at the front of `all`, and answers how many they are.
pub(crate) fn lengthen(held: &History, h: &[u64], all: &mut [u64; words::CAPACITY]) -> usize
    requires { (length (commands held.now) ≤ capacity) × (length (appended (commands held.now) h.now) ≤ capacity) }
    ensures { take result all.new ≡ spec.lengthened (commands held.now) h.now }
{
    let held = held.commands();
    history::fill(all, held);
    let n = merge::append(all, held.len(), h);
    history::put_in_order(&mut all[..n]);
    n
}
