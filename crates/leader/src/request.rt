// PROPOSE: commands that wait to be proposed.
ghost use Rattle.std.specs.Prelude.{[], ◌≡◌, ℕ};
ghost use Rattle.roster.specs.declared.Roster.{Roster};
ghost use Rattle.history.specs.Words.{commands, stored};
ghost use Rattle.merge.specs.Merge.{appended};
ghost use Rattle.refusal.specs.Rules.{answer};
ghost use Rattle.frame.specs.Format.{frame_with};
ghost use Rattle.leader.specs.Leader as spec;
ghost use Rattle.leader.specs.Code.Calls as calls;

use super::State;
use frame::Heading;
use history::History;
use refusal::{Answer, Refusal};

// The answer to a PROPOSE of h: the sender, then the commands, then what is pending.
fn check(pending: &[u64], head: Heading, h: &[u64]) -> Answer
    ensures { result ≡ answer (spec.propose_rules pending.now (frame_with head []) h.now) }
{
    if head.sender == 0 {
        return Err(Refusal::Sender);
    }
    content::requested(head.sender, h)?;
    content::appendable(words::LIMIT, pending, h)
}

// Appends to the pending commands those of h that are not there yet, up to 32.
fn append(pending: &mut History, h: &[u64])
    ensures { pending.new ≡ stored (appended (commands pending.old) h.now) }
{
    let mut work = pending.words;
    let n = merge::append(&mut work, pending.count as usize, h);
    pending.set(history::first(&work, n));
}

// Takes a PROPOSE whose words these are: its commands wait.
pub(crate) fn take(s: &mut State, head: Heading, words: &[u64]) -> Result<usize, Refusal>
    ensures { (r : Roster) (own : ℕ) → calls.Silently (calls.taken_as spec.PROPOSE r own s.old (frame_with head words.now)) result s.new }
{
    let h = history::first(words, head.n as usize);
    check(s.pending.commands(), head, h)?;
    append(&mut s.pending, h);
    Ok(0)
}
