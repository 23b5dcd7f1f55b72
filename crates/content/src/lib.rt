// The checks of the commands that a frame carries, which the roles share: COMMAND and HISTORY; REUSED, NOTHING and FULL; CONTRADICTION. A refusal by
// COMMAND is answered before the commands are compared with each other, which is the dear part.
#![tactic(auto)]

ghost use Rattle.std.specs.Prelude.{◌≡◌, min};
ghost use Rattle.words.specs.Sizes.{capacity};
ghost use Rattle.history.specs.Words.{union_capacity};
ghost use Rattle.refusal.specs.Rules.{answer};
ghost use Rattle.content.specs.Content as spec;

use refusal::{Answer, Refusal, given};

// Whether a list that may be empty has a proposer and serial twice, or is not in canonical order.
#[tactic(auto, unfolding(crate::specs::Content::disordered))]
fn disordered(h: &[u64]) -> bool
    ensures { result ≡ spec.disordered h.now }
{
    history::repeated(h) || !history::is_canonical(h)
}

// The answer to a history that is not empty, in canonical order.
pub fn ordered(h: &[u64]) -> Answer
    ensures { result ≡ answer (spec.history_rules h.now) }
{
    let wrong = !command::all_valid(h);
    if wrong {
        return Err(Refusal::Command);
    }
    let improper = history::improper(h);
    given(improper, Refusal::History, Ok(()))
}

// The answer to the commands that a proposer asks for, one or more in any order.
pub fn requested(by: u8, h: &[u64]) -> Answer
    ensures { result ≡ answer (spec.request_rules by h.now) }
{
    let wrong = !command::all_valid(h) | !command::all_by(by, h);
    if wrong {
        return Err(Refusal::Command);
    }
    let improper = history::repeated(h) | (h.len() == 0);
    given(improper, Refusal::History, Ok(()))
}

// The answer to the two histories of a report, what is proven and what is held; either may be empty.
pub fn reported(proven: &[u64], held: &[u64]) -> Answer
    ensures { result ≡ answer (spec.report_rules proven.now held.now) }
{
    let wrong = !command::all_valid(proven) | !command::all_valid(held);
    if wrong {
        return Err(Refusal::Command);
    }
    let improper = disordered(proven) | disordered(held);
    given(improper, Refusal::History, Ok(()))
}

// The answer to new commands h by the list that they are appended to, under a limit; one over 32 counts as 32. Each test reads all of the list, so
// each is a tier of its own.
pub fn appendable(limit: u8, list: &[u64], h: &[u64]) -> Answer
    ensures { result ≡ answer (spec.append_rules (min limit capacity) list.now h.now) }
{
    let reused = merge::reuses(list, h);
    if reused {
        return Err(Refusal::Reused);
    }
    let nothing = merge::nothing_new(list, h);
    if nothing {
        return Err(Refusal::Nothing);
    }
    let full = merge::overflows(limit, list, h);
    given(full, Refusal::Full, Ok(()))
}

// Whether neither of a site's entry and h extends the other, of lists that a union of two histories can be: a longer one extends nothing here.
#[tactic(auto, unfolding(crate::specs::Content::contradicts_within))]
pub fn contradicts(entry: &[u64], h: &[u64]) -> bool
    ensures { result ≡ spec.contradicts_within union_capacity entry.now h.now }
{
    !history::extends(h, entry) && !history::extends(entry, h)
}
