// Merging two histories, and appending commands that are not there yet.
#![tactic(auto)]

ghost use Rattle.std.specs.Prelude.{◌≡◌, ◌++◌, min, ◌≤◌, length, drop};
ghost use Rattle.words.specs.Sizes.{capacity};
ghost use Rattle.merge.specs.Merge as spec;
ghost use Rattle.merge.specs.Appending as appending;
ghost use Rattle.merge.specs.Merged as answer;

use history::History;

// Why two histories have no merge: no common extension exists, or it is too long.
#[derive(Clone, Copy, PartialEq, Eq)]
pub enum Unmerged {
    Split,
    Full,
}

// Appends to the first count words of buf the commands of more whose proposer and serial are not there yet, up to the end of buf.
// Answers how many words there are then; the words behind them stay. A count past the end of buf counts as its length.
pub fn append(buf: &mut [u64], count: usize, more: &[u64]) -> usize
    ensures { (result ≡ length (spec.appended_in buf.old count more.now)) × (buf.new ≡ spec.appended_in buf.old count more.now ++ drop result buf.old) }
{
    let mut n = count.min(buf.len());
    for &c in more {
        if buf.len() <= n {
            break;
        }
        if !history::present(c, &buf[..n]) {
            buf[n] = c;
            n += 1;
        }
    }
    n
}

// Whether g holds c, byte for byte.
pub fn holds(g: &[u64], c: u64) -> bool
    ensures { result ≡ appending.holds g.now c }
{
    for &d in g {
        if c == d {
            return true;
        }
    }
    false
}

// Whether g holds c's proposer and serial with other bytes.
fn differs(g: &[u64], c: u64) -> bool
    ensures { result ≡ appending.differs g.now c }
{
    history::present(c, g) && !holds(g, c)
}

// Whether g holds some command's proposer and serial of h with other bytes.
pub fn reuses(g: &[u64], h: &[u64]) -> bool
    ensures { result ≡ appending.reuses g.now h.now }
{
    h.iter().any(|c| differs(g, *c))
}

// Whether g holds every command of h already.
pub fn nothing_new(g: &[u64], h: &[u64]) -> bool
    ensures { result ≡ appending.nothing_new g.now h.now }
{
    h.iter().all(|c| holds(g, *c))
}

// Whether g with the commands of h appended that are not there yet is over the limit; one over 32 counts as 32. Where there is room for all of
// them, nothing is looked up.
pub fn overflows(limit: u8, g: &[u64], h: &[u64]) -> bool
    ensures { result ≡ appending.overflows (min limit capacity) g.now h.now }
{
    let most = (limit as usize).min(words::CAPACITY);
    let m = g.len();
    if m <= most && h.len() <= most - m {
        return false;
    }
    let mut work = [0u64; history::WORK];
    history::fill(&mut work, g);
    let n = append(&mut work, m, h);
    most < n
}

// The answer for a union `work` that is the merge if it extends h, under a limit. Leaves `work` reordered.
fn settle(most: usize, work: &mut [u64], h: &[u64]) -> Result<History, Unmerged>
    ensures { answer.given result ≡ answer.answer_of most work.old h.now }
{
    if !history::bring(work, h) {
        return Err(Unmerged::Split);
    }
    if work.len() > most {
        return Err(Unmerged::Full);
    }
    history::put_in_order(work);
    Ok(History::of(work))
}

// The merge of g and h under a limit of at most 32.
fn merge_within(most: usize, g: &[u64], h: &[u64]) -> Result<History, Unmerged>
    requires { most ≤ capacity }
    ensures { answer.given result ≡ answer.merged most g.now h.now }
{
    if g.len() > most || h.len() > most {
        return Err(Unmerged::Full);
    }
    let mut work = [0u64; history::WORK];
    history::fill(&mut work, g);
    let m = g.len();
    let n = append(&mut work, m, h);
    settle(most, &mut work[..n], h)
}

// The merge of g and h, or that there is none, or that it is over the limit. A limit over 32 counts as 32. A g or h over the limit is
// answered as too long. Where h repeats a proposer and serial, so is no history, the answer may be that there is none though a common extension
// exists.
pub fn merge(limit: u8, g: &[u64], h: &[u64]) -> Result<History, Unmerged>
    ensures { answer.given result ≡ answer.merged (min limit capacity) g.now h.now }
{
    merge_within((limit as usize).min(words::CAPACITY), g, h)
}
