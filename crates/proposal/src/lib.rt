// The leader's proposal: the longest of the proven histories that were reported, and after it the held ones and what is pending.
#![tactic(auto)]

ghost use Rattle.std.specs.Prelude.{◌≡◌, min, ◌≤◌, length, take};
ghost use Rattle.history.specs.Words.{capacity, stored};
ghost use Rattle.proposal.specs.Proposal as spec;
ghost use Rattle.proposal.specs.Code.Work.{Begins};

use history::History;
use table::Rows;

// The history of a site's report, as the part of the words that it is; an empty part where the site has not reported.
fn report<'a>(rows: Rows<'a>, reported: u16, site: u8) -> &'a [u64]
    ensures { result.now ≡ spec.report rows.entry.words.now rows.entry.counts.now reported site }
{
    if roster::contains(reported, site) {
        rows.row(site as usize)
    } else {
        &[]
    }
}

// The longer of two reports' histories, the first of two equally long ones.
fn longer<'a>(g: &'a [u64], h: &'a [u64]) -> &'a [u64]
    ensures { result.now ≡ spec.longer g.now h.now }
{
    if g.len() < h.len() { h } else { g }
}

// The longest history that the sites below n reported, of equals the lowest site's, as the part of the words that it is.
fn longest<'a>(rows: Rows<'a>, reported: u16, n: u8) -> &'a [u64]
    ensures { result.now ≡ spec.longest_to n (spec.report rows.entry.words.now rows.entry.counts.now reported) }
{
    let mut best: &'a [u64] = &[];
    for i in 0..n {
        best = longer(best, report(rows, reported, i));
    }
    best
}

// Appends to the first `count` words of work the histories that the sites below n reported, by rising site, up to the end of work. Answers how
// many words there are then.
fn gather(work: &mut [u64], count: usize, rows: Rows, reported: u16, n: u8) -> usize
    requires { count ≤ length work.old }
    ensures { Begins (length work.old) work.new result (spec.filled_to (length work.old) n (spec.report rows.entry.words.now rows.entry.counts.now reported) (take count work.old)) }
{
    let mut len = count;
    for site in 0..n {
        len = merge::append(work, len, report(rows, reported, site));
    }
    len
}

// Puts into work, up to its end, g, then the histories that the sites below n hold, by rising site, then what is pending. Answers how many words
// there are then.
fn assemble(work: &mut [u64], g: &[u64], held: Rows, reported: u16, n: u8, pending: &[u64]) -> usize
    ensures { Begins (length work.old) work.new result (spec.filled (length work.old) (spec.filled_to (length work.old) n (spec.report held.entry.words.now held.entry.counts.now reported) g.now) pending.now) }
{
    let front = history::first(g, work.len());
    history::fill(work, front);
    let some = gather(work, front.len(), held, reported, n);
    merge::append(work, some, pending)
}

// The proposal of n sites' reports, of which these have come, and of what is pending, under a limit; one over 32 counts as 32.
pub fn propose(
    limit: u8,
    proven: Rows,
    held: Rows,
    reported: u16,
    n: u8,
    pending: &[u64],
) -> History
    ensures { result ≡ stored (spec.proposal (min limit capacity) n (spec.report proven.entry.words.now proven.entry.counts.now reported) (spec.report held.entry.words.now held.entry.counts.now reported) pending.now) }
{
    let most = (limit as usize).min(words::CAPACITY);
    let best = longest(proven, reported, n);
    let mut work = [0u64; words::CAPACITY];
    let all = assemble(&mut work[..most], best, held, reported, n, pending);
    history::put_in_order(&mut work[..all]);
    History::of(&work[..all])
}

// Writes to the front of dst the commands of `pending`, in their order, that h does not hold, as many as there is room for. Answers how many.
fn keep(dst: &mut [u64], pending: &[u64], h: &[u64]) -> usize
    ensures { (result ≤ length dst.new) × (take result dst.new ≡ take (length dst.old) (spec.remaining pending.now h.now)) }
{
    let mut n: usize = 0;
    for &c in pending {
        if dst.len() <= n {
            break;
        }
        if !merge::holds(h, c) {
            dst[n] = c;
            n += 1;
        }
    }
    n
}

// The commands of `pending`, in their order, that h does not hold; as many as there is room for.
pub fn remaining(pending: &[u64], h: &[u64]) -> History
    ensures { result ≡ stored (spec.remaining pending.now h.now) }
{
    let mut work = [0u64; words::CAPACITY];
    let n = keep(&mut work, pending, h);
    History::of(&work[..n])
}
