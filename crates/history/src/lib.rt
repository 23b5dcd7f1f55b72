// Histories: the test for a repeated proposer and serial, canonical order, and extension.
#![tactic(auto)]

ghost use Rattle.std.specs.Prelude.{◌≡◌, min, true, ◌≤◌, ◌<◌, length, take, get_or};
ghost use Rattle.history.specs.History as spec;
ghost use Rattle.history.specs.Code.Insertion as insertion;
ghost use Rattle.history.specs.Front as front;
ghost use Rattle.history.specs.Words.{history_of, valid_stored};
ghost use Rattle.history.specs.Words as words;
ghost use Rattle.history.specs.Code.Marks as marks;

pub use words::{fill, first, same};

// How many marks the test for a repeated proposer and serial has, and up to how many commands it does without them.
const MARKS: usize = 256;

const FEW: usize = 4;

// A history by value: the first `count` words. The words after them mean nothing.
#[repr(C)]
#[derive(Clone, Copy)]
pub struct History {
    pub count: u8,
    pub words: [u64; words::CAPACITY],
}

// Whether some command of h has c's proposer and serial.
pub fn present(c: u64, h: &[u64]) -> bool
    ensures { result ≡ spec.present c h.now }
{
    for &d in h {
        if command::same_request(c, d) {
            return true;
        }
    }
    false
}

// The number of c's mark: one for all commands of a proposer and serial.
fn mark(c: u64) -> usize
    ensures { result ≡ marks.mark c }
{
    (command::serial(c) as usize + 157 * command::proposer(c) as usize) % MARKS
}

// Whether some command of h has c's proposer and serial, where the marks of all commands of h are set.
#[tactic(auto, using(crate::proofs::Marks::unmarked_absent))]
fn met(c: u64, h: &[u64], seen: &[bool; MARKS]) -> bool
    requires { marks.marked seen.now h.now ≡ true }
    ensures { result ≡ spec.present c h.now }
{
    seen[mark(c)] && present(c, h)
}

// `repeated` by marks, from the last command to the first: only a command whose mark is set is compared with those after it.
fn repeated_by_marks(h: &[u64]) -> bool
    ensures { result ≡ spec.repeated h.now }
{
    let mut seen = [false; MARKS];
    for i in (0..h.len()).rev() {
        let c = h[i];
        if met(c, &h[i + 1..], &seen) {
            return true;
        }
        seen[mark(c)] = true;
    }
    false
}

// `repeated` by comparing each command with those after it.
fn repeated_by_pairs(h: &[u64]) -> bool
    ensures { result ≡ spec.repeated h.now }
{
    (0..h.len()).any(|i| present(h[i], &h[i + 1..]))
}

// Whether two commands of h have one proposer and serial. Of a few commands each two are compared, which is quicker than clearing the marks.
pub fn repeated(h: &[u64]) -> bool
    ensures { result ≡ spec.repeated h.now }
{
    if h.len() <= FEW {
        repeated_by_pairs(h)
    } else {
        repeated_by_marks(h)
    }
}

// Whether h is a valid history: valid commands, no proposer and serial twice, canonical order. This is what CONFIG asks besides the length;
// a frame's history is tested by the three tests apart, since their refusals differ.
#[tactic(auto, unfolding(crate::specs::History::valid_history))]
pub fn valid(h: &[u64]) -> bool
    ensures { result ≡ spec.valid_history h.now }
{
    command::all_valid(h) && !repeated(h) && is_canonical(h)
}

// Whether the history of these words and this count may be lent: at most as many commands as the limit says, and valid.
#[tactic(auto, unfolding(crate::specs::Words::valid_stored))]
pub fn lendable(limit: u8, words: &[u64], count: u8) -> bool
    ensures { result ≡ valid_stored limit (history_of words.now count) }
{
    count <= limit && valid(first(words, count as usize))
}

// Whether a list that a frame carries is refused with HISTORY: a proposer and serial twice, not in canonical order, or empty.
#[tactic(auto, unfolding(crate::specs::History::improper))]
pub fn improper(h: &[u64]) -> bool
    ensures { result ≡ spec.improper h.now }
{
    repeated(h) || !is_canonical(h) || h.is_empty()
}

// The place of the command at n among those before it, found by walking left until one conflicts.
fn place(h: &[u64], n: usize) -> usize
    requires { n < length h.now }
    ensures { (result ≤ n) × (result ≡ insertion.place (get_or h.now n 0) (take n h.now)) }
{
    let c = h[n];
    let mut at = n;
    for k in (0..n).rev() {
        let d = h[k];
        if command::conflict(c, d) {
            break;
        }
        if c < d {
            at = k;
        }
    }
    at
}

// `place` where no command before n is over `largest`: a command at least as large stays.
fn place_below(h: &[u64], n: usize, largest: u64) -> usize
    requires { (n < length h.now) × (insertion.Bounded largest (take n h.now)) }
    ensures { (result ≤ n) × (result ≡ insertion.place (get_or h.now n 0) (take n h.now)) }
{
    if largest <= h[n] { n } else { place(h, n) }
}

// Whether h is in canonical order: whether each command has its place where it stands.
pub fn is_canonical(h: &[u64]) -> bool
    ensures { result ≡ spec.is_canonical h.now }
{
    let mut largest: u64 = 0;
    for (i, &c) in h.iter().enumerate() {
        if place_below(h, i, largest) != i {
            return false;
        }
        largest = largest.max(c);
    }
    true
}

// The last command of s goes before the others.
fn rotate(s: &mut [u64])
    ensures { s.new ≡ front.rotated s.old }
{
    let mut carry = s.last().copied().unwrap_or(0);
    for d in s.iter_mut() {
        std::mem::swap(d, &mut carry);
    }
}

// Puts h in canonical order.
pub fn put_in_order(h: &mut [u64])
    ensures { h.new ≡ spec.canonical h.old }
{
    let mut largest: u64 = 0;
    for i in 0..h.len() {
        let at = place_below(h, i, largest);
        largest = largest.max(h[i]);
        rotate(&mut h[at..i + 1]);
    }
}

// Where c stands in h with no conflicting command before it; h's length where it does not.
fn find(c: u64, h: &[u64]) -> usize
    ensures { result ≡ front.off_at c h.now }
{
    for i in 0..h.len() {
        if c == h[i] {
            return i;
        }
        if command::conflict(c, h[i]) {
            break;
        }
    }
    h.len()
}

// Brings g's commands to the front of work, and says whether all of them came: whether work extends g.
pub fn bring(work: &mut [u64], g: &[u64]) -> bool
    ensures { (result ≡ spec.extends work.old g.now) × (work.new ≡ front.fronted work.old g.now) }
{
    for i in 0..g.len() {
        let at = i + find(g[i], &work[i..]);
        if work.len() <= at {
            return false;
        }
        rotate(&mut work[i..at + 1]);
    }
    true
}

// The most commands of an extension that is tested: a union of two histories.
pub const WORK: usize = 2 * words::CAPACITY;

// Whether h extends g, tried on a copy of h.
fn extends_in(work: &mut [u64], h: &[u64], g: &[u64]) -> bool
    requires { length work.old ≡ length h.now }
    ensures { result ≡ spec.extends h.now g.now }
{
    fill(work, h);
    bring(work, g)
}

// Whether h extends g, where the first k commands of both are the same.
fn extends_past(h: &[u64], g: &[u64], k: usize) -> bool
    requires { (length h.now ≤ words.union_capacity) × (k ≤ length h.now) × (k ≤ length g.now) × (take k h.now ≡ take k g.now) }
    ensures { result ≡ spec.extends h.now g.now }
{
    let n = h.len() - k;
    let mut work = [0u64; WORK];
    extends_in(&mut work[..n], &h[k..], &g[k..])
}

// Whether h extends g, of an h that a union of two histories can be; a longer one extends nothing here.
pub fn extends(h: &[u64], g: &[u64]) -> bool
    ensures { result ≡ words.extends_within words.union_capacity h.now g.now }
{
    if h.len() > WORK || h.len() < g.len() {
        return false;
    }
    let k = words::common(h, g);
    k == g.len() || extends_past(h, g, k)
}

// How many commands of h there is room for.
fn count_of(h: &[u64]) -> u8
    ensures { result ≡ min (length h.now) words.capacity }
{
    h.len().min(words::CAPACITY) as u8
}

impl History {
    // The first commands of h, as many as there is room for, and zeros after them.
    pub fn of(h: &[u64]) -> History
        ensures { result ≡ words.stored h.now }
    {
        let mut words = [0u64; words::CAPACITY];
        fill(&mut words, h);
        History {
            count: count_of(h),
            words,
        }
    }

    // The commands: the first `count` words, or all of them if there are fewer.
    pub fn commands(&self) -> &[u64]
        ensures { result.now ≡ words.commands self.now }
    {
        first(&self.words, self.count as usize)
    }

    // Whether it may be lent: at most as many commands as the limit says, and valid.
    pub fn is_valid(&self, limit: u8) -> bool
        ensures { result ≡ valid_stored limit self.now }
    {
        lendable(limit, &self.words, self.count)
    }

    // Makes h the history, as much of it as there is room for, and leaves zeros after it.
    pub fn set(&mut self, h: &[u64])
        ensures { self.new ≡ words.stored h.now }
    {
        fill(&mut self.words, h);
        self.count = count_of(h);
    }
}
