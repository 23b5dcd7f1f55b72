// The learner: it stores each site's votes, and learns a history that a quorum of sites stand behind.
#![tactic(auto)]

ghost use Rattle.std.specs.Prelude.{cond, [], ◌∷◌, ◌≡◌, ◌≤◌, leb, length};
ghost use Rattle.roster.specs.Roster.{quorum};
ghost use Rattle.roster.specs.Sites.{count_to};
ghost use Rattle.history.specs.Words.{union_capacity, history_of};
ghost use Rattle.table.specs.TableLaws.{Sized};
ghost use Rattle.refusal.specs.Rules.{answer};
ghost use Rattle.frame.specs.Format.{frame_with, reading_with};
ghost use Rattle.merge.specs.Merged.{given};
ghost use Rattle.learner.specs.Learner as spec;
ghost use Rattle.learner.specs.Code.Vote as code;

use frame::Heading;
use history::History;
use merge::Unmerged;
use refusal::{Answer, Refusal, given};
use roster::Roster;
use table::Table;

// One stored history a site, and what is learned.
#[repr(C)]
#[derive(Clone, Copy)]
pub struct State {
    pub entries: Table,
    pub learned: History,
}

// The answer to a line, the number of supporters of the arrived history, and the state after it.
#[derive(Clone, Copy)]
pub struct Outcome {
    pub answer: Answer,
    pub supporters: u8,
    pub state: State,
}

// The one kind that a learner takes, P2B, as a set of kinds.
const TAKEN: u16 = 1 << frame::P2B;

// Whether the roster or the state is one that no step takes.
#[tactic(auto, unfolding(crate::specs::Learner::config))]
fn unfit(r: Roster, s: &State) -> bool
    ensures config { result ≡ spec.config r s.now }
    ensures sized { Sized s.now.entries }
{
    let entries = s.entries.is_valid(words::LIMIT, r.n);
    !(r.valid() && (entries && s.learned.is_valid(words::LIMIT)))
}

// The answer to the heading of a vote.
fn vote_heading(r: Roster, head: Heading) -> Answer
    ensures { result ≡ answer (spec.vote_heading r (frame_with head [])) }
{
    let unknown = r.n <= head.sender;
    let stale = head.ballot.is_zero();
    let unproven = roster::unproven(head.mask, r.n, r.quorum());
    given(
        unknown,
        Refusal::Sender,
        given(
            stale,
            Refusal::Stale,
            given(unproven, Refusal::Proof, Ok(())),
        ),
    )
}

// The answer to a vote for h, up to its merge: the heading, then the commands, then the sender's entry.
fn check_vote(r: Roster, entry: &[u64], head: Heading, h: &[u64]) -> Answer
    requires { (length entry.now ≤ union_capacity) × (length h.now ≤ union_capacity) }
    ensures { result ≡ answer (spec.vote_rules r entry.now (frame_with head []) h.now) }
{
    vote_heading(r, head)?;
    content::ordered(h)?;
    let clash = content::contradicts(entry, h);
    given(clash, Refusal::Contradiction, Ok(()))
}

// Whether site i stands behind h once `site` has voted for it.
fn stands(entries: &Table, site: u8, h: &[u64], i: u8) -> bool
    ensures { result ≡ code.stands entries.now.words entries.now.counts site h.now i }
{
    i == site || history::extends(entries.row(i as usize), h)
}

// How many of the first n sites stand behind h once `site` has voted for it.
fn supporters(entries: &Table, n: u8, site: u8, h: &[u64]) -> u8
    ensures { result ≡ count_to n (code.stands entries.now.words entries.now.counts site h.now) }
{
    let mut count: u8 = 0;
    for i in 0..n {
        if stands(entries, site, h, i) {
            count += 1;
        }
    }
    count
}

// The merge of what is learned and the claims: of h, if its k supporters are N-f or more.
fn merge_claims(r: Roster, k: u8, learned: &History, h: &[u64]) -> Result<History, Unmerged>
    ensures { given result ≡ spec.merging learned.now (cond (leb (quorum r) k) (h.now ∷ []) []) }
{
    if r.quorum() <= k as u32 {
        return merge::merge(words::LIMIT, learned.commands(), h);
    }
    Ok(*learned)
}

// The refusal of a vote whose claim has no merge.
fn refusal_of(unmerged: Unmerged) -> Refusal
    ensures { result ≡ code.refusal_of unmerged }
{
    match unmerged {
        Unmerged::Split => Refusal::Split,
        Unmerged::Full => Refusal::Full,
    }
}

// Stores h as the entry of a site, if it extends the one that is there: of two histories of which one extends the other, that is the longer.
fn store(entries: &mut Table, site: u8, h: &[u64])
    requires { code.Passed entries.old.words entries.old.counts site h.now }
    ensures { entries.new ≡ spec.with_vote entries.old site h.now }
{
    if entries.row(site as usize).len() <= h.len() {
        entries.store(site as usize, h);
    }
}

// Takes a vote of a site for h that passed the checks up to its merge: SPLIT and FULL, and then the effect. Answers the supporters.
fn conclude(r: Roster, s: &mut State, site: u8, h: &[u64]) -> Result<u8, Refusal>
    requires passed { code.Passed s.old.entries.words s.old.entries.counts site h.now }
    requires sized { Sized s.old.entries }
    ensures { spec.outcome result s.new ≡ code.concluded r s.old site h.now }
{
    let k = supporters(&s.entries, r.n, site, h);
    s.learned = match merge_claims(r, k, &s.learned, h) {
        Ok(merged) => merged,
        Err(unmerged) => return Err(refusal_of(unmerged)),
    };
    store(&mut s.entries, site, h);
    Ok(k)
}

// One step in place: the supporters of the arrived history, or why the line is refused; then the state stays. Any line is answered in any state.
pub fn step_in_place(r: Roster, s: &mut State, line: &[u8]) -> Result<u8, Refusal>
    ensures { spec.outcome result s.new ≡ spec.step r s.old line.now }
{
    let mut carried = [0u64; frame::CAPACITY];
    let read = frame::read_into(words::LIMIT, line, TAKEN, &mut carried);
    if unfit(r, s) {
        return Err(Refusal::Config);
    }
    let Some(head) = read else {
        return Err(Refusal::Form);
    };
    let h = history::first(&carried, head.n as usize);
    check_vote(r, s.entries.row(head.sender as usize), head, h)?;
    conclude(r, s, head.sender, h)
}

// One step by value: the answer to a line, its supporters, and the state after it. Any line is answered in any state.
pub fn step(r: Roster, s: State, line: &[u8]) -> Outcome
    ensures { result ≡ spec.step r s line.now }
{
    let mut state = s;
    match step_in_place(r, &mut state, line) {
        Ok(supporters) => Outcome {
            answer: Ok(()),
            supporters,
            state,
        },
        Err(refusal) => Outcome {
            answer: Err(refusal),
            supporters: 0,
            state,
        },
    }
}

impl State {
    // A fresh learner: nothing stored, nothing learned.
    pub fn fresh() -> State
        ensures { result ≡ spec.fresh }
    {
        let none: [u64; 0] = [];
        State {
            entries: Table::empty(),
            learned: History::of(&none),
        }
    }
}
