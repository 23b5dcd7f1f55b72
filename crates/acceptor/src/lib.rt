// The acceptor: it takes ballots, holds a history, and proves one that a quorum of sites verify. Each kind of frame has a module with its checks and
// with what it does if they let it pass.
#![tactic(auto)]

mod opening;
mod order;
mod request;
mod signing;
mod verify;

ghost use Rattle.std.specs.Prelude.{◌≡◌, ◌≤◌, length, Ok};
ghost use Rattle.words.specs.Sizes.{capacity};
ghost use Rattle.refusal.specs.Rules.{answer};
ghost use Rattle.frame.specs.Format.{frame_with};
ghost use Rattle.site.specs.Reply as reply;
ghost use Rattle.acceptor.specs.Acceptor as spec;
ghost use Rattle.acceptor.specs.Code.Effects as effects;

use frame::Heading;
use history::History;
use refusal::{Answer, Refusal};
use roster::{Ballot, Roster, View};
use site::ViewRecord;
use table::Table;

// What an acceptor keeps. The view is not in it: it is the one in the view-change record.
#[repr(C)]
#[derive(Clone, Copy)]
pub struct State {
    // The present ballot.
    pub ballot: Ballot,
    // Not 0 in a fast ballot.
    pub fast: u8,
    // Not 0 if it signed in this ballot.
    pub signed: u8,
    // The held history.
    pub held: History,
    // The proven history, the ballot that it was proven in, and the mask of the sites that verified it.
    pub proven: History,
    pub proven_ballot: Ballot,
    pub certificate: u16,
    // The last VERIFY of each site in this ballot.
    pub verified: Table,
}

// The kinds that an acceptor takes, as a set of kinds.
const TAKEN: u16 = 1 << frame::P1A
    | 1 << frame::FAST
    | 1 << frame::PROPOSE
    | 1 << frame::P2A
    | 1 << frame::VERIFY;

// Whether the roster, the own number, the room, the record or the state is one that no step takes.
#[tactic(auto, unfolding(crate::specs::Acceptor::config))]
fn unfit(r: Roster, own: u8, room: usize, v: ViewRecord, s: &State) -> bool
    ensures { result ≡ spec.config r own room v s.now }
{
    !(site::seated(r, own, room)
        && v.is_valid(r.n)
        && s.held.is_valid(words::LIMIT)
        && s.proven.is_valid(words::LIMIT)
        && !roster::beyond(s.certificate, r.n)
        && s.verified.is_valid(words::LIMIT, r.n))
}

// The answer to a frame of this heading and these words, by its kind.
fn check(r: Roster, view: View, s: &State, head: Heading, words: &[u64]) -> Answer
    requires { (length (spec.held_of s.now) ≤ capacity) × (head.n ≤ capacity) }
    ensures { result ≡ answer (spec.frame_rules (spec.kind_of head.kind) r view s.now (frame_with head words.now)) }
{
    let h = history::first(words, head.n as usize);
    match head.kind {
        frame::P1A | frame::FAST => opening::check(r, view, s, head),
        frame::PROPOSE => request::check(s, head, h),
        frame::P2A => order::check(r, view, s, head, h),
        _ => verify::check(r, view, s, head, h),
    }
}

// Does what an accepted frame of this heading and these words asks for, by its kind.
fn perform(
    r: Roster,
    own: u8,
    v: ViewRecord,
    s: &mut State,
    head: Heading,
    words: &[u64],
    out: &mut [u8],
) -> usize
    requires { effects.Performable r s.old (frame_with head words.now) }
    ensures { effects.Done (spec.accepted (spec.kind_of head.kind) r own v s.old (frame_with head words.now)) out.old (reply.outcome (Ok result) s.new) out.new }
{
    let h = history::first(words, head.n as usize);
    match head.kind {
        frame::P1A => opening::perform(false, own, s, head.ballot, out),
        frame::FAST => opening::perform(true, own, s, head.ballot, out),
        frame::PROPOSE => {
            let mut all = [0u64; words::CAPACITY];
            let n = request::lengthen(&s.held, h, &mut all);
            signing::perform(own, v, s, history::first(&all, n), out)
        }
        frame::P2A => signing::perform(own, v, s, h, out),
        _ => verify::perform(r, own, s, head.sender, h, out),
    }
}

// One step in place: how many bytes of the buffer are to be sent, or why the line is refused; then the state and the buffer stay. Any line is
// answered in any state.
pub fn step_in_place(
    r: Roster,
    own: u8,
    v: ViewRecord,
    s: &mut State,
    line: &[u8],
    out: &mut [u8],
) -> Result<usize, Refusal>
    ensures { (reply.outcome result s.new ≡ spec.returned r own v s.old line.now out.old) × (out.new ≡ spec.output r own v s.old line.now out.old) }
{
    let mut carried = [0u64; frame::CAPACITY];
    let read = frame::read_into(words::LIMIT, line, TAKEN, &mut carried);
    if unfit(r, own, out.len(), v, s) {
        return Err(Refusal::Config);
    }
    let Some(head) = read else {
        return Err(Refusal::Form);
    };
    check(r, v.view, s, head, &carried)?;
    Ok(perform(r, own, v, s, head, &carried, out))
}

impl State {
    // A fresh acceptor: all 0 and empty.
    pub fn fresh() -> State
        ensures { result ≡ spec.fresh }
    {
        State {
            ballot: Ballot(0),
            fast: 0,
            signed: 0,
            held: History::of(&[]),
            proven: History::of(&[]),
            proven_ballot: Ballot(0),
            certificate: 0,
            verified: Table::empty(),
        }
    }
}
