// The leader: it collects commands, opens ballots, and proposes a history of the reports that a quorum of sites sends it.
#![tactic(auto)]

mod opening;
mod report;
mod request;
mod view;

ghost use Rattle.std.specs.Prelude.{◌≡◌};
ghost use Rattle.site.specs.Reply as reply;
ghost use Rattle.leader.specs.Leader as spec;

use history::History;
use refusal::Refusal;
use roster::{Ballot, Roster, View};
use table::Table;

// What a leader keeps.
#[repr(C)]
#[derive(Clone, Copy)]
pub struct State {
    // The last view that it took; 0 at first.
    pub view: View,
    // The last ballot that it opened.
    pub ballot: Ballot,
    // Not 0 while a classic ballot is open.
    pub classic: u8,
    // The pending commands, in the order they came.
    pub pending: History,
    // The sites that reported in this ballot, and the histories of their reports: what is proven and what is held.
    pub reported: u16,
    pub proven: Table,
    pub held: Table,
}

// The kinds of frames that a leader takes, as a set of kinds.
const TAKEN: u16 = 1 << frame::P1B | 1 << frame::PROPOSE | 1 << frame::LEADER;

// Whether pending commands may be lent: no more than the limit, valid, no proposer and serial twice. Their order is free.
#[tactic(auto, unfolding(crate::specs::Leader::valid_pending))]
fn pending_valid(limit: u8, pending: &History) -> bool
    ensures { result ≡ spec.valid_pending limit pending.now }
{
    let h = pending.commands();
    pending.count <= limit && command::all_valid(h) && !history::repeated(h)
}

// Whether the roster, the own number, the room or the state is one that no call takes.
#[tactic(auto, unfolding(crate::specs::Leader::config))]
fn unfit(r: Roster, own: u8, room: usize, s: &State) -> bool
    ensures { result ≡ spec.config r own room s.now }
{
    !(site::seated(r, own, room)
        && pending_valid(words::LIMIT, &s.pending)
        && !roster::beyond(s.reported, r.n)
        && s.proven.is_valid(words::LIMIT, r.n)
        && s.held.is_valid(words::LIMIT, r.n))
}

// One step in place: how many bytes of the buffer are to be sent, or a refusal, which changes nothing. Any line is answered in any state.
pub fn step_in_place(
    r: Roster,
    own: u8,
    s: &mut State,
    line: &[u8],
    out: &mut [u8],
) -> Result<usize, Refusal>
    ensures { (reply.outcome result s.new ≡ spec.returned r own s.old line.now out.old) × (out.new ≡ spec.output r own s.old line.now out.old) }
{
    let mut carried = [0u64; frame::CAPACITY];
    let read = frame::read_into(words::LIMIT, line, TAKEN, &mut carried);
    if unfit(r, own, out.len(), s) {
        return Err(Refusal::Config);
    }
    let Some(head) = read else {
        return Err(Refusal::Form);
    };
    match head.kind {
        frame::P1B => report::take(r, own, s, head, &carried, out),
        frame::PROPOSE => request::take(s, head, &carried),
        _ => view::take(r, own, s, head),
    }
}

// Opens a ballot in place, classic where `fast` is 0: P1A or FAST goes out, and reports are forgotten; pending stays. Answers how many bytes of
// the buffer are to be sent, or a refusal, which changes nothing. Any ballot is answered in any state.
pub fn open_in_place(
    r: Roster,
    own: u8,
    s: &mut State,
    ballot: Ballot,
    fast: u8,
    out: &mut [u8],
) -> Result<usize, Refusal>
    ensures { (reply.outcome result s.new ≡ spec.opening_returned r own s.old ballot fast out.old) × (out.new ≡ spec.opening_output r own s.old ballot fast out.old) }
{
    if unfit(r, own, out.len(), s) {
        return Err(Refusal::Config);
    }
    if !opening::may_open(r, own, s, ballot) {
        return Err(Refusal::Stale);
    }
    s.ballot = ballot;
    s.classic = if fast == 0 { 1 } else { 0 };
    s.reported = 0;
    s.proven.clear();
    s.held.clear();
    Ok(opening::invite(own, s.view, ballot, fast, out))
}

impl State {
    // A fresh leader: all 0 and empty.
    pub fn fresh() -> State
        ensures { result ≡ spec.fresh }
    {
        State {
            view: View(0),
            ballot: Ballot(0),
            classic: 0,
            pending: History::of(&[]),
            reported: 0,
            proven: Table::empty(),
            held: Table::empty(),
        }
    }
}
