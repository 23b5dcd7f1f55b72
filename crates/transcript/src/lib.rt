// The run of a learner over bytes that arrive in any pieces: the first line is the roster, and each later line is answered by a line of text.
#![tactic(auto)]

ghost use Rattle.std.specs.Prelude.{◌≡◌, ◌-◌, length};
ghost use Rattle.learner.specs.Learner.{step};
ghost use Rattle.lines.specs.Lines.{kept, kept_length};
ghost use Rattle.transcript.specs.Transcript.{said};
ghost use Rattle.transcript.specs.Stream as spec;

use learner::State;
use roster::Roster;

// What stands between two pieces of the input: the roster and the learner's state, whether the first line has ended, and how many bytes are
// kept of the line that arrives.
#[derive(Clone, Copy)]
pub struct Stream {
    pub roster: Roster,
    pub state: State,
    pub started: bool,
    pub len: usize,
}

// The stream after bytes of input, where the bytes start that were not taken, and how many bytes of the output are in use.
#[derive(Clone, Copy)]
pub struct Fed {
    pub stream: Stream,
    pub next: usize,
    pub used: usize,
}

impl Stream {
    // The stream before any input.
    pub fn fresh() -> Stream
        ensures { result ≡ spec.fresh }
    {
        Stream {
            roster: Roster { n: 0, f: 0 },
            state: State::fresh(),
            started: false,
            len: 0,
        }
    }
}

// Makes a step on a line, puts its answer behind the first `used` bytes of the output, and answers how many are in use then.
fn answer(r: Roster, state: &mut State, line: &[u8], out: &mut [u8], used: usize) -> usize
    ensures state { state.new ≡ (step r state.old line.now).state }
    ensures used { result ≡ kept_length out.old used (said (step r state.old line.now)) }
    ensures out { out.new ≡ kept out.old used (said (step r state.old line.now)) }
{
    let outcome = learner::step_in_place(r, state, line);
    let number = refusal::number(outcome.map(|_| ()));
    lines::put_answer(out, used, number, outcome.unwrap_or(0))
}

// Whether there is room for the longest answer behind the first `used` bytes.
#[tactic(auto, unfolding(crate::specs::Stream::has_room))]
fn has_room(out: &[u8], used: usize) -> bool
    ensures { result ≡ spec.has_room (length out.now - used) }
{
    lines::LONGEST_ANSWER <= lines::room(out, used)
}

// Takes the bytes from `from` on, as long as the output has room for the longest answer behind the first `used` bytes, and puts the answers there.
// The line that arrives is kept in `line`, as much of it as there is room for.
pub fn feed(
    s: Stream,
    bytes: &[u8],
    from: usize,
    line: &mut [u8],
    out: &mut [u8],
    used: usize,
) -> Fed
    ensures { spec.feed_outcome result line.new out.new ≡ spec.feed s line.old out.old used bytes.now from }
{
    let mut stream = s;
    let mut next = from;
    let mut end = used;
    while next < bytes.len() && has_room(out, end) {
        let p = lines::pull(line, stream.len, bytes, next);
        next = p.next;
        stream.len = p.len;
        if p.whole {
            let arrived = words::first(line, p.len);
            if stream.started {
                end = answer(stream.roster, &mut stream.state, arrived, out, end);
            } else {
                stream.roster = lines::roster_of(arrived);
                stream.started = true;
            }
            stream.len = 0;
        }
    }
    Fed {
        stream,
        next,
        used: end,
    }
}

// Answers the unfinished line that the input ends with, if there is one after the first line, and answers how many bytes of the output are in use
// then.
pub fn finish(s: Stream, line: &[u8], out: &mut [u8], used: usize) -> usize
    ensures { (result ≡ kept_length out.old used (spec.last (spec.at s line.now))) × (out.new ≡ kept out.old used (spec.last (spec.at s line.now))) }
{
    if s.started && s.len != 0 {
        let o = learner::step(s.roster, s.state, words::first(line, s.len));
        lines::put_answer(out, used, refusal::number(o.answer), o.supporters)
    } else {
        used
    }
}
