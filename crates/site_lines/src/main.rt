// One site over lines from standard input: its view change and its acceptor, which share the view-change record, and its leader. A line
// that starts with `#` is a comment and is copied; `=` with six hex digits, N, f and the own number, starts again with a fresh site; `>`
// with a frame hands it to the leader; `+` with a P1A or a FAST is the host that opens the ballot of that frame; any other line is a frame
// for the view change or the acceptor. All but the first two get a line with the answer and, where a frame is sent, a blank and that frame.
#![tactic(auto)]

use acceptor::State;
use refusal::Refusal;
use roster::{Ballot, Roster};
use site::ViewRecord;
use std::io;
use std::io::Read;

const LINE_FEED: u8 = 10;

// The kinds that open a ballot, as a set of kinds.
const OPENING: u16 = 1 << frame::P1A | 1 << frame::FAST;

// How many bytes are read at a time at most.
const CHUNK: usize = 65_536;

// How many bytes of a line are kept: one more than the longest line has.
const KEPT: usize = frame::LONGEST + 1;

// What a site is and keeps: roster, own number, view-change record, and the states of acceptor and leader.
#[derive(Clone, Copy)]
struct Site {
    roster: Roster,
    own: u8,
    views: ViewRecord,
    state: State,
    leading: leader::State,
}

// What stands between two reads of the input: the site, and how many bytes are kept of the line that arrives.
#[derive(Clone, Copy)]
struct Stream {
    site: Site,
    len: usize,
}

// Writes bytes to standard output.
fn put(rt: &impl Print, bytes: &[u8]) -> io::Result<()> {
    rt.write_all(bytes)
}

// Writes the answer's number and what is sent of the buffer, which ends with a line feed.
fn say(rt: &impl Print, answer: Result<usize, Refusal>, out: &[u8]) -> io::Result<()> {
    rt.print(refusal::number(answer.map(|_| ())))?;
    match answer {
        Ok(0) | Err(_) => put(rt, b"\n"),
        Ok(sent) => {
            put(rt, b" ")?;
            put(rt, words::first(out, sent))
        }
    }
}

// A fresh site.
fn fresh(roster: Roster, own: u8) -> Site {
    Site {
        roster,
        own,
        views: ViewRecord::fresh(),
        state: State::fresh(),
        leading: leader::State::fresh(),
    }
}

// The fresh site of a line `=NNffoo`; a bad line counts as N=0, and a bad own number as 0.
fn restart(line: &[u8]) -> Site {
    match line {
        [_, a, b, c, d, e, f, end] => {
            let own = lines::roster_of(&[*e, *f, b'0', b'0', *end]);
            fresh(lines::roster_of(&[*a, *b, *c, *d, *end]), own.n)
        }
        _ => fresh(Roster { n: 0, f: 0 }, 0),
    }
}

// Whether a line is for the view change: its kind is SUSPICION, VIEWCHANGE or LEADER.
fn for_view_change(line: &[u8]) -> bool {
    matches!(line, [b'0', b'8' | b'9' | b'a', ..])
}

// A line for the view change.
fn change(rt: &impl Print, s: &mut Site, line: &[u8], out: &mut [u8]) -> io::Result<()> {
    let o = viewchange::step(s.roster, s.own, s.views, line, out);
    s.views = o.views;
    say(rt, o.answer, out)
}

// A line for the acceptor.
fn accept(rt: &impl Print, s: &mut Site, line: &[u8], out: &mut [u8]) -> io::Result<()> {
    let views = s.views;
    let answer = acceptor::step_in_place(s.roster, s.own, views, &mut s.state, line, out);
    say(rt, answer, out)
}

// A line for the leader.
fn hear_leader(rt: &impl Print, s: &mut Site, line: &[u8], out: &mut [u8]) -> io::Result<()> {
    let answer = leader::step_in_place(s.roster, s.own, &mut s.leading, line, out);
    say(rt, answer, out)
}

// The host opens the ballot of a P1A or a FAST; a line that is neither counts as ballot 0.
fn open_ballot(rt: &impl Print, s: &mut Site, line: &[u8], out: &mut [u8]) -> io::Result<()> {
    let (ballot, fast) = match frame::read(words::LIMIT, line, OPENING) {
        Some(m) => (m.ballot, u8::from(m.kind == frame::FAST)),
        None => (Ballot(0), 0),
    };
    let answer = leader::open_in_place(s.roster, s.own, &mut s.leading, ballot, fast, out);
    say(rt, answer, out)
}

// Hands a line to the site.
fn hear(rt: &impl Print, s: &mut Site, line: &[u8], out: &mut [u8]) -> io::Result<()> {
    match line {
        [] => Ok(()),
        [b'#', ..] => put(rt, line),
        [b'=', ..] => {
            *s = restart(line);
            Ok(())
        }
        [b'>', rest @ ..] => hear_leader(rt, s, rest, out),
        [b'+', rest @ ..] => open_ballot(rt, s, rest, out),
        _ if for_view_change(line) => change(rt, s, line, out),
        _ => accept(rt, s, line, out),
    }
}

// Hands the lines of some bytes to the site.
fn chunk(
    rt: &impl Print,
    s: &mut Stream,
    bytes: &[u8],
    line: &mut [u8],
    out: &mut [u8],
) -> io::Result<()> {
    for b in bytes {
        s.len = lines::push(line, s.len, *b);
        if *b == LINE_FEED {
            hear(rt, &mut s.site, words::first(line, s.len), out)?;
            s.len = 0;
        }
    }
    Ok(())
}

// Hands on the whole input. A proved loop has to end, and nothing says that the input does. So the loop counts its turns, up to a number that no run
// reaches.
fn run(
    rt: &impl Print,
    s: &mut Stream,
    source: &mut impl Read,
    input: &mut [u8],
    line: &mut [u8],
    out: &mut [u8],
) -> io::Result<()> {
    for _ in 0..u64::MAX {
        let n = source.read(input)?;
        if n == 0 {
            break;
        }
        chunk(rt, s, &input[..n], line, out)?;
    }
    Ok(())
}

// The bytes after the last line feed, if there are any, are handed in too; they are no line.
fn main(rt: HostRuntime) -> io::Result<()> {
    let mut input = [0u8; CHUNK];
    let mut line = [0u8; KEPT];
    let mut out = [0u8; frame::LONGEST];
    let mut s = Stream {
        site: fresh(Roster { n: 0, f: 0 }, 0),
        len: 0,
    };
    run(
        &rt,
        &mut s,
        &mut rt.stdin(),
        &mut input,
        &mut line,
        &mut out,
    )?;
    hear(&rt, &mut s.site, words::first(&line, s.len), &mut out)
}
