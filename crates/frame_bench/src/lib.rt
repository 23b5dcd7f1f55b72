// What the benchmark calls from C: `frame::read` and `frame::write` over plain values. It is linked into the benchmark alone.
#![tactic(auto)]

ghost use Rattle.std.specs.Prelude.{◌≡◌};
ghost use Rattle.words.specs.Sizes.{limit};
ghost use Rattle.frame.specs.Format.{blank, reading_of, written_length, written};
ghost use Rattle.frame_bench.specs.Flat.{flat_of, flat_with, framed};

use frame::Frame;
use roster::{Ballot, View};

// A frame as C lays it out, and whether there is one.
#[repr(C)]
#[derive(Clone, Copy)]
pub struct Flat {
    pub found: u8,
    pub kind: u8,
    pub sender: u8,
    pub n: u8,
    pub m: u8,
    pub mask: u16,
    pub view: u32,
    pub ballot: u32,
    pub proven_ballot: u32,
    pub words: [u64; frame::CAPACITY],
}

// A frame, flat, with the number that says whether there is one.
fn flattened(found: u8, f: Frame) -> Flat
    ensures { result ≡ flat_with found f }
{
    let words = f.words;
    Flat {
        found,
        kind: f.kind,
        sender: f.sender,
        n: f.n,
        m: f.m,
        mask: f.mask,
        view: f.view.0,
        ballot: f.ballot.0,
        proven_ballot: f.proven_ballot.0,
        words,
    }
}

// The frame that is all 0.
fn blank() -> Frame
    ensures { result ≡ blank }
{
    Frame {
        kind: 0,
        sender: 0,
        view: View(0),
        ballot: Ballot(0),
        proven_ballot: Ballot(0),
        mask: 0,
        n: 0,
        m: 0,
        words: [0; frame::CAPACITY],
    }
}

// The frame of a line.
#[unsafe(no_mangle)]
pub extern "C" fn frame_bench_read(line: &[u8], kinds: u16) -> Flat
    ensures { result ≡ flat_of (reading_of limit line.now kinds) }
{
    match frame::read(words::LIMIT, line, kinds) {
        Some(f) => flattened(1, f),
        None => flattened(0, blank()),
    }
}

// The line of a frame.
#[unsafe(no_mangle)]
pub extern "C" fn frame_bench_write(flat: Flat, out: &mut [u8]) -> usize
    ensures { (result ≡ written_length (framed flat) out.old) × (out.new ≡ written (framed flat) out.old) }
{
    let words = flat.words;
    let f = Frame {
        kind: flat.kind,
        sender: flat.sender,
        view: View(flat.view),
        ballot: Ballot(flat.ballot),
        proven_ballot: Ballot(flat.proven_ballot),
        mask: flat.mask,
        n: flat.n,
        m: flat.m,
        words,
    };
    frame::write(f, out)
}
