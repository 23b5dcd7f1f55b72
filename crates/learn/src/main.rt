// A learner over lines from standard input, which `transcript` answers. The first line is N and f, two hex bytes; each later line gets a line with
// the answer and the supporters. When the input pauses or ends, all answers so far are written.
#![tactic(auto)]

ghost use Rattle.std.specs.Prelude.{◌≡◌, ◌*◌, ◌≤◌, length};
ghost use Rattle.lines.specs.Lines.{longest_answer};
ghost use Rattle.transcript.specs.Stream as spec;

use std::io::Read;
use transcript::{Fed, Stream};

// How many bytes are read at a time at most: few, since the room for their answers is for one to each byte.
const CHUNK: usize = 8_192;

const ROOM: usize = lines::LONGEST_ANSWER * CHUNK;

// How many bytes of a line are kept: one more than the longest line has.
const KEPT: usize = frame::LONGEST + 1;

// Says on standard error which call failed.
fn complain(rt: &impl Eprint, call: &str) {
    let _ = eprintln!(rt; "{call} failed");
}

// Writes bytes to standard output, and answers whether that went well.
fn write(rt: &(impl Print + Eprint), bytes: &[u8]) -> bool {
    match rt.write_all(bytes) {
        Ok(()) => true,
        Err(_) => {
            complain(rt, "write");
            false
        }
    }
}

// The stream after all bytes of a read, with their answers at the front of the output.
fn answer(s: Stream, bytes: &[u8], line: &mut [u8], out: &mut [u8]) -> Fed
    requires { longest_answer * length bytes.now ≤ length out.old }
    ensures fed { spec.feed_outcome result line.new out.new ≡ spec.feed s line.old out.old 0 bytes.now 0 }
    ensures whole { length bytes.now ≤ result.next }
{
    transcript::feed(s, bytes, 0, line, out, 0)
}

// Answers the input until it is over, and then its unfinished line; stops where a write fails. A proved loop has to end, and nothing says that the
// input does. So the loop counts its turns, up to a number that no run reaches.
fn run(
    rt: &(impl Print + Eprint),
    source: &mut impl Read,
    input: &mut [u8; CHUNK],
    line: &mut [u8; KEPT],
    out: &mut [u8; ROOM],
) {
    let mut s = Stream::fresh();
    for _ in 0..u64::MAX {
        let n = match source.read(input) {
            Ok(0) => break,
            Ok(n) => n,
            Err(_) => {
                complain(rt, "read");
                break;
            }
        };
        let fed = answer(s, &input[..n], line, out);
        s = fed.stream;
        if !write(rt, words::first(out, fed.used)) {
            return;
        }
    }
    let n = transcript::finish(s, line, out, 0);
    write(rt, words::first(out, n));
}

fn main(rt: HostRuntime) {
    let mut input = [0u8; CHUNK];
    let mut line = [0u8; KEPT];
    let mut out = [0u8; ROOM];
    run(&rt, &mut rt.stdin(), &mut input, &mut line, &mut out);
}
