// Lines, read and written back. Standard input is the table: a row is a name, a colon, the line's bytes, a semicolon and a line feed.
#![tactic(auto)]

ghost use Rattle.std.specs.Prelude.{◌≡◌, ◌≤◌, length, IfOk};

use std::io;
use std::io::Read;

// Every kind, and P2B alone, as sets of kinds.
const ALL: u16 = 0xffff;

const VOTES: u16 = 1 << frame::P2B;

// How much of the input is read at most.
const LONGEST_TABLE: usize = 65_536;

fn put(rt: &impl Print, text: &[u8]) -> io::Result<()> {
    rt.write_all(text)
}

// Writes whether a line is read and, where it is, whether writing gives it back.
fn show(rt: &impl Print, name: &[u8], line: &[u8], kinds: u16) -> io::Result<()> {
    put(rt, name)?;
    let Some(f) = frame::read(words::LIMIT, line, kinds) else {
        return put(rt, b": refused\n");
    };
    let mut out = [0u8; frame::LONGEST];
    let n = frame::write(f, &mut out);
    if out.starts_with(line) && n == line.len() {
        put(rt, b": read, and written back\n")
    } else {
        put(rt, b": read, and not written back\n")
    }
}

// Where the byte stands next, from a place on; the table's length where it does not.
fn find(table: &[u8], from: usize, byte: u8) -> usize
    requires { from ≤ length table.now }
    ensures { (from ≤ result) × (result ≤ length table.now) }
{
    match table[from..].iter().position(|b| *b == byte) {
        Some(k) => from + k,
        None => table.len(),
    }
}

// Shows each row of the table.
fn rows(rt: &impl Print, table: &[u8]) -> io::Result<()> {
    let mut at: usize = 0;
    while at < table.len() {
        let colon = find(table, at, b':');
        let end = find(table, colon, b';');
        if table.len() <= end {
            return Ok(());
        }
        if colon < end {
            show(rt, &table[at..colon], &table[colon + 1..end], ALL)?;
        }
        at = end + 2;
    }
    Ok(())
}

// A long input with no line, and a vote where it is and is not taken.
fn others(rt: &impl Print) -> io::Result<()> {
    let long = [b'0'; 100000];
    show(rt, b"100,000 bytes without a line feed", &long, ALL)?;
    let vote = b"0702000000000000000100000000000701000101000100070000\n";
    show(rt, b"P2B where P2B is not taken", vote, ALL - VOTES)?;
    show(rt, b"P2B where only P2B is taken", vote, VOTES)
}

// Reads until the table is full or the input ends; how many bytes came.
fn read_full(input: &mut impl Read, table: &mut [u8]) -> io::Result<usize>
    ensures { IfOk result (λ n. n ≤ length table.new) }
{
    let mut at: usize = 0;
    while at < table.len() {
        let n = input.read(&mut table[at..])?;
        if n == 0 {
            return Ok(at);
        }
        at += n;
    }
    Ok(at)
}

fn main(rt: HostRuntime) -> io::Result<()> {
    let mut table = [0u8; LONGEST_TABLE];
    let n = read_full(&mut rt.stdin(), &mut table)?;
    rows(&rt, &table[..n])?;
    others(&rt)
}
