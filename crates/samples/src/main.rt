// Document 01's sample histories, run: canonical orders, extensions and merges, a line each.
#![tactic(auto)]

use merge::Unmerged;
use std::io;

// A enrols slot 7, B revokes it; C and D raise slot 9.
const A: u64 = 0x0101000100070000;

const B: u64 = 0x0202000100070000;

const C: u64 = 0x0103000200090001;

const D: u64 = 0x0303000100090005;

// The letter of a sample command.
fn letter(c: u64) -> u8 {
    match c {
        A => b'A',
        B => b'B',
        C => b'C',
        D => b'D',
        _ => b'?',
    }
}

fn put(rt: &impl Print, text: &[u8]) -> io::Result<()> {
    rt.write_all(text)
}

// Writes the letters of a history and ends the line.
fn show(rt: &impl Print, h: &[u64]) -> io::Result<()> {
    for &c in h {
        put(rt, &[letter(c)])?;
    }
    put(rt, b"\n")
}

fn order(rt: &impl Print, text: &[u8], h: &mut [u64]) -> io::Result<()> {
    put(rt, text)?;
    history::put_in_order(h);
    show(rt, h)
}

fn extension(rt: &impl Print, text: &[u8], h: &[u64], g: &[u64]) -> io::Result<()> {
    put(rt, text)?;
    if history::extends(h, g) {
        put(rt, b"yes\n")
    } else {
        put(rt, b"no\n")
    }
}

fn merged(rt: &impl Print, text: &[u8], g: &[u64], h: &[u64]) -> io::Result<()> {
    put(rt, text)?;
    match merge::merge(words::LIMIT, g, h) {
        Ok(history) => show(rt, history.commands()),
        Err(Unmerged::Split) => put(rt, b"SPLIT\n"),
        Err(Unmerged::Full) => put(rt, b"FULL\n"),
    }
}

fn orders(rt: &impl Print) -> io::Result<()> {
    order(rt, b"canonical BCA: ", &mut [B, C, A])?;
    order(rt, b"canonical DCA: ", &mut [D, C, A])?;
    order(rt, b"canonical ABC: ", &mut [A, B, C])?;
    order(rt, b"canonical BA: ", &mut [B, A])
}

fn extensions(rt: &impl Print) -> io::Result<()> {
    extension(rt, b"AC extends C: ", &[A, C], &[C])?;
    extension(rt, b"AB extends B: ", &[A, B], &[B])
}

fn merges(rt: &impl Print) -> io::Result<()> {
    let ab = [A, B];
    merged(rt, b"merge AC AB: ", &[A, C], &ab)?;
    merged(rt, b"merge A B: ", &[A], &[B])?;
    merged(rt, b"merge AB BA: ", &ab, &[B, A])
}

fn main(rt: HostRuntime) -> io::Result<()> {
    orders(&rt)?;
    extensions(&rt)?;
    merges(&rt)
}
