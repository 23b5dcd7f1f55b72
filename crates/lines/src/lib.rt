// The lines of the learner's program: the roster that the first line gives, a line kept while it arrives and pulled out of input in any pieces,
// text put behind text, and an answer as a line.
#![tactic(auto)]

ghost use Rattle.std.specs.Prelude.{◌≡◌, ◌==◌, cond, ◌+◌, ◌-◌, ◌<◌, ◌≤◌, Some, None, IfSome, length, position, take, drop};
ghost use Rattle.std.proofs.lemmas.List.Edits.{sets};
ghost use Rattle.frame.specs.Hex as hex;
ghost use Rattle.frame.specs.Format.{line_feed};
ghost use Rattle.lines.specs.Lines as spec;

use roster::Roster;

// The characters that a line is written with.
const LINE_FEED: u8 = 10;

const SPACE: u8 = 32;

const ZERO: u8 = 48;

// The length of the longest answer, with its line feed.
pub const LONGEST_ANSWER: usize = 8;

// A line by value: the first `len` bytes are its characters, and those after them are 0.
#[derive(Clone, Copy)]
pub struct Text {
    pub len: usize,
    pub bytes: [u8; 8],
}

// How much of a line is kept once some bytes of input were pulled into it, where the bytes after those start, and whether the line is whole.
#[derive(Clone, Copy)]
pub struct Pulled {
    pub len: usize,
    pub next: usize,
    pub whole: bool,
}

// The digit that a character is, if it is a lower-case hex digit.
#[tactic(auto, using(std::proofs::lemmas::Bool::Decides::nat_tests), unfolding(frame::specs::Hex::is_digit, frame::specs::Hex::value_of))]
fn digit(c: u8) -> Option<u8>
    ensures { result ≡ spec.digit_of c }
{
    match c {
        b'0'..=b'9' => Some(c - b'0'),
        b'a'..=b'f' => Some(c - b'a' + 10),
        _ => None,
    }
}

// The byte of two characters, if both are digits.
fn byte(a: u8, b: u8) -> Option<u8>
    ensures { result ≡ spec.byte_in a b }
{
    Some(16 * digit(a)? + digit(b)?)
}

// The roster of four digits.
fn roster(a: u8, b: u8, c: u8, d: u8) -> Option<Roster>
    ensures { result ≡ cond (spec.are_digits a b c d) (Some (record { n = hex.byte_of a b; f = hex.byte_of c d })) None }
{
    Some(Roster {
        n: byte(a, b)?,
        f: byte(c, d)?,
    })
}

// The roster that the first line gives: four lower-case hex digits and a line feed, N and f. Another line counts as N=0, f=0.
#[tactic(auto, using(crate::proofs::Digits::ended_line, crate::proofs::Digits::other_length, crate::proofs::Digits::other_end))]
pub fn roster_of(line: &[u8]) -> Roster
    ensures { result ≡ spec.roster_of line.now }
{
    let none = Roster { n: 0, f: 0 };
    match line {
        [a, b, c, d, LINE_FEED] => roster(*a, *b, *c, *d).unwrap_or(none),
        _ => none,
    }
}

// Puts `b` behind the first `len` bytes if there is room, and answers how many bytes are in use then. Where there is no room, nothing
// changes.
pub fn push(line: &mut [u8], len: usize, b: u8) -> usize
    ensures { (result ≡ spec.pushed_length line.old len) × (line.new ≡ spec.pushed line.old len b) }
{
    if line.len() <= len {
        return len;
    }
    line[len] = b;
    len + 1
}

// How many bytes there is room for behind the first `used`.
pub fn room(out: &[u8], used: usize) -> usize
    ensures { result ≡ length out.now - used }
{
    out.len().saturating_sub(used)
}

// Puts `text` behind the first `used` bytes, as much of it as there is room for, and answers how many are in use then.
fn put(out: &mut [u8], used: usize, text: &[u8]) -> usize
    ensures { (result ≡ spec.kept_length out.old used text.now) × (out.new ≡ spec.kept out.old used text.now) }
{
    if out.len() <= used {
        return used;
    }
    let fit = words::first(text, room(out, used));
    let end = used + fit.len();
    out[used..end].copy_from_slice(fit);
    end
}

// Where the first line feed stands.
fn line_end(bytes: &[u8]) -> Option<usize>
    ensures place { result ≡ position (λ b. b == line_feed) bytes.now }
    ensures bound { IfSome result (λ k. k < length bytes.now) }
{
    bytes.iter().position(|b| *b == LINE_FEED)
}

// Puts the bytes from `from` on, through the first line feed, behind the first `len` bytes of the line, as many as there is room for: so a line
// is pulled out of input that arrives in any pieces. It is whole if the line feed came.
pub fn pull(line: &mut [u8], len: usize, bytes: &[u8], from: usize) -> Pulled
    ensures { (result ≡ spec.pulled line.old len (drop from bytes.now) from) × (line.new ≡ spec.kept line.old len (spec.through (drop from bytes.now))) }
{
    let Some(rest) = bytes.get(from..) else {
        return Pulled {
            len,
            next: from,
            whole: false,
        };
    };
    match line_end(rest) {
        Some(k) => Pulled {
            len: put(line, len, &rest[..k + 1]),
            next: from + k + 1,
            whole: true,
        },
        None => Pulled {
            len: put(line, len, rest),
            next: from + rest.len(),
            whole: false,
        },
    }
}

// Writes a number in decimal from `at` on, and answers where it ends.
fn put_decimal(bytes: &mut [u8], at: usize, n: u8) -> usize
    requires { at + 3 ≤ length bytes.old }
    ensures { (result ≡ at + length (spec.decimal n)) × (bytes.new ≡ sets bytes.old at (spec.decimal n)) }
{
    if n < 10 {
        bytes[at] = ZERO + n;
        return at + 1;
    }
    if n < 100 {
        bytes[at] = ZERO + n / 10;
        bytes[at + 1] = ZERO + n % 10;
        return at + 2;
    }
    bytes[at] = ZERO + n / 100;
    bytes[at + 1] = ZERO + n / 10 % 10;
    bytes[at + 2] = ZERO + n % 10;
    at + 3
}

// The answer's number and the supporters in decimal, as a line.
pub fn answer_text(number: u8, supporters: u8) -> Text
    ensures { result ≡ spec.answer_text number supporters }
{
    let mut bytes = [0u8; 8];
    let at = put_decimal(&mut bytes, 0, number);
    bytes[at] = SPACE;
    let end = put_decimal(&mut bytes, at + 1, supporters);
    bytes[end] = LINE_FEED;
    Text {
        len: end + 1,
        bytes,
    }
}

// Puts the line that answers a line, the answer's number and the supporters, behind the first `used` bytes, as much of it as there is room for,
// and answers how many are in use then.
pub fn put_answer(out: &mut [u8], used: usize, number: u8, supporters: u8) -> usize
    ensures { (result ≡ spec.kept_length out.old used (spec.answer_line number supporters)) × (out.new ≡ spec.kept out.old used (spec.answer_line number supporters)) }
{
    let text = answer_text(number, supporters);
    let bytes: &[u8] = &text.bytes;
    put(out, used, words::first(bytes, text.len))
}
