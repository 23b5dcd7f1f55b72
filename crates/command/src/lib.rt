// Commands: the fields of the eight bytes, when a command is valid, and when two conflict.
// A command is the number of its eight bytes, big-endian.
#![tactic(auto)]

ghost use Rattle.std.specs.Prelude.{◌≡◌};
ghost use Rattle.command.specs.Command as spec;

// The kinds.
pub const ENROL: u8 = 1;

pub const REVOKE: u8 = 2;

pub const RAISE: u8 = 3;

// The words of the table of kinds.
const YES: bool = true;

const NO: bool = false;

// The table of kinds: a row and a column for 0, which is no kind, then ENROL, REVOKE, RAISE.
const KINDS_CONFLICT: [[bool; 4]; 4] = [
    [NO, NO, NO, NO],
    [NO, YES, YES, YES], // ENROL
    [NO, YES, YES, YES], // REVOKE
    [NO, YES, YES, NO], // RAISE
];

// Proposer and serial as words, in which two commands are compared by one test of their bits.
fn proposer_word(c: u64) -> u64
    ensures { result ≡ spec.proposer c }
{
    c >> 56
}

fn serial_word(c: u64) -> u64
    ensures { result ≡ spec.serial c }
{
    (c >> 32) % 65536
}

// The fields of a command.
pub fn proposer(c: u64) -> u8
    ensures { result ≡ spec.proposer c }
{
    proposer_word(c) as u8
}

pub fn kind(c: u64) -> u8
    ensures { result ≡ spec.kind c }
{
    ((c >> 48) % 256) as u8
}

pub fn serial(c: u64) -> u16
    ensures { result ≡ spec.serial c }
{
    serial_word(c) as u16
}

pub fn slot(c: u64) -> u16
    ensures { result ≡ spec.slot c }
{
    ((c >> 16) % 65536) as u16
}

pub fn argument(c: u64) -> u16
    ensures { result ≡ spec.argument c }
{
    (c % 65536) as u16
}

// Whether a command of kind k may have the argument a.
fn valid_argument(k: u8, a: u16) -> bool
    ensures { result ≡ spec.valid_argument k a }
{
    match k {
        ENROL | REVOKE => a == 0,
        RAISE => 1 <= a,
        _ => false,
    }
}

// Whether a command's fields are right.
#[tactic(auto, unfolding(crate::specs::Command::valid_command))]
pub fn valid(c: u64) -> bool
    ensures { result ≡ spec.valid_command c }
{
    proposer(c) != 0 && serial(c) != 0 && valid_argument(kind(c), argument(c))
}

// Whether each command of h is valid.
pub fn all_valid(h: &[u64]) -> bool
    ensures { result ≡ spec.all_valid h.now }
{
    h.iter().all(|c| valid(*c))
}

// Whether each command of h is by this proposer.
pub fn all_by(by: u8, h: &[u64]) -> bool
    ensures { result ≡ spec.all_by by h.now }
{
    h.iter().all(|c| proposer(*c) == by)
}

// Whether two commands are of one proposer and serial.
pub fn same_request(c: u64, d: u64) -> bool
    ensures { result ≡ spec.same_request c d }
{
    let same_proposer = proposer_word(c) == proposer_word(d);
    let same_serial = serial_word(c) == serial_word(d);
    same_proposer & same_serial
}

// What the table says of two kinds; of a number that is no kind it says no.
fn kinds_conflict(k: u8, l: u8) -> bool
    ensures { result ≡ spec.kinds_conflict k l }
{
    if k >= 4 {
        return false;
    }
    if l >= 4 {
        return false;
    }
    KINDS_CONFLICT[k as usize][l as usize]
}

// Whether two commands conflict.
#[tactic(auto, unfolding(crate::specs::Command::conflict))]
pub fn conflict(c: u64, d: u64) -> bool
    ensures { result ≡ spec.conflict c d }
{
    same_request(c, d) || (slot(c) == slot(d) && kinds_conflict(kind(c), kind(d)))
}
