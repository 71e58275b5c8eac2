// The stored lists of cases that the project is compared with: their blocks, the numbers and parts in them, and counts.
// oracle/FORMATS.md describes the files.
//
// Nothing here calls the crates that are compared. A list read by the same code that is under trial could agree with a
// fault of that code.
#![tactic(auto)]

ghost use Rattle.std.specs.Prelude.{◌≡◌, List, ℕ, ◌++◌, ◌<◌, ◌≤◌, true, length, take, slice_index, decimal, IfOk, OnOk};
ghost use Rattle.std.specs.Counts.{IsPrefixLen};
ghost use Rattle.std.specs.Io.KnownBytes.{Appends, Consumes};
ghost use Rattle.lists.specs.Within.{Within};

use std::io;
use std::io::{Read, Write};

// What stands in a slice from start to before end.
#[derive(Clone, Copy)]
pub struct Span {
    pub start: usize,
    pub end: usize,
}

// Whether a case came out as the list has it, and the number that the code answered: a case that differs has one too, so that
// neither Option nor Result says it more plainly.
#[derive(Clone, Copy)]
pub struct Verdict {
    pub agreed: bool,
    pub number: u32,
}

// The numbers that the code answers are below this.
pub const NUMBERS: usize = 21;

// How many cases, how many of them agreed, and how often the code answered each number.
#[derive(Clone, Copy)]
pub struct Tally {
    pub cases: u64,
    pub agreed: u64,
    pub answers: [u64; NUMBERS],
}

// The byte at `at`, 0 where there is none.
pub fn byte(s: &[u8], at: usize) -> usize
    ensures { result < 256 }
{
    match s.get(at) {
        Some(b) => *b as usize,
        None => 0,
    }
}

// The place of the n bytes at `at`; an empty one if the slice ends before.
pub fn place(s: &[u8], at: usize, n: usize) -> Span
    ensures { Within s.now result }
{
    match at.checked_add(n) {
        Some(end) if end <= s.len() => Span { start: at, end },
        _ => Span { start: 0, end: 0 },
    }
}

// The number of n bytes at `at`, lowest first; 0 if the slice ends before.
pub fn number(s: &[u8], at: usize, n: usize) -> u64 {
    let span = place(s, at, n);
    let mut x: u64 = 0;
    for b in s[span.start..span.end].iter().rev() {
        x = (x << 8) | *b as u64;
    }
    x
}

// The place of the bytes of a part at `at`: a length of two bytes, and that many.
pub fn part(s: &[u8], at: usize) -> Span
    ensures { Within s.now result }
{
    let head = place(s, at, 2);
    place(s, head.end, number(s, at, 2) as usize)
}

// Whether every byte from `from` on is b.
pub fn filled(s: &[u8], from: usize, b: u8) -> bool
    ensures { result ≡ true → (k : ℕ) → from ≤ k → k < length s.now → slice_index s.now k ≡ b }
{
    s.iter().skip(from).all(|x| *x == b)
}

// How many bytes of a block say how long its buffer is and how many parts follow.
pub const BUFFER_HEAD: usize = 6;

// Copies a part to its place in a buffer that has room for it there.
fn put(room: &mut [u8], at: usize, part: &[u8]) {
    if at <= room.len() && part.len() <= room.len() - at {
        room[at..at + part.len()].copy_from_slice(part);
    }
}

// Lays the buffer that a block begins with out in the front of room, which is all zeros before; answers how long it is, and where
// the block goes on. The buffer is zero but for some parts:
//
//     u32      how long it is
//     u16      parts n
//     n × (u32 place, part bytes)
pub fn lay_out(room: &mut [u8], block: &[u8]) -> Span
    ensures { result.end ≤ length block.now }
{
    let len = number(block, 0, 4) as usize;
    let parts = number(block, 4, 2) as usize;
    let mut at = place(block, 0, BUFFER_HEAD).end;
    for _ in 0..parts {
        let part = part(block, at + 4);
        put(
            room,
            number(block, at, 4) as usize,
            &block[part.start..part.end],
        );
        at = part.end;
    }
    Span {
        start: len,
        end: at,
    }
}

// A number of four bytes, read from a file: how many blocks follow, or how long a block is; 0 where the file ends before.
// An error is the file's own, and the file has moved on by what was read before it.
pub fn read_number<R: Read>(file: &mut R) -> io::Result<usize>
    ensures moved_on { (taken : List ℕ) × Consumes (R.remaining file.old) (R.remaining file.new) taken }
{
    let mut four = [0u8; 4];
    let got = input::read_full(file, &mut four)?;
    Ok(number(&four[..got], 0, 4) as usize)
}

// Reads the next block to the front of buf and answers its length; 0 where it isn't there whole or is too long.
// An error is the file's own, and none of what was read before it is lost: it is the head of the block and the front of buf.
pub fn read_block<R: Read>(file: &mut R, buf: &mut [u8]) -> io::Result<usize>
    ensures within { IfOk result (λ n. IsPrefixLen n buf.new) }
    ensures none_lost { (head : List ℕ) × (k : ℕ) × Consumes (R.remaining file.old) (R.remaining file.new) (head ++ take k buf.new) }
{
    let len = read_number(file)?;
    if buf.len() < len {
        return Ok(0);
    }
    let got = input::read_full(file, &mut buf[..len])?;
    if got == len { Ok(len) } else { Ok(0) }
}

// Writes a text and a number behind it. An error is the writer's own; what was written before it stays written.
pub fn say<W: Write>(out: &mut W, text: &[u8], n: u64) -> io::Result<()>
    ensures { OnOk result (Appends (W.contents out.old) (W.contents out.new) (text.now ++ decimal n)) }
{
    out.write_all(text)?;
    write!(out, "{n}")
}

impl Tally {
    pub fn none() -> Tally {
        Tally {
            cases: 0,
            agreed: 0,
            answers: [0u64; NUMBERS],
        }
    }

    pub fn with(mut self, verdict: Verdict) -> Tally {
        self.cases = self.cases.wrapping_add(1);
        if verdict.agreed {
            self.agreed = self.agreed.wrapping_add(1);
        }
        if let Some(times) = self.answers.get_mut(verdict.number as usize) {
            *times = times.wrapping_add(1);
        }
        self
    }
}
