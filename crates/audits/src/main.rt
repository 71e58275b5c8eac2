// Audits the stored stores, good and damaged ones, and writes a line for each: the store's name, 01's number, how many
// slots are reached, and every mark word that was lent. A block of audits.bin has, behind its buffer:
//
//     u8       mark words lent (0 to 4)
//     part     name
#![tactic(auto)]

use std::fs::File;
use std::io;
use std::io::{Read, Write};

// What stands in the mark words before an audit, so that it is seen whether they stay as they are or are zeroed.
const MARK: u64 = 0xA5A5A5A5A5A5A5A5;

fn say_mark<W: Write>(out: &mut W, mark: u64) -> io::Result<()> {
    write!(out, " {mark:016x}")
}

fn say_marks<W: Write>(out: &mut W, marks: &[u64]) -> io::Result<()> {
    for mark in marks {
        say_mark(out, *mark)?;
    }
    Ok(())
}

fn audit_and_say<W: Write>(out: &mut W, store: &[u8], marks: &mut [u64]) -> io::Result<()> {
    let verdict = audit::audit(store, marks);
    lists::say(out, b": ", refusal::number(verdict) as u64)?;
    lists::say(out, b", reached ", verdict.unwrap_or(0) as u64)?;
    out.write_all(b", marks")?;
    say_marks(out, marks)?;
    out.write_all(b"\n")
}

// Lends that many words; more than a block may ask for are not lent, and the line then ends with the name.
fn audit_with<W: Write>(out: &mut W, store: &[u8], words: usize) -> io::Result<()> {
    let mut marks = [MARK; 4];
    if 4 < words {
        return Ok(());
    }
    audit_and_say(out, store, &mut marks[..words])
}

// Audits the front of the room that is the buffer.
fn audit_front<W: Write>(out: &mut W, room: &[u8], len: usize, words: usize) -> io::Result<()> {
    if room.len() < len {
        return Ok(());
    }
    audit_with(out, &room[..len], words)
}

// The room is for 65 slots, the fewest that need two mark words.
fn audit_block<W: Write>(out: &mut W, block: &[u8]) -> io::Result<()> {
    let mut room = [0u8; 166424];
    let span = lists::lay_out(&mut room, block);
    let words = lists::byte(block, span.end);
    let name = lists::part(block, span.end + 1);
    out.write_all(&block[name.start..name.end])?;
    audit_front(out, &room, span.start, words)
}

fn audit_next<W: Write, R: Read>(out: &mut W, file: &mut R) -> io::Result<()> {
    let mut buffer = [0u8; 65536];
    let len = lists::read_block(file, &mut buffer)?;
    audit_block(out, &buffer[..len])
}

fn audit_all<W: Write, R: Read>(out: &mut W, file: &mut R) -> io::Result<()> {
    let stores = lists::read_number(file)?;
    for _ in 0..stores {
        audit_next(out, file)?;
    }
    Ok(())
}

fn main(rt: HostRuntime) -> io::Result<()> {
    let mut file = File::open(&rt, "audits.bin")?;
    audit_all(&mut io::writer(&rt), &mut file)
}
