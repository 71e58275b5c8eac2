// What the program does with a text: "The program formats 25 slots, runs the lines as one batch and writes entries, key TAB
// value." Apart from the program, so that test programs can give it other texts.
#![tactic(auto)]

use iter::{Cursor, Place};
use node::Value;
use refusal::Refusal;
use std::io;
use std::io::Write;

const SLOTS: u32 = 25;

// 25 slots have no more entries, with 8 in each.
const MOST_ENTRIES: u32 = 200;

// "A refusal writes one line: `refused` TAB number TAB applied."
fn say_refused<W: Write>(out: &mut W, number: u32, applied: usize) -> io::Result<()> {
    let mut line = [0u8; 64];
    if let Some(len) = cikolaro::write_refused(number, applied as u64, &mut line) {
        if len <= 64 {
            out.write_all(&line[..len])?;
        }
    }
    Ok(())
}

fn say_entry<W: Write>(out: &mut W, key: &[u8], value: Value) -> io::Result<()> {
    // two digits for each of 288 bytes, TAB, 20 digits, LF
    let mut line = [0u8; 600];
    if let Some(len) = cikolaro::write_entry(key, value.0, &mut line) {
        if len <= 600 {
            out.write_all(&line[..len])?;
        }
    }
    Ok(())
}

// The entry that a cursor came to; nothing where it is at none.
fn say_found<W: Write>(out: &mut W, cursor: &Cursor, value: Value) -> io::Result<()> {
    if let Place::At(len) = cursor.place
        && len <= 288
    {
        say_entry(out, &cursor.key[..len], value)?;
    }
    Ok(())
}

fn say_entries<W: Write>(out: &mut W, store: &[u8]) -> io::Result<()> {
    let mut cursor = Cursor {
        place: Place::Start,
        key: [0u8; 288],
    };
    for _ in 0..MOST_ENTRIES {
        let stepped = cikolaro::forward(store, cursor);
        cursor = stepped.cursor;
        let Ok(Some(value)) = stepped.step else {
            return Ok(());
        };
        say_found(out, &cursor, value)?;
    }
    Ok(())
}

// An error is the writer's own; what the text did to the store is gone with the store.
pub fn run<W: Write>(out: &mut W, text: &[u8]) -> io::Result<()> {
    let mut store = [0u8; 64024];
    let mut marks = [0u64; 1];
    // the most that 16,384 bytes of text can say
    let mut records = [0u8; 36038];
    if let Err(error) = cikolaro::format(&mut store, SLOTS) {
        return say_refused(out, error.number(), 0);
    }
    let ended = cikolaro::run_lines(&mut store, &mut marks, &mut records, text);
    if let Err(error) = ended.answer {
        return say_refused(out, error.number(), ended.applied);
    }
    say_entries(out, &store)
}

// The text on standard input, to standard output. An error is that of either; where the input fails, nothing is run.
pub fn run_input(rt: &(impl Input + Print)) -> io::Result<()> {
    // one byte more than a text may have, so that a longer one is seen to be
    let mut text = [0u8; 16385];
    let len = input::read_full(&mut rt.reader(), &mut text)?;
    run(&mut io::writer(rt), &text[..len])
}
