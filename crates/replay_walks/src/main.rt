// Replays the stored lookups and cursor walks on good and damaged stores through crate iter, and writes how many questions
// were answered as the list has them. The first three stores with another answer are named, by their places from 0 on.
#![tactic(auto)]

mod asked;

use lists::Tally;
use std::fs::File;
use std::io;
use std::io::{Read, Write};

// Asks the front of the buffer; where it has no such front, or the block ends before one is described, no question is counted.
fn ask_front(room: &[u8], len: usize, block: &[u8], from: usize, tally: Tally) -> Tally {
    if room.len() < len || block.len() < lists::BUFFER_HEAD {
        return tally;
    }
    asked::ask(&room[..len], block, from, tally)
}

fn replay_store<R: Read>(file: &mut R, tally: Tally) -> io::Result<Tally> {
    let mut block = [0u8; 65536];
    let mut room = [0u8; 65536];
    let len = lists::read_block(file, &mut block)?;
    let span = lists::lay_out(&mut room, &block[..len]);
    Ok(ask_front(&room, span.start, &block[..len], span.end, tally))
}

fn say_differing<W: Write>(out: &mut W, store: u64) -> io::Result<()> {
    lists::say(out, b"differs: store ", store)?;
    out.write_all(b"\n")
}

// How many questions were answered otherwise.
fn differing(tally: &Tally) -> u64 {
    tally.cases.wrapping_sub(tally.agreed)
}

fn replay_stores<W: Write, R: Read>(out: &mut W, file: &mut R, stores: usize) -> io::Result<Tally> {
    let mut tally = Tally::none();
    let mut named = 0u8;
    for i in 0..stores {
        let before = differing(&tally);
        tally = replay_store(file, tally)?;
        if before != differing(&tally) && named < 3 {
            say_differing(out, i as u64)?;
            named += 1;
        }
    }
    Ok(tally)
}

fn say_answers<W: Write>(out: &mut W, answers: &[u64; lists::NUMBERS]) -> io::Result<()> {
    lists::say(out, b", answered 0: ", answers[0])?;
    lists::say(out, b", 1: ", answers[1])?;
    lists::say(out, b", 4: ", answers[4])?;
    lists::say(out, b", 8: ", answers[8])?;
    out.write_all(b"\n")
}

fn replay<W: Write, R: Read>(out: &mut W, file: &mut R) -> io::Result<()> {
    let stores = lists::read_number(file)?;
    let tally = replay_stores(out, file, stores)?;
    lists::say(out, b"stores ", stores as u64)?;
    lists::say(out, b", questions ", tally.cases)?;
    lists::say(out, b" agreed ", tally.agreed)?;
    say_answers(out, &tally.answers)
}

fn main(rt: HostRuntime) -> io::Result<()> {
    let mut file = File::open(&rt, "walks.bin")?;
    replay(&mut io::writer(&rt), &mut file)
}
