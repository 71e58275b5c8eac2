// Replays the stored histories of batches through the public face, and writes how much came out as the list has it: what each
// batch answers, every byte of the store after it, its entries forward and backward, lookups, and the steps of a cursor that
// stays where it is from one batch to the next. The first three batches with a difference are named, by their places from 0 on.
#![tactic(auto)]

mod asked;
mod counts;
mod state;

use counts::{Batch, Count, Totals};
use iter::Cursor;
use std::fs::File;
use std::io;
use std::io::{Read, Write};

// The list has no store with more.
const MOST_SLOTS: usize = 71;

// 24 + 2,560 × 71.
const ROOM: usize = 181784;

const LONGEST_BLOCK: usize = 32768;

// What came of a batch, and the cursor after it.
#[derive(Clone, Copy)]
struct Replayed {
    batch: Batch,
    cursor: Cursor,
}

// A history so far: whether all of it agreed, and, either way, the totals and its cursor: no Result.
#[derive(Clone, Copy)]
struct History {
    agreed: bool,
    totals: Totals,
    cursor: Cursor,
}

// Whether a batch answered as the list has it; and, either way, with which number, and where the block goes on: no Result.
#[derive(Clone, Copy)]
struct Answered {
    agreed: bool,
    number: u32,
    end: usize,
}

fn run(store: &mut [u8], block: &[u8]) -> Answered {
    let mut marks = [0u64; 2];
    let records = lists::part(block, 0);
    let end = records.end;
    let batched = cikolaro::batch(store, &mut marks, &block[records.start..end]);
    let number = refusal::number(batched.answer);
    let said = lists::byte(block, end);
    let applied = lists::number(block, end + 1, 2);
    Answered {
        agreed: number as usize == said && batched.applied as u64 == applied,
        number,
        end: end + 3,
    }
}

// What the store holds and answers after a batch.
fn look(store: &[u8], slots: u32, block: &[u8], answered: &Answered, cursor: Cursor) -> Replayed {
    let stored = state::compare(store, block, answered.end, slots as usize);
    let entered = asked::entries(store, block, stored.end);
    let found = asked::lookups(store, block, entered.end);
    let walked = asked::walk(store, block, found.end, cursor);
    Replayed {
        batch: Batch {
            agreed: answered.agreed,
            full: answered.number == 9,
            slots: stored.count,
            entries: entered.count,
            lookups: found.count,
            steps: walked.count,
        },
        cursor: walked.cursor,
    }
}

fn replay_batch<R: Read>(
    file: &mut R,
    store: &mut [u8],
    slots: u32,
    cursor: Cursor,
) -> io::Result<Replayed> {
    let mut block = [0u8; LONGEST_BLOCK];
    let len = lists::read_block(file, &mut block)?;
    let answered = run(store, &block[..len]);
    Ok(look(store, slots, &block[..len], &answered, cursor))
}

fn say_differing<W: Write>(out: &mut W, history: u64, batch: u64) -> io::Result<()> {
    lists::say(out, b"differs: history ", history)?;
    lists::say(out, b", batch ", batch)?;
    out.write_all(b"\n")
}

// Names a batch that differs, if fewer than three are named.
fn name<W: Write>(out: &mut W, before: Totals, batch: usize, whole: bool) -> io::Result<Totals> {
    let mut totals = before;
    if !whole && totals.named < 3 {
        say_differing(out, totals.histories.cases, batch as u64)?;
        totals.named = totals.named.wrapping_add(1);
    }
    Ok(totals)
}

fn begin(store: &mut [u8], slots: u32, totals: Totals) -> History {
    let formatted = cikolaro::format(store, slots);
    History {
        agreed: formatted.is_ok(),
        totals,
        cursor: asked::at_start(),
    }
}

fn next_batch<W: Write, R: Read>(
    out: &mut W,
    file: &mut R,
    store: &mut [u8],
    slots: u32,
    place: usize,
    before: History,
) -> io::Result<History> {
    let replayed = replay_batch(file, store, slots, before.cursor)?;
    let batch = replayed.batch;
    let whole = batch.is_whole();
    Ok(History {
        agreed: before.agreed && whole,
        totals: name(out, before.totals.with_batch(batch), place, whole)?,
        cursor: replayed.cursor,
    })
}

fn replay_history<W: Write, R: Read>(
    out: &mut W,
    file: &mut R,
    store: &mut [u8],
    slots: u32,
    batches: usize,
    before: Totals,
) -> io::Result<Totals> {
    let mut state = begin(store, slots, before);
    for i in 0..batches {
        state = next_batch(out, file, store, slots, i, state)?;
    }
    Ok(state.totals.with_history(state.agreed))
}

// A history in the front of a room.
fn replay_front<W: Write, R: Read>(
    out: &mut W,
    file: &mut R,
    room: &mut [u8],
    size: usize,
    slots: u32,
    batches: usize,
    totals: Totals,
) -> io::Result<Totals> {
    if room.len() < size {
        return Ok(totals.with_history(false));
    }
    replay_history(out, file, &mut room[..size], slots, batches, totals)
}

// The history that the next block opens.
fn open_history<W: Write, R: Read>(
    out: &mut W,
    file: &mut R,
    totals: Totals,
) -> io::Result<Totals> {
    let mut opening = [0u8; 4];
    let len = lists::read_block(file, &mut opening)?;
    let slots = lists::number(&opening[..len], 0, 2) as usize;
    let batches = lists::number(&opening[..len], 2, 2) as usize;
    if MOST_SLOTS < slots {
        return Ok(totals.with_history(false));
    }
    let size = 24 + 2560 * slots;
    let mut room = [0u8; ROOM];
    replay_front(out, file, &mut room, size, slots as u32, batches, totals)
}

// A history has one block or more.
fn replay_histories<W: Write, R: Read>(
    out: &mut W,
    file: &mut R,
    blocks: usize,
) -> io::Result<Totals> {
    let mut totals = Totals::none();
    for _ in 0..blocks {
        if blocks as u64 <= totals.blocks {
            return Ok(totals);
        }
        totals = open_history(out, file, totals)?;
    }
    Ok(totals)
}

fn say_count<W: Write>(out: &mut W, name: &[u8], count: Count) -> io::Result<()> {
    lists::say(out, name, count.cases)?;
    lists::say(out, b" agreed ", count.agreed)
}

fn replay<W: Write, R: Read>(out: &mut W, file: &mut R) -> io::Result<()> {
    let blocks = lists::read_number(file)?;
    let totals = replay_histories(out, file, blocks)?;
    say_count(out, b"histories ", totals.histories)?;
    say_count(out, b", batches ", totals.batches)?;
    say_count(out, b", headers and slots ", totals.slots)?;
    say_count(out, b", entries ", totals.entries)?;
    say_count(out, b", lookups ", totals.lookups)?;
    say_count(out, b", steps ", totals.steps)?;
    lists::say(out, b", answered 9: ", totals.full)?;
    out.write_all(b"\n")
}

fn main(rt: HostRuntime) -> io::Result<()> {
    let mut file = File::open(&rt, "batches.bin")?;
    replay(&mut io::writer(&rt), &mut file)
}
