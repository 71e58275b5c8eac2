// What a block of batches.bin asks of the store after the batch:
//
//     u16      entries e
//     e × (part key, u64 value)
//     u16      lookups k
//     k × (part key, u64 value, 0 for absent)
//     u16      steps s
//     s × (u8 step, ...)
//
// Steps: 0 and 1 put the cursor at Start and End; 2 seeks a part; 3 and 4 are a step forward and backward, with u8 found and,
// if it is 1, the part key and u64 value of the entry.
ghost use Rattle.lists.specs.Within.{Within};

use crate::counts::{Count, Section};
use iter::{Cursor, Place, Stepped, WalkError};
use lists::Span;
use node::Value;

// Whether the answer was the list's, and the cursor after it, which there is either way: no Result.
#[derive(Clone, Copy)]
struct Outcome {
    agreed: bool,
    cursor: Cursor,
}

// The entries so far: where the block goes on, the cursor at the last of them, its key and its value, 0 for none.
#[derive(Clone, Copy)]
struct Passed {
    at: usize,
    count: Count,
    cursor: Cursor,
    last: Span,
    value: u64,
}

// A walk so far: where the block goes on, its cases, and the cursor.
#[derive(Clone, Copy)]
pub struct Walked {
    pub at: usize,
    pub count: Count,
    pub cursor: Cursor,
}

// ---- parts and cursors

// The bytes of a span; none where the block hasn't got them.
fn bytes(block: &[u8], span: Span) -> &[u8] {
    let start = span.start;
    let end = span.end;
    if block.len() < end {
        return &block[0..0];
    }
    if end < start {
        return &block[0..0];
    }
    &block[start..end]
}

fn put(place: Place) -> Cursor {
    Cursor {
        place,
        key: [0u8; 288],
    }
}

pub fn at_start() -> Cursor {
    put(Place::Start)
}

// Whether the cursor is at this place with this key and zeros behind it.
fn is_at(cursor: &Cursor, place: Place, key: &[u8]) -> bool {
    let span = lists::place(&cursor.key, 0, key.len());
    cursor.place == place
        && &cursor.key[span.start..span.end] == key
        && lists::filled(&cursor.key, span.end, 0)
}

// ---- steps

// Whether a lookup or a step answers this value, where 0 stands for none.
fn says(answer: Result<Option<Value>, WalkError>, value: u64) -> bool {
    match answer {
        Ok(Some(found)) => found.0 == value,
        Ok(None) => value == 0,
        Err(_) => false,
    }
}

// Whether a step came to this entry, or with the value 0 to this end.
fn came(
    step: Result<Option<Value>, WalkError>,
    cursor: &Cursor,
    key: &[u8],
    value: u64,
    end: Place,
) -> bool {
    if !says(step, value) {
        return false;
    }
    if value == 0 {
        return is_at(cursor, end, b"");
    }
    is_at(cursor, Place::At(key.len()), key)
}

// A step that with no entry comes to `end`.
fn step(stepped: Stepped, key: &[u8], value: u64, end: Place) -> Outcome {
    let cursor = stepped.cursor;
    Outcome {
        agreed: came(stepped.step, &cursor, key, value, end),
        cursor,
    }
}

fn forward(store: &[u8], cursor: Cursor, key: &[u8], value: u64) -> Outcome {
    step(cikolaro::forward(store, cursor), key, value, Place::End)
}

fn backward(store: &[u8], cursor: Cursor, key: &[u8], value: u64) -> Outcome {
    step(cikolaro::backward(store, cursor), key, value, Place::Start)
}

fn seek(key: &[u8]) -> Outcome {
    let sought = cikolaro::seek(key);
    let cursor = sought.cursor;
    Outcome {
        agreed: sought.accepted && is_at(&cursor, Place::Seeked(key.len()), key),
        cursor,
    }
}

// ---- the entries

fn both(a: &Outcome, b: &Outcome) -> bool {
    a.agreed && b.agreed
}

// Whether no entry is behind the cursor, and backward from End comes to this one.
fn ends(store: &[u8], cursor: Cursor, key: &[u8], value: u64) -> bool {
    let none = forward(store, cursor, b"", 0);
    let last = backward(store, none.cursor, key, value);
    both(&none, &last)
}

fn first_entry(block: &[u8], from: usize) -> Passed {
    Passed {
        at: lists::place(block, from, 2).end,
        count: Count::none(),
        cursor: at_start(),
        last: Span { start: 0, end: 0 },
        value: 0,
    }
}

// One entry further; and from it back to the entry before.
fn next_entry(store: &[u8], block: &[u8], before: Passed) -> Passed {
    let key = lists::part(block, before.at);
    let value = lists::number(block, key.end, 8);
    let there = forward(store, before.cursor, bytes(block, key), value);
    let back = backward(store, there.cursor, bytes(block, before.last), before.value);
    Passed {
        at: lists::place(block, key.end, 8).end,
        count: before.count.with(both(&there, &back)),
        cursor: there.cursor,
        last: key,
        value,
    }
}

fn closed(store: &[u8], block: &[u8], entries: Passed) -> Section {
    let mut count = entries.count;
    if !ends(
        store,
        entries.cursor,
        bytes(block, entries.last),
        entries.value,
    ) {
        count.agreed = 0;
    }
    Section {
        count,
        end: entries.at,
    }
}

// All entries forward from Start, then none; and from each place backward to the entry before it, from End to the last one.
// Where the end isn't as it should be, no entry counts as agreed.
pub fn entries(store: &[u8], block: &[u8], from: usize) -> Section {
    let n = lists::number(block, from, 2) as usize;
    let mut state = first_entry(block, from);
    for _ in 0..n {
        state = next_entry(store, block, state);
    }
    closed(store, block, state)
}

// ---- the lookups

pub fn lookups(store: &[u8], block: &[u8], from: usize) -> Section {
    let n = lists::number(block, from, 2) as usize;
    let mut at = lists::place(block, from, 2).end;
    let mut count = Count::none();
    for _ in 0..n {
        let key = lists::part(block, at);
        let value = lists::number(block, key.end, 8);
        count = count.with(says(cikolaro::lookup(store, bytes(block, key)), value));
        at = lists::place(block, key.end, 8).end;
    }
    Section { count, end: at }
}

// ---- the walk

// A step, as its first bytes have it: `found` where an entry follows.
#[derive(Clone, Copy)]
enum Asked {
    Put(Place),
    Seek,
    Forward { found: bool },
    Backward { found: bool },
}

fn asked_by(kind: usize, found: bool) -> Asked {
    match kind {
        0 => Asked::Put(Place::Start),
        1 => Asked::Put(Place::End),
        2 => Asked::Seek,
        3 => Asked::Forward { found },
        _ => Asked::Backward { found },
    }
}

// How many bytes stand in front of a step's key.
fn head_of(asked: Asked) -> usize {
    match asked {
        Asked::Put(_) | Asked::Seek => 1,
        Asked::Forward { .. } | Asked::Backward { .. } => 2,
    }
}

// Whether the key and the value of an entry follow.
fn has_entry(asked: Asked) -> bool {
    match asked {
        Asked::Put(_) | Asked::Seek => false,
        Asked::Forward { found } | Asked::Backward { found } => found,
    }
}

// The key of a step, behind its first bytes; an empty one where the step has none.
fn key_of(block: &[u8], at: usize, asked: Asked) -> Span
    ensures { Within block.now result }
{
    if has_entry(asked) || matches!(asked, Asked::Seek) {
        return lists::part(block, at);
    }
    lists::place(block, at, 0)
}

fn answer(store: &[u8], cursor: Cursor, asked: Asked, key: &[u8], value: u64) -> Outcome {
    match asked {
        Asked::Put(place) => Outcome {
            agreed: true,
            cursor: put(place),
        },
        Asked::Seek => seek(key),
        Asked::Forward { .. } => forward(store, cursor, key, value),
        Asked::Backward { .. } => backward(store, cursor, key, value),
    }
}

fn start_walk(block: &[u8], from: usize, cursor: Cursor) -> Walked {
    Walked {
        at: lists::place(block, from, 2).end,
        count: Count::none(),
        cursor,
    }
}

fn next_step(store: &[u8], block: &[u8], before: Walked) -> Walked {
    let at = before.at;
    let second = lists::place(block, at, 1).end;
    let asked = asked_by(lists::byte(block, at), lists::byte(block, second) == 1);
    let head = lists::place(block, at, head_of(asked)).end;
    let width = if has_entry(asked) { 8 } else { 0 };
    let key = key_of(block, head, asked);
    let value = lists::number(block, key.end, width);
    let outcome = answer(store, before.cursor, asked, bytes(block, key), value);
    Walked {
        at: lists::place(block, key.end, width).end,
        count: before.count.with(outcome.agreed),
        cursor: outcome.cursor,
    }
}

// Goes on with the history's cursor, from where the batch before left it.
pub fn walk(store: &[u8], block: &[u8], from: usize, start: Cursor) -> Walked {
    let n = lists::number(block, from, 2) as usize;
    let mut state = start_walk(block, from, start);
    for _ in 0..n {
        state = next_step(store, block, state);
    }
    state
}
