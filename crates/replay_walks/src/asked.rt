// The questions of a block of walks.bin, behind its buffer:
//
//     u16      questions n
//     n × (u8 question, u8 number, u64 value, part key)
//
// 0 looks the key up; 1 puts the cursor to a place (`number`) with a length (`value`); 2 seeks the key; 3 and 4 are a step
// forward and backward, with the entry's key and value, or no key and 0 for none.
use iter::{Cursor, Place, Stepped, WalkError};
use lists::{Tally, Verdict};
use node::Value;

// What stands behind the key of a cursor that is put somewhere.
const MARK: u8 = 0xA5;

// A question without its key; its kind is the list's number, which `answer` alone reads.
#[derive(Clone, Copy)]
struct Question {
    kind: usize,
    number: u32,
    value: u64,
}

// Whether the answer was the list's; and, either way, with which number, and the cursor after it: no Result.
#[derive(Clone, Copy)]
struct Outcome {
    agreed: bool,
    number: u32,
    cursor: Cursor,
}

// ---- places and keys

// The place that a number and a length name.
fn place_of(kind: u32, len: usize) -> Place {
    match kind {
        0 => Place::Start,
        1 => Place::End,
        2 => Place::At(len),
        _ => Place::Seeked(len),
    }
}

// Whether the array holds this key and zeros behind it.
fn holds(array: &[u8], key: &[u8]) -> bool {
    let len = key.len();
    if array.len() < len {
        return false;
    }
    if &array[..len] != key {
        return false;
    }
    lists::filled(array, len, 0)
}

// A key array with this key in front and marks behind.
fn marked(key: &[u8]) -> [u8; 288] {
    let mut array = [MARK; 288];
    let len = key.len().min(288);
    array[..len].copy_from_slice(&key[..len]);
    array
}

// ---- the questions

// The value that a lookup or a step answers, 0 where there is none. As lent's `found_value`, and not by it: what a list is
// compared with goes through `iter` alone.
fn value_of(answer: Result<Option<Value>, WalkError>) -> u64 {
    match answer {
        Ok(Some(value)) => value.0,
        _ => 0,
    }
}

fn look_up(store: &[u8], key: &[u8], cursor: Cursor, question: Question) -> Outcome {
    let found = iter::lookup(store, key);
    let number = refusal::number(found);
    Outcome {
        agreed: number == question.number && value_of(found) == question.value,
        number,
        cursor,
    }
}

fn put(key: &[u8], question: Question) -> Outcome {
    Outcome {
        agreed: true,
        number: 0,
        cursor: Cursor {
            place: place_of(question.number, question.value as usize),
            key: marked(key),
        },
    }
}

// The cursor stays as it was where the key is refused.
fn seek(key: &[u8], cursor: Cursor, question: Question) -> Outcome {
    let sought = iter::seek(key);
    let number = sought.number();
    if number != 0 {
        return Outcome {
            agreed: number == question.number,
            number,
            cursor,
        };
    }
    let found = sought.cursor;
    Outcome {
        agreed: question.number == 0
            && found.place == Place::Seeked(key.len())
            && holds(&found.key, key),
        number,
        cursor: found,
    }
}

// Whether the cursor is where the step should leave it: as it was, at the entry, or at an end with no key.
fn moved(before: &Cursor, after: &Cursor, key: &[u8], question: Question, end: Place) -> bool {
    if question.number != 0 {
        return *before == *after;
    }
    let place = if question.value == 0 {
        end
    } else {
        Place::At(key.len())
    };
    after.place == place && holds(&after.key, key)
}

fn stepped(before: Cursor, after: Stepped, key: &[u8], question: Question, end: Place) -> Outcome {
    let step = after.step;
    let cursor = after.cursor;
    let number = refusal::number(step);
    let said = number == question.number && value_of(step) == question.value;
    Outcome {
        agreed: said && moved(&before, &cursor, key, question, end),
        number,
        cursor,
    }
}

fn answer(store: &[u8], key: &[u8], cursor: Cursor, question: Question) -> Outcome {
    match question.kind {
        0 => look_up(store, key, cursor, question),
        1 => put(key, question),
        2 => seek(key, cursor, question),
        3 => stepped(
            cursor,
            iter::forward(store, cursor),
            key,
            question,
            Place::End,
        ),
        _ => stepped(
            cursor,
            iter::backward(store, cursor),
            key,
            question,
            Place::Start,
        ),
    }
}

// Asks all questions of the block from `from` on.
pub fn ask(store: &[u8], block: &[u8], from: usize, tally: Tally) -> Tally {
    let questions = lists::number(block, from, 2) as usize;
    let mut counted = tally;
    let mut cursor = Cursor {
        place: Place::Start,
        key: [0u8; 288],
    };
    let mut at = lists::place(block, from, 2).end;
    for _ in 0..questions {
        let question = Question {
            kind: lists::byte(block, at),
            number: lists::byte(block, at + 1) as u32,
            value: lists::number(block, at + 2, 8),
        };
        let key = lists::part(block, at + 10);
        let outcome = answer(store, &block[key.start..key.end], cursor, question);
        counted = counted.with(Verdict {
            agreed: outcome.agreed,
            number: outcome.number,
        });
        cursor = outcome.cursor;
        at = key.end;
    }
    counted
}
