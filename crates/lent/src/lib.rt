// How an answer, a cursor and a node lie in lent numbers. The functions for C and Rust (crates `capi` and `capi_c`) leave what they
// answer by these, and take by these what they are lent.
#![tactic(auto)]

ghost use Rattle.std.specs.Prelude.{◌≡◌, map};
ghost use Rattle.node.specs.Chain.{value_of, child_of};
ghost use Rattle.lent.specs.Lent.{present_of, found_value, kind_of, place_of, Holds, Steps, within};

use codec::Places;
use iter::{Cursor, Place, Stepped, WalkError};
use node::{Child, Value};
use std::array;

// ---- what a lookup or a step answers: 1 and the value, or 0 and 0 where there is none

pub fn is_found(answer: Result<Option<Value>, WalkError>) -> u32
    ensures { result ≡ present_of answer }
{
    match answer {
        Ok(Some(_)) => 1,
        _ => 0,
    }
}

pub fn found_value(answer: Result<Option<Value>, WalkError>) -> u64
    ensures { result ≡ found_value answer }
{
    match answer {
        Ok(Some(value)) => value.0,
        _ => 0,
    }
}

// ---- the cursor

// Kinds of places are numbers here, and not an enum, since so they lie in a C program's memory: `kind_of`, `place_of`.
const START: u32 = 0;

const END: u32 = 1;

const AT: u32 = 2;

const SEEKED: u32 = 3;

// A length that no key has.
const TOO_LONG: usize = 289;

pub fn kind_of(place: Place) -> u32
    ensures { result ≡ kind_of place }
{
    match place {
        Place::Start => START,
        Place::End => END,
        Place::At(_) => AT,
        Place::Seeked(_) => SEEKED,
    }
}

// The place that a kind and a length name. A kind above 3 names none: it becomes a place that every step refuses.
pub fn place_of(kind: u32, len: usize) -> Place
    ensures { result ≡ place_of kind len }
{
    match kind {
        START => Place::Start,
        END => Place::End,
        AT => Place::At(len),
        SEEKED => Place::Seeked(len),
        _ => Place::At(TOO_LONG),
    }
}

// Leaves the cursor in the lent numbers and bytes where the answer's number is 0; else they stay.
pub fn leave(number: u32, cursor: Cursor, kind: &mut u32, len: &mut usize, held: &mut [u8; 288])
    ensures { Holds number cursor kind.old len.old held.old kind.new len.new held.new }
{
    if number == 0 {
        *kind = kind_of(cursor.place);
        *len = cursor.place.length();
        // by a local: `*held = cursor.key` was tried, and gets no generated proof
        let key = cursor.key;
        *held = key;
    }
}

// Leaves a step's answer in the lent numbers and bytes.
pub fn answer_step(
    stepped: Stepped,
    kind: &mut u32,
    len: &mut usize,
    held: &mut [u8; 288],
    present: &mut u32,
    value: &mut u64,
) -> u32
    ensures { Steps stepped kind.old len.old held.old result kind.new len.new held.new present.new value.new }
{
    let step = stepped.step;
    let number = refusal::number(step);
    *present = is_found(step);
    *value = found_value(step);
    leave(number, stepped.cursor, kind, len, held);
    number
}

// ---- node bytes, read where they stand: keys are named as parts of them

pub fn start_at(places: Places, i: usize) -> usize
    ensures { result ≡ within 7 places.starts i 0 }
{
    places.starts.get(i).copied().unwrap_or(0)
}

pub fn length_at(places: Places, i: usize) -> usize
    ensures { result ≡ within 7 places.lens i 0 }
{
    places.lens.get(i).copied().unwrap_or(0)
}

pub fn value_at(places: Places, i: usize) -> u64
    ensures { result ≡ (within 7 places.values i (value_of 0)).0 }
{
    places.values.get(i).copied().unwrap_or(Value(0)).0
}

pub fn child_at(places: Places, i: usize) -> u64
    ensures { result ≡ (within 8 places.children i (child_of 0)).0 }
{
    places.children.get(i).copied().unwrap_or(Child(0)).0
}

// ---- a node to be written

pub fn children_of(addresses: [u64; 9]) -> [Child; 9]
    ensures { result ≡ map child_of addresses }
{
    array::from_fn(|i| Child(addresses[i]))
}

pub fn values_of(addresses: [u64; 8]) -> [Value; 8]
    ensures { result ≡ map value_of addresses }
{
    array::from_fn(|i| Value(addresses[i]))
}
