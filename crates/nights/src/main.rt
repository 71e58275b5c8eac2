// Those of 01's known nights that concern a tree, on a store: after each batch what it answered, the tree and the free
// chain. The file stdout has what 01 says of them.
#![tactic(auto)]

mod batch;
mod shape;

use batch::Answer;
use std::io;
use std::io::Write;

// 01's store of five slots: 24 + 2,560 × 5 bytes.
const FIVE_SLOTS: usize = 12824;

const TWO_SLOTS: usize = 5144;

const TO_NINE: [u8; 9] = [1, 2, 3, 4, 5, 6, 7, 8, 9];

// A night's name, and a store of so many empty slots; what is printed tells if there is none.
fn begin<W: Write>(out: &mut W, night: &str, store: &mut [u8], count: u32) -> io::Result<()> {
    writeln!(out, "-- {night}")?;
    if slots::format(store, count).is_err() {
        writeln!(out, "no store")?;
    }
    Ok(())
}

fn say_answer<W: Write>(out: &mut W, answer: &Answer) -> io::Result<()> {
    lists::say(out, b"answer ", answer.number as u64)?;
    lists::say(out, b", applied ", answer.applied as u64)?;
    out.write_all(b"\n")
}

// A batch of sets and then dereferences, and what the store holds then.
fn night<W: Write>(out: &mut W, store: &mut [u8], sets: &[u8], removals: &[u8]) -> io::Result<()> {
    let answer = batch::apply(store, sets, removals);
    say_answer(out, &answer)?;
    shape::say_tree(out, store)?;
    shape::say_free(out, store)
}

fn one_to_nine<W: Write>(out: &mut W) -> io::Result<()> {
    let mut store = [0u8; FIVE_SLOTS];
    begin(out, "1 to 9 set", &mut store, 5)?;
    night(out, &mut store, &TO_NINE, b"")
}

fn five_last<W: Write>(out: &mut W) -> io::Result<()> {
    let mut store = [0u8; FIVE_SLOTS];
    begin(out, "1..4,6..9, then 5", &mut store, 5)?;
    night(out, &mut store, b"\x01\x02\x03\x04\x06\x07\x08\x09", b"")?;
    night(out, &mut store, b"\x05", b"")
}

fn in_two_slots<W: Write>(out: &mut W) -> io::Result<()> {
    let mut store = [0u8; TWO_SLOTS];
    begin(out, "1 to 9 as one batch in two slots", &mut store, 2)?;
    night(out, &mut store, &TO_NINE, b"")
}

fn remove_nine<W: Write>(out: &mut W) -> io::Result<()> {
    let mut store = [0u8; FIVE_SLOTS];
    begin(out, "from that tree, remove 9", &mut store, 5)?;
    night(out, &mut store, &TO_NINE, b"")?;
    night(out, &mut store, b"", b"\x09")
}

fn remove_five<W: Write>(out: &mut W) -> io::Result<()> {
    let mut store = [0u8; FIVE_SLOTS];
    begin(out, "remove 5", &mut store, 5)?;
    night(out, &mut store, &TO_NINE, b"")?;
    night(out, &mut store, b"", b"\x05")
}

fn remove_one<W: Write>(out: &mut W) -> io::Result<()> {
    let mut store = [0u8; FIVE_SLOTS];
    begin(out, "with 10 added, remove 1", &mut store, 5)?;
    night(out, &mut store, &TO_NINE, b"")?;
    night(out, &mut store, b"\x0a", b"")?;
    night(out, &mut store, b"", b"\x01")
}

fn set_then_del<W: Write>(out: &mut W) -> io::Result<()> {
    let mut store = [0u8; FIVE_SLOTS];
    begin(out, "set then del of one key in one batch", &mut store, 5)?;
    night(out, &mut store, b"\x01", b"\x01")
}

fn main(rt: HostRuntime) -> io::Result<()> {
    let out = &mut io::writer(&rt);
    one_to_nine(out)?;
    five_last(out)?;
    in_two_slots(out)?;
    remove_nine(out)?;
    remove_five(out)?;
    remove_one(out)?;
    set_then_del(out)
}
