// The store for programs in C and Rust: its functions on numbers and lent slices. Each passes on what the function that it calls
// answers. Nothing is decided here, and how an answer, a cursor and a node lie in lent numbers is told by the crate `lent`.
#![tactic(auto)]

ghost use Rattle.std.specs.Prelude.{◌≡◌};
ghost use Rattle.node.specs.Chain.{child_of};
ghost use Rattle.codec.specs.Layout.{places_of};
ghost use Rattle.iter.specs.Walk.{lookup_of};
ghost use Rattle.iter.specs.Cursor.{sought_of, forward_of, backward_of};
ghost use Rattle.lent.specs.Lent.{cursor_of, Steps, within};
ghost use Rattle.capi.specs.Face.{FormatsBy, AuditsBy, BatchesBy, ParsesBy, RunsLinesBy, LooksUp, Seeks, ReadsNode, ReadsSeparator, ReadsStrict, ReadsSeparatorStrict, lent_node, WritesNode};

use codec::Places;
use iter::Cursor;
use lent::{
    answer_step, child_at, children_of, found_value, is_found, leave, length_at, place_of,
    start_at, value_at, values_of,
};
use node::Node;

pub fn cikolaro_format(store: &mut [u8], count: u32) -> u32
    ensures { FormatsBy store.old count result store.new }
{
    let formatted = cikolaro::format(store, count);
    refusal::number(formatted)
}

pub fn cikolaro_audit(store: &[u8], marks: &mut [u64], reached: &mut usize) -> u32
    ensures { AuditsBy store.now marks.old result marks.new reached.new }
{
    let verdict = cikolaro::audit(store, marks);
    *reached = verdict.unwrap_or(0);
    refusal::number(verdict)
}

pub fn cikolaro_batch(
    store: &mut [u8],
    marks: &mut [u64],
    records: &[u8],
    applied: &mut usize,
) -> u32
    ensures { BatchesBy store.old marks.old records.now result store.new marks.new applied.new }
{
    let batched = cikolaro::batch(store, marks, records);
    *applied = batched.applied;
    let answer = batched.answer;
    refusal::number(answer)
}

// ---- house lines

pub fn cikolaro_parse(text: &[u8], records: &mut [u8], len: &mut usize) -> u32
    ensures { ParsesBy text.now records.old result records.new len.new }
{
    let parsed = cikolaro::parse(text, records);
    *len = parsed.unwrap_or(0);
    refusal::number(parsed)
}

pub fn cikolaro_run_lines(
    store: &mut [u8],
    marks: &mut [u64],
    records: &mut [u8],
    text: &[u8],
    applied: &mut usize,
) -> u32
    ensures { RunsLinesBy store.old marks.old records.old text.now result store.new marks.new records.new applied.new }
{
    let ran = cikolaro::run_lines(store, marks, records, text);
    *applied = ran.applied;
    refusal::number(ran.answer)
}

// ---- lookup

pub fn cikolaro_lookup(store: &[u8], key: &[u8], present: &mut u32, value: &mut u64) -> u32
    ensures { LooksUp (lookup_of store.now key.now) result present.new value.new }
{
    let looked = cikolaro::lookup(store, key);
    *present = is_found(looked);
    *value = found_value(looked);
    refusal::number(looked)
}

// ---- the cursor

pub fn cikolaro_seek(key: &[u8], kind: &mut u32, len: &mut usize, held: &mut [u8; 288]) -> u32
    ensures { Seeks (sought_of key.now) kind.old len.old held.old result kind.new len.new held.new }
{
    let sought = cikolaro::seek(key);
    let number = sought.number();
    leave(number, sought.cursor, kind, len, held);
    number
}

// This and `cikolaro_backward` differ in the step: a function over both, with the step as a closure, would have a bound, a
// `requires` and an `ensures` by `F.post` in place of these two lines.
pub fn cikolaro_forward(
    store: &[u8],
    kind: &mut u32,
    len: &mut usize,
    held: &mut [u8; 288],
    present: &mut u32,
    value: &mut u64,
) -> u32
    ensures { Steps (forward_of store.now (cursor_of kind.old len.old held.old)) kind.old len.old held.old result kind.new len.new held.new present.new value.new }
{
    let place = place_of(*kind, *len);
    let key = *held;
    let stepped = cikolaro::forward(store, Cursor { place, key });
    answer_step(stepped, kind, len, held, present, value)
}

pub fn cikolaro_backward(
    store: &[u8],
    kind: &mut u32,
    len: &mut usize,
    held: &mut [u8; 288],
    present: &mut u32,
    value: &mut u64,
) -> u32
    ensures { Steps (backward_of store.now (cursor_of kind.old len.old held.old)) kind.old len.old held.old result kind.new len.new held.new present.new value.new }
{
    let from = place_of(*kind, *len);
    let key = *held;
    let stepped = cikolaro::backward(store, Cursor { place: from, key });
    answer_step(stepped, kind, len, held, present, value)
}

// ---- node bytes, read where they stand: keys are named as parts of them

pub fn cikolaro_node_read(bytes: &[u8], count: &mut usize) -> u32
    ensures { ReadsNode (places_of bytes.now) result count.new }
{
    let places = Places::read(bytes);
    *count = places.count;
    let ending = places.ending;
    ending.number()
}

pub fn cikolaro_node_child(bytes: &[u8], index: usize) -> u64
    ensures { result ≡ (within 8 (places_of bytes.now).children index (child_of 0)).0 }
{
    child_at(Places::read(bytes), index)
}

pub fn cikolaro_node_separator(
    bytes: &[u8],
    index: usize,
    start: &mut usize,
    len: &mut usize,
    value: &mut u64,
) -> u32
    ensures { ReadsSeparator (places_of bytes.now) index result start.new len.new value.new }
{
    let places = Places::read(bytes);
    *start = start_at(places, index);
    *len = length_at(places, index);
    *value = value_at(places, index);
    let ended = places.ending;
    ended.number()
}

// ---- the same by the strict reading

pub fn cikolaro_node_read_strict(bytes: &[u8], count: &mut usize, place: &mut usize) -> u32
    ensures { ReadsStrict bytes.now result count.new place.new }
{
    let standard = Places::read_standard(bytes);
    *count = standard.count;
    let stopped = codec::strict_end(bytes);
    *place = stopped.at;
    let ending = stopped.ending;
    ending.number()
}

pub fn cikolaro_node_separator_strict(
    bytes: &[u8],
    index: usize,
    start: &mut usize,
    len: &mut usize,
    value: &mut u64,
) -> u32
    ensures { ReadsSeparatorStrict bytes.now index result start.new len.new value.new }
{
    let held = Places::read_standard(bytes);
    *start = start_at(held, index);
    *len = length_at(held, index);
    *value = value_at(held, index);
    let stopped = codec::strict_end(bytes);
    let ended = stopped.ending;
    ended.number()
}

// ---- a node to be written

pub fn cikolaro_node_write(
    count: usize,
    children: &[u64; 9],
    values: &[u64; 8],
    lens: &[usize; 8],
    keys: &[u8; 2304],
    dst: &mut [u8],
    written: &mut usize,
) -> u32
    ensures { WritesNode (lent_node count children.now values.now lens.now keys.now) dst.old result dst.new written.new }
{
    let held_children = children_of(*children);
    let held_values = values_of(*values);
    let held_lens = *lens;
    let held_keys = *keys;
    let wrote = cikolaro::write(
        Node {
            count,
            children: held_children,
            values: held_values,
            lens: held_lens,
            keys: held_keys,
        },
        dst,
    );
    *written = wrote.unwrap_or(0);
    refusal::number(wrote)
}
