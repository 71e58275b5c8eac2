// A case of node_readings.bin: node bytes, and what each of two readings of them gives.
//
//     part     the node bytes
//     the lenient reading:
//     u8       the number
//     only if the number is 0:
//     u8       separators n (0 to 8)
//     (n+1) × u64   the children
//     n × (u64 value, u16 start, u16 length)
//     the strict reading:
//     u8       the number
//     u16      the place
//
// Below, `told` begins with a reading's number: it is all behind the node bytes, or for a refused strict reading what is told
// of that one.
ghost use Rattle.std.specs.Prelude.{◌≤◌, ◌<◌, length};
ghost use Rattle.lists.specs.Within.{Within};

use lists::{Span, Verdict};
use node::{Child, Index, Node, Value};

// What is told of a strict reading has this length.
const STRICT_LENGTH: usize = 3;

// How node bytes are read.
#[derive(Clone, Copy)]
pub enum Rule {
    Lenient,
    Strict,
}

// How many separators are told; a refused reading has none.
fn separators(told: &[u8]) -> usize
    ensures { result ≤ 8 }
{
    if 0 < lists::byte(told, 0) {
        return 0;
    }
    let n = lists::byte(told, 1);
    if n < 9 { n } else { 0 }
}

// How many children are told; a refused reading has none.
fn children(told: &[u8]) -> usize
    ensures { result ≤ 9 }
{
    if 0 < lists::byte(told, 0) {
        return 0;
    }
    separators(told) + 1
}

// How long what is told of the lenient reading is; the strict one's number stands behind it.
fn lenient_length(told: &[u8]) -> usize
    ensures { result ≤ 170 }
{
    if 0 < lists::byte(told, 0) {
        return 1;
    }
    10 + 20 * separators(told)
}

// Whether both readings are told, and nothing behind them.
fn is_whole(told: &[u8]) -> bool {
    told.len() == lenient_length(told) + STRICT_LENGTH
}

// Child i as told, 0 where none is.
fn child(told: &[u8], i: usize) -> u64 {
    if i < children(told) {
        lists::number(told, 2 + 8 * i, 8)
    } else {
        0
    }
}

// The number of width bytes that stand `from` behind the start of separator i as told, 0 where none is.
fn field(told: &[u8], i: usize, from: usize, width: usize) -> u64
    requires { from < 12 }
{
    let n = separators(told);
    if i < n {
        lists::number(told, 10 + 8 * n + 12 * i + from, width)
    } else {
        0
    }
}

// Where in the node bytes the key of separator i stands, as told.
fn key(bytes: &[u8], told: &[u8], i: usize) -> Span
    ensures { Within bytes.now result }
{
    let start = field(told, i, 8, 2) as usize;
    let len = field(told, i, 10, 2) as usize;
    lists::place(bytes, start, len)
}

fn same_children(children: &[Child; 9], told: &[u8]) -> bool {
    children
        .iter()
        .enumerate()
        .all(|(i, given)| given.0 == child(told, i))
}

fn same_separators(values: &[Value; 8], lens: &[usize; 8], told: &[u8]) -> bool {
    values
        .iter()
        .enumerate()
        .all(|(i, value)| value.0 == field(told, i, 0, 8))
        && lens
            .iter()
            .enumerate()
            .all(|(i, len)| *len as u64 == field(told, i, 10, 2))
}

// Whether a place for a key holds this one and zeros behind it.
fn holds(place: &[u8], key: &[u8]) -> bool {
    place.starts_with(key) && lists::filled(place, key.len(), 0)
}

// The keys in the node's own array.
fn same_keys(keys: &[u8; 2304], bytes: &[u8], told: &[u8]) -> bool {
    for (i, place) in keys.chunks_exact(288).enumerate() {
        let span = key(bytes, told, i);
        if !holds(place, &bytes[span.start..span.end]) {
            return false;
        }
    }
    true
}

fn key_found(bytes: &[u8], i: usize, rule: Rule) -> &[u8] {
    match rule {
        Rule::Lenient => codec::key(bytes, Index(i)),
        Rule::Strict => codec::key_strict(bytes, Index(i)),
    }
}

// The keys as parts of the node bytes; the ninth is of no separator.
fn same_parts(bytes: &[u8], told: &[u8], rule: Rule) -> bool {
    for i in 0..9 {
        let span = key(bytes, told, i);
        if key_found(bytes, i, rule) != &bytes[span.start..span.end] {
            return false;
        }
    }
    true
}

fn same_node(node: &Node, bytes: &[u8], told: &[u8]) -> bool {
    node.count == separators(told)
        && same_children(&node.children, told)
        && same_separators(&node.values, &node.lens, told)
        && same_keys(&node.keys, bytes, told)
}

// What both readings answer: the number, the node, and the keys one by one.
fn same_answer(number: u32, node: &Node, bytes: &[u8], told: &[u8], rule: Rule) -> bool {
    number as usize == lists::byte(told, 0)
        && same_node(node, bytes, told)
        && same_parts(bytes, told, rule)
}

fn check_lenient(bytes: &[u8], told: &[u8]) -> Verdict {
    let reading = codec::read(bytes);
    let number = reading.ending.number();
    Verdict {
        agreed: is_whole(told) && same_answer(number, &reading.node, bytes, told, Rule::Lenient),
        number,
    }
}

// Where the answer of the strict reading is told whose number stands at a place: accepted it gives what the lenient one gives,
// refused nothing but its number.
fn strict_start(told: &[u8], at: usize) -> usize
    ensures { result ≤ length told.now }
{
    if lists::byte(told, at) == 0 {
        return 0;
    }
    let span = lists::place(told, at, STRICT_LENGTH);
    span.start
}

fn check_strict(bytes: &[u8], told: &[u8]) -> Verdict {
    let reading = codec::read_strict(bytes);
    let number = reading.ending.number();
    let at = lenient_length(told);
    let start = strict_start(told, at);
    let same_place = reading.at as u64 == lists::number(told, at + 1, 2);
    let same = same_place
        && same_answer(number, &reading.node, bytes, &told[start..], Rule::Strict);
    Verdict {
        agreed: is_whole(told) && same,
        number,
    }
}

pub fn check(block: &[u8], rule: Rule) -> Verdict {
    let span = lists::part(block, 0);
    let bytes = &block[span.start..span.end];
    let told = &block[span.end..];
    match rule {
        Rule::Lenient => check_lenient(bytes, told),
        Rule::Strict => check_strict(bytes, told),
    }
}
