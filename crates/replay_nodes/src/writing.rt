// A case of node_writings.bin: a node, and its standard form.
//
//     u8       separators n (0 to 8)
//     u8       children given c (0 to 9); the others are 0
//     c × u64  the children
//     n × (u64 value, part key)
//     part     the node in standard form
ghost use Rattle.std.specs.Prelude.{◌≤◌, length};

use codec::WriteError;
use node::{Child, Node, Value};

// What stands in a destination before a writing.
const MARK: u8 = 0xA5;

// A node as the block gives it, and where the block goes on.
#[derive(Clone, Copy)]
struct Case {
    node: Node,
    at: usize,
}

// The byte at `at`, if it is at most this.
fn small(block: &[u8], at: usize, most: usize) -> usize
    ensures { result ≤ most }
{
    let n = lists::byte(block, at);
    if n <= most { n } else { 0 }
}

fn children(block: &[u8]) -> [Child; 9] {
    let count = small(block, 1, 9);
    let mut children = [Child(0); 9];
    for (i, child) in children.iter_mut().take(count).enumerate() {
        *child = Child(lists::number(block, 2 + 8 * i, 8));
    }
    children
}

// Copies a key to a place of the key array that has room for it.
fn put(keys: &mut [u8; 2304], at: usize, key: &[u8])
    requires { at ≤ 2304 }
{
    if key.len() <= 2304 - at {
        keys[at..at + key.len()].copy_from_slice(key);
    }
}

// Places that no separator uses hold a value, a length and key bytes that would be refused or seen if they were used.
fn given(block: &[u8]) -> Case {
    let count = small(block, 0, 8);
    let mut values = [Value(0); 8];
    let mut lens = [289usize; 8];
    let mut keys = [MARK; 2304];
    let mut at = 2 + 8 * small(block, 1, 9);
    for i in 0..count {
        let key = lists::part(block, at + 8);
        values[i] = Value(lists::number(block, at, 8));
        lens[i] = key.end - key.start;
        put(&mut keys, 288 * i, &block[key.start..key.end]);
        at = key.end;
    }
    Case {
        node: Node {
            count,
            children: children(block),
            values,
            lens,
            keys,
        },
        at,
    }
}

fn write_to(node: Node, dst: &mut [u8], room: usize) -> Result<usize, WriteError>
    requires { room ≤ length dst.old }
{
    codec::write(node, &mut dst[..room])
}

// Whether a writing into so much room gives the form and leaves the mark everywhere else; with less room than the form
// needs it has to be refused with 10.
fn writes(node: Node, form: &[u8], room: usize) -> bool {
    let mut dst = [MARK; 2560];
    if 2560 < room {
        return false;
    }
    let written = write_to(node, &mut dst, room);
    let len = form.len();
    if room < len {
        if written != Err(WriteError::ShortDestination) {
            return false;
        }
        return lists::filled(&dst, 0, MARK);
    }
    if written != Ok(len) {
        return false;
    }
    if &dst[..len] != form {
        return false;
    }
    lists::filled(&dst, len, MARK)
}

// With more room than the form needs, with just enough, and with one byte less.
fn writes_in_all(node: Node, form: &[u8]) -> bool {
    let len = form.len();
    len != 0 && writes(node, form, 2560) && writes(node, form, len) && writes(node, form, len - 1)
}

pub fn agrees(block: &[u8]) -> bool {
    let case = given(block);
    let form = lists::part(block, case.at);
    form.end == block.len() && writes_in_all(case.node, &block[form.start..form.end])
}
