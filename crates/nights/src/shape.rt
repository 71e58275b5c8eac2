// The tree and the free chain as the store's bytes have them, by 01's layout. Nothing here calls the crates that are shown:
// their reading could agree with a fault of their writing.
ghost use Rattle.std.specs.Prelude.{◌≤◌, ◌<◌};

use std::io;
use std::io::Write;

// Where the header's fields stand.
const DEPTH_AT: usize = 8;

const COUNT_AT: usize = 12;

const FIRST_FREE_AT: usize = 16;

// A separator with a key of one byte, and the child behind it: 8 + 1 + 1 + 8.
const STEP: usize = 18;

// Where a slot's bytes begin: "24 header bytes [...]. Then slots 1 to count, 2,560 bytes each."
fn start(slot: u64) -> usize
    ensures { result < 200000000 }
{
    if 1 <= slot && slot <= 65535 {
        24 + 2560 * (slot as usize - 1)
    } else {
        0
    }
}

// How many separators the node in a slot has: its length is that of a child, and of a step for each.
fn separators(store: &[u8], slot: u64) -> usize
    ensures { result ≤ 8 }
{
    let len = lists::number(store, start(slot), 4) as usize;
    (len.saturating_sub(8) / STEP).min(8)
}

fn child(store: &[u8], slot: u64, i: usize) -> u64
    requires { i ≤ 8 }
{
    lists::number(store, start(slot) + 4 + STEP * i, 8)
}

fn key(store: &[u8], slot: u64, i: usize) -> u64
    requires { i ≤ 8 }
{
    lists::byte(store, start(slot) + 21 + STEP * i) as u64
}

// A node's slot and its keys.
fn say_node<W: Write>(out: &mut W, store: &[u8], slot: u64) -> io::Result<()> {
    lists::say(out, b"slot ", slot)?;
    out.write_all(b":")?;
    for i in 0..separators(store, slot) {
        lists::say(out, b" ", key(store, slot, i))?;
    }
    out.write_all(b"\n")
}

// The children of the root behind its first.
fn say_others<W: Write>(out: &mut W, store: &[u8], root: u64) -> io::Result<()> {
    for i in 0..separators(store, root) {
        say_node(out, store, child(store, root, i + 1))?;
    }
    Ok(())
}

// The root behind its first child and before the others. No night's tree is deeper, and one that is shows it by its depth.
// An error is the writer's own; what was written before it stays written.
pub fn say_tree<W: Write>(out: &mut W, store: &[u8]) -> io::Result<()> {
    let root = lists::number(store, 0, 8);
    let depth = lists::number(store, DEPTH_AT, 4);
    lists::say(out, b"root ", root)?;
    lists::say(out, b", depth ", depth)?;
    out.write_all(b"\n")?;
    if depth == 0 {
        return say_node(out, store, root);
    }
    say_node(out, store, child(store, root, 0))?;
    say_node(out, store, root)?;
    say_others(out, store, root)
}

// "A free slot: u32 0, u32 next free slot (0 last)"; a chain that doesn't end is cut behind as many slots as there are.
// An error is the writer's own; what was written before it stays written.
pub fn say_free<W: Write>(out: &mut W, store: &[u8]) -> io::Result<()> {
    out.write_all(b"free:")?;
    let count = lists::number(store, COUNT_AT, 4);
    let mut slot = lists::number(store, FIRST_FREE_AT, 4);
    for _ in 0..count {
        if slot == 0 {
            break;
        }
        lists::say(out, b" ", slot)?;
        slot = lists::number(store, start(slot) + 4, 4);
    }
    out.write_all(b"\n")
}
