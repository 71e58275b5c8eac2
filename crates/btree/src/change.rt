// Change, insert and removal: from a node down to the leaf where the key belongs, and back up with what came of it. On the way
// down a node is only searched; one is built where it is edited.
// Child and depth travel together and stay two parameters: each level would make a new struct of them, which reads no plainer
// (`Below { child: sight.child, depth: depth - 1 }` for `sight.child, depth - 1`), and the leaf's functions take no depth.
ghost use Rattle.std.specs.Prelude.{suc, MatchOption};
ghost use Rattle.outcome.specs.RemoveMirror.{remove_last_m};
ghost use Rattle.outcome.specs.Outcome.{Settles, Replaces, Lasts, Inserts, Removes};

use insertion::{insert_leaf, insert_node, set_value};
use node::{Child, Index, Value};
use outcome::{BadBytes, Came, Taken};
use removal::{put_separator, rebalance, remove_end, remove_here};
use search::Turn;

// What the node of a depth makes of what came of its child at index i.
fn settle(
    store: &mut [u8],
    child: Child,
    depth: u32,
    i: Index,
    below: Came,
) -> Result<Came, BadBytes>
    ensures { Settles depth store.old child.0 i.0 below result store.new }
{
    match below {
        Came::Plain => Ok(Came::Plain),
        Came::Split { right, separator } => {
            insert_node(store, child, depth, i, separator, Child(right.0 as u64))
        }
        Came::Low => rebalance(store, child, depth, i),
    }
}

// The largest entry below takes the place of the separator at index i.
fn replace(
    store: &mut [u8],
    child: Child,
    depth: u32,
    i: Index,
    last: Taken,
) -> Result<Came, BadBytes>
    ensures { Replaces depth store.old child.0 i.0 last result store.new }
{
    put_separator(store, child, depth, i, last.separator)?;
    settle(store, child, depth, i, last.came)
}

// "Taking the largest key goes down by itself until depth is 0."
fn remove_last(store: &mut [u8], child: Child, depth: u32) -> Result<Taken, BadBytes>
    ensures { Lasts (remove_last_m (suc depth) store.old child.0) result store.new }
{
    let whole = &store[..];
    let sight = slots::search_at(whole, child, depth, &whole[0..0], Turn::Last);
    if !sight.good {
        return Err(BadBytes);
    }
    if depth == 0 {
        return remove_end(store, child);
    }
    let below = remove_last(store, sight.child, depth - 1)?;
    let came = settle(store, child, depth, Index(sight.count), below.came)?;
    Ok(Taken {
        came,
        separator: below.separator,
    })
}

// A set of a value, or a dereference. 01 names the form: change, insert and on_existing call each other while depth falls.
#[cycle(change_insert_on_existing)]
pub fn change(
    store: &mut [u8],
    child: Child,
    depth: u32,
    key: &[u8],
    value: Option<Value>,
) -> Result<Came, BadBytes>
    ensures { MatchOption value (Removes depth store.old child.0 key.now result store.new) (λ v. Inserts depth store.old child.0 key.now v.0 result store.new) }
{
    match value {
        Some(value) => insert(store, child, depth, key, value),
        None => on_existing(store, child, depth, key),
    }
}

// "Set, present: value replaced. Set, absent: into the leaf."
#[cycle(change_insert_on_existing)]
fn insert(
    store: &mut [u8],
    child: Child,
    depth: u32,
    key: &[u8],
    value: Value,
) -> Result<Came, BadBytes>
    ensures { Inserts depth store.old child.0 key.now value.0 result store.new }
{
    let sight = slots::search_at(store, child, depth, key, Turn::NotBelow);
    if !sight.good {
        return Err(BadBytes);
    }
    let found = sight.found;
    if found.at {
        return set_value(store, child, depth, found.index, value);
    }
    if depth == 0 {
        return insert_leaf(store, child, found.index, key, value);
    }
    match change(store, sight.child, depth - 1, key, Some(value))? {
        Came::Plain => {}
        below => return settle(store, child, depth, found.index, below),
    }
    Ok(Came::Plain)
}

// "Dereference, present: removed; in an inner node the largest key of the left child takes its place. Absent: nothing."
#[cycle(change_insert_on_existing)]
fn on_existing(store: &mut [u8], child: Child, depth: u32, key: &[u8]) -> Result<Came, BadBytes>
    ensures { Removes depth store.old child.0 key.now result store.new }
{
    let sight = slots::search_at(store, child, depth, key, Turn::NotBelow);
    if !sight.good {
        return Err(BadBytes);
    }
    let found = sight.found;
    if !found.at {
        if depth == 0 {
            return Ok(Came::Plain);
        }
        match change(store, sight.child, depth - 1, key, None)? {
            Came::Plain => {}
            below => return settle(store, child, depth, found.index, below),
        }
        return Ok(Came::Plain);
    }
    if depth == 0 {
        return remove_here(store, child, found.index);
    }
    let last = remove_last(store, sight.child, depth - 1)?;
    replace(store, child, depth, found.index, last)
}
