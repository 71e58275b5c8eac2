// A set: how many slots it needs, and a separator taken in by a node, up to the root.
#![tactic(auto)]

ghost use Rattle.std.specs.Prelude.{◌≡◌, ◌≤◌, ◌<◌, length};
ghost use Rattle.node.specs.Chain.{longest_key};
ghost use Rattle.codec.specs.Splice.{splice_at};
ghost use Rattle.slots.specs.Limits.{most_depth};
ghost use Rattle.slots.specs.Layout.{depth_of};
ghost use Rattle.slots.specs.Code.{read_node_at};
ghost use Rattle.outcome.specs.Mirror as M;
ghost use Rattle.outcome.specs.Mirror.{insert_node_m, set_value_m, grow_m};
ghost use Rattle.outcome.specs.RunMirror.{start_m, slots_needed_m};
ghost use Rattle.outcome.specs.Outcome.{of_came, of_need, FitCame, ForWritten, Makes};
ghost use Rattle.insertion.specs.Insertion.{is_node_of, takes_at, has_at, EndWithin, SplitsFull, TakesIn};

use codec::Places;
use node::{Child, Index, Node, Separator, Slot, Value};
use outcome::{BadBytes, Came};
use search::Turn;

// ---- what a node is asked before it is changed

// Whether the places are those of a node of this depth. Refused bytes have no child, so they pass the child test of a leaf.
fn is_node(places: &Places, depth: u32) -> bool
    ensures { result ≡ is_node_of depth places.now }
{
    slots::fits_depth(places.children, places.count, depth) && places.ending.is_accepted()
}

// Whether that node takes a separator with a key of so many bytes at an index.
fn takes(places: &Places, depth: u32, i: Index, len: usize) -> bool
    ensures { result ≡ takes_at places.now depth i.0 len }
{
    i.0 <= places.count && len <= 288 && is_node(places, depth)
}

// Whether that node has a separator at an index.
fn has_separator(places: &Places, depth: u32, i: Index) -> bool
    ensures { result ≡ has_at places.now depth i.0 }
{
    i.0 < places.count && is_node(places, depth)
}

// Where the separator at an index begins in the bytes that the places were read from.
fn place_of(places: &Places, i: Index) -> usize
    requires { (i.0 ≤ 8) × EndWithin places.now }
    ensures { result ≡ splice_at places.now i.0 }
{
    if i.0 == 0 {
        return 8;
    }
    let before = i.0 - 1;
    places.starts[before] + places.lens[before] + 8
}

// ---- a separator taken in by the node above

// The full node of a child with one separator more, in two slots; bad where no second one is free.
fn split_full(
    store: &mut [u8],
    child: Child,
    i: Index,
    key: &[u8],
    value: Value,
    right: Child,
) -> Result<Came, BadBytes>
    ensures { SplitsFull store.old child.0 i.0 (record { key = key.now; val = value.0 }) right.0 result store.new }
{
    let reading = codec::read_standard(slots::node_bytes(store, child));
    let Some(slot) = slots::slot_of(store, child) else {
        return Err(BadBytes);
    };
    let both = reading.node.split(i, Separator::new(key, value), right);
    let Some(second) = slots::take_slot(store) else {
        return Err(BadBytes);
    };
    slots::write_node(store, slot, both.left);
    slots::write_node(store, second, both.right);
    Ok(Came::Split {
        right: second,
        separator: both.middle,
    })
}

// A separator and the child right of it taken in by a node with so many separators, at a place among its bytes; one that is full
// is split.
fn take_in(
    store: &mut [u8],
    child: Child,
    count: usize,
    i: Index,
    place: usize,
    key: &[u8],
    value: Value,
    right: Child,
) -> Result<Came, BadBytes>
    ensures { TakesIn store.old child.0 count i.0 place (record { key = key.now; val = value.0 }) right.0 result store.new }
{
    if 7 < count {
        return split_full(store, child, i, key, value, right);
    }
    let Some(slot) = slots::slot_of(store, child) else {
        return Err(BadBytes);
    };
    slots::insert_bytes(store, slot, place, key, value, right);
    Ok(Came::Plain)
}

// ---- a separator and the child right of it at an index of the node in a slot

// The places are read anew: what was called below the node has written meanwhile.
pub fn insert_node(
    store: &mut [u8],
    child: Child,
    depth: u32,
    i: Index,
    sep: Separator,
    right: Child,
) -> Result<Came, BadBytes>
    ensures { ForWritten sep (λ e. Makes (insert_node_m depth store.old child.0 i.0 e right.0) result store.new) }
{
    let places = slots::read_places(store, child);
    let len = sep.len;
    if !takes(&places, depth, i, len) {
        return Err(BadBytes);
    }
    let place = place_of(&places, i);
    take_in(
        store,
        child,
        places.count,
        i,
        place,
        &sep.key[0..len],
        sep.value,
        right,
    )
}

// The same in a leaf, for a key that is lent: no separator is made of it where it goes in among the bytes.
pub fn insert_leaf(
    store: &mut [u8],
    child: Child,
    i: Index,
    key: &[u8],
    value: Value,
) -> Result<Came, BadBytes>
    ensures { (0 < value.0) → length key.now ≤ longest_key → Makes (insert_node_m 0 store.old child.0 i.0 (record { key = key.now; val = value.0 }) 0) result store.new }
{
    let places = slots::read_places(store, child);
    if !takes(&places, 0, i, key.len()) {
        return Err(BadBytes);
    }
    let place = place_of(&places, i);
    take_in(store, child, places.count, i, place, key, value, Child(0))
}

// "value replaced": among the node's bytes, where it has such a separator.
pub fn set_value(
    store: &mut [u8],
    child: Child,
    depth: u32,
    i: Index,
    value: Value,
) -> Result<Came, BadBytes>
    ensures { (0 < value.0) → Makes (set_value_m i.0 value.0 child.0 store.old (read_node_at depth store.old child.0)) result store.new }
{
    let places = slots::read_places(store, child);
    if !has_separator(&places, depth, i) {
        return Err(BadBytes);
    }
    let place = place_of(&places, i);
    let Some(slot) = slots::slot_of(store, child) else {
        return Err(BadBytes);
    };
    slots::write_value(store, slot, place, value);
    Ok(Came::Plain)
}

// ---- the root

// A root above the two halves of the old one, where it was split.
pub fn grow(
    store: &mut [u8],
    old: Child,
    depth: u32,
    outcome: Result<Came, BadBytes>,
) -> Result<Came, BadBytes>
    ensures { (g : M.Came) → outcome ≡ of_came g → FitCame g → Makes (grow_m old.0 depth store.old g) result store.new }
{
    match outcome? {
        Came::Plain => Ok(Came::Plain),
        Came::Split { right, separator } => new_root(store, old, depth, separator, right),
        // No set comes back low.
        Came::Low => Err(BadBytes),
    }
}

fn new_root(
    store: &mut [u8],
    old: Child,
    depth: u32,
    sep: Separator,
    right: Slot,
) -> Result<Came, BadBytes>
    ensures { ForWritten sep (λ e. Makes (grow_m old.0 depth store.old (M.split e right.0)) result store.new) }
{
    if 6 < depth {
        return Err(BadBytes);
    }
    let Some(slot) = slots::take_slot(store) else {
        return Err(BadBytes);
    };
    let node = Node::empty()
        .set_child(Index(0), old)
        .insert_at(Index(0), sep, Child(right.0 as u64));
    slots::write_node(store, slot, node);
    slots::set_root(store, Child(slot.0 as u64), depth + 1);
    Ok(Came::Plain)
}

// "With no root, an accepted batch, even an empty one, first writes an empty root."
pub fn start(store: &mut [u8])
    ensures { store.new ≡ start_m store.old }
{
    let root = slots::root(store);
    if root.0 != 0 {
        return;
    }
    let Some(slot) = slots::take_slot(store) else {
        return;
    };
    slots::write_node(store, slot, Node::empty());
    slots::set_root(store, Child(slot.0 as u64), 0);
}

// ---- the room test

// How many slots a set of the key needs: the full nodes that stand in a row up to where it goes in, "one more if that run
// takes in the root", none if the key is there.
pub fn slots_needed(store: &[u8], key: &[u8]) -> Result<u32, BadBytes>
    ensures { (depth_of store.now ≤ most_depth) → result ≡ of_need (slots_needed_m store.now key.now) }
{
    let top = slots::depth(store);
    if 7 < top {
        return Err(BadBytes);
    }
    let mut child = slots::root(store);
    let mut run: u32 = 0;
    for depth in (0..top + 1).rev() {
        let sight = slots::search_at(store, child, depth, key, Turn::NotBelow);
        if !sight.good {
            return Err(BadBytes);
        }
        if sight.found.at {
            return Ok(0);
        }
        run = if sight.count < 8 { 0 } else { run + 1 };
        child = sight.child;
    }
    if run == top + 1 {
        return Ok(run + 1);
    }
    Ok(run)
}
