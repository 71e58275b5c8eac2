// Removals: what a node does when a child of it holds fewer than 4.
#![tactic(auto)]

ghost use Rattle.std.specs.Prelude.{◌≡◌, ltb, Ok};
ghost use Rattle.slots.specs.Code.{written_in, read_node_at};
ghost use Rattle.outcome.specs.Outcome.{of_fell, Does, ForWritten, PutsIn, RemovesHere, RemovesEnd};
ghost use Rattle.outcome.specs.RemoveMirror as R;
ghost use Rattle.outcome.specs.RemoveMirror.{flag, rebalance_m, shrink_m};
ghost use Rattle.removal.specs.RemoveCode.{BorrowsLast, BorrowsFirst, Merges, Reads, WithRight, WithLeft};

use node::{Child, Index, Node, Separator, Slot};
use outcome::{BadBytes, Came, Taken};

// A node that was read, and the slot it stands in.
#[derive(Clone, Copy)]
pub struct Held {
    pub slot: Slot,
    pub node: Node,
}

fn hold(store: &[u8], child: Child, depth: u32) -> Result<Held, BadBytes>
    ensures { Reads depth store.now child.0 result }
{
    let got = slots::read_node_at(store, child, depth);
    if !got.ending.is_accepted() {
        return Err(BadBytes);
    }
    let Some(slot) = slots::slot_of(store, child) else {
        return Err(BadBytes);
    };
    Ok(Held {
        slot,
        node: got.node,
    })
}

// The node is written; low if it holds fewer than 4.
fn close(store: &mut [u8], slot: Slot, node: Node) -> Came
    ensures { (Ok result ≡ of_fell (flag (ltb node.count 4))) × (store.new ≡ written_in store.old slot.0 node) }
{
    let count = node.count;
    slots::write_node(store, slot, node);
    if count < 4 {
        return Came::Low;
    }
    Came::Plain
}

// The left sibling's last separator goes up to index i, and the one there down to the front of the right one.
fn borrow_left(
    store: &mut [u8],
    over: &Held,
    i: Index,
    left: &Held,
    right: &Held,
) -> Result<Came, BadBytes>
    ensures { BorrowsLast store.old over.now i.0 left.now right.now result store.new }
{
    let n = left.node.count;
    if n < 1 {
        return Err(BadBytes);
    }
    let last = Index(n - 1);
    let moved = left.node.separator(last);
    let child = left.node.child(Index(n));
    let down = over.node.separator(i);
    slots::write_node(store, left.slot, left.node.remove_at(last));
    slots::write_node(store, right.slot, right.node.push_front(child, down));
    Ok(close(store, over.slot, over.node.set_separator(i, moved)))
}

// The right sibling's first separator goes up to index i, and the one there down to the end of the left one.
fn borrow_right(
    store: &mut [u8],
    over: &Held,
    i: Index,
    left: &Held,
    right: &Held,
) -> Result<Came, BadBytes>
    ensures { BorrowsFirst store.old over.now i.0 left.now right.now result store.new }
{
    let n = left.node.count;
    if right.node.count < 1 {
        return Err(BadBytes);
    }
    let moved = right.node.separator(Index(0));
    let child = right.node.child(Index(0));
    let down = over.node.separator(i);
    slots::write_node(store, left.slot, left.node.insert_at(Index(n), down, child));
    slots::write_node(store, right.slot, right.node.pop_front());
    Ok(close(store, over.slot, over.node.set_separator(i, moved)))
}

// The two siblings and the separator at index i between them as one node, in the left slot.
fn merge(
    store: &mut [u8],
    over: &Held,
    i: Index,
    left: &Held,
    right: &Held,
) -> Result<Came, BadBytes>
    ensures { Merges store.old over.now i.0 left.now right.now result store.new }
{
    let down = over.node.separator(i);
    slots::free_slot(store, right.slot);
    slots::write_node(store, left.slot, left.node.join(down, right.node));
    Ok(close(store, over.slot, over.node.remove_at(i)))
}

// The child left of the separator at index i is low: from its right sibling, or one of the two. The depth is the children's.
fn with_right(
    store: &mut [u8],
    over: &Held,
    i: Index,
    low: &Held,
    depth: u32,
) -> Result<Came, BadBytes>
    ensures { WithRight store.old over.now i.0 depth low.now result store.new }
{
    let at = i.0;
    if 7 < at {
        return Err(BadBytes);
    }
    let child = over.node.child(Index(at + 1));
    let right = hold(store, child, depth)?;
    if 4 < right.node.count {
        return borrow_right(store, over, i, low, &right);
    }
    merge(store, over, i, low, &right)
}

// The child right of the separator at index i is low, and its left sibling is read.
fn with_left(
    store: &mut [u8],
    over: &Held,
    i: Index,
    left: &Held,
    low: &Held,
    depth: u32,
) -> Result<Came, BadBytes>
    ensures { WithLeft store.old over.now i.0 depth left.now low.now result store.new }
{
    let at = i.0;
    if 4 < left.node.count {
        return borrow_left(store, over, i, left, low);
    }
    if 7 < at {
        return Err(BadBytes);
    }
    if at + 1 < over.node.count {
        return with_right(store, over, Index(at + 1), low, depth);
    }
    merge(store, over, i, left, low)
}

// The child at index i of the node in a slot is low. A child that isn't, is bad: there would be no room to mend it.
pub fn rebalance(store: &mut [u8], child: Child, depth: u32, i: Index) -> Result<Came, BadBytes>
    ensures { Does (rebalance_m depth store.old child.0 i.0) result store.new }
{
    if depth == 0 {
        return Err(BadBytes);
    }
    let over = hold(store, child, depth)?;
    let count = over.node.count;
    let at = i.0.min(count);
    let low = hold(store, over.node.child(Index(at)), depth - 1)?;
    if 3 < low.node.count {
        return Err(BadBytes);
    }
    if count < 1 {
        return Err(BadBytes);
    }
    if at == 0 {
        return with_right(store, &over, Index(0), &low, depth - 1);
    }
    let left = hold(store, over.node.child(Index(at - 1)), depth - 1)?;
    with_left(store, &over, Index(at - 1), &left, &low, depth - 1)
}

// A root that has no separator left gives way to its child.
pub fn shrink(store: &mut [u8], old: Child, depth: u32) -> Result<Came, BadBytes>
    ensures { Does (shrink_m old.0 depth store.old R.low) result store.new }
{
    if depth == 0 {
        return Ok(Came::Plain);
    }
    let root = hold(store, old, depth)?;
    if 0 < root.node.count {
        return Ok(Came::Plain);
    }
    let child = root.node.child(Index(0));
    slots::free_slot(store, root.slot);
    slots::set_root(store, child, depth - 1);
    Ok(Came::Plain)
}

// Another separator at index i, in the node as it stands now.
pub fn put_separator(
    store: &mut [u8],
    child: Child,
    depth: u32,
    i: Index,
    sep: Separator,
) -> Result<(), BadBytes>
    ensures { ForWritten sep (λ w. PutsIn i.0 w store.old (read_node_at depth store.old child.0) result store.new) }
{
    let over = hold(store, child, depth)?;
    let at = i.0;
    if at < over.node.count {
        slots::write_node(store, over.slot, over.node.set_separator(i, sep));
        return Ok(());
    }
    slots::write_node(store, over.slot, over.node);
    Ok(())
}

// A leaf without its separator at index i.
pub fn remove_here(store: &mut [u8], child: Child, i: Index) -> Result<Came, BadBytes>
    ensures { RemovesHere store.old child.0 i.0 result store.new }
{
    let leaf = hold(store, child, 0)?;
    Ok(close(store, leaf.slot, leaf.node.remove_at(i)))
}

// A leaf without its last separator, which comes back.
pub fn remove_end(store: &mut [u8], child: Child) -> Result<Taken, BadBytes>
    ensures { RemovesEnd store.old child.0 result store.new }
{
    let leaf = hold(store, child, 0)?;
    let n = leaf.node.count;
    if n < 1 {
        return Err(BadBytes);
    }
    let sep = leaf.node.separator(Index(n - 1));
    let came = close(store, leaf.slot, leaf.node.remove_at(Index(n - 1)));
    Ok(Taken {
        came,
        separator: sep,
    })
}
