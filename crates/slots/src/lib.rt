// The store: a header, slots of one size, and a chain of the free ones, all in lent bytes. All is total: what isn't a slot
// is answered so and changes nothing.
#![tactic(auto)]

ghost use Rattle.std.specs.Prelude.{◌≡◌, ◌-◌, length};
ghost use Rattle.codec.specs.Layout.{places_of};
ghost use Rattle.slots.specs.Layout.{start, root_of, depth_of, count_of, first_of, is_store};
ghost use Rattle.slots.specs.Mirror.{is_slot, take_slot, free_slot, set_root};
ghost use Rattle.slots.specs.Code.{has_size, slot_of, some_slot, raw_in, places_in, misfits, fits_depth, reading_at, written_in, has_free, linked, format_error_number, Formats};
ghost use Rattle.slots.specs.Search.{SawAt};
ghost use Rattle.slots.specs.Splice.{inserted_bytes, revalued_bytes};

use codec::{Places, Reading};
use node::{Child, Node, Slot, Value};
use refusal::Refusal;
use search::{Sight, Turn};

// 01's store: 24 header bytes, then slots 1 to count of 2,560 bytes each.
pub const HEADER_SIZE: usize = 24;

pub const SLOT_SIZE: usize = 2560;

pub const MOST_SLOTS: u32 = 65535;

// How many bytes the node in a slot has.
pub const LEAST_NODE: usize = 8;

pub const MOST_NODE: usize = 2480;

// How many bytes of a slot stand behind its node's length.
pub const NODE_ROOM: usize = 2556;

// Where the header's fields stand.
const ROOT_AT: usize = 0;

const DEPTH_AT: usize = 8;

const COUNT_AT: usize = 12;

const FIRST_FREE_AT: usize = 16;

const ZEROS_AT: usize = 20;

// Why formatting is refused, with 01's number.
#[derive(Clone, Copy, PartialEq, Eq)]
pub enum FormatError {
    NotStore = 1,
}

impl Refusal for FormatError {
    ghost number_of = { format_error_number };

    fn number(self) -> u32 {
        self as u32
    }
}

// Whether a store of so many slots may have this size.
fn has_size(len: usize, count: u32) -> bool
    ensures { result ≡ has_size len count }
{
    (1..=MOST_SLOTS).contains(&count) && len == HEADER_SIZE + SLOT_SIZE * (count as usize)
}

// The one test for refusal 1.
pub fn is_store(store: &[u8]) -> bool
    ensures { result ≡ is_store store.now }
{
    has_size(store.len(), count(store)) && word::is_zero(store, ZEROS_AT, 4)
}

// ---- the header

pub fn root(store: &[u8]) -> Child
    ensures { result.0 ≡ root_of store.now }
{
    Child(word::read_u64(store, ROOT_AT))
}

pub fn depth(store: &[u8]) -> u32
    ensures { result ≡ depth_of store.now }
{
    word::read_u32(store, DEPTH_AT)
}

pub fn count(store: &[u8]) -> u32
    ensures { result ≡ count_of store.now }
{
    word::read_u32(store, COUNT_AT)
}

// A number and no Slot: who takes it writes it on as it stands or goes on to a next one in the same bytes, so a Slot would be
// opened again at each use.
pub fn first_free(store: &[u8]) -> u32
    ensures { result ≡ first_of store.now }
{
    word::read_u32(store, FIRST_FREE_AT)
}

pub fn set_root(store: &mut [u8], child: Child, depth: u32)
    ensures { store.new ≡ set_root store.old child.0 depth }
{
    word::write_u64(store, ROOT_AT, child.0);
    word::write_u32(store, DEPTH_AT, depth);
}

// ---- slots

// Where a slot begins.
pub fn start_of(slot: Slot) -> usize
    ensures { result ≡ start slot.0 }
{
    HEADER_SIZE + SLOT_SIZE * (slot.0 as usize).saturating_sub(1)
}

// The slot that a child names; none where it names no whole slot of the store. The one way from a child to a slot.
pub fn slot_of(store: &[u8], child: Child) -> Option<Slot>
    ensures { result ≡ some_slot (slot_of store.now child.0) }
{
    let number = child.0;
    let most = count(store) as u64;
    if number < 1 || most < number || store.len() < HEADER_SIZE + SLOT_SIZE * (number as usize) {
        return None;
    }
    Some(Slot(number as u32))
}

pub fn is_slot(store: &[u8], number: u64) -> bool
    ensures { result ≡ is_slot store.now number }
{
    slot_of(store, Child(number)).is_some()
}

// The bytes of the node in a slot; empty where there is no such slot or it has no node's length.
pub fn node_bytes(store: &[u8], child: Child) -> &[u8]
    ensures { result.now ≡ raw_in store.now child.0 }
{
    let Some(slot) = slot_of(store, child) else {
        return &store[0..0];
    };
    let at = start_of(slot);
    let len = word::read_u32(store, at) as usize;
    if !(LEAST_NODE..=MOST_NODE).contains(&len) {
        return &store[0..0];
    }
    let from = at + 4;
    let to = from + len;
    &store[from..to]
}

// Their places, whatever the bytes are: for who asks for standard form by itself.
pub fn node_places(store: &[u8], child: Child) -> Places
    ensures { result ≡ places_of (raw_in store.now child.0) }
{
    Places::read(node_bytes(store, child))
}

// That node's places, where its bytes are in standard form; else those of no bytes, which are refused.
pub fn read_places(store: &[u8], child: Child) -> Places
    ensures { result ≡ places_in store.now child.0 }
{
    Places::read_standard(node_bytes(store, child))
}

// ---- the child test of a depth

// Whether a child is there where none may be, or missing where one must be. It stands here again since search's, by leaf, is
// search's own; law misfits_same in proofs/SearchLaws ties the two.
fn is_misfit(child: Child, depth: u32) -> bool
    ensures { result ≡ misfits depth child }
{
    (depth == 0) != (child.0 == 0)
}

// Whether a node of so many separators has the children that a node at this depth has: none at 0, one more than
// separators above.
pub fn fits_depth(children: [Child; 9], count: usize, depth: u32) -> bool
    ensures { result ≡ fits_depth depth count children }
{
    children
        .iter()
        .take(count.saturating_add(1))
        .all(|child| !is_misfit(*child, depth))
}

// The node of a child, refused also where its children don't fit the depth.
pub fn read_node_at(store: &[u8], child: Child, depth: u32) -> Reading
    ensures { result ≡ reading_at depth store.now child.0 }
{
    let reading = codec::read_standard(node_bytes(store, child));
    let children = reading.node.children;
    if !fits_depth(children, reading.node.count, depth) {
        return Reading::none();
    }
    reading
}

// What a walk for a key sees in the node of a child at a depth; not good where there is none, or its children don't fit the
// depth. The tests are those of `node_bytes`; each ends the search at once, so that a processor reads on in the node before its
// length has come from memory.
pub fn search_at(store: &[u8], child: Child, depth: u32, key: &[u8], turn: Turn) -> Sight
    ensures { SawAt turn depth store.now child.0 key.now result }
{
    let Some(slot) = slot_of(store, child) else {
        return Sight::start(false);
    };
    let at = start_of(slot);
    let len = word::read_u32(store, at) as usize;
    if len < LEAST_NODE {
        return Sight::start(false);
    }
    if MOST_NODE < len {
        return Sight::start(false);
    }
    let from = at + 4;
    let to = from + len;
    search::search(&store[from..to], key, turn, depth == 0)
}

// ---- writing, taking and freeing

// The node's length, the node, zeros to the slot's end; nothing where there is no slot or the writer refuses the node.
pub fn write_node(store: &mut [u8], slot: Slot, node: Node)
    ensures { store.new ≡ written_in store.old slot.0 node }
{
    if !is_slot(store, slot.0 as u64) {
        return;
    }
    let at = start_of(slot);
    let from = at + 4;
    let to = at + SLOT_SIZE;
    let Ok(len) = codec::write(node, &mut store[from..to]) else {
        return;
    };
    // these two lines are those of `insert_bytes` too: a function for them would be the two and a `requires` on both numbers
    word::write_u32(store, at, len as u32);
    word::clear(store, from + len, NODE_ROOM - len);
}

// A separator and the child right of it put in at a place among the bytes of the node in a slot; nothing where there is no
// slot or the bytes don't take them. It is what `write_node` makes of the longer node where the bytes are in standard form,
// with no node read and written.
pub fn insert_bytes(
    store: &mut [u8],
    slot: Slot,
    place: usize,
    key: &[u8],
    value: Value,
    child: Child,
)
    ensures { store.new ≡ inserted_bytes store.old slot.0 place (record { key = key.now; val = value.0 }) child.0 }
{
    if !is_slot(store, slot.0 as u64) {
        return;
    }
    let at = start_of(slot);
    let from = at + 4;
    let to = at + SLOT_SIZE;
    let old = word::read_u32(store, at) as usize;
    let Some(len) = codec::splice(&mut store[from..to], old, place, key, value, child) else {
        return;
    };
    word::write_u32(store, at, len as u32);
    word::clear(store, from + len, NODE_ROOM - len);
}

// Another value at a place among the bytes of the node in a slot, and zeros behind them; nothing where there is no slot or they
// don't have the place. It is what `write_node` makes of the node with that value where the bytes are in standard form.
pub fn write_value(store: &mut [u8], slot: Slot, place: usize, value: Value)
    ensures { store.new ≡ revalued_bytes store.old slot.0 place value.0 }
{
    if !is_slot(store, slot.0 as u64) {
        return;
    }
    let at = start_of(slot);
    let from = at + 4;
    let len = word::read_u32(store, at) as usize;
    if NODE_ROOM < len || !word::fits(len, place, 8) {
        return;
    }
    word::write_u64(store, from + place, value.0);
    // one line in common with the two writers above: a function for it would be this line and a `requires` on both numbers
    word::clear(store, from + len, NODE_ROOM - len);
}

// The first free slot, taken from the chain; none where there is none.
pub fn take_slot(store: &mut [u8]) -> Option<Slot>
    ensures { (result ≡ some_slot (take_slot store.old).slot) × (store.new ≡ (take_slot store.old).store) }
{
    let first = first_free(store);
    if !is_slot(store, first as u64) {
        return None;
    }
    let slot = Slot(first);
    let next = word::read_u32(store, start_of(slot) + 4);
    word::write_u32(store, FIRST_FREE_AT, next);
    Some(slot)
}

// The slot becomes the first free one, its bytes those of a free slot.
pub fn free_slot(store: &mut [u8], slot: Slot)
    ensures { store.new ≡ free_slot store.old slot.0 }
{
    if !is_slot(store, slot.0 as u64) {
        return;
    }
    let at = start_of(slot);
    let next = first_free(store);
    word::clear(store, at, SLOT_SIZE);
    word::write_u32(store, at + 4, next);
    word::write_u32(store, FIRST_FREE_AT, slot.0);
}

// Whether the free chain is at least n slots long.
pub fn has_free(store: &[u8], n: u32) -> bool
    ensures { result ≡ has_free n store.now (first_of store.now) }
{
    let mut slot = first_free(store);
    for _ in 0..n {
        if !is_slot(store, slot as u64) {
            return false;
        }
        slot = word::read_u32(store, start_of(Slot(slot)) + 4);
    }
    true
}

// ---- formatting

// Each slot but the last names the next.
fn link(store: &mut [u8], count: u32)
    ensures { store.new ≡ linked store.old 1 (count - 1) }
{
    for i in 1..count {
        word::write_u32(store, start_of(Slot(i)) + 4, i + 1);
    }
}

// Refused, with nothing changed, where the size or the count is not a store's; else every byte is written.
pub fn format(store: &mut [u8], count: u32) -> Result<(), FormatError>
    ensures { Formats store.old count result store.new }
{
    let len = store.len();
    if !has_size(len, count) {
        return Err(FormatError::NotStore);
    }
    word::clear(store, 0, len);
    word::write_u32(store, COUNT_AT, count);
    word::write_u32(store, FIRST_FREE_AT, 1);
    link(store, count);
    Ok(())
}
