// The audit of a store on any bytes: one walk of the tree by depth, then the free chain, then nothing left over. All is total.
#![tactic(auto)]

ghost use Rattle.std.specs.Prelude.{◌≡◌, ◌+◌, length, take};
ghost use Rattle.word.specs.Num.{zeros};
ghost use Rattle.word.specs.Pick.{pick};
ghost use Rattle.audit.specs.Marks.{words_for, word_of, bit_of, all_ones};
ghost use Rattle.tree.specs.State.{root_least};
ghost use Rattle.audit.specs.Contract.{audit_error_number, Audits};
ghost use Rattle.audit.specs.Walk.{is_clear, marked, is_idle};
ghost use Rattle.audit.specs.Code.{has_zeros, enters, is_rising, key_of, seen_of, visit_in, chain_of, chain_in, left_of, walk_tree_in, fills_in};

use codec::Places;
use node::{Child, Slot};
use refusal::Refusal;

// 01's numbers of the audit's refusals.
#[derive(Clone, Copy, PartialEq, Eq)]
pub enum AuditError {
    NotStore = 1,
    FewMarks = 2,
    Fails = 8,
}

impl Refusal for AuditError {
    ghost number_of = { audit_error_number };

    fn number(self) -> u32 {
        self as u32
    }
}

// Where a key stands in the store.
#[derive(Clone, Copy)]
pub struct Place {
    pub start: usize,
    pub len: usize,
}

// Something of the tree is not right.
#[derive(Clone, Copy)]
pub struct Broken;

// ---- mark words

// How many mark words a store of so many slots needs.
#[tactic(auto, unfolding(crate::specs::Marks::words_for))]
pub fn words_for(count: u32) -> usize
    ensures { result ≡ words_for count }
{
    (count as usize + 63) / 64
}

// The word that has a slot's bit, and the bit.
#[tactic(auto, unfolding(crate::specs::Marks::word_of))]
fn word_of(slot: Slot) -> usize
    ensures { result ≡ word_of slot.0 }
{
    slot.0.saturating_sub(1) as usize / 64
}

#[tactic(auto, unfolding(crate::specs::Marks::bit_of))]
fn bit_of(slot: Slot) -> u32
    ensures { result ≡ bit_of slot.0 }
{
    slot.0.saturating_sub(1) % 64
}

// Whether the words have a bit for the slot, and it is clear.
#[tactic(auto, unfolding(crate::specs::Walk::is_clear, crate::specs::Marks::mark_of, crate::specs::Marks::bit_of))]
fn is_clear(marks: &[u64], slot: Slot) -> bool
    ensures { result ≡ is_clear marks.now slot.0 }
{
    let Some(word) = marks.get(word_of(slot)) else {
        return false;
    };
    (*word >> bit_of(slot)) % 2 == 0
}

// Sets the slot's bit where it is clear, and says whether it was.
#[tactic(auto, using(crate::proofs::CodeLaws::room), unfolding(crate::specs::Walk::is_clear, crate::specs::Walk::marked, crate::specs::Marks::mark_of, crate::specs::Marks::bit_of, word::specs::Pick::pick))]
fn claim(marks: &mut [u64], slot: Slot) -> bool
    ensures { (result ≡ is_clear marks.old slot.0) × (marks.new ≡ pick (is_clear marks.old slot.0) (marked marks.old slot.0) marks.old) }
{
    if !is_clear(marks, slot) {
        return false;
    }
    marks[word_of(slot)] += 1u64 << bit_of(slot);
    true
}

#[tactic(auto, unfolding(word::specs::Num::zeros))]
pub fn clear_marks(marks: &mut [u64])
    ensures { marks.new ≡ zeros (length marks.old) }
{
    marks.fill(0);
}

// The ones in the mark words that a store of so many slots needs.
fn count_marks(marks: &[u64], count: u32) -> usize
    ensures { result ≡ all_ones (take (words_for count) marks.now) }
{
    let used = &marks[..words_for(count).min(marks.len())];
    let mut sum = 0;
    for word in used {
        sum += word.count_ones() as usize;
    }
    sum
}

// ---- one node

// How many bytes of a slot stand behind a free slot's next.
const FREE_ROOM: usize = 2552;

// Whether the bytes behind the node in a slot are zeros.
#[tactic(auto, unfolding(crate::specs::Code::has_zeros, slots::specs::Mirror::length_at))]
fn has_zeros(store: &[u8], slot: Slot) -> bool
    ensures { result ≡ has_zeros store.now slot.0 }
{
    let at = slots::start_of(slot);
    let len = word::read_u32(store, at) as usize;
    if slots::NODE_ROOM < len {
        return false;
    }
    word::is_zero(store, at + 4 + len, slots::NODE_ROOM - len)
}

// Marks the slot if its node may be walked into: in standard form, with separators enough, with zeros behind, not reached before.
#[tactic(auto, unfolding(crate::specs::Code::enters, word::specs::Pick::pick))]
fn enter(store: &[u8], marks: &mut [u64], slot: Slot, places: &Places, least: usize) -> bool
    ensures { (result ≡ enters store.now slot.0 places.now.standard places.now.count least marks.old) × (marks.new ≡ pick (enters store.now slot.0 places.now.standard places.now.count least marks.old) (marked marks.old slot.0) marks.old) }
{
    if !places.standard || places.count < least || !has_zeros(store, slot) {
        return false;
    }
    claim(marks, slot)
}

// Whether the key at a place of the store is above the last one, if there is one yet.
fn rises(store: &[u8], last: Option<Place>, key: Place) -> bool
    ensures { result ≡ is_rising store.now (key_of store.now last) key.start key.len }
{
    if !word::fits(store.len(), key.start, key.len) {
        return false;
    }
    let Some(last) = last else {
        return true;
    };
    let end = key.start + key.len;
    word::compare_part(&store[key.start..end], store, last.start, last.len).is_gt()
}

// ---- the tree

// "depth is at most 7"; "every node but the root has 4 to 8 separators"
const MOST_DEPTH: u32 = 7;

const LEAST_SEPARATORS: usize = 4;

// What stands below a node: no child below a leaf, else the next node down. Apart from `visit` and small, so that the compiler puts it into the loop there, and the nine absent children of a leaf cost no call.
#[cycle(descend_visit)]
fn descend(
    store: &[u8],
    marks: &mut [u64],
    child: Child,
    height: u32,
    before: Option<Place>,
) -> Result<Option<Place>, Broken>
    ensures { seen_of store.now result marks.new ≡ visit_in store.now height 4 child.0 (record { marks = marks.old; last = key_of store.now before }) }
{
    if height == 0 {
        return if child.0 == 0 {
            Ok(before)
        } else {
            Err(Broken)
        };
    }
    visit(store, marks, child, height - 1, LEAST_SEPARATORS, before)
}

// Walks the nodes from a child down, with so many levels below its own, and answers the last key.
#[cycle(descend_visit)]
fn visit(
    store: &[u8],
    marks: &mut [u64],
    child: Child,
    below: u32,
    least: usize,
    before: Option<Place>,
) -> Result<Option<Place>, Broken>
    ensures { seen_of store.now result marks.new ≡ visit_in store.now (below + 1) least child.0 (record { marks = marks.old; last = key_of store.now before }) }
{
    let Some(slot) = slots::slot_of(store, child) else {
        return Err(Broken);
    };
    let places = slots::node_places(store, child);
    if !enter(store, marks, slot, &places, least) {
        return Err(Broken);
    }
    let from = slots::start_of(slot) + 4;
    let mut last = descend(store, marks, places.children[0], below, before)?;
    for i in 0..places.count {
        let key = Place {
            start: from + places.starts[i],
            len: places.lens[i],
        };
        if !rises(store, last, key) {
            return Err(Broken);
        }
        last = descend(store, marks, places.children[i + 1], below, Some(key))?;
    }
    Ok(last)
}

// ---- the free chain

// Whether a slot has exactly a free slot's bytes.
fn is_idle(store: &[u8], number: u32) -> bool
    ensures { result ≡ is_idle store.now number }
{
    if !slots::is_slot(store, number as u64) {
        return false;
    }
    let at = slots::start_of(Slot(number));
    word::is_zero(store, at, 4) && word::is_zero(store, at + 8, FREE_ROOM)
}

// How long the chain from the first free slot on is, if it is right: at most count steps, each an unmarked free slot, ending.
fn walk_chain(store: &[u8], marks: &[u64], count: u32) -> Option<usize>
    ensures { chain_of result ≡ chain_in store.now marks.now count }
{
    let mut slot = slots::first_free(store);
    for i in 0..count {
        if slot == 0 {
            return Some(i as usize);
        }
        if !is_idle(store, slot) || !is_clear(marks, Slot(slot)) {
            return None;
        }
        slot = word::read_u32(store, slots::start_of(Slot(slot)) + 4);
    }
    (slot == 0).then_some(count as usize)
}

// ---- the whole

// "the root 0 to 8 and at least 1 where depth is above 0"
fn root_least(depth: u32) -> usize
    ensures { result ≡ root_least depth }
{
    if depth == 0 { 0 } else { 1 }
}

// The walk of the tree from the root, on words that are all zero.
#[tactic(auto, unfolding(crate::specs::Code::left_of, crate::specs::Code::walk_tree_in, word::specs::Pick::pick))]
fn walk_tree(store: &[u8], marks: &mut [u64]) -> bool
    ensures { left_of result marks.new ≡ walk_tree_in store.now marks.old }
{
    let root = slots::root(store);
    let depth = slots::depth(store);
    if root.0 == 0 {
        return depth == 0;
    }
    if MOST_DEPTH < depth {
        return false;
    }
    visit(store, marks, root, depth, root_least(depth), None).is_ok()
}

// Whether the chain holds exactly the slots that are not marked.
#[tactic(auto, unfolding(crate::specs::Code::fills_in, crate::specs::Code::chain_in))]
fn fills(store: &[u8], marks: &[u64], count: u32) -> bool
    ensures { result ≡ fills_in store.now marks.now count }
{
    let Some(free) = walk_chain(store, marks, count) else {
        return false;
    };
    let reached = count_marks(marks, count);
    reached + free == count as usize
}

// How many slots are reached. Refused with 1 and 2 before any word is touched; where the walk fails, every word is zeroed again.
pub fn audit(store: &[u8], marks: &mut [u64]) -> Result<usize, AuditError>
    ensures { Audits store.now marks.old result marks.new }
{
    if !slots::is_store(store) {
        return Err(AuditError::NotStore);
    }
    let count = slots::count(store);
    if marks.len() < words_for(count) {
        return Err(AuditError::FewMarks);
    }
    clear_marks(marks);
    if walk_tree(store, marks) && fills(store, marks, count) {
        return Ok(count_marks(marks, count));
    }
    clear_marks(marks);
    Err(AuditError::Fails)
}
