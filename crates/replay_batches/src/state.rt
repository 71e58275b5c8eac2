// The store as a block of batches.bin has it after the batch:
//
//     24 bytes the header
//     for each slot: u16 length of its node, 0 for a free slot
//       used:  that many bytes, the node
//       free:  u16, the next free slot (0 last)
//
// A used slot has u32 length, the node, zeros; a free one u32 0, u32 next, zeros.
use crate::counts::{Count, Section};

const HEADER: usize = 24;

const SLOT: usize = 2560;

// What is compared so far: where the block goes on, where the store does, and the cases.
#[derive(Clone, Copy)]
struct Compared {
    at: usize,
    place: usize,
    count: Count,
}

// Whether this part stands in s at `at`.
fn stands(s: &[u8], at: usize, part: &[u8]) -> bool {
    let span = lists::place(s, at, part.len());
    let start = span.start;
    let end = span.end;
    &s[start..end] == part
}

fn is_used(slot: &[u8], node: &[u8]) -> bool {
    let behind = lists::place(slot, 4, node.len()).end;
    slot.len() == SLOT
        && lists::number(slot, 0, 4) == node.len() as u64
        && stands(slot, 4, node)
        && lists::filled(slot, behind, 0)
}

fn is_free(slot: &[u8], next: u64) -> bool {
    slot.len() == SLOT
        && lists::number(slot, 0, 4) == 0
        && lists::number(slot, 4, 4) == next
        && lists::filled(slot, 8, 0)
}

// Whether the slot is as the block has it; where the block goes on behind it is the section's end.
fn same_slot(slot: &[u8], block: &[u8], at: usize, count: Count) -> Section {
    let node = lists::part(block, at);
    let start = node.start;
    let end = node.end;
    if start == end {
        return Section {
            count: count.with(is_free(slot, lists::number(block, end, 2))),
            end: lists::place(block, end, 2).end,
        };
    }
    Section {
        count: count.with(is_used(slot, &block[start..end])),
        end,
    }
}

// The header, as one case.
fn compare_header(store: &[u8], block: &[u8], from: usize) -> Compared {
    let header = lists::place(block, from, HEADER);
    let start = header.start;
    let end = header.end;
    let count = Count::none();
    Compared {
        at: end,
        place: lists::place(store, 0, HEADER).end,
        count: count.with(stands(store, 0, &block[start..end])),
    }
}

fn compare_slot(store: &[u8], block: &[u8], before: Compared) -> Compared {
    let span = lists::place(store, before.place, SLOT);
    let slot = same_slot(&store[span.start..span.end], block, before.at, before.count);
    Compared {
        at: slot.end,
        place: span.end,
        count: slot.count,
    }
}

// The header, then the slots.
pub fn compare(store: &[u8], block: &[u8], from: usize, slots: usize) -> Section {
    let mut state = compare_header(store, block, from);
    for _ in 0..slots {
        state = compare_slot(store, block, state);
    }
    Section {
        count: state.count,
        end: state.at,
    }
}
