// What comes of a change below a node; specs/ has the mirrors, which say what each change makes of a store's bytes.
#![tactic(auto)]

use node::{Separator, Slot};

// The bytes on the way to a change are no node's.
#[derive(Clone, Copy, PartialEq, Eq)]
pub struct BadBytes;

// What came of a change below: done; a separator to take in with the slot right of it; fewer than 4 left.
#[derive(Clone, Copy)]
pub enum Came {
    Plain,
    Split { right: Slot, separator: Separator },
    Low,
}

// The largest separator below, taken out, and what came of taking it.
#[derive(Clone, Copy)]
pub struct Taken {
    pub came: Came,
    pub separator: Separator,
}
