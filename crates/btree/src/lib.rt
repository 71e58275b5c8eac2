// Changes to the tree in a store's slots: one key (change.rt), and the runs of a batch (records.rt).
#![tactic(auto)]

pub mod change;
pub mod records;
