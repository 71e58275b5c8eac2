// A node of the tree: its kinds, and its edits (edit.rt).
#![tactic(auto)]

pub mod edit;

#[derive(Clone, Copy)]
pub struct Slot(pub u32);

#[derive(Clone, Copy)]
pub struct Value(pub u64);

#[derive(Clone, Copy)]
pub struct Index(pub usize);

// A child's address as it stands in node bytes; 0 is none. It becomes a slot number only by a test against a store's count.
#[derive(Clone, Copy)]
pub struct Child(pub u64);

// A key in an array with its length beside it, since nothing stands in a heap; so it lies in node and cursor too.
#[derive(Clone, Copy)]
pub struct Separator {
    pub value: Value,
    pub len: usize,
    pub key: [u8; 288],
}

// Separators 0 to count - 1, and one more child than separators. The key of separator i stands in keys from 288 * i on.
// Arrays side by side with a count, and no list of separators: so the C interface lends a node (WritesNode of capi), and so
// node_of and the theorems on chains speak of it.
#[derive(Clone, Copy)]
pub struct Node {
    pub count: usize,
    pub children: [Child; 9],
    pub values: [Value; 8],
    pub lens: [usize; 8],
    pub keys: [u8; 2304],
}
