// Where a key stands among a node's separators.
use node::Index;

// Where a key stands among a node's, or where it belongs.
#[derive(Clone, Copy)]
pub struct Found {
    pub index: Index,
    pub at: bool,
}
