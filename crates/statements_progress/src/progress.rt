// How far the statements of a file are taken. It has no counterpart in the Rust.
use records::layout::NodeId;

// Where the tree begins among the nodes in use that isn't pushed yet, or else where the next one will begin; how many nodes are
// in use; the declarators and the statements that are kept; the folds and the looks; and how many nodes and declarators of the
// file are read.
#[derive(Clone, Copy)]
pub struct Progress {
    pub tree: NodeId,
    pub nodes_used: usize,
    pub declarators_kept: usize,
    pub statements_kept: usize,
    pub folds: usize,
    pub looks: usize,
    pub nodes_read: usize,
    pub declarators_read: usize,
}
