// The tables that the statements of a file are folded over. They have no counterpart in the Rust, whose trees and lists grow as
// they need.

// Nodes, 16 bytes each; declarators, 4 bytes each, and where the tree of each begins; statements, 4 bytes each. Each has room for
// the whole file, since there is no heap; how much of each is in use is in `Progress`. `Long`, `LongWithin` and `CanFold` are clauses:
// they are about the header, the tables and the list of folded names together, which no one type holds.
#[derive(Drop)]
pub(crate) struct Tables<'a> {
    pub nodes: &'a mut [u8],
    pub declarators: &'a mut [u8],
    pub starts: &'a mut [usize],
    pub statements: &'a mut [u8],
}
