// The next declarator and the next tree of the file, in the order of the file. They have no counterpart in the Rust.
ghost use Rattle.std.specs.Prelude.{◌≡◌, ◌+◌, ◌*◌, ◌≤◌, length};
ghost use Rattle.records.specs.Record.{declarator_at};
ghost use Rattle.records.specs.File.{declarators_start};
ghost use Rattle.statements_progress.specs.Loaded.{Loaded, HasTree};

use crate::progress::Progress;
use records::layout::{DeclaratorRecord, Header, NodeId, declarator_at};
use records::limits::DECLARATOR_LENGTH;
use records::parts::part_offsets;
use records_table::load::load_tree;

// The bytes and the header are two parameters, here and below: a `RecordFile` asks more than these clauses do.
pub fn next_declarator(bytes: &[u8], header: Header, p: Progress) -> DeclaratorRecord
    requires room { declarators_start header + 4 * p.declarators_read + 4 ≤ length bytes.now }
    ensures result { result ≡ declarator_at bytes.now (declarators_start header + 4 * p.declarators_read) }
{
    let parts = part_offsets(header);
    declarator_at(bytes, parts[4] + DECLARATOR_LENGTH * p.declarators_read)
}

// Loads the next tree of the file behind the nodes that are in use.
pub fn load_next(bytes: &[u8], header: Header, nodes: &mut [u8], p: Progress) -> Progress
    requires tree { HasTree bytes.now header nodes.old p }
    ensures loaded { Loaded bytes.now header nodes.old nodes.new p result }
{
    let parts = part_offsets(header);
    let size = load_tree(bytes, parts[3], NodeId(p.nodes_read), nodes, p.nodes_used);
    Progress {
        tree: NodeId(p.nodes_used),
        nodes_used: p.nodes_used + size,
        nodes_read: p.nodes_read + size,
        ..p
    }
}
