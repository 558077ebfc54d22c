// Records written in the work table: a position (src/peephole/minimize_statements.rs 1291-1294), and `preserve_indirect_access`
// (src/peephole/remove_dead_code.rs 731-748), which wraps a tag as `(0, tag)`.
ghost use Rattle.std.specs.Prelude.{◌+◌, ◌*◌, ◌≤◌, length};
ghost use Rattle.records.specs.Bytes.{u32_bytes};
ghost use Rattle.records_table.specs.Table.{work_bytes};
ghost use Rattle.records_table.specs.Overwrites.{Overwrites};
ghost use Rattle.walk_splice.specs.Blocks.{PreservesIndirectAccess};

use crate::rotate::rotate;
use records::kinds::{LITERAL, SEQUENCE};
use records::layout::{NodeId, NodeRecord};
use records::limits::NO_NUMBER;
use records::put_number::put_u32;
use records_table::{WORK_LENGTH, put_work_node};

// Gives the record of node `at` a position. `record` stays a clause, here and in the walk: it is about an index and a slice.
pub(crate) fn put_position(nodes: &mut [u8], at: NodeId, position: u32)
    requires record { 16 * at.0 + 16 ≤ length nodes.old }
    ensures written { Overwrites nodes.old nodes.new (16 * at.0 + 8) (u32_bytes position) }
{
    let start = WORK_LENGTH * at.0 + 8; // where a node record has its position
    put_u32(&mut nodes[start..], position);
}

fn put_node(nodes: &mut [u8], at: NodeId, n: NodeRecord)
    requires record { 16 * at.0 + 16 ≤ length nodes.old }
    ensures written { Overwrites nodes.old nodes.new (16 * at.0) (work_bytes n) }
{
    let start = WORK_LENGTH * at.0;
    put_work_node(&mut nodes[start..], n);
}

// Makes the tag, the nodes from `tag` to `name`, the second child of a sequence after a literal; the name's record, behind
// the tag, and the one behind `end` give the room.
pub(crate) fn preserve_indirect_access(
    nodes: &mut [u8],
    tag: NodeId,
    name: NodeId,
    end: NodeId,
    position: u32,
)
    requires room { (tag.0 ≤ name.0) × (name.0 + 1 ≤ end.0) × (16 * end.0 + 16 ≤ length nodes.old) }
    ensures wrapped { PreservesIndirectAccess nodes.old nodes.new (16 * tag.0) (16 * name.0)
        (16 * end.0) position }
{
    rotate(nodes, name, end, NodeId(end.0 + 1));
    rotate(nodes, tag, name, NodeId(name.0 + 2));
    let sequence = NodeRecord {
        kind: SEQUENCE,
        flags: 0,
        label: 0,
        children: 2,
        zero: 0,
        position,
    };
    put_node(nodes, tag, sequence);
    let literal = NodeRecord {
        kind: LITERAL,
        flags: 0,
        label: NO_NUMBER,
        children: 0,
        zero: 0,
        position,
    };
    put_node(nodes, NodeId(tag.0 + 1), literal);
}
