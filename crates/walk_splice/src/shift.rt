// Records moved within the work table, by the numbers of their nodes: no counterpart in the Rust, whose trees are linked by
// pointers.
ghost use Rattle.std.specs.Prelude.{◌+◌, ◌*◌, ◌≤◌, length};
ghost use Rattle.records_table.specs.Overwrites.{Overwrites};
ghost use Rattle.walk_splice.specs.Copies.{Copies};

use records::copy::copy;
use records::layout::NodeId;
use records_table::WORK_LENGTH;

// Writes a block over the bytes from `at` on.
pub(crate) fn put_block(nodes: &mut [u8], at: usize, block: &[u8])
    requires room { at + length block.now ≤ length nodes.old }
    ensures written { Overwrites nodes.old nodes.new at block.now }
{
    copy(block, &mut nodes[at..]);
}

// Writes the record of node `from` over that of node `to`, all its bytes at once.
fn copy_record(nodes: &mut [u8], to: NodeId, from: NodeId)
    requires records { (16 * to.0 + 16 ≤ length nodes.old) × (16 * from.0 + 16 ≤ length nodes.old) }
    ensures copied { Copies nodes.old nodes.new (16 * to.0) (16 * from.0) 16 }
{
    let start = WORK_LENGTH * from.0;
    let end = start + WORK_LENGTH;
    let mut saved = [0u8; WORK_LENGTH];
    copy(&nodes[start..end], &mut saved);
    put_block(nodes, WORK_LENGTH * to.0, &saved);
}

// Moves records towards the front.
pub(crate) fn move_down(nodes: &mut [u8], to: NodeId, from: NodeId, many: usize)
    requires records { (to.0 ≤ from.0) × (16 * from.0 + 16 * many ≤ length nodes.old) }
    ensures copied { Copies nodes.old nodes.new (16 * to.0) (16 * from.0) (16 * many) }
{
    for i in 0..many {
        copy_record(nodes, NodeId(to.0 + i), NodeId(from.0 + i));
    }
}

// Moves records towards the end: the last one first.
pub(crate) fn move_up(nodes: &mut [u8], to: NodeId, from: NodeId, many: usize)
    requires records { (from.0 ≤ to.0) × (16 * to.0 + 16 * many ≤ length nodes.old) }
    ensures copied { Copies nodes.old nodes.new (16 * to.0) (16 * from.0) (16 * many) }
{
    for i in (0..many).rev() {
        copy_record(nodes, NodeId(to.0 + i), NodeId(from.0 + i));
    }
}
