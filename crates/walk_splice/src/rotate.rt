// Two adjacent blocks of records, exchanged. It has no counterpart in the Rust, which moves a pointer
// (src/peephole/minimize_statements.rs 1292-1295).
ghost use Rattle.std.specs.Prelude.{◌+◌, ◌*◌, ◌≤◌, length};
ghost use Rattle.walk_splice.specs.Blocks.{Exchanges};

use crate::shift::{move_down, move_up, put_block};
use records::copy::copy;
use records::layout::NodeId;
use records_table::WORK_LENGTH;

// A block of so few records is kept in a small array while the other moves: `rotate_left` clears 4,096 bytes at each call, which
// takes longer than a short move (docs/DESIGN-PASS.md, "Speed").
const FEW_RECORDS: usize = 8;

fn front_to_end(nodes: &mut [u8], first: NodeId, second: NodeId, end: NodeId)
    requires blocks { (first.0 ≤ second.0) × (second.0 ≤ end.0) × (16 * end.0 ≤ length nodes.old) }
    requires few { second.0 ≤ first.0 + 8 }
    ensures blocks { Exchanges nodes.old nodes.new (16 * first.0) (16 * second.0) (16 * end.0) }
{
    let mut aside = [0u8; WORK_LENGTH * FEW_RECORDS];
    let start = WORK_LENGTH * first.0;
    let stop = WORK_LENGTH * second.0;
    let len = stop - start;
    copy(&nodes[start..stop], &mut aside);
    move_down(nodes, first, second, end.0 - second.0);
    put_block(nodes, WORK_LENGTH * end.0 - len, &aside[..len]);
}

fn end_to_front(nodes: &mut [u8], first: NodeId, second: NodeId, end: NodeId)
    requires blocks { (first.0 ≤ second.0) × (second.0 ≤ end.0) × (16 * end.0 ≤ length nodes.old) }
    requires few { end.0 ≤ second.0 + 8 }
    ensures blocks { Exchanges nodes.old nodes.new (16 * first.0) (16 * second.0) (16 * end.0) }
{
    let mut aside = [0u8; WORK_LENGTH * FEW_RECORDS];
    let start = WORK_LENGTH * second.0;
    let stop = WORK_LENGTH * end.0;
    let len = stop - start;
    copy(&nodes[start..stop], &mut aside);
    let to = NodeId(first.0 + (end.0 - second.0));
    move_up(nodes, to, first, second.0 - first.0);
    put_block(nodes, WORK_LENGTH * first.0, &aside[..len]);
}

// Exchanges the records of the nodes from `first` to `second` and those from `second` to `end`.
pub(crate) fn rotate(nodes: &mut [u8], first: NodeId, second: NodeId, end: NodeId)
    requires blocks { (first.0 ≤ second.0) × (second.0 ≤ end.0) × (16 * end.0 ≤ length nodes.old) }
    ensures blocks { Exchanges nodes.old nodes.new (16 * first.0) (16 * second.0) (16 * end.0) }
{
    if second.0 - first.0 <= FEW_RECORDS {
        front_to_end(nodes, first, second, end);
    } else if end.0 - second.0 <= FEW_RECORDS {
        end_to_front(nodes, first, second, end);
    } else {
        let start = WORK_LENGTH * first.0;
        let middle = WORK_LENGTH * second.0;
        nodes[start..WORK_LENGTH * end.0].rotate_left(middle - start);
    }
}
