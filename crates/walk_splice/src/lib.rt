// Moves the replacement in the work table to the place of the name: what the Rust does by `replacement.take_in(ctx)` and
// `ctx.replace_expression(target_expr, new_expr)`, that is `*target_expr = new_expr` (src/peephole/minimize_statements.rs
// 1291-1295), and by `preserve_indirect_access` for a tag (1789-1793).
#![tactic(auto)]

mod blocks;
mod rotate;
mod shift;

ghost use Rattle.std.specs.Prelude.{true, ◌≡◌, ◌+◌, ◌*◌, ◌≤◌, length};
ghost use Rattle.walk_splice.specs.Splice.{HoldsName, Splices};

use crate::blocks::{preserve_indirect_access, put_position};
use crate::rotate::rotate;
use records::layout::NodeId;
use records_table::work_node;

// The replacement stands from `replacement` to `target`, where the searched tree begins; `place`, in that tree, has the name's
// record; `indirect` is whether the name is a tag that must stay indirect. Returns how many of the nodes are in use then.
pub fn splice(
    nodes: &mut [u8],
    replacement: NodeId,
    target: NodeId,
    place: NodeId,
    nodes_used: usize,
    indirect: bool,
) -> usize
    requires name { HoldsName nodes.old replacement.0 target.0 place.0 nodes_used }
    requires room { indirect ≡ true → 16 * nodes_used + 16 ≤ length nodes.old }
    ensures result { Splices nodes.old nodes.new replacement.0 target.0 place.0
        nodes_used indirect result }
    ensures length { length nodes.new ≡ length nodes.old }
{
    let position = work_node(nodes, place).position;
    put_position(nodes, replacement, position);
    rotate(nodes, replacement, target, place);
    if indirect {
        let tag = NodeId(replacement.0 + (place.0 - target.0));
        preserve_indirect_access(nodes, tag, place, NodeId(nodes_used), position);
        return nodes_used + 1;
    }
    rotate(nodes, place, NodeId(place.0 + 1), NodeId(nodes_used)); // the name's record is the last one then
    nodes_used - 1
}
