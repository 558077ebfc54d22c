// Copies a tree of a file to the work table.
ghost use Rattle.std.specs.Prelude.{◌≡◌, length};
ghost use Rattle.records_table.specs.Loads.{HasRoom, Loads};

use crate::copy_node;
use records::layout::{NodeId, node_at};
use records::limits::NODE_LENGTH;

// Copies the tree that begins with node `tree` of the file, whose first node stands at byte `nodes_start`, behind the nodes in
// use of the table. Returns how many nodes it has. A node of the table has four words of four bytes. The next node goes to
// `word`, and the nodes that are known of end at `end`: the first, and the children of those that are copied. So the end moves,
// and the loop is none over a range.
pub fn load_tree(
    file: &[u8],
    nodes_start: usize,
    tree: NodeId,
    nodes: &mut [u8],
    nodes_used: usize,
) -> usize
    requires room { HasRoom file.now nodes_start tree.0 nodes.old nodes_used }
    ensures tree { let file = file.now in
        Loads file nodes_start tree.0 nodes.old nodes.new nodes_used result }
    ensures length { length nodes.new ≡ length nodes.old }
{
    let mut next = nodes_start + NODE_LENGTH * tree.0;
    let mut word = 4 * nodes_used;
    let mut end = word + 4;
    while word < end {
        let to = 4 * word;
        copy_node(file, next, &mut nodes[to..]);
        let n = node_at(file, next);
        end += 4 * usize::from(n.children);
        next += NODE_LENGTH;
        word += 4;
    }
    end / 4 - nodes_used
}
