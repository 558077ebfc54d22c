// A node of the work table, and the roots of its first children: a callee, a tag, the parts of a member
// (src/peephole/minimize_statements.rs 1589-1591, 1642-1644, 1774-1781, 1433-1447).
ghost use Rattle.std.specs.Prelude.{◌≡◌, ◌*◌};
ghost use Rattle.records.specs.Record.{node_at};
ghost use Rattle.records_table.specs.Laid.{Stands};
ghost use Rattle.walk_arms.specs.Child.{FirstChild, SecondChild};

use records::kinds::OTHER;
use records::layout::{NodeId, NodeRecord};
use records_table::work_node;
use walk_reorder::effect::pass_forest;

// That a tree stands there is a clause of its own: it names the tree, and a ghost field has one proof only.
#[derive(Clone, Copy)]
pub struct WorkNode<'a> {
    pub nodes: &'a [u8],
    pub at: NodeId,
    pub root: NodeRecord,
    pub ghost read: { root ≡ node_at nodes.now (16 * at.0) },
}

// What stands for a child that isn't there: no `None`, since `FirstChild` has the root that `first_tree` gives of no trees.
pub fn no_child() -> NodeRecord
    ensures result { result ≡ record { kind = 0; flags = 0; label = 0; children = 0; zero = 0; position = 0 } }
{
    NodeRecord {
        kind: OTHER,
        flags: 0,
        label: 0,
        children: 0,
        zero: 0,
        position: 0,
    }
}

impl WorkNode<'_> {
    pub fn first_child(&self) -> NodeRecord
        requires tree { Stands self.now.nodes.now self.now.at.0 }
        ensures result { FirstChild self.now.nodes.now self.now.at.0 result }
    {
        if self.root.children == 0 {
            return no_child();
        }
        work_node(self.nodes, NodeId(self.at.0 + 1))
    }

    // The second child; the first one is passed, so this is asked where that one is small.
    pub fn second_child(&self) -> NodeRecord
        requires tree { Stands self.now.nodes.now self.now.at.0 }
        ensures result { SecondChild self.now.nodes.now self.now.at.0 result }
    {
        if self.root.children < 2 {
            return no_child();
        }
        let first = pass_forest(self.nodes, NodeId(self.at.0 + 1), 1);
        work_node(self.nodes, first.next)
    }
}
