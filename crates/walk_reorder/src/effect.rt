// Effects of the nodes of the work table, and where a forest ends: `may_have_side_effects`, which the Rust asks of another crate
// (src/peephole/minimize_statements.rs 1258, 1353, 1402, 1865).
ghost use Rattle.std.specs.Prelude.{List, ◌≡◌, ℕ};
ghost use Rattle.records.specs.Tree.{Tree, node_of};
ghost use Rattle.records_table.specs.Laid.{TreeAt, Stands, ForestStands};
ghost use Rattle.walk_rules.specs.Effect.{has_effect, may_have_side_effects};
ghost use Rattle.walk_reorder.specs.Passes.{Passes};

use records::kinds::{ASSIGNMENT, AWAIT, IMPORT, YIELD};
use records::layout::{NodeId, NodeRecord};
use records_table::work_node;

// Whether a node has an effect of its own.
#[tactic(auto, unfolding(walk_rules::specs::Effect::has_effect, records::specs::Tree::node_of))]
pub fn has_effect(n: NodeRecord) -> bool
    ensures result { result ≡ has_effect (node_of n) }
{
    n.is_marked() | matches!(n.kind, AWAIT | YIELD | IMPORT | ASSIGNMENT)
}

// Trees that are passed: the node behind them, and whether one of them has an effect.
#[derive(Clone, Copy)]
pub struct PassedForest {
    pub next: NodeId,
    pub effect: bool,
}

// Passes `many` trees from `at` on. `pending` trees begin at `next`; a node's children take its place among them, so how many
// nodes there are shows only at the end.
pub fn pass_forest(nodes: &[u8], at: NodeId, many: usize) -> PassedForest
    requires trees { ForestStands nodes.now at.0 many }
    ensures result { Passes nodes.now at.0 many result.next.0 result.effect }
{
    let mut next = at;
    let mut pending = many;
    let mut effect = false;
    while 0 < pending {
        let n = work_node(nodes, next);
        effect |= has_effect(n);
        pending = pending - 1 + usize::from(n.children); // in the node's place
        next = NodeId(next.0 + 1);
    }
    PassedForest { next, effect }
}

// Whether a whole tree has an effect; ends at the first one. `pending` trees begin at `next`, as in `pass_forest`.
pub fn may_have_side_effects(nodes: &[u8], at: NodeId) -> bool
    requires tree { Stands nodes.now at.0 }
    ensures result { (pre : List ℕ) (t : Tree) (rest : List ℕ) → TreeAt nodes.now at.0 t pre rest
        → result ≡ may_have_side_effects t }
{
    let mut next = at;
    let mut pending = 1;
    while 0 < pending {
        let n = work_node(nodes, next);
        if has_effect(n) {
            return true;
        }
        pending = pending - 1 + usize::from(n.children);
        next = NodeId(next.0 + 1);
    }
    false
}
