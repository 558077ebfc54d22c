// What a search knows of the tree that is to be placed, the Rust's `replacement` (src/peephole/minimize_statements.rs 1254-1260,
// where the search is called; 1589-1590, 1642-1643, 1774-1781 and 1870, where it is asked).
ghost use Rattle.std.specs.Prelude.{◌||◌, ◌≡◌, List, ℕ, eqb};
ghost use Rattle.records.specs.Tree.{Tree};
ghost use Rattle.records_table.specs.Laid.{TreeAt, Stands};
ghost use Rattle.walk_arms.specs.Described.{Describes};

use records::kinds::{CHAIN, FUNCTION, LITERAL};
use records::layout::{NameId, NodeId, NodeRecord};
use records_table::work_node;
use walk_arms::arms::is_member_expression;
use walk_arms::node::WorkNode;
use walk_arms::replacement::Replacement;
use walk_reorder::effect::may_have_side_effects;

// A literal, functions among them.
fn is_literal_value(n: NodeRecord) -> bool
    ensures result { result ≡ (eqb n.kind 1 || eqb n.kind 2) }
{
    matches!(n.kind, LITERAL | FUNCTION)
}

// The tree at `at`, to be placed where the name stands.
pub fn describe(nodes: &[u8], at: NodeId, name: NameId) -> Replacement
    requires tree { Stands nodes.now at.0 }
    ensures described { (pre : List ℕ) (t : Tree) (rest : List ℕ) → TreeAt nodes.now at.0 t pre rest
        → Describes result t × (result.name ≡ name) }
{
    let n = work_node(nodes, at);
    let node = WorkNode { nodes, at, root: n };
    let child = node.first_child();
    let effect = may_have_side_effects(nodes, at);
    let member = is_member_expression(n);
    let chain = n.kind == CHAIN;
    Replacement {
        name,
        effect,
        literal: is_literal_value(n),
        member_or_chain: member | chain,
        member_tag: member | chain & is_member_expression(child),
    }
}
