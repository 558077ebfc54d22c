// Small trees of a forest that need no call: a leaf, or a node over one leaf, that the search passes. What it does there is what
// `substitute_single_use_symbol_in_expression` does (src/peephole/minimize_statements.rs 1272-1876, `None`).
ghost use Rattle.std.specs.Prelude.{◌≡◌, true, false, ◌+◌, ◌*◌, ◌≤◌, ◌<◌, length, eqb, IfSome};
ghost use Rattle.records.specs.Record.{node_at};
ghost use Rattle.records.specs.Tree.{node_of};
ghost use Rattle.records.specs.File.{read};
ghost use Rattle.walk_rules.specs.Context.{context_of};
ghost use Rattle.walk_rules.specs.Effect.{has_effect};
ghost use Rattle.walk_arms.specs.Described.{IsDescription};
ghost use Rattle.records_table.specs.Laid.{Stands, ForestStands};
ghost use Rattle.walk.specs.Forests.{GoesOn};
ghost use Rattle.walk.specs.Small.{PassesLeaf, PassesOver, PassesTree};

use crate::forest::Forest;
use records::kinds::{ASSIGNMENT, FUNCTION, LITERAL, NAME, is_expression};
use records::layout::{NameId, NodeId, NodeRecord};
use records::record_file::RecordFile;
use records_table::work_node;
use walk_arms::arms::{can_reorder, is_specific_id, may_pass, own_looks, plan_of, shape_of};
use walk_arms::replacement::Replacement;
use walk_reorder::effect::has_effect;
use walk_reorder::unsettled::identifier_read_blocks_reorder;

// A node without children, not the name, that is passed at once: a literal, a function or a settled name, or any other
// expression that the replacement may be reordered past; `acts` is whether it has an effect. An assignment without a target
// isn't one.
fn passes_leaf(file: &RecordFile<'_>, n: NodeRecord, replacement: Replacement, acts: bool) -> bool
    requires effect { acts ≡ has_effect (node_of n) }
    ensures result { result ≡ true → PassesLeaf (context_of (read file.now.bytes.now)) n replacement }
{
    if n.children != 0 {
        return false;
    }
    if is_specific_id(n, replacement) {
        return false;
    }
    if can_reorder(replacement, acts) {
        return is_expression(u16::from(n.kind)) & !(n.kind == ASSIGNMENT);
    }
    if n.kind == NAME {
        return !identifier_read_blocks_reorder(file, NameId(n.label));
    }
    matches!(n.kind, LITERAL | FUNCTION)
}

// A node over such a leaf, its only child, that is passed; `own` and `acts` are whether it and the leaf have an effect.
fn passes_over(
    file: &RecordFile<'_>,
    n: NodeRecord,
    leaf: NodeRecord,
    replacement: Replacement,
    own: bool,
    acts: bool,
) -> bool
    requires own { own ≡ has_effect (node_of n) }
    requires effect { acts ≡ has_effect (node_of leaf) }
    requires leaf { PassesLeaf (context_of (read file.now.bytes.now)) leaf replacement }
    ensures result { result ≡ true → PassesOver (context_of (read file.now.bytes.now)) n leaf replacement }
{
    if is_specific_id(n, replacement) {
        return false;
    }
    let shape = shape_of(n);
    if shape.is_assignment() {
        return false;
    }
    if plan_of(shape, n, leaf, replacement).is_nothing() {
        return false;
    }
    may_pass(file, shape, n, replacement, own, acts, false)
}

fn has_one_child(nodes: &[u8], at: NodeId) -> bool
    requires record { 16 * at.0 + 16 ≤ length nodes.now }
    ensures result { result ≡ eqb (node_at nodes.now (16 * at.0)).children 1 }
{
    work_node(nodes, at).children == 1
}

// A small tree that is passed at once, a leaf or a node over one leaf: how many nodes it has, whether it has an effect, and
// the looks at it.
#[derive(Clone, Copy)]
pub struct Small {
    pub nodes: usize,
    pub effect: bool,
    pub looks: usize,
}

// The tree at `at`, if it is such a one.
fn small_at(
    file: &RecordFile<'_>,
    nodes: &[u8],
    at: NodeId,
    replacement: Replacement,
) -> Option<Small>
    requires tree { Stands nodes.now at.0 }
    ensures result { IfSome result (λ t. PassesTree (context_of (read file.now.bytes.now)) replacement
        nodes.now at.0 t.nodes t.effect t.looks) }
{
    let over = has_one_child(nodes, at);
    let leaf = work_node(nodes, NodeId(at.0 + usize::from(over)));
    let acts = has_effect(leaf);
    if !passes_leaf(file, leaf, replacement, acts) {
        return None;
    }
    if !over {
        return Some(Small {
            nodes: 1,
            effect: acts,
            looks: 1,
        });
    }
    let n = work_node(nodes, at);
    let own = has_effect(n);
    if !passes_over(file, n, leaf, replacement, own, acts) {
        return None;
    }
    Some(Small {
        nodes: 2,
        effect: own | acts,
        looks: own_looks(n) + 1,
    })
}

// Passes the small trees that a forest begins with, where each tree is entered. That the replacement describes a tree is a clause:
// it says that there is such a tree, which no ghost field can name.
pub(crate) fn pass_small(
    file: &RecordFile<'_>,
    nodes: &[u8],
    forest: Forest,
    replacement: Replacement,
) -> Forest
    requires trees { ForestStands nodes.now forest.next.0 forest.trees }
    requires described { IsDescription replacement }
    requires looks { 16 * forest.looks ≤ length nodes.now }
    ensures result { GoesOn (context_of (read file.now.bytes.now)) replacement nodes.now nodes.now
        forest result }
{
    let mut left = forest;
    if !left.plan.is_all() {
        return left;
    }
    // Not an index: each tree's end is where the next begins.
    while 0 < left.trees {
        let Some(t) = small_at(file, nodes, left.next, replacement) else {
            break;
        };
        left.next = NodeId(left.next.0 + t.nodes);
        left.trees -= 1;
        left.effect |= t.effect;
        left.looks += t.looks;
    }
    left
}
