// The search of a tree from one declarator (src/peephole/minimize_statements.rs 1220-1265).
ghost use Rattle.std.specs.Prelude.{◌≡◌, true, false};
ghost use Rattle.records.specs.File.{read};
ghost use Rattle.walk_rules.specs.Context.{context_of};
ghost use Rattle.statements_search.specs.FromDeclarators.{CanTry, Tries};

use records::layout::{DeclaratorRecord, NodeId};
use records::record_file::RecordFile;
use records_table::work_node;
use statements_declarator::declarator_parts::{
    Initializer, PlainName, ValueRecord, initializer_of, plain_name, value_record,
};
use statements_declarator::describe::describe;
use statements_declarator::ends::ends_search;
use walk::expression::substitute_single_use_symbol_in_expression;
use walk_arms::walked::Answer;
use walk_splice::splice;

// Whether the initializer was placed; where the searched tree begins then, how many nodes are in use, and the looks. No Option:
// clause `tried` gives `tree` and `nodes_used` where nothing was placed too.
#[derive(Clone, Copy)]
pub struct Tried {
    pub folded: bool,
    pub tree: NodeId,
    pub nodes_used: usize,
    pub looks: usize,
}

// The initializer was not placed.
fn kept(tree: NodeId, nodes_used: usize, looks: usize) -> Tried
    ensures result { result ≡ record { folded = false; tree = tree; nodes_used = nodes_used; looks = looks } }
{
    Tried {
        folded: false,
        tree,
        nodes_used,
        looks,
    }
}

// It was, in the tree that begins at `tree` now.
fn folded(tree: NodeId, nodes_used: usize, looks: usize) -> Tried
    ensures result { result ≡ record { folded = true; tree = tree; nodes_used = nodes_used; looks = looks } }
{
    Tried {
        folded: true,
        tree,
        nodes_used,
        looks,
    }
}

// The initializer, if there is one, begins at node `from`, the searched tree at `tree`; it is the last of the nodes in use.
pub fn substitute_single_use_symbol_in_expression_from_declarator(
    file: &RecordFile<'_>,
    nodes: &mut [u8],
    d: DeclaratorRecord,
    from: NodeId,
    tree: NodeId,
    nodes_used: usize,
    literal_only: bool,
) -> Tried
    requires tree { CanTry nodes.old d from.0 tree.0 nodes_used }
    ensures tried { Tries (context_of (read file.now.bytes.now)) literal_only nodes.old nodes.new
        d from.0 tree.0 nodes_used result }
{
    let Initializer::Given(initializer) = initializer_of(d, from) else {
        return kept(tree, nodes_used, 0);
    };
    let PlainName::Name(name) = plain_name(d) else {
        return kept(tree, nodes_used, 0);
    };
    let n = file.facts_of(name);
    let ValueRecord::Recorded(reads, writes) = value_record(n) else {
        return kept(tree, nodes_used, 0);
    };
    let root = work_node(nodes, initializer);
    if ends_search(file.header, n, reads, writes, root, literal_only) {
        return kept(tree, nodes_used, 0);
    }
    let replacement = describe(nodes, initializer, name);
    let w = substitute_single_use_symbol_in_expression(file, nodes, tree, replacement);
    let Answer::Replaced(place, indirect) = w.answer else {
        return kept(tree, nodes_used, w.looks);
    };
    let left = splice(nodes, initializer, tree, place, nodes_used, indirect);
    folded(initializer, left, w.looks)
}
