// The search of a tree from the declarators before it, the last first (src/peephole/minimize_statements.rs 1214-1270).
ghost use Rattle.std.specs.Prelude.{◌≡◌, ◌*◌, ◌≤◌, length};
ghost use Rattle.records.specs.File.{read};
ghost use Rattle.walk_rules.specs.Context.{context_of};
ghost use Rattle.statements_search.specs.FromDeclarators.{CanSearch, SearchesFrom};

use crate::from_declarator::substitute_single_use_symbol_in_expression_from_declarator;
use records::layout::{NodeId, declarator_at};
use records::limits::DECLARATOR_LENGTH;
use records::record_file::RecordFile;
use statements_progress::progress::Progress;

// The tree that is searched: how many declarators are kept before it, and where it begins; it is the last of the nodes in use.
#[derive(Clone, Copy)]
pub struct SearchedTree {
    pub declarators_kept: usize,
    pub tree: NodeId,
    pub nodes_used: usize,
}

// The tree that isn't pushed yet.
impl From<Progress> for SearchedTree {
    ghost from_gives = { λ p t. t ≡ record {
      declarators_kept = p.declarators_kept;
      tree = p.tree;
      nodes_used = p.nodes_used;
    } };

    fn from(p: Progress) -> SearchedTree {
        SearchedTree {
            declarators_kept: p.declarators_kept,
            tree: p.tree,
            nodes_used: p.nodes_used,
        }
    }
}

// How many declarators are left, where the searched tree begins, how many nodes are in use, the folds and the looks.
#[derive(Clone, Copy)]
pub struct Searched {
    pub declarators_kept: usize,
    pub tree: NodeId,
    pub nodes_used: usize,
    pub folds: usize,
    pub looks: usize,
}

// The declarators are those from number `first` on. `starts` is an array of its own: a record of the format has no room for a place.
pub fn substitute_single_use_symbol_in_expression_from_declarators(
    file: &RecordFile<'_>,
    nodes: &mut [u8],
    declarators: &[u8],
    starts: &[usize],
    first: usize,
    target: SearchedTree,
    literal_only: bool,
) -> Searched
    requires tree { CanSearch nodes.old declarators.now starts.now first
        target.declarators_kept target.tree.0 target.nodes_used }
    requires declarators { 4 * target.declarators_kept ≤ length declarators.now }
    requires starts { target.declarators_kept ≤ length starts.now }
    ensures searched { SearchesFrom (context_of (read file.now.bytes.now)) literal_only
        nodes.old nodes.new declarators.now starts.now first
        target.declarators_kept target.tree.0 target.nodes_used result }
{
    // made here alone, so that a `From` would be no plainer
    let mut found = Searched {
        declarators_kept: target.declarators_kept,
        tree: target.tree,
        nodes_used: target.nodes_used,
        folds: 0,
        looks: 0,
    };
    for last in (first..target.declarators_kept).rev() {
        let t = substitute_single_use_symbol_in_expression_from_declarator(
            file,
            nodes,
            declarator_at(declarators, DECLARATOR_LENGTH * last),
            NodeId(starts[last]),
            found.tree,
            found.nodes_used,
            literal_only,
        );
        found.looks += t.looks;
        if !t.folded {
            break;
        }
        found.declarators_kept = last;
        found.folds += 1;
        found.tree = t.tree;
        found.nodes_used = t.nodes_used;
    }
    found
}
