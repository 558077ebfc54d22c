// `substitute_single_use_symbol_in_expression` (src/peephole/minimize_statements.rs 1272-1876): a node, from its children, and a
// forest of these. The arms are those of `walk_arms::arms`; the loops of the Rust's arms over arguments, elements, properties and
// expressions are `walk_list`. What stands at the name's place is left to the caller (1291-1295, 1789-1793).
ghost use Rattle.std.specs.Prelude.{◌&&◌, not, ◌≡◌, ◌+◌, ◌*◌, ◌≤◌, ◌<◌, length, eqb};
ghost use Rattle.records.specs.Tree.{node_of};
ghost use Rattle.records.specs.File.{read};
ghost use Rattle.walk_rules.specs.Context.{context_of};
ghost use Rattle.walk_rules.specs.Shape.{cleared};
ghost use Rattle.walk_arms.specs.Described.{IsDescription};
ghost use Rattle.walk_arms.specs.Arms.{is_nothing};
ghost use Rattle.walk_arms.specs.Search.{Searchable, SearchableForest, Searches, SearchesForest};
ghost use Rattle.walk.specs.Node.{OfChildren};

use crate::forest::Forest;
use crate::small::pass_small;
use records::flags::{COMPUTED, SHORTHAND};
use records::kinds::PROPERTY;
use records::layout::{NodeId, NodeRecord};
use records::record_file::RecordFile;
use records_table::{set_flags, work_node};
use walk_arms::arms::{Begun, Plan, begin, is_specific_id, may_pass, own_looks};
use walk_arms::node::WorkNode;
use walk_arms::replacement::Replacement;
use walk_arms::walked::{Answer, Walked, either, passed, replaced, stopped};
use walk_reorder::effect::{has_effect, pass_forest};

// One child is left, and the plan enters it.
fn is_one(trees: usize, plan: Plan) -> bool
    ensures result { result ≡ (eqb trees 1 && not (is_nothing plan)) }
{
    (trees == 1) & !plan.is_nothing()
}

// The flags of a node whose child gave an answer: an ObjectProperty is a shorthand no longer (1747-1752).
#[tactic(auto, unfolding(walk_rules::specs::Shape::cleared, records::specs::Tree::node_of))]
fn cleared_flags(n: NodeRecord) -> u8
    ensures result { result ≡ (cleared (node_of n)).flags }
{
    let shorthand = (n.kind == PROPERTY) & n.is_shorthand();
    let gains = n.is_proto() & !n.is_computed(); // `{ __proto__ }` becomes `{ ['__proto__']: value }`
    if shorthand {
        if gains {
            return n.flags - SHORTHAND + COMPUTED;
        }
        return n.flags - SHORTHAND;
    }
    n.flags
}

// Where the children are passed, by whether the node may be; else their answer is the node's own. `Replaced` is made anew, since a
// copy of the enum takes its unused bytes along (docs/BENCHMARKS.md, under "An answer is made anew by its cases").
fn of_children(
    file: &RecordFile<'_>,
    nodes: &mut [u8],
    at: NodeId,
    n: NodeRecord,
    begun: Begun,
    replacement: Replacement,
    children: Walked,
) -> Walked
    requires record { 16 * at.0 + 16 ≤ length nodes.old }
    requires looks { children.looks + 1 < 18446744073709551616 }
    ensures result { OfChildren (context_of (read file.now.bytes.now)) nodes.old nodes.new at.0
        n begun replacement children result }
{
    let looks = own_looks(n) + children.looks;
    let end = children.end;
    match children.answer {
        Answer::Passed(acts) => {
            let own = has_effect(n);
            let below = begun.effect | acts;
            if may_pass(file, begun.shape, n, replacement, own, below, begun.stops) {
                return passed(end, own | below, looks);
            }
            stopped(end, looks)
        }
        Answer::Stopped => {
            set_flags(nodes, at, cleared_flags(n));
            stopped(end, looks)
        }
        Answer::Replaced(place, indirect) => {
            set_flags(nodes, at, cleared_flags(n));
            Walked {
                answer: Answer::Replaced(place, indirect),
                end,
                looks,
            }
        }
    }
}

// The search of the tree at `at`: of its children by the plan of its arm, then of the node by what they said. `described` is a
// clause, since it says that there is a tree of this description, which no ghost field can name.
#[cycle(substitute_single_use_symbol_in_expression_walk_list)]
pub fn substitute_single_use_symbol_in_expression(
    file: &RecordFile<'_>,
    nodes: &mut [u8],
    at: NodeId,
    replacement: Replacement,
) -> Walked
    requires tree { Searchable nodes.old at.0 }
    requires described { IsDescription replacement }
    ensures result { Searches (context_of (read file.now.bytes.now)) replacement nodes.old nodes.new
        at.0 result }
{
    let n = work_node(nodes, at);
    if is_specific_id(n, replacement) {
        return replaced(at, false, 1);
    }
    let node = WorkNode { nodes, at, root: n };
    let begun = begin(file, &node, replacement);
    if begun.indirect {
        return replaced(NodeId(at.0 + 1), true, 2);
    }
    let next = begun.next;
    let plan = begun.plan;
    let children = if is_one(begun.trees, plan) {
        substitute_single_use_symbol_in_expression(file, nodes, next, replacement)
    } else {
        walk_list(file, nodes, next, begun.trees, plan, replacement)
    };
    of_children(file, nodes, at, n, begun, replacement, children)
}

// The search of the `many` trees from `at` on, by a plan. Not an index: each tree's end is where the next begins.
#[cycle(substitute_single_use_symbol_in_expression_walk_list)]
fn walk_list(
    file: &RecordFile<'_>,
    nodes: &mut [u8],
    at: NodeId,
    many: usize,
    plan: Plan,
    replacement: Replacement,
) -> Walked
    requires trees { SearchableForest nodes.old at.0 many }
    requires described { IsDescription replacement }
    ensures result { SearchesForest (context_of (read file.now.bytes.now)) replacement nodes.old
        nodes.new at.0 many plan result }
{
    let mut forest = Forest {
        next: at,
        trees: many,
        plan,
        effect: false,
        looks: 0,
    };
    loop {
        forest = pass_small(file, nodes, forest, replacement);
        if forest.trees == 0 {
            return passed(forest.next, forest.effect, forest.looks);
        }
        if forest.plan.is_nothing() {
            let others = pass_forest(nodes, forest.next, forest.trees);
            return passed(others.next, forest.effect | others.effect, forest.looks);
        }
        let first = substitute_single_use_symbol_in_expression(
            file,
            nodes,
            forest.next,
            replacement,
        );
        let end = first.end;
        let looks = forest.looks + first.looks;
        match first.answer {
            Answer::Passed(acts) => forest = forest.behind(end, acts, looks),
            Answer::Stopped => {
                let others = forest.trees - 1;
                if forest.plan.is_branches() {
                    let other = walk_list(file, nodes, end, others, Plan::All, replacement);
                    return Walked {
                        answer: either(other.answer),
                        end: other.end,
                        looks: looks + other.looks,
                    };
                }
                return stopped(pass_forest(nodes, end, others).next, looks);
            }
            Answer::Replaced(_, _) => return Walked { looks, ..first },
        }
    }
}
