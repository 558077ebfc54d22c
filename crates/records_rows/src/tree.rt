// Row 8 of the refusal table, for one node: trees that close, and children where their kinds may stand. A node comes before
// the trees behind it; what is kept of each of these stands on a stack: one slice that is filled from its end, where the entries
// begin at `top` (no heap).
ghost use Rattle.std.specs.Prelude.{◌≡◌, ◌&&◌, ◌||◌, ◌+◌, ◌≤◌, length, drop};
ghost use Rattle.records.specs.Flags.{optional as isOptional};
ghost use Rattle.records.specs.Node.{is_chain_element as isChainElementKind};
ghost use Rattle.records_rows.specs.Stack.{entry as entry_of, children_stand, node_entry, Low};

use crate::place::{NAMES, STANDING, children_stand, entry, is_chain_element};
use records::kinds::PROPERTY;
use records::layout::NodeRecord;

// Whether a node finds its children among the trees whose entries stand from `top` on, and each where it may stand.
pub fn node_stands(stack: &[u16], top: usize, n: NodeRecord) -> bool
    requires kind { n.kind ≤ 30 }
    requires top { top ≤ length stack.now }
    requires entries { Low stack.now top }
    ensures result { result ≡ children_stand n (drop top stack.now) }
{
    let children = usize::from(n.children);
    if children == 0 {
        return true;
    }
    if stack.len() - top < children {
        return false;
    }
    if n.kind == PROPERTY {
        if n.is_shorthand() {
            return children_stand(stack, top, children, NAMES, NAMES);
        }
    }
    let first = 2 * usize::from(n.kind);
    children_stand(stack, top, children, STANDING[first], STANDING[first + 1])
}

// The entry of a node whose first child is unchained or not.
fn entry_over(n: NodeRecord, unchained: bool) -> u16
    ensures result { let stays = isChainElementKind n.kind && (isOptional n.flags || unchained) in
        result ≡ entry_of n.kind stays }
{
    if n.is_optional() | unchained {
        return entry(n.kind, is_chain_element(u16::from(n.kind)));
    }
    entry(n.kind, false)
}

// The entry of a node that finds its children.
pub fn node_entry(stack: &[u16], top: usize, n: NodeRecord) -> u16
    requires children { top + n.children ≤ length stack.now }
    ensures result { result ≡ node_entry n (drop top stack.now) }
{
    if n.children == 0 {
        return entry_over(n, false);
    }
    entry_over(n, stack[top] % 2 == 1)
}
