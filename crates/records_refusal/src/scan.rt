// The nodes of a file in one pass, from the last to the first, for rows 7, 8 and 10 of the refusal table.
ghost use Rattle.std.specs.Prelude.{◌≡◌, ◌≤◌, not, length, OnOk};
ghost use Rattle.records.specs.File.{names_of, nodes_of, nodes_start};
ghost use Rattle.records.specs.Node.{bad_nodes};
ghost use Rattle.records.specs.Refusal.{row};
ghost use Rattle.records_rows.specs.Tally.{Tally};
ghost use Rattle.records_refusal.specs.Number.{number};
ghost use Rattle.records_refusal.specs.Scanning.{good_first, good_trees, Few, Taken};
ghost use Rattle.records_refusal.specs.Found.{Passes};

use crate::headed_file::HeadedFile;
use crate::outcome::Refusal;
use records::layout::node_at;
use records::limits::NODE_LENGTH;
use records::name_table::Names;
use records::parts::part_offsets;
use records::record_file::RecordFile;
use records_rows::count::count_uses;
use records_rows::tree::{node_entry, node_stands};
use records_tests::node::node_is_good;

// Where a pass stops: at a node that is bad by itself, or at one whose children can't stand, with so many nodes before it.
#[derive(Clone, Copy)]
enum Stop {
    BadNode,
    BadTree(usize),
}

// The first `count` nodes from the last on, as long as each is good by itself and its children stand where they may: where on the
// stack the entries of their trees begin. It is kept a function of its own: inlined into `check` the loop would be longer. The slices
// are lent one by one, here and above: each keeps its length by its type, and as fields of a struct they need clauses that say so.
#[inline(never)]
fn scan_trees(
    file: &RecordFile<'_>,
    count: usize,
    stack: &mut [u16],
    reads: &mut [u16],
    targets: &mut [u16],
) -> Result<usize, Stop>
    requires nodes { count ≤ file.now.header.nodes }
    requires stack { count ≤ length stack.old }
    requires places { (length reads.old ≤ 65535) × (length targets.old ≤ 65535) }
    requires reads { Few reads.old count }
    requires targets { Few targets.old count }
    ensures pass { Passes result file.now.bytes.now file.now.header.names (nodes_start file.now.header) count
        stack.old reads.old targets.old stack.new reads.new targets.new }
{
    let parts = part_offsets(file.header);
    let names = Names {
        file: file.bytes,
        count: file.header.names,
    };
    let mut top = stack.len();
    for left in (0..count).rev() {
        let at = parts[3] + NODE_LENGTH * left;
        let n = node_at(file.bytes, at);
        if !node_is_good(&names, n) {
            return Err(Stop::BadNode);
        }
        if !node_stands(stack, top, n) {
            return Err(Stop::BadTree(left));
        }
        let entry = node_entry(stack, top, n);
        top = top + usize::from(n.children) - 1;
        stack[top] = entry;
        count_uses(file.bytes, at, n, reads, targets);
    }
    Ok(top)
}

// Whether the first `count` nodes are good by themselves, whatever their trees are.
fn nodes_are_good(
    file: &RecordFile<'_>,
    count: usize,
    stack: &mut [u16],
    reads: &mut [u16],
    targets: &mut [u16],
) -> bool
    requires nodes { count ≤ file.now.header.nodes }
    requires stack { count ≤ length stack.old }
    requires places { (length reads.old ≤ 65535) × (length targets.old ≤ 65535) }
    requires reads { Few reads.old count }
    requires targets { Few targets.old count }
    ensures result { let h = file.now.header in result ≡ good_first file.now.bytes.now h.names (nodes_start h) count }
{
    let mut left = count;
    loop {
        match scan_trees(file, left, stack, reads, targets) {
            Ok(_) => return true,
            Err(Stop::BadNode) => return false,
            Err(Stop::BadTree(before)) => left = before,
        }
    }
}

// What row 7 and the first half of row 8 say, and where on the stack the entries of all trees begin: at its end, where one of them
// refuses the nodes.
#[derive(Clone, Copy)]
pub struct Scan {
    pub row: Result<(), Refusal>,
    pub top: usize,
}

// Row 7, and the first half of row 8. Where the children of a node can't stand, the nodes before it are asked for row 7 alone.
pub fn scan_nodes(
    headed: &HeadedFile<'_>,
    stack: &mut [u16],
    reads: &mut [u16],
    targets: &mut [u16],
) -> Scan
    requires stack { headed.now.file.header.nodes ≤ length stack.old }
    requires places { (length reads.old ≤ 65535) × (length targets.old ≤ 65535) }
    requires no_reads { Tally (λ k. 0) reads.old }
    requires no_targets { Tally (λ k. 0) targets.old }
    ensures rows { let bs = headed.now.file.bytes.now in
        number result.row ≡ row 7 (bad_nodes (names_of bs) (nodes_of bs)) (row 8 (not (good_trees (nodes_of bs))) 0) }
    ensures top { result.top ≤ length stack.old }
    ensures taken { let nodes = nodes_of headed.now.file.bytes.now in
        OnOk result.row (Taken nodes reads.old targets.old stack.new reads.new targets.new result.top) }
{
    let file = &headed.file;
    let end = stack.len();
    match scan_trees(file, usize::from(file.header.nodes), stack, reads, targets) {
        Ok(top) => Scan { row: Ok(()), top },
        Err(Stop::BadNode) => Scan {
            row: Err(Refusal::BadNodes),
            top: end,
        },
        Err(Stop::BadTree(before)) => {
            if nodes_are_good(file, before, stack, reads, targets) {
                Scan {
                    row: Err(Refusal::BadTrees),
                    top: end,
                }
            } else {
                Scan {
                    row: Err(Refusal::BadNodes),
                    top: end,
                }
            }
        }
    }
}
