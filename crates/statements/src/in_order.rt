// The statements of an accepted file, in order (src/peephole/minimize_statements.rs 53-90: the loop of `minimize_statements`).
ghost use Rattle.std.specs.Prelude.{◌≤◌, length};
ghost use Rattle.statements.specs.State.{Long};
ghost use Rattle.statements.specs.Folds.{Accepted, FoldsAll};
ghost use Rattle.statements_search.specs.KeptStatements.{tables};

use crate::statement::fold_statement;
use crate::tables::Tables;
use records::layout::{NodeId, statement_at};
use records::limits::STATEMENT_LENGTH;
use records::parts::part_offsets;
use records::record_file::RecordFile;
use statements_progress::progress::Progress;

// How many nodes are in use, how many declarators and statements are kept, the folds and the looks.
#[derive(Clone, Copy)]
pub struct Totals {
    pub nodes_used: usize,
    pub declarators_kept: usize,
    pub statements_kept: usize,
    pub folds: usize,
    pub looks: usize,
}

// Fills the tables with what is kept, and two lists: the names that were folded, in the order of the folds, and the numbers
// that the statements had in the file. The tables are parameters here, since a proof knows only of a slice of its own, and not of
// one in a struct, that it holds bytes.
pub fn fold_statements(
    file: &RecordFile<'_>,
    nodes: &mut [u8],
    declarators: &mut [u8],
    starts: &mut [usize],
    statements: &mut [u8],
    folded: &mut [u16],
    kept: &mut [u16],
) -> Totals
    requires accepted { Accepted file.now.bytes.now }
    requires room { Long file.now.header (tables nodes.old declarators.old starts.old statements.old) folded.old }
    requires kept { file.now.header.statements ≤ length kept.old }
    ensures folded { FoldsAll file.now.bytes.now nodes.new declarators.new statements.new
        folded.old folded.new kept.new result }
{
    let mut tables = Tables {
        nodes,
        declarators,
        starts,
        statements,
    };
    let parts = part_offsets(file.header);
    let from = parts[5];
    let mut p = Progress {
        tree: NodeId(0),
        nodes_used: 0,
        declarators_kept: 0,
        statements_kept: 0,
        folds: 0,
        looks: 0,
        nodes_read: 0,
        declarators_read: 0,
    };
    for i in 0..usize::from(file.header.statements) {
        let s = statement_at(file.bytes, from + STATEMENT_LENGTH * i);
        p = fold_statement(file, &mut tables, folded, s, p);
        // it is the last that is kept
        let last = p.statements_kept - 1;
        kept[last] = i as u16;
    }
    // made here alone, so that a `From` would be no plainer
    Totals {
        nodes_used: p.nodes_used,
        declarators_kept: p.declarators_kept,
        statements_kept: p.statements_kept,
        folds: p.folds,
        looks: p.looks,
    }
}
