// The records of a file checked, and the file folded, over tables for its counts: the core of `fold`, of the repeat and of
// measuring. It has no counterpart in the Rust, whose trees grow as they need.
ghost use Rattle.std.specs.Prelude.{◌++◌, ◌≡◌, ◌+◌, ◌*◌, ◌≤◌, ◌<◌, length, take, drop};
ghost use Rattle.records.specs.File.{read, print};
ghost use Rattle.statements_rules.specs.Fold.{fold_file};
ghost use Rattle.statements_search.specs.Kept.{folded_names};
ghost use Rattle.statements_search.specs.KeptStatements.{tables};
ghost use Rattle.statements.specs.State.{most_nodes, Long};
ghost use Rattle.statements.specs.Folds.{Accepted};
ghost use Rattle.statements_fold.specs.Outcome.{folds as folds_of, laid_if_room, FoldsRecords};

use records::limits::{
    DECLARATOR_LENGTH, MAX_DECLARATORS, MAX_NODES, MAX_STATEMENTS, STATEMENT_LENGTH,
};
use records::record_file::RecordFile;
use records_refusal::check::check_records;
use records_refusal::headed_file::HeadedFile;
use records_refusal::outcome::Refusal;
use records_result::header::Counts;
use records_result::{put_result, result_length};
use records_table::WORK_LENGTH;
use statements::in_order::fold_statements;

// The result's length, the declarators folded, the statements kept, and the looks.
#[derive(Clone, Copy)]
pub struct Outcome {
    pub length: usize,
    pub folds: usize,
    pub statements_kept: usize,
    pub looks: usize,
}

// An accepted file over tables that are lent: nodes, 16 bytes each; declarators and statements, 4 bytes each; where the
// declarators' trees begin. They are lent one by one, for the reason that `fold_statements` gives.
fn fold_over(
    file: &RecordFile<'_>,
    output: &mut [u8],
    nodes: &mut [u8],
    declarators: &mut [u8],
    starts: &mut [usize],
    statements: &mut [u8],
    folded: &mut [u16],
    kept: &mut [u16],
) -> Outcome
    requires accepted { Accepted file.now.bytes.now }
    requires room { Long file.now.header (tables nodes.old declarators.old starts.old statements.old) folded.old }
    requires kept { file.now.header.statements ≤ length kept.old }
    ensures result { result ≡ folds_of (fold_file (read file.now.bytes.now)) }
    ensures output { output.new
        ≡ laid_if_room (print (fold_file (read file.now.bytes.now)).file) output.old }
    ensures names { folded.new
        ≡ folded_names (fold_file (read file.now.bytes.now)).trace ++ drop result.folds folded.old }
    ensures numbers { take result.statements_kept kept.new ≡ (fold_file (read file.now.bytes.now)).kept }
{
    let t = fold_statements(file, nodes, declarators, starts, statements, folded, kept);
    // made here alone, as the outcome is, so that a `From` would be no plainer
    let counts = Counts {
        nodes: t.nodes_used as u16,
        declarators: t.declarators_kept as u16,
        statements: t.statements_kept as u16,
    };
    let length = result_length(file.header, counts);
    let r = Outcome {
        length,
        folds: t.folds,
        statements_kept: t.statements_kept,
        looks: t.looks,
    };
    if output.len() < length {
        return r;
    }
    put_result(output, file, nodes, declarators, statements, counts);
    r
}

// Rows 5 to 11, then the fold over tables of these sizes: the bytes of the nodes, those of the declarators, the places where the
// declarators' trees begin, and the bytes of the statements. It is kept a function of its own, so that only a large file takes the
// stack of the large tables.
#[inline(never)]
fn fold_within<const N: usize, const D: usize, const B: usize, const S: usize>(
    headed: &HeadedFile<'_>,
    room: usize,
    output: &mut [u8],
    folded: &mut [u16],
    kept: &mut [u16],
) -> Result<Outcome, Refusal>
    requires sizes { N + D + 8 * B + S < 9223372036854775808 }
    requires nodes { 16 * most_nodes headed.now.file.header ≤ N }
    requires declarators { 4 * headed.now.file.header.declarators ≤ D }
    requires starts { headed.now.file.header.declarators ≤ B }
    requires statements { 4 * headed.now.file.header.statements ≤ S }
    requires folded { headed.now.file.header.declarators ≤ length folded.old }
    requires kept { headed.now.file.header.statements ≤ length kept.old }
    ensures folds { FoldsRecords headed.now.file.bytes.now room output.old output.new
        folded.old folded.new kept.new result }
{
    check_records(headed, room)?;
    let mut nodes = [0u8; N];
    let mut declarators = [0u8; D];
    let mut starts = [0usize; B];
    let mut statements = [0u8; S];
    Ok(fold_over(
        &headed.file,
        output,
        &mut nodes,
        &mut declarators,
        &mut starts,
        &mut statements,
        folded,
        kept,
    ))
}

// What the small tables have room for: nodes, and declarators or statements.
const FEW_NODES: usize = 240;

const FEW_STATEMENTS: usize = 120;

// The sizes of the small tables, which take less time to clear.
const SMALL_NODES: usize = WORK_LENGTH * FEW_NODES;

const SMALL_DECLARATORS: usize = DECLARATOR_LENGTH * FEW_STATEMENTS;

const SMALL_STATEMENTS: usize = STATEMENT_LENGTH * FEW_STATEMENTS;

// Those of the tables of the limits.
const LARGE_NODES: usize = WORK_LENGTH * (MAX_NODES as usize);

const LARGE_DECLARATORS: usize = DECLARATOR_LENGTH * (MAX_DECLARATORS as usize);

const LARGE_STARTS: usize = MAX_DECLARATORS as usize;

const LARGE_STATEMENTS: usize = STATEMENT_LENGTH * (MAX_STATEMENTS as usize);

// Of a file whose header passes: rows 5 to 11, with so much room for the result; then the fold. It fills two lists: the names
// that were folded, in the order of the folds, behind which the list is as it was; and the numbers that the statements of the
// result had in the file. The result is laid down at the start of `output` if that is long enough. The three are lent one by one,
// since callers read them afterwards.
pub fn fold_records(
    headed: &HeadedFile<'_>,
    room: usize,
    output: &mut [u8],
    folded: &mut [u16],
    kept: &mut [u16],
) -> Result<Outcome, Refusal>
    requires folded { headed.now.file.header.declarators ≤ length folded.old }
    requires kept { headed.now.file.header.statements ≤ length kept.old }
    ensures folds { FoldsRecords headed.now.file.bytes.now room output.old output.new
        folded.old folded.new kept.new result }
{
    let h = headed.file.header;
    let nodes = usize::from(h.nodes) + 2 * usize::from(h.declarators);
    if nodes <= FEW_NODES && usize::from(h.statements) <= FEW_STATEMENTS {
        fold_within::<SMALL_NODES, SMALL_DECLARATORS, FEW_STATEMENTS, SMALL_STATEMENTS>(
            headed, room, output, folded, kept,
        )
    } else {
        fold_within::<LARGE_NODES, LARGE_DECLARATORS, LARGE_STARTS, LARGE_STATEMENTS>(
            headed, room, output, folded, kept,
        )
    }
}
