// Rows 5 to 11 of the refusal table, each over all the records that it is about.
ghost use Rattle.std.specs.Prelude.{◌≡◌, true, ◌+◌, ◌≤◌, ◌<◌, length, ltb, OnOk};
ghost use Rattle.records.specs.Records.{every};
ghost use Rattle.records.specs.Facts.{bad_facts};
ghost use Rattle.records.specs.Script.{bad_statements, declared_twice};
ghost use Rattle.records.specs.Node.{bad_nodes};
ghost use Rattle.records.specs.Place.{bad_trees, expressions};
ghost use Rattle.records.specs.Count.{bad_counts, reads_of, targets_of};
ghost use Rattle.records.specs.Tree.{forest_of};
ghost use Rattle.records.specs.File.{names_of, scopes_of, frames_of, nodes_of, declarators_of, statements_of, initializers};
ghost use Rattle.records.specs.Refusal.{row, room_wanted};
ghost use Rattle.records_rows.specs.Tally.{Tally, fits};
ghost use Rattle.records_refusal.specs.Number.{number};

use crate::headed_file::HeadedFile;
use crate::outcome::Refusal;
use crate::scan::scan_nodes;
use records::limits::{MAX_NAMES, ROOM_PER_DECLARATOR};
use records::name_table::Names;
use records::parts::part_offsets;
use records::record_file::RecordFile;
use records_rows::count::counts_are_good;
use records_rows::declared::declared_twice;
use records_rows::place::roots_stand;
use records_tests::facts::{frames_are_good, names_are_good, scopes_are_good};
use records_tests::script::{declarator_totals, statement_totals};

// Row 5.
pub fn facts_are_bad(file: &RecordFile<'_>) -> bool
    ensures result { let bs = file.now.bytes.now in result ≡ bad_facts (names_of bs) (scopes_of bs) (frames_of bs) }
{
    let h = file.header;
    let good_names = names_are_good(&file.name_facts(), h.scopes);
    let good_scopes = scopes_are_good(file.bytes, part_offsets(h)[1], h.scopes);
    let good_frames = frames_are_good(&file.frames(), h.scopes);
    !(good_names & good_scopes & good_frames)
}

// What row 6 says, and how many trees the declarators and statements have, also of a file that it refuses.
#[derive(Clone, Copy)]
pub struct StatementRow {
    pub row: Result<(), Refusal>,
    pub trees: usize,
}

// Row 6.
pub fn statement_row(file: &RecordFile<'_>) -> StatementRow
    ensures row { let bs = file.now.bytes.now in
        number result.row ≡ row 6 (bad_statements (names_of bs) (declarators_of bs) (statements_of bs)) 0 }
    ensures trees { let bs = file.now.bytes.now in
        result.trees ≡ initializers (declarators_of bs) + expressions (statements_of bs) }
{
    let names = Names {
        file: file.bytes,
        count: file.header.names,
    };
    let declarators = file.declarators();
    let d = declarator_totals(&names, &declarators);
    let s = statement_totals(&file.statements());
    let trees = d.initializers + s.expressions;
    if d.good & s.good & (s.declarators == declarators.count) {
        StatementRow { row: Ok(()), trees }
    } else {
        StatementRow {
            row: Err(Refusal::BadStatements),
            trees,
        }
    }
}

// Rows 7 and 8, where the declarators and statements have so many trees; and the uses of each name for row 10.
pub fn node_rows(
    headed: &HeadedFile<'_>,
    trees: usize,
    stack: &mut [u16],
    reads: &mut [u16],
    targets: &mut [u16],
) -> Result<(), Refusal>
    requires trees { let bs = headed.now.file.bytes.now in
        trees ≡ initializers (declarators_of bs) + expressions (statements_of bs) }
    requires stack { headed.now.file.header.nodes ≤ length stack.old }
    requires places { (length reads.old ≤ 65535) × (length targets.old ≤ 65535) }
    requires no_reads { Tally (λ k. 0) reads.old }
    requires no_targets { Tally (λ k. 0) targets.old }
    ensures rows { let bs = headed.now.file.bytes.now in
        number result
        ≡ row 7 (bad_nodes (names_of bs) (nodes_of bs)) (row 8 (bad_trees (declarators_of bs) (statements_of bs) (nodes_of bs)) 0) }
    ensures reads { let forest = forest_of (nodes_of headed.now.file.bytes.now) in
        OnOk result (Tally (λ k. reads_of k forest) reads.new) }
    ensures targets { let forest = forest_of (nodes_of headed.now.file.bytes.now) in
        OnOk result (Tally (λ k. targets_of k forest) targets.new) }
{
    let scan = scan_nodes(headed, stack, reads, targets);
    scan.row?;
    let found = stack.len() - scan.top;
    if (found == trees) & roots_stand(stack, scan.top, found) {
        Ok(())
    } else {
        Err(Refusal::BadTrees)
    }
}

// Row 9, of a file that row 6 doesn't refuse.
pub fn names_are_declared_twice(file: &RecordFile<'_>) -> bool
    requires names { every fits (declarators_of file.now.bytes.now) ≡ true }
    ensures result { result ≡ declared_twice (declarators_of file.now.bytes.now) }
{
    let mut seen = [0u8; MAX_NAMES as usize];
    declared_twice(&file.declarators(), &mut seen)
}

// Row 10, by the uses of each name.
pub fn counts_are_bad(file: &RecordFile<'_>, reads: &[u16], targets: &[u16]) -> bool
    requires reads_room { file.now.header.names ≤ length reads.now }
    requires targets_room { file.now.header.names ≤ length targets.now }
    requires reads { let forest = forest_of (nodes_of file.now.bytes.now) in Tally (λ k. reads_of k forest) reads.now }
    requires targets { let forest = forest_of (nodes_of file.now.bytes.now) in Tally (λ k. targets_of k forest) targets.now }
    ensures result { let bs = file.now.bytes.now in result ≡ bad_counts (names_of bs) (forest_of (nodes_of bs)) }
{
    !counts_are_good(file.bytes, usize::from(file.header.names), reads, targets)
}

// The room that row 11 asks for.
pub fn room_wanted(file: &RecordFile<'_>) -> usize
    ensures result { result ≡ room_wanted file.now.bytes.now }
{
    file.bytes.len() + ROOM_PER_DECLARATOR * usize::from(file.header.declarators)
}

// Row 11.
pub fn room_is_short(file: &RecordFile<'_>, room: usize) -> bool
    ensures result { result ≡ ltb room (room_wanted file.now.bytes.now) }
{
    room < room_wanted(file)
}
