// The result of a fold, laid down at the start of the output, part after part.
#![tactic(auto)]

pub mod header;

ghost use Rattle.std.specs.Prelude.{◌≡◌, ◌++◌, ◌+◌, ◌-◌, ◌*◌, ◌≤◌, length, take, drop};
ghost use Rattle.records.specs.Bytes.{Bytes};
ghost use Rattle.records.specs.Limits.{header_length, declarator_length, statement_length};
ghost use Rattle.records.specs.Record.{header_bytes, node_at, node_bytes};
ghost use Rattle.records.specs.Records.{records_from, bytes_of};
ghost use Rattle.records.specs.File.{file_length};
ghost use Rattle.records_table.specs.Table.{work_length};
ghost use Rattle.records_result.specs.Header.{tables_length, result_header};
ghost use Rattle.records_result.specs.Result.{Hold, PutsResult};

use crate::header::{Counts, result_header};
use records::layout::Header;
use records::limits::{DECLARATOR_LENGTH, HEADER_LENGTH, NODE_LENGTH, STATEMENT_LENGTH};
use records::parts::part_offsets;
use records::put::{put_copy, put_header};
use records::record_file::RecordFile;
use records_table::put_nodes;

// The header, and behind it the names, scopes and frames as they stand in the file, up to its byte `end`. The slice's type says that
// its bytes are small; the caller, who has the slice in a struct, learns it here.
fn put_facts(out: &mut [u8], bytes: &[u8], header: Header, end: usize)
    requires header { header_length ≤ end }
    requires file { end ≤ length bytes.now }
    requires room { end ≤ length out.old }
    ensures output { let facts = take (end - header_length) (drop header_length bytes.now) in
        out.new ≡ header_bytes header ++ (facts ++ drop end out.old) }
    ensures small { Bytes bytes.now }
{
    put_header(out, header);
    put_copy(&mut out[HEADER_LENGTH..], bytes, HEADER_LENGTH, end);
}

// The nodes, the declarators and the statements of the tables.
fn put_tables(out: &mut [u8], nodes: &[u8], declarators: &[u8], statements: &[u8], counts: Counts)
    requires tables { Hold nodes.now declarators.now statements.now counts }
    requires room { tables_length counts ≤ length out.old }
    ensures output { out.new
        ≡ bytes_of node_bytes (records_from (node_at nodes.now) work_length counts.nodes 0)
        ++ (take (declarator_length * counts.declarators) declarators.now
        ++ (take (statement_length * counts.statements) statements.now
        ++ drop (tables_length counts) out.old)) }
{
    let count = usize::from(counts.nodes);
    put_nodes(out, nodes, count);
    let first = NODE_LENGTH * count;
    let declared = DECLARATOR_LENGTH * usize::from(counts.declarators);
    put_copy(&mut out[first..], declarators, 0, declared);
    let next = first + declared;
    let stated = STATEMENT_LENGTH * usize::from(counts.statements);
    put_copy(&mut out[next..], statements, 0, stated);
}

// How long the result is that has so many nodes, declarators and statements.
pub fn result_length(h: Header, counts: Counts) -> usize
    ensures result { result ≡ file_length (result_header h counts) }
{
    let parts = part_offsets(result_header(h, counts));
    parts[6]
}

// Lays the result down. The facts are those of the file; the nodes stand in a work table, the declarators and the statements as
// in a file.
pub fn put_result(
    out: &mut [u8],
    file: &RecordFile<'_>,
    nodes: &[u8],
    declarators: &[u8],
    statements: &[u8],
    counts: Counts,
)
    requires tables { Hold nodes.now declarators.now statements.now counts }
    requires room { file_length (result_header file.now.header counts) ≤ length out.old }
    ensures output { PutsResult file.now.bytes.now nodes.now declarators.now
        statements.now counts out.old out.new }
{
    let header = result_header(file.header, counts);
    let parts = part_offsets(header);
    let end = parts[3];
    put_facts(out, file.bytes, header, end);
    put_tables(&mut out[end..], nodes, declarators, statements, counts);
}
