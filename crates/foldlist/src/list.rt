// The lines for a result, which stands at the start of `output`.
ghost use Rattle.std.specs.Prelude.{◌≤◌, length};

use records::kinds::EXPRESSION_STATEMENT;
use records::layout::{StatementRecord, declarator_at, header_of, node_at, statement_at};
use records::limits::{DECLARATOR_LENGTH, HEADER_LENGTH, NODE_LENGTH, STATEMENT_LENGTH};
use records::parts::part_offsets;
use std::io;

// How many trees a statement has, whose declarators these begin with: one for each initializer.
fn trees_of(s: StatementRecord, declarators: &[[u8; DECLARATOR_LENGTH]]) -> usize
    ensures result { result ≤ 65535 }
{
    if s.kind == EXPRESSION_STATEMENT {
        return 1;
    }
    declarators
        .iter()
        .take(usize::from(s.declarators))
        .filter(|record| declarator_at(*record, 0).present == 1)
        .count()
}

// How many of these nodes the first `trees` trees have.
fn nodes_of(nodes: &[[u8; NODE_LENGTH]], trees: usize) -> usize
    ensures result { result ≤ length nodes.now }
{
    let mut wanted = trees;
    for (passed, record) in nodes.iter().enumerate() {
        if wanted == 0 {
            return passed;
        }
        wanted = (wanted - 1).saturating_add(usize::from(node_at(record, 0).children));
    }
    nodes.len()
}

// A line for each statement.
fn print_statements(
    rt: &impl Print,
    statements: &[[u8; STATEMENT_LENGTH]],
    nodes: &[[u8; NODE_LENGTH]],
    declarators: &[[u8; DECLARATOR_LENGTH]],
) -> io::Result<()> {
    let mut nodes_left = nodes;
    let mut declarators_left = declarators;
    for (number, record) in statements.iter().enumerate() {
        let s = statement_at(record, 0);
        let count = usize::from(s.declarators);
        let Some((own, declarators_after)) = declarators_left.split_at_checked(count) else {
            return Ok(());
        };
        let passed = nodes_of(nodes_left, trees_of(s, own));
        println!(rt; "s {number} {} {} {passed}", s.kind, s.declarators)?;
        let (_, nodes_after) = nodes_left.split_at(passed);
        nodes_left = nodes_after;
        declarators_left = declarators_after;
    }
    Ok(())
}

// The totals, then a line for each statement. A header whose counts reach behind the output gets no line.
pub fn print_result(rt: &impl Print, output: &[u8], folds: usize) -> io::Result<()> {
    if output.len() < HEADER_LENGTH {
        return Ok(());
    }
    let h = header_of(output);
    let parts = part_offsets(h);
    if output.len() < parts[6] {
        return Ok(());
    }
    println!(rt;
        "fold {folds} statements {} nodes {}",
        h.statements, h.nodes
    )?;
    let (nodes, _) = output[parts[3]..parts[4]].as_chunks::<NODE_LENGTH>();
    let (declarators, _) = output[parts[4]..parts[5]].as_chunks::<DECLARATOR_LENGTH>();
    let (statements, _) = output[parts[5]..parts[6]].as_chunks::<STATEMENT_LENGTH>();
    print_statements(rt, statements, nodes, declarators)
}
