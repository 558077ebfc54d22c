// The search of a tree from the statements before it, the last first (src/peephole/minimize_statements.rs 1124-1165).
ghost use Rattle.std.specs.Prelude.{◌≡◌, ◌+◌, ◌*◌, ◌≤◌, ◌<◌, length};
ghost use Rattle.records.specs.Record.{statement_bytes};
ghost use Rattle.records.specs.File.{read};
ghost use Rattle.walk_rules.specs.Context.{context_of};
ghost use Rattle.records_table.specs.Overwrites.{Overwrites};
ghost use Rattle.statements_search.specs.InStatement.{CanSearchStatements, SearchesStatements};
ghost use Rattle.statements_search.specs.KeptStatements.{tables};

use crate::from_declarators::{
    SearchedTree, substitute_single_use_symbol_in_expression_from_declarators,
};
use records::kinds::CONST;
use records::layout::{NodeId, StatementRecord, statement_at};
use records::limits::STATEMENT_LENGTH;
use records::put::put_statement;
use records::record_file::RecordFile;
use statements_declarator::unsearched::is_unsearched;

// How many statements and declarators are left, where the searched tree begins, how many nodes are in use, the folds and the
// looks.
#[derive(Clone, Copy)]
pub struct InStatement {
    pub statements_kept: usize,
    pub declarators_kept: usize,
    pub tree: NodeId,
    pub nodes_used: usize,
    pub folds: usize,
    pub looks: usize,
}

// Nothing is folded yet.
fn begun(statements_kept: usize, target: SearchedTree) -> InStatement
    ensures result { result ≡ record {
      statements_kept = statements_kept;
      declarators_kept = target.declarators_kept;
      tree = target.tree;
      nodes_used = target.nodes_used;
      folds = 0;
      looks = 0;
    } }
{
    InStatement {
        statements_kept,
        declarators_kept: target.declarators_kept,
        tree: target.tree,
        nodes_used: target.nodes_used,
        folds: 0,
        looks: 0,
    }
}

// Writes the record of a declaration of so many declarators.
fn put_declaration(statements: &mut [u8], at: usize, kind: u8, many: usize)
    requires room { at + 4 ≤ length statements.old }
    requires many { many < 65536 }
    ensures written { Overwrites statements.old statements.new at
        (statement_bytes (record { kind = kind; zero = 0; declarators = many })) }
{
    let s = StatementRecord {
        kind,
        zero: 0,
        declarators: many as u16,
    };
    put_statement(&mut statements[at..], s);
}

// The declarators that are kept are those of the statements.
pub fn substitute_single_use_symbol_in_statement(
    file: &RecordFile<'_>,
    nodes: &mut [u8],
    declarators: &[u8],
    starts: &[usize],
    statements: &mut [u8],
    statements_kept: usize,
    target: SearchedTree,
) -> InStatement
    requires tree { CanSearchStatements (tables nodes.old declarators.now starts.now statements.old) statements_kept
        target.declarators_kept target.tree.0 target.nodes_used }
    requires declarators { 4 * target.declarators_kept ≤ length declarators.now }
    requires starts { target.declarators_kept ≤ length starts.now }
    requires statements { 4 * statements_kept ≤ length statements.old }
    ensures searched { SearchesStatements (context_of (read file.now.bytes.now))
        (tables nodes.old declarators.now starts.now statements.old)
        (tables nodes.new declarators.now starts.now statements.new)
        statements_kept target.declarators_kept target.tree.0 target.nodes_used result }
{
    let mut found = begun(statements_kept, target);
    if is_unsearched(file) {
        return found;
    }
    let literal_only = file.header.is_literal_only();
    for last in (0..statements_kept).rev() {
        let at = STATEMENT_LENGTH * last;
        let s = statement_at(statements, at);
        // a `using`, an expression, or any other
        if CONST < s.kind {
            break;
        }
        let first = found.declarators_kept - usize::from(s.declarators);
        // made here alone, so that a `From` would be no plainer
        let target = SearchedTree {
            declarators_kept: found.declarators_kept,
            tree: found.tree,
            nodes_used: found.nodes_used,
        };
        let r = substitute_single_use_symbol_in_expression_from_declarators(
            file,
            nodes,
            declarators,
            starts,
            first,
            target,
            literal_only,
        );
        found.declarators_kept = r.declarators_kept;
        found.tree = r.tree;
        found.nodes_used = r.nodes_used;
        found.folds += r.folds;
        found.looks += r.looks;
        // one without declarators is dropped
        if first < r.declarators_kept {
            put_declaration(statements, at, s.kind, r.declarators_kept - first);
            break;
        }
        found.statements_kept = last;
    }
    found
}
