// Records behind those that are kept: `result.push` (src/peephole/minimize_statements.rs 241, 329).
ghost use Rattle.std.specs.Prelude.{◌≡◌, ◌+◌, ◌*◌, ◌≤◌, ◌<◌, length};
ghost use Rattle.statements_progress.specs.Pushed.{DeclaratorPushed, StatementPushed, declarator_past, statement_past};

use crate::progress::Progress;
use records::layout::{DeclaratorRecord, NodeId, StatementRecord};
use records::limits::{DECLARATOR_LENGTH, STATEMENT_LENGTH};
use records::put::{put_declarator, put_statement};

// The declarator whose tree, if it has one, is the last in use.
pub fn push_declarator(
    declarators: &mut [u8],
    starts: &mut [usize],
    d: DeclaratorRecord,
    p: Progress,
) -> Progress
    requires room { 4 * p.declarators_kept + 4 ≤ length declarators.old }
    requires starts { p.declarators_kept < length starts.old }
    requires read { p.declarators_read < 65536 }
    ensures result { result ≡ declarator_past p }
    ensures pushed { DeclaratorPushed declarators.old declarators.new
        starts.old starts.new p.declarators_kept p.tree.0 d }
{
    let kept = p.declarators_kept;
    let at = DECLARATOR_LENGTH * kept;
    put_declarator(&mut declarators[at..], d);
    starts[kept] = p.tree.0;
    Progress {
        tree: NodeId(p.nodes_used),
        declarators_kept: kept + 1,
        declarators_read: p.declarators_read + 1,
        ..p
    }
}

pub fn push_statement(statements: &mut [u8], s: StatementRecord, p: Progress) -> Progress
    requires room { 4 * p.statements_kept + 4 ≤ length statements.old }
    ensures result { result ≡ statement_past p }
    ensures pushed { StatementPushed statements.old statements.new p.statements_kept s }
{
    let kept = p.statements_kept;
    let at = STATEMENT_LENGTH * kept;
    put_statement(&mut statements[at..], s);
    Progress {
        tree: NodeId(p.nodes_used),
        statements_kept: kept + 1,
        ..p
    }
}
