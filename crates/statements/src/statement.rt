// A statement, by its kind (src/peephole/minimize_statements.rs 135-173: `minimize_statement`, for the kinds that a record file
// has; 282-330: `handle_expression_statement`, without what is between the search and the push).
ghost use Rattle.std.specs.Prelude.{◌≡◌};
ghost use Rattle.records.specs.File.{read};
ghost use Rattle.walk_rules.specs.Context.{context_of};
ghost use Rattle.statements.specs.State.{tables_of, Long, SameSlices};
ghost use Rattle.statements.specs.Folds.{CanFold, Folds};

use crate::declaration::handle_variable_declaration;
use crate::next::substitute_in_next_tree;
use crate::tables::Tables;
use records::kinds::{EXPRESSION_STATEMENT, OTHER_STATEMENT};
use records::layout::StatementRecord;
use records::record_file::RecordFile;
use statements_progress::progress::Progress;
use statements_progress::push::push_statement;

fn handle_expression_statement(
    file: &RecordFile<'_>,
    tables: &mut Tables<'_>,
    folded: &mut [u16],
    s: StatementRecord,
    p: Progress,
) -> Progress
    requires room { Long file.now.header (tables_of tables.old) folded.old }
    requires state { CanFold file.now.bytes.now file.now.header (tables_of tables.old) s p }
    requires expression { s.kind ≡ 5 }
    ensures folds { Folds (context_of (read file.now.bytes.now)) file.now.bytes.now
        file.now.header (tables_of tables.old) (tables_of tables.new) folded.old folded.new s p result }
    ensures declarators { tables.new.declarators.now ≡ tables.old.declarators.now }
    ensures starts { tables.new.starts.now ≡ tables.old.starts.now }
    ensures slices { SameSlices tables.old tables.new }
{
    let l = substitute_in_next_tree(file, tables, folded, p);
    push_statement(tables.statements, s, l)
}

pub(crate) fn fold_statement(
    file: &RecordFile<'_>,
    tables: &mut Tables<'_>,
    folded: &mut [u16],
    s: StatementRecord,
    p: Progress,
) -> Progress
    requires room { Long file.now.header (tables_of tables.old) folded.old }
    requires state { CanFold file.now.bytes.now file.now.header (tables_of tables.old) s p }
    ensures folds { Folds (context_of (read file.now.bytes.now)) file.now.bytes.now
        file.now.header (tables_of tables.old) (tables_of tables.new) folded.old folded.new s p result }
    ensures slices { SameSlices tables.old tables.new }
{
    if s.kind == EXPRESSION_STATEMENT {
        return handle_expression_statement(file, tables, folded, s, p);
    }
    if s.kind == OTHER_STATEMENT {
        return push_statement(tables.statements, s, p);
    }
    handle_variable_declaration(file, tables, folded, s, p)
}
