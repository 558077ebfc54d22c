// A declaration: its first declarator is searched from the statements that are kept, each other from those before it
// (src/peephole/minimize_statements.rs 216-244, without the merges and with the declarators kept).
ghost use Rattle.std.specs.Prelude.{◌<◌};
ghost use Rattle.records.specs.File.{read};
ghost use Rattle.walk_rules.specs.Context.{context_of};
ghost use Rattle.statements.specs.State.{tables_of, Long, SameSlices};
ghost use Rattle.statements.specs.Declarators.{CanTakeFirst, TakenFirst};
ghost use Rattle.statements.specs.Folds.{CanFold, Folds};

use crate::next::substitute_in_next_tree;
use crate::tables::Tables;
use crate::within_declaration::{Declaration, substitute_single_use_symbol_within_declaration};
use records::layout::StatementRecord;
use records::record_file::RecordFile;
use statements_declarator::unsearched::{is_unsearched, is_using};
use statements_progress::next::next_declarator;
use statements_progress::progress::Progress;
use statements_progress::push::{push_declarator, push_statement};

fn fold_first_declarator(
    file: &RecordFile<'_>,
    tables: &mut Tables<'_>,
    folded: &mut [u16],
    p: Progress,
) -> Progress
    requires room { Long file.now.header (tables_of tables.old) folded.old }
    requires state { CanTakeFirst file.now.bytes.now file.now.header (tables_of tables.old) p }
    ensures taken { TakenFirst (context_of (read file.now.bytes.now)) file.now.bytes.now
        file.now.header (tables_of tables.old) (tables_of tables.new) folded.old folded.new p result }
    ensures slices { SameSlices tables.old tables.new }
{
    let d = next_declarator(file.bytes, file.header, p);
    let l = if d.present == 1 {
        substitute_in_next_tree(file, tables, folded, p)
    } else {
        p
    };
    push_declarator(tables.declarators, tables.starts, d, l)
}

pub(crate) fn handle_variable_declaration(
    file: &RecordFile<'_>,
    tables: &mut Tables<'_>,
    folded: &mut [u16],
    s: StatementRecord,
    p: Progress,
) -> Progress
    requires room { Long file.now.header (tables_of tables.old) folded.old }
    requires state { CanFold file.now.bytes.now file.now.header (tables_of tables.old) s p }
    requires declaration { s.kind < 5 }
    ensures folds { Folds (context_of (read file.now.bytes.now)) file.now.bytes.now
        file.now.header (tables_of tables.old) (tables_of tables.new) folded.old folded.new s p result }
    ensures slices { SameSlices tables.old tables.new }
{
    let declared = usize::from(s.declarators);
    if declared == 0 {
        return push_statement(tables.statements, s, p);
    }
    let first = fold_first_declarator(file, tables, folded, p);
    let low = first.declarators_kept - 1;
    let d = Declaration {
        first: low,
        searched: !(is_unsearched(file) | is_using(s.kind)),
    };
    let last = substitute_single_use_symbol_within_declaration(
        file,
        tables,
        folded,
        d,
        declared - 1,
        first,
    );
    let kept = StatementRecord {
        kind: s.kind,
        zero: 0,
        declarators: (last.declarators_kept - low) as u16,
    };
    push_statement(tables.statements, kept, last)
}
