// The next tree of the file, searched from the statements that are kept: src/peephole/minimize_statements.rs 224 and 288-293.
ghost use Rattle.std.specs.Prelude.{◌≡◌};
ghost use Rattle.records.specs.File.{read};
ghost use Rattle.walk_rules.specs.Context.{context_of};
ghost use Rattle.statements.specs.State.{tables_of, Long, SameSlices};
ghost use Rattle.statements.specs.Next.{CanTakeNext, SearchedFromStatements};

use crate::tables::Tables;
use records::record_file::RecordFile;
use statements_progress::folded::list_folded;
use statements_progress::next::load_next;
use statements_progress::progress::Progress;
use statements_search::from_declarators::SearchedTree;
use statements_search::in_statement::substitute_single_use_symbol_in_statement;

// Loads the next tree, and searches it from the statements that are kept.
pub(crate) fn substitute_in_next_tree(
    file: &RecordFile<'_>,
    tables: &mut Tables<'_>,
    folded: &mut [u16],
    p: Progress,
) -> Progress
    requires room { Long file.now.header (tables_of tables.old) folded.old }
    requires state { CanTakeNext file.now.bytes.now file.now.header (tables_of tables.old) p }
    ensures searched { SearchedFromStatements (context_of (read file.now.bytes.now)) file.now.bytes.now
        file.now.header (tables_of tables.old) (tables_of tables.new) folded.old folded.new p result }
    ensures declarators { tables.new.declarators.now ≡ tables.old.declarators.now }
    ensures starts { tables.new.starts.now ≡ tables.old.starts.now }
    ensures slices { SameSlices tables.old tables.new }
{
    let l = load_next(file.bytes, file.header, tables.nodes, p);
    let target = SearchedTree::from(l);
    // as `&mut`, since two fields that are lent as `&` at once aren't covered by the check
    let declarators = &mut *tables.declarators;
    let starts = &mut *tables.starts;
    let r = substitute_single_use_symbol_in_statement(
        file,
        tables.nodes,
        declarators,
        starts,
        tables.statements,
        l.statements_kept,
        target,
    );
    list_folded(
        declarators,
        r.declarators_kept,
        l.declarators_kept,
        folded,
        l.folds,
    );
    Progress {
        tree: r.tree,
        nodes_used: r.nodes_used,
        declarators_kept: r.declarators_kept,
        statements_kept: r.statements_kept,
        folds: l.folds + r.folds,
        looks: l.looks + r.looks,
        ..l
    }
}
