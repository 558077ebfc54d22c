// The declarators of a declaration behind the first, each searched from those before it
// (src/peephole/minimize_statements.rs 1167-1204).
ghost use Rattle.std.specs.Prelude.{◌≡◌};
ghost use Rattle.records.specs.File.{read};
ghost use Rattle.walk_rules.specs.Context.{context_of};
ghost use Rattle.statements.specs.State.{declarator_tables_of, LongWithin, SameSlices};
ghost use Rattle.statements.specs.Declarators.{CanTakeLaterTree, TakenLaterTree, CanTakeLater, TakenLater, CanTakeAll, TakenAll};

use crate::tables::Tables;
use records::record_file::RecordFile;
use statements_progress::folded::list_folded;
use statements_progress::next::{load_next, next_declarator};
use statements_progress::progress::Progress;
use statements_progress::push::push_declarator;
use statements_search::from_declarators::{
    SearchedTree, substitute_single_use_symbol_in_expression_from_declarators,
};

// A declaration under way: the number of its first declarator, and whether it is searched.
#[derive(Clone, Copy)]
pub(crate) struct Declaration {
    pub first: usize,
    pub searched: bool,
}

// Loads the next tree, and searches it from the declarators before it, if the declaration is searched.
fn substitute_in_later_tree(
    file: &RecordFile<'_>,
    tables: &mut Tables<'_>,
    folded: &mut [u16],
    d: Declaration,
    p: Progress,
) -> Progress
    requires room { LongWithin file.now.header (declarator_tables_of tables.old) folded.old }
    requires state { CanTakeLaterTree file.now.bytes.now file.now.header (declarator_tables_of tables.old) d.first p }
    ensures taken { TakenLaterTree (context_of (read file.now.bytes.now)) d.searched file.now.bytes.now
        file.now.header (declarator_tables_of tables.old) (declarator_tables_of tables.new)
        folded.old folded.new d.first p result }
    ensures declarators { tables.new.declarators.now ≡ tables.old.declarators.now }
    ensures starts { tables.new.starts.now ≡ tables.old.starts.now }
    ensures statements { tables.new.statements.now ≡ tables.old.statements.now }
    ensures slices { SameSlices tables.old tables.new }
{
    let l = load_next(file.bytes, file.header, tables.nodes, p);
    if !d.searched {
        return l;
    }
    let target = SearchedTree::from(l);
    // as `&mut`, since two fields that are lent as `&` at once aren't covered by the check
    let declarators = &mut *tables.declarators;
    let starts = &mut *tables.starts;
    let r = substitute_single_use_symbol_in_expression_from_declarators(
        file,
        tables.nodes,
        declarators,
        starts,
        d.first,
        target,
        false,
    );
    list_folded(
        declarators,
        r.declarators_kept,
        l.declarators_kept,
        folded,
        l.folds,
    );
    Progress {
        tree: r.tree,
        nodes_used: r.nodes_used,
        declarators_kept: r.declarators_kept,
        folds: l.folds + r.folds,
        looks: l.looks + r.looks,
        ..l
    }
}

// The next declarator. Apart from `fold_first_declarator`, since the searches below them ask for other facts and give other ones.
fn fold_later_declarator(
    file: &RecordFile<'_>,
    tables: &mut Tables<'_>,
    folded: &mut [u16],
    d: Declaration,
    p: Progress,
) -> Progress
    requires room { LongWithin file.now.header (declarator_tables_of tables.old) folded.old }
    requires state { CanTakeLater file.now.bytes.now file.now.header (declarator_tables_of tables.old) d.first p }
    ensures taken { TakenLater (context_of (read file.now.bytes.now)) d.searched file.now.bytes.now
        file.now.header (declarator_tables_of tables.old) (declarator_tables_of tables.new)
        folded.old folded.new d.first p result }
    ensures statements { tables.new.statements.now ≡ tables.old.statements.now }
    ensures slices { SameSlices tables.old tables.new }
{
    let next = next_declarator(file.bytes, file.header, p);
    let l = if next.present == 1 {
        substitute_in_later_tree(file, tables, folded, d, p)
    } else {
        p
    };
    push_declarator(tables.declarators, tables.starts, next, l)
}

// The next `many` declarators.
pub(crate) fn substitute_single_use_symbol_within_declaration(
    file: &RecordFile<'_>,
    tables: &mut Tables<'_>,
    folded: &mut [u16],
    d: Declaration,
    many: usize,
    p: Progress,
) -> Progress
    requires room { LongWithin file.now.header (declarator_tables_of tables.old) folded.old }
    requires state { CanTakeAll file.now.bytes.now file.now.header (declarator_tables_of tables.old) d.first many p }
    ensures taken { TakenAll (context_of (read file.now.bytes.now)) d.searched file.now.bytes.now
        file.now.header (declarator_tables_of tables.old) (declarator_tables_of tables.new)
        folded.old folded.new d.first many p result }
    ensures statements { tables.new.statements.now ≡ tables.old.statements.now }
    ensures slices { SameSlices tables.old tables.new }
{
    let mut q = p;
    for _ in 0..many {
        q = fold_later_declarator(file, tables, folded, d, q);
    }
    q
}
