// Row 6 of the refusal table: declarators and statements by themselves; with the counts that the number of trees follows from.
ghost use Rattle.std.specs.Prelude.{◌≡◌, ◌≤◌};
ghost use Rattle.records.specs.Limits.{header_length};
ghost use Rattle.records.specs.Records.{every};
ghost use Rattle.records.specs.File.{facts_from, declarators_from, statements_from, initializers};
ghost use Rattle.records.specs.Script.{good_declarator, good_declarator_of, good_statement, declarator_sum};
ghost use Rattle.records.specs.Place.{expressions};

use records::kinds::{EXPRESSION_STATEMENT, OTHER_STATEMENT};
use records::layout::{
    DeclaratorRecord, NameFacts, NameId, StatementRecord, declarator_at, statement_at,
};
use records::limits::{DECLARATOR_LENGTH, NO_NUMBER, STATEMENT_LENGTH};
use records::name_table::Names;
use records::part::Part;

// A declarator, with the facts of its name, among `names` names.
pub fn declarator_is_good(d: DeclaratorRecord, names: u16, facts: NameFacts) -> bool
    ensures result { result ≡ good_declarator_of names facts.flags d }
{
    let unresolved = facts.is_unresolved();
    (d.present <= 1) & ((d.name == NO_NUMBER) | (d.name < names) & !unresolved)
}

pub fn statement_is_good(s: StatementRecord) -> bool
    ensures result { result ≡ good_statement s }
{
    let declaration = s.kind < EXPRESSION_STATEMENT;
    (s.kind <= OTHER_STATEMENT) & (s.zero == 0) & (declaration | (s.declarators == 0))
}

// `good` stands beside the sums, here and below: `initializers`, `declarators` and `expressions` promise them of bad records too.
#[derive(Clone, Copy)]
pub struct DeclaratorTotals {
    pub good: bool,
    pub initializers: usize,
}

// Whether all of the declarators are good, and how many have an initializer.
pub fn declarator_totals(
    names: &Names<'_>,
    declarators: &Part<'_, DECLARATOR_LENGTH>,
) -> DeclaratorTotals
    ensures good { let facts = facts_from names.now.file.now header_length names.now.count in let p = declarators.now in
        result.good ≡ every (good_declarator facts) (declarators_from p.file.now p.from p.count) }
    ensures initializers { let p = declarators.now in
        result.initializers ≡ initializers (declarators_from p.file.now p.from p.count) }
{
    let Part { file, from, count } = *declarators;
    let mut good = true;
    let mut with_tree = 0;
    for i in 0..count {
        let d = declarator_at(file, from + DECLARATOR_LENGTH * i);
        good = good & declarator_is_good(d, names.count, names.facts_of(NameId(d.name)));
        with_tree += usize::from(d.present == 1);
    }
    DeclaratorTotals {
        good,
        initializers: with_tree,
    }
}

#[derive(Clone, Copy)]
pub struct StatementTotals {
    pub good: bool,
    pub declarators: usize,
    pub expressions: usize,
}

// Whether all of the statements are good, the sum of their declarators, and how many are expressions.
pub fn statement_totals(statements: &Part<'_, STATEMENT_LENGTH>) -> StatementTotals
    requires count { statements.now.count ≤ 65535 }
    ensures good { let p = statements.now in result.good ≡ every good_statement (statements_from p.file.now p.from p.count) }
    ensures declarators { let p = statements.now in
        result.declarators ≡ declarator_sum (statements_from p.file.now p.from p.count) }
    ensures expressions { let p = statements.now in
        result.expressions ≡ expressions (statements_from p.file.now p.from p.count) }
{
    let Part { file, from, count } = *statements;
    let mut good = true;
    let mut sum = 0;
    let mut with_tree = 0;
    for i in 0..count {
        let s = statement_at(file, from + STATEMENT_LENGTH * i);
        good = good & statement_is_good(s);
        sum += usize::from(s.declarators);
        with_tree += usize::from(s.kind == EXPRESSION_STATEMENT);
    }
    StatementTotals {
        good,
        declarators: sum,
        expressions: with_tree,
    }
}
