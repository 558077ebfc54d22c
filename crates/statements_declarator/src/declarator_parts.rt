// What the search takes out of a declarator: its initializer, its plain name, the name's value record
// (src/peephole/minimize_statements.rs 1221-1226, 1237-1239).
ghost use Rattle.std.specs.Prelude.{◌≡◌};
ghost use Rattle.statements_declarator.specs.Cases.{initializer_of, plain_name, value_record};

use records::layout::{DeclaratorRecord, NameFacts, NameId, NodeId};
use records::limits::NO_NUMBER;

// Three small enums and no Option: docs/DECISIONS.md, "Forms by location", asks for them where a search matches with `let .. else`.
#[derive(Clone, Copy)]
pub enum Initializer {
    Given(NodeId),
    Bare,
}

#[derive(Clone, Copy)]
pub enum PlainName {
    Name(NameId),
    Pattern,
}

#[derive(Clone, Copy)]
pub enum ValueRecord {
    Recorded(u32, u32),
    Unrecorded,
}

// The initializer, whose tree would begin at `start`.
pub fn initializer_of(d: DeclaratorRecord, start: NodeId) -> Initializer
    ensures result { result ≡ initializer_of d start }
{
    if d.present == 1 {
        return Initializer::Given(start);
    }
    Initializer::Bare
}

pub fn plain_name(d: DeclaratorRecord) -> PlainName
    ensures result { result ≡ plain_name d }
{
    if d.name == NO_NUMBER {
        return PlainName::Pattern;
    }
    PlainName::Name(NameId(d.name))
}

// The reads and writes of a name's value record.
pub fn value_record(n: NameFacts) -> ValueRecord
    ensures result { result ≡ value_record n }
{
    if n.is_recorded() {
        return ValueRecord::Recorded(n.reads, n.writes);
    }
    ValueRecord::Unrecorded
}
