// Names whose value may change before a read of them that is moved: `symbol_value_may_change`,
// `is_closed_over_block_scoped_read`, `identifier_read_blocks_reorder`, `read_crosses_function_boundary`
// (src/peephole/mod.rs 194-246, 292-305).
ghost use Rattle.std.specs.Prelude.{◌≡◌};
ghost use Rattle.records.specs.Record.{header_of};
ghost use Rattle.records.specs.File.{scopes_of, read};
ghost use Rattle.walk_rules.specs.Context.{context_of};
ghost use Rattle.walk_rules.specs.Unsettled.{read_crosses_function_boundary, is_closed_over_block_scoped_read, is_written};
ghost use Rattle.walk_rules.specs.Unsettled.{symbol_value_may_change, unsettled};

use records::layout::{Header, NameFacts, NameId, ScopeId};
use records::record_file::RecordFile;

// Climbs from the scope of a read: whether it leaves a function before it comes to `stop_scope`, the name's own. The loop that
// breaks with its answer is a form that docs/DECISIONS.md lists under "Forms by location".
#[tactic(auto, unfolding(walk_rules::specs::Unsettled::scope_of, walk_rules::specs::Unsettled::climb, walk_rules::specs::Unsettled::read_crosses_function_boundary))]
pub fn read_crosses_function_boundary(
    file: &RecordFile<'_>,
    read_scope: ScopeId,
    stop_scope: ScopeId,
) -> bool
    ensures result { result ≡ read_crosses_function_boundary (scopes_of file.now.bytes.now) read_scope.0 stop_scope.0 }
{
    let mut scope = read_scope;
    let mut steps = file.header.scopes;
    loop {
        if steps == 0 {
            break false;
        }
        if scope == stop_scope {
            break false;
        }
        let s = file.scope_of(scope);
        if s.is_function() {
            break true;
        }
        scope = ScopeId(s.parent);
        steps -= 1;
    }
}

// Block scoped, and read across a function scope.
#[tactic(auto, unfolding(walk_rules::specs::Unsettled::is_closed_over_block_scoped_read, walk_rules::specs::Context::context_of, records::specs::File::read))]
pub fn is_closed_over_block_scoped_read(file: &RecordFile<'_>, n: NameFacts) -> bool
    ensures result { result ≡ is_closed_over_block_scoped_read (context_of (read file.now.bytes.now)) n }
{
    let read_scope = ScopeId(file.header.current_scope);
    n.is_block_scoped() && read_crosses_function_boundary(file, read_scope, ScopeId(n.scope))
}

// Written: by the count of its value record; without one, if it is said to be mutated.
#[tactic(auto, unfolding(walk_rules::specs::Unsettled::is_written))]
fn is_written(n: NameFacts) -> bool
    ensures result { result ≡ is_written n }
{
    if n.is_recorded() {
        return 0 < n.writes;
    }
    n.is_mutated()
}

// An import, of scope 0 in a script, or written. The bytes and the header are two parameters: a `RecordFile` asks more than `header`.
#[tactic(auto, unfolding(walk_rules::specs::Unsettled::symbol_value_may_change, walk_rules::specs::Context::context_of, records::specs::File::read))]
pub fn symbol_value_may_change(bytes: &[u8], header: Header, n: NameFacts) -> bool
    requires header { header ≡ header_of bytes.now }
    ensures result { result ≡ symbol_value_may_change (context_of (read bytes.now)) n }
{
    n.is_import() | header.is_script() & (n.scope == 0) | is_written(n)
}

// Whether a read of a name may not change places with another step.
#[tactic(auto, unfolding(walk_rules::specs::Unsettled::unsettled, walk_rules::specs::Context::facts_of, walk_rules::specs::Context::context_of, records::specs::File::read))]
pub fn identifier_read_blocks_reorder(file: &RecordFile<'_>, name: NameId) -> bool
    ensures result { result ≡ unsettled (context_of (read file.now.bytes.now)) name.0 }
{
    let n = file.facts_of(name);
    if n.is_unresolved() | symbol_value_may_change(file.bytes, file.header, n) {
        return true;
    }
    is_closed_over_block_scoped_read(file, n)
}
