// Where no search is made (src/peephole/minimize_statements.rs 1130-1132, 1172-1177; `is_script_root_scope`,
// src/peephole/remove_unused_declaration.rs 224-227).
ghost use Rattle.std.specs.Prelude.{◌≡◌};
ghost use Rattle.records.specs.File.{read, declaration_kind};
ghost use Rattle.walk_rules.specs.Context.{context_of};
ghost use Rattle.statements_rules.specs.Declarators.{is_unsearched, is_using};

use records::kinds::USING;
use records::layout::ScopeId;
use records::record_file::RecordFile;

// A script's outermost scope, or a direct `eval` in the current one.
pub fn is_unsearched(file: &RecordFile<'_>) -> bool
    ensures result { result ≡ is_unsearched (context_of (read file.now.bytes.now)) }
{
    let h = file.header;
    let s = file.scope_of(ScopeId(h.current_scope));
    h.is_script() & (h.current_scope == 0) | s.has_direct_eval()
}

// A declaration's kind: `using` or `await using`.
pub fn is_using(kind: u8) -> bool
    ensures result { result ≡ is_using (declaration_kind kind) }
{
    kind >= USING
}
