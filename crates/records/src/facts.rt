// Name facts and scopes by number.
ghost use Rattle.std.specs.Prelude.{◌≡◌, get_or};
ghost use Rattle.records.specs.Limits.{header_length};
ghost use Rattle.records.specs.File.{facts_from, names_of, scopes_of};
ghost use Rattle.records.specs.Facts.{no_scope};
ghost use Rattle.records.specs.Script.{no_name};

use crate::layout::{NameFacts, NameId, Scope, ScopeId, name_at, scope_at};
use crate::limits::{HEADER_LENGTH, NAME_LENGTH, NO_NUMBER, SCOPE_LENGTH};
use crate::name_table::Names;
use crate::parts::part_offsets;
use crate::record_file::RecordFile;

impl Names<'_> {
    // The facts of a name; past the last name, those of no name.
    pub fn facts_of(&self, name: NameId) -> NameFacts
        ensures result { result ≡ get_or (facts_from self.now.file.now header_length self.now.count) name.0 no_name }
    {
        if name.0 < self.count {
            return name_at(self.file, HEADER_LENGTH + NAME_LENGTH * usize::from(name.0));
        }
        NameFacts {
            flags: 0,
            scope: 0,
            reads: 0,
            writes: 0,
        }
    }
}

impl RecordFile<'_> {
    // The facts of a name of the file.
    pub fn facts_of(&self, name: NameId) -> NameFacts
        ensures result { result ≡ get_or (names_of self.now.bytes.now) name.0 no_name }
    {
        let names = Names {
            file: self.bytes,
            count: self.header.names,
        };
        names.facts_of(name)
    }

    // A scope of the file; past the last one, none: it has no parent and isn't a function's.
    pub fn scope_of(&self, scope: ScopeId) -> Scope
        ensures result { result ≡ get_or (scopes_of self.now.bytes.now) scope.0 no_scope }
    {
        if scope.0 < self.header.scopes {
            let parts = part_offsets(self.header);
            return scope_at(self.bytes, parts[1] + SCOPE_LENGTH * usize::from(scope.0));
        }
        Scope {
            parent: NO_NUMBER,
            flags: 0,
        }
    }
}
