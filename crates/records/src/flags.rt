// The bits of options and flags, each by its worth and as a test of the record that has it. The tests are methods over one `is_set`:
// callers say a name, and can't ask a record for another record's bit.
ghost use Rattle.std.specs.Prelude.{◌≡◌, ◌<◌};
ghost use Rattle.records.specs.Flags.{bit, recorded, mutated, unresolved, is_eval};
ghost use Rattle.records.specs.Flags.{marked, optional, anonymous, compound, shorthand, computed, proto};

use crate::layout::{Header, NameFacts, NodeRecord, Scope};

// Whether the bit of this worth is set.
fn is_set(flags: u16, worth: u16) -> bool
    requires worth { 0 < worth }
    ensures result { result ≡ bit worth flags }
{
    flags / worth % 2 == 1
}

// Options.
pub const SCRIPT: u8 = 1;

pub const KEEP_FUNCTION_NAMES: u8 = 2;

pub const KEEP_CLASS_NAMES: u8 = 4;

pub const LITERAL_ONLY: u8 = 8;

// The bits from this one on are zero.
pub const OPTIONS_LIMIT: u8 = 16;

impl Header {
    pub fn is_script(self) -> bool
        ensures result { result ≡ bit 1 self.options }
    {
        is_set(u16::from(self.options), u16::from(SCRIPT))
    }

    pub fn keeps_function_names(self) -> bool
        ensures result { result ≡ bit 2 self.options }
    {
        is_set(u16::from(self.options), u16::from(KEEP_FUNCTION_NAMES))
    }

    pub fn keeps_class_names(self) -> bool
        ensures result { result ≡ bit 4 self.options }
    {
        is_set(u16::from(self.options), u16::from(KEEP_CLASS_NAMES))
    }

    // A statement's search places literals alone.
    pub fn is_literal_only(self) -> bool
        ensures result { result ≡ bit 8 self.options }
    {
        is_set(u16::from(self.options), u16::from(LITERAL_ONLY))
    }
}

// Name facts.
pub const BLOCK_SCOPED: u16 = 1;

pub const IMPORTED: u16 = 2;

pub const CATCH_VARIABLE: u16 = 4;

pub const RECORDED: u16 = 16;

pub const IMPLICITLY_OBSERVABLE: u16 = 32;

pub const MUTATED: u16 = 64;

pub const UNRESOLVED: u16 = 128;

pub const EVAL: u16 = 256;

// The bits from this one on are zero.
pub const NAME_FLAGS_LIMIT: u16 = 512;

impl NameFacts {
    pub fn is_block_scoped(self) -> bool
        ensures result { result ≡ bit 1 self.flags }
    {
        is_set(self.flags, BLOCK_SCOPED)
    }

    pub fn is_import(self) -> bool
        ensures result { result ≡ bit 2 self.flags }
    {
        is_set(self.flags, IMPORTED)
    }

    pub fn is_catch_variable(self) -> bool
        ensures result { result ≡ bit 4 self.flags }
    {
        is_set(self.flags, CATCH_VARIABLE)
    }

    // It has a value record: reads and writes were counted.
    pub fn is_recorded(self) -> bool
        ensures result { result ≡ recorded self.flags }
    {
        is_set(self.flags, RECORDED)
    }

    pub fn is_implicitly_observable(self) -> bool
        ensures result { result ≡ bit 32 self.flags }
    {
        is_set(self.flags, IMPLICITLY_OBSERVABLE)
    }

    pub fn is_mutated(self) -> bool
        ensures result { result ≡ mutated self.flags }
    {
        is_set(self.flags, MUTATED)
    }

    pub fn is_unresolved(self) -> bool
        ensures result { result ≡ unresolved self.flags }
    {
        is_set(self.flags, UNRESOLVED)
    }

    pub fn is_eval(self) -> bool
        ensures result { result ≡ is_eval self.flags }
    {
        is_set(self.flags, EVAL)
    }
}

// Scopes.
pub const FUNCTION_SCOPE: u16 = 1;

pub const DIRECT_EVAL: u16 = 2;

// The bits from this one on are zero.
pub const SCOPE_FLAGS_LIMIT: u16 = 4;

impl Scope {
    pub fn is_function(self) -> bool
        ensures result { result ≡ bit 1 self.flags }
    {
        is_set(self.flags, FUNCTION_SCOPE)
    }

    pub fn has_direct_eval(self) -> bool
        ensures result { result ≡ bit 2 self.flags }
    {
        is_set(self.flags, DIRECT_EVAL)
    }
}

// Nodes.
pub const MARKED: u8 = 1;

pub const OPTIONAL: u8 = 2;

pub const ANONYMOUS: u8 = 4;

pub const COMPOUND: u8 = 8;

pub const SHORTHAND: u8 = 16;

pub const COMPUTED: u8 = 32;

pub const PROTO: u8 = 64;

impl NodeRecord {
    pub fn is_marked(self) -> bool
        ensures result { result ≡ marked self.flags }
    {
        is_set(u16::from(self.flags), u16::from(MARKED))
    }

    pub fn is_optional(self) -> bool
        ensures result { result ≡ optional self.flags }
    {
        is_set(u16::from(self.flags), u16::from(OPTIONAL))
    }

    pub fn is_anonymous(self) -> bool
        ensures result { result ≡ anonymous self.flags }
    {
        is_set(u16::from(self.flags), u16::from(ANONYMOUS))
    }

    pub fn is_compound(self) -> bool
        ensures result { result ≡ compound self.flags }
    {
        is_set(u16::from(self.flags), u16::from(COMPOUND))
    }

    pub fn is_shorthand(self) -> bool
        ensures result { result ≡ shorthand self.flags }
    {
        is_set(u16::from(self.flags), u16::from(SHORTHAND))
    }

    pub fn is_computed(self) -> bool
        ensures result { result ≡ computed self.flags }
    {
        is_set(u16::from(self.flags), u16::from(COMPUTED))
    }

    // The key is `__proto__`.
    pub fn is_proto(self) -> bool
        ensures result { result ≡ proto self.flags }
    {
        is_set(u16::from(self.flags), u16::from(PROTO))
    }
}
