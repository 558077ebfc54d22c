// The kinds of nodes and of statements, and the label by which the fold knows a `delete`. They are bytes and no enum: the
// definitions of `specs/Node.antt` and `specs/Place.antt` are about the byte, which may be any until row 7 has passed.
ghost use Rattle.std.specs.Prelude.{◌≡◌};
ghost use Rattle.records.specs.Place.{is_expression};

pub const OTHER: u8 = 0;

pub const LITERAL: u8 = 1;

pub const FUNCTION: u8 = 2;

pub const CLASS: u8 = 3;

pub const NAME: u8 = 4;

pub const THIS: u8 = 5;

pub const AWAIT: u8 = 6;

pub const YIELD: u8 = 7;

pub const IMPORT: u8 = 8;

pub const UNARY: u8 = 9;

pub const STATIC_MEMBER: u8 = 10;

pub const PRIVATE_MEMBER: u8 = 11;

pub const COMPUTED_MEMBER: u8 = 12;

pub const CHAIN: u8 = 13;

pub const CALL: u8 = 14;

pub const NEW: u8 = 15;

pub const BINARY: u8 = 16;

pub const LOGICAL: u8 = 17;

pub const PRIVATE_IN: u8 = 18;

pub const CONDITIONAL: u8 = 19;

pub const ASSIGNMENT: u8 = 20;

pub const ARRAY: u8 = 21;

pub const OBJECT: u8 = 22;

pub const TEMPLATE: u8 = 23;

pub const TAGGED_TEMPLATE: u8 = 24;

pub const SPREAD: u8 = 25;

pub const PROPERTY: u8 = 26;

pub const ELISION: u8 = 27;

pub const SEQUENCE: u8 = 28;

pub const TARGET_NAME: u8 = 29;

pub const OPAQUE_TARGET: u8 = 30;

// The label of a `delete`.
pub const DELETE: u16 = 1;

// Statements: 0 to 4 are declarations.
pub const VAR: u8 = 0;

pub const LET: u8 = 1;

pub const CONST: u8 = 2;

pub const USING: u8 = 3;

pub const AWAIT_USING: u8 = 4;

pub const EXPRESSION_STATEMENT: u8 = 5;

pub const OTHER_STATEMENT: u8 = 6;

// Whether nodes of a kind are expressions.
pub fn is_expression(kind: u16) -> bool
    ensures result { result ≡ is_expression kind }
{
    (kind < u16::from(SPREAD)) | (kind == u16::from(SEQUENCE))
}
