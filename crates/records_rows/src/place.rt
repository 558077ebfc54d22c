// Row 8 of the refusal table, node by node: where a child may stand.
ghost use Rattle.std.specs.Prelude.{◌≡◌, ◌+◌, ◌≤◌, length};
ghost use Rattle.records.specs.Records.{every, every_from};
ghost use Rattle.records.specs.Node.{is_chain_element as isChainElementKind};
ghost use Rattle.records_rows.specs.Stack.{entry as entry_of, entries_from, root_stands, in_sets, Low};

use records::kinds::{CALL, COMPUTED_MEMBER, PRIVATE_MEMBER, STATIC_MEMBER, is_expression};
use records::set::has_bit;

pub fn is_chain_element(kind: u16) -> bool
    ensures result { result ≡ isChainElementKind kind }
{
    (kind == u16::from(STATIC_MEMBER))
        | (kind == u16::from(PRIVATE_MEMBER))
        | (kind == u16::from(COMPUTED_MEMBER))
        | (kind == u16::from(CALL))
}

// A tree is unchained if it has an optional node that isn't yet under its CHAIN: one that the root reaches by first children of
// members and calls alone.
//
// Sets of the trees that may stand as a child, by the root's kind: bit 2 * kind is for a tree that isn't unchained, bit
// 2 * kind + 1 for one that is.

// OTHER to TAGGED_TEMPLATE, and SEQUENCE.
const EXPRESSIONS: u64 = 0x0101_5555_5555_5555;

// The same, unchained or not: what a member or a call is of.
const OBJECTS: u64 = 0x0303_ffff_ffff_ffff;

// STATIC_MEMBER, PRIVATE_MEMBER, COMPUTED_MEMBER and CALL.
const CHAIN_ELEMENTS: u64 = 0x0000_0000_1150_0000;

// The same, unchained or not: what a CHAIN is over.
const CHAINED: u64 = 0x0000_0000_33f0_0000;

// STATIC_MEMBER, PRIVATE_MEMBER, COMPUTED_MEMBER, TARGET_NAME and OPAQUE_TARGET.
const TARGETS: u64 = 0x1400_0000_0150_0000;

// Expressions, SPREAD and ELISION.
const ELEMENTS: u64 = 0x0145_5555_5555_5555;

// SPREAD and PROPERTY.
const PROPERTIES: u64 = 0x0014_0000_0000_0000;

// Expressions and SPREAD.
const ARGUMENTS: u64 = 0x0105_5555_5555_5555;

// NAME: the child of a shorthand property.
pub const NAMES: u64 = 0x0000_0000_0000_0100;

// Two sets for each kind: what may stand as its first child, except under a shorthand property, and what as a later one.
pub static STANDING: [u64; 62] = [
    EXPRESSIONS, // OTHER
    EXPRESSIONS,
    EXPRESSIONS, // LITERAL
    EXPRESSIONS,
    EXPRESSIONS, // FUNCTION
    EXPRESSIONS,
    EXPRESSIONS, // CLASS
    EXPRESSIONS,
    EXPRESSIONS, // NAME
    EXPRESSIONS,
    EXPRESSIONS, // THIS
    EXPRESSIONS,
    EXPRESSIONS, // AWAIT
    EXPRESSIONS,
    EXPRESSIONS, // YIELD
    EXPRESSIONS,
    EXPRESSIONS, // IMPORT
    EXPRESSIONS,
    EXPRESSIONS, // UNARY
    EXPRESSIONS,
    OBJECTS, // STATIC_MEMBER
    EXPRESSIONS,
    OBJECTS, // PRIVATE_MEMBER
    EXPRESSIONS,
    OBJECTS, // COMPUTED_MEMBER
    EXPRESSIONS,
    CHAINED, // CHAIN
    CHAIN_ELEMENTS,
    OBJECTS, // CALL
    ARGUMENTS,
    EXPRESSIONS, // NEW
    ARGUMENTS,
    EXPRESSIONS, // BINARY
    EXPRESSIONS,
    EXPRESSIONS, // LOGICAL
    EXPRESSIONS,
    EXPRESSIONS, // PRIVATE_IN
    EXPRESSIONS,
    EXPRESSIONS, // CONDITIONAL
    EXPRESSIONS,
    TARGETS, // ASSIGNMENT
    EXPRESSIONS,
    ELEMENTS, // ARRAY
    ELEMENTS,
    PROPERTIES, // OBJECT
    PROPERTIES,
    EXPRESSIONS, // TEMPLATE
    EXPRESSIONS,
    EXPRESSIONS, // TAGGED_TEMPLATE
    EXPRESSIONS,
    EXPRESSIONS, // SPREAD
    EXPRESSIONS,
    EXPRESSIONS, // PROPERTY
    EXPRESSIONS,
    EXPRESSIONS, // ELISION
    EXPRESSIONS,
    EXPRESSIONS, // SEQUENCE
    EXPRESSIONS,
    EXPRESSIONS, // TARGET_NAME
    EXPRESSIONS,
    EXPRESSIONS, // OPAQUE_TARGET
    EXPRESSIONS,
];

// What is kept of a tree: its root's kind, and whether it is unchained. It is one number, a bit of the sets above:
// `specs/Stack.antt` defines it so.
pub fn entry(kind: u8, unchained: bool) -> u16
    ensures result { result ≡ entry_of kind unchained }
{
    let twice = 2 * u16::from(kind);
    if unchained {
        return twice + 1;
    }
    twice
}

pub fn root_stands(e: u16) -> bool
    ensures result { result ≡ root_stands e }
{
    let unchained = e % 2 == 1;
    is_expression(e / 2) & !unchained
}

// The stack is one slice that is filled from its end, and its entries begin at `top` (no heap).
//
// Whether the first of the children whose entries stand at `top` is in one set, and the others are in another.
pub fn children_stand(stack: &[u16], top: usize, count: usize, first: u64, later: u64) -> bool
    requires some { 1 ≤ count }
    requires room { top + count ≤ length stack.now }
    requires entries { Low stack.now top }
    ensures result { result ≡ every_from (in_sets first later) 0 (entries_from stack.now top count) }
{
    has_bit(first, stack[top]) && (1..count).all(|i| has_bit(later, stack[top + i]))
}

// Whether the trees whose entries stand at `top` may be the trees of statements.
pub fn roots_stand(stack: &[u16], top: usize, count: usize) -> bool
    requires room { top + count ≤ length stack.now }
    ensures result { result ≡ every root_stands (entries_from stack.now top count) }
{
    let entries = &stack[top..top + count];
    entries.iter().all(|entry| root_stands(*entry))
}
