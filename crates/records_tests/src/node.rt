// Row 7 of the refusal table: a node by itself.
ghost use Rattle.std.specs.Prelude.{◌≡◌, ◌&&◌, ◌||◌, not, ◌≤◌, ◌<◌, ltb};
ghost use Rattle.records.specs.Limits.{header_length};
ghost use Rattle.records.specs.Flags.{marked as is_marked, unresolved as isUnresolved};
ghost use Rattle.records.specs.File.{facts_from};
ghost use Rattle.records.specs.Script.{flags_of};
ghost use Rattle.records.specs.Node.{good_children, good_flags, may_mark, good_node};

use records::flags::{ANONYMOUS, COMPOUND, COMPUTED, MARKED, OPTIONAL, PROTO, SHORTHAND};
use records::kinds::{ASSIGNMENT, CLASS, FUNCTION, NAME, OPAQUE_TARGET, PROPERTY, TARGET_NAME};
use records::layout::{NameId, NodeRecord};
use records::limits::NO_POSITION;
use records::name_table::Names;
use records::set::has_bit;

// Any number of children.
const ANY: u16 = 65535;

// The fewest and the most children of each kind.
pub static FEWEST: [u16; 31] = [
    0, // OTHER
    0, // LITERAL
    0, // FUNCTION
    0, // CLASS
    0, // NAME
    0, // THIS
    1, // AWAIT
    0, // YIELD
    1, // IMPORT
    1, // UNARY
    1, // STATIC_MEMBER
    1, // PRIVATE_MEMBER
    2, // COMPUTED_MEMBER
    1, // CHAIN
    1, // CALL
    1, // NEW
    2, // BINARY
    2, // LOGICAL
    1, // PRIVATE_IN
    3, // CONDITIONAL
    2, // ASSIGNMENT
    0, // ARRAY
    0, // OBJECT
    0, // TEMPLATE
    1, // TAGGED_TEMPLATE
    1, // SPREAD
    1, // PROPERTY
    0, // ELISION
    2, // SEQUENCE
    0, // TARGET_NAME
    0, // OPAQUE_TARGET
];

pub static MOST: [u16; 31] = [
    0, // OTHER
    0, // LITERAL
    0, // FUNCTION
    0, // CLASS
    0, // NAME
    0, // THIS
    1, // AWAIT
    1, // YIELD
    1, // IMPORT
    1, // UNARY
    1, // STATIC_MEMBER
    1, // PRIVATE_MEMBER
    2, // COMPUTED_MEMBER
    1, // CHAIN
    ANY, // CALL
    ANY, // NEW
    2, // BINARY
    2, // LOGICAL
    1, // PRIVATE_IN
    3, // CONDITIONAL
    2, // ASSIGNMENT
    ANY, // ARRAY
    ANY, // OBJECT
    ANY, // TEMPLATE
    ANY, // TAGGED_TEMPLATE
    1, // SPREAD
    2, // PROPERTY
    0, // ELISION
    ANY, // SEQUENCE
    0, // TARGET_NAME
    0, // OPAQUE_TARGET
];

// The kinds that may be marked, a NAME or TARGET_NAME if its facts allow it: all but LITERAL, FUNCTION, THIS, CHAIN, PROPERTY,
// ELISION and SEQUENCE.
const MARKABLE: u64 = 0x63ff_dfd9;

// STATIC_MEMBER, PRIVATE_MEMBER, COMPUTED_MEMBER and CALL.
const CHAIN_ELEMENT_KINDS: u64 = 0x5c00;

// `kind` stays a clause, also below and in `node_stands`: row 7 asks for the kind, and a record of any kind is a `NodeRecord`.
fn children_are_good(n: NodeRecord) -> bool
    requires kind { n.kind ≤ 30 }
    ensures result { result ≡ good_children n }
{
    let kind = n.kind as usize; // by `From` the proof didn't close
    if n.children < FEWEST[kind] {
        return false;
    }
    if MOST[kind] < n.children {
        return false;
    }
    if n.kind == PROPERTY {
        let two = n.is_computed() & !n.is_proto();
        return two & (n.children == 2) | !two & (n.children == 1);
    }
    true
}

// The flags of a node that has some, its mark as if its name were unresolved.
fn flags_are_good(n: NodeRecord) -> bool
    requires kind { n.kind ≤ 30 }
    requires flags { 0 < n.flags }
    ensures result { result ≡ (good_flags n && (not (is_marked n.flags) || may_mark 128 n)) }
{
    if n.flags == MARKED {
        return has_bit(MARKABLE, u16::from(n.kind));
    }
    if n.flags <= OPTIONAL + MARKED {
        return has_bit(CHAIN_ELEMENT_KINDS, u16::from(n.kind));
    }
    if n.kind == PROPERTY {
        return (n.flags == SHORTHAND)
            | (n.flags == COMPUTED)
            | (n.flags == PROTO)
            | (n.flags == SHORTHAND + PROTO)
            | (n.flags == COMPUTED + PROTO);
    }
    if n.kind == ASSIGNMENT {
        return (n.flags == COMPOUND) | (n.flags == COMPOUND + MARKED);
    }
    (n.flags == ANONYMOUS) & ((n.kind == FUNCTION) | (n.kind == CLASS))
        | (n.flags == ANONYMOUS + MARKED) & (n.kind == CLASS)
}

// The label of a name, and its mark.
fn label_is_good(names: &Names<'_>, n: NodeRecord) -> bool
    ensures result { let flags = flags_of (facts_from names.now.file.now header_length names.now.count) n.label in
        result ≡ (ltb n.label names.now.count && (not (is_marked n.flags) || isUnresolved flags)) }
{
    if names.count <= n.label {
        return false;
    }
    if n.is_marked() {
        return names.facts_of(NameId(n.label)).is_unresolved();
    }
    true
}

// A node by itself. Of those whose children are good only nodes without children are names.
pub fn node_is_good(names: &Names<'_>, n: NodeRecord) -> bool
    ensures result { result ≡ good_node (facts_from names.now.file.now header_length names.now.count) n }
{
    if OPAQUE_TARGET < n.kind {
        return false;
    }
    if n.position == NO_POSITION {
        return false;
    }
    if 0 < n.zero {
        return false;
    }
    if 0 < n.flags {
        if !flags_are_good(n) {
            return false;
        }
    }
    if !children_are_good(n) {
        return false;
    }
    if n.children == 0 {
        let named = (n.kind == NAME) | (n.kind == TARGET_NAME);
        if named {
            return label_is_good(names, n);
        }
    }
    true
}
