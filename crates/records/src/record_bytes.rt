// The bytes of the records that are written.
ghost use Rattle.std.specs.Prelude.{◌≡◌};
ghost use Rattle.records.specs.Record.{header_bytes, node_bytes, declarator_bytes, statement_bytes};

use crate::layout::{DeclaratorRecord, Header, NodeRecord, StatementRecord};

pub fn header_bytes(h: Header) -> [u8; 24]
    ensures result { result ≡ header_bytes h }
{
    let version = h.version.to_le_bytes();
    let names = h.names.to_le_bytes();
    let scopes = h.scopes.to_le_bytes();
    let frames = h.frames.to_le_bytes();
    let nodes = h.nodes.to_le_bytes();
    let declarators = h.declarators.to_le_bytes();
    let statements = h.statements.to_le_bytes();
    let current = h.current_scope.to_le_bytes();
    let this = h.this_scope.to_le_bytes();
    let last = h.last.to_le_bytes();
    [
        b'W',
        b'S',
        b'F',
        h.options,
        version[0],
        version[1],
        names[0],
        names[1],
        scopes[0],
        scopes[1],
        frames[0],
        frames[1],
        nodes[0],
        nodes[1],
        declarators[0],
        declarators[1],
        statements[0],
        statements[1],
        current[0],
        current[1],
        this[0],
        this[1],
        last[0],
        last[1],
    ]
}

pub fn node_bytes(n: NodeRecord) -> [u8; 12]
    ensures result { result ≡ node_bytes n }
{
    let label = n.label.to_le_bytes();
    let children = n.children.to_le_bytes();
    let zero = n.zero.to_le_bytes();
    let position = n.position.to_le_bytes();
    [
        n.kind,
        n.flags,
        label[0],
        label[1],
        children[0],
        children[1],
        zero[0],
        zero[1],
        position[0],
        position[1],
        position[2],
        position[3],
    ]
}

pub fn declarator_bytes(d: DeclaratorRecord) -> [u8; 4]
    ensures result { result ≡ declarator_bytes d }
{
    let name = d.name.to_le_bytes();
    let present = d.present.to_le_bytes();
    [name[0], name[1], present[0], present[1]]
}

pub fn statement_bytes(s: StatementRecord) -> [u8; 4]
    ensures result { result ≡ statement_bytes s }
{
    let declarators = s.declarators.to_le_bytes();
    [s.kind, s.zero, declarators[0], declarators[1]]
}
