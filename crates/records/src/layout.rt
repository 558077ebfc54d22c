// The header and the six kinds of record of a file, as structs by value, and the numbers of names, scopes and nodes.
ghost use Rattle.std.specs.Prelude.{◌≡◌, ◌+◌, ◌≤◌, length};
ghost use Rattle.records.specs.Limits.{header_length, name_length, scope_length, frame_length, node_length};
ghost use Rattle.records.specs.Limits.{declarator_length, statement_length};
ghost use Rattle.records.specs.Record.{header_of, name_at, scope_at, frame_at, node_at, declarator_at, statement_at};

use crate::number::{u16_at, u32_at};

#[derive(Clone, Copy, PartialEq, Eq)]
pub struct NameId(pub u16);

#[derive(Clone, Copy, PartialEq, Eq)]
pub struct ScopeId(pub u16);

#[derive(Clone, Copy, PartialEq, Eq)]
pub struct NodeId(pub usize);

#[derive(Clone, Copy)]
pub struct Header {
    pub options: u8,
    pub version: u16,
    pub names: u16,
    pub scopes: u16,
    pub frames: u16,
    pub nodes: u16,
    pub declarators: u16,
    pub statements: u16,
    pub current_scope: u16,
    pub this_scope: u16,
    pub last: u16,
}

#[derive(Clone, Copy)]
pub struct NameFacts {
    pub flags: u16,
    pub scope: u16,
    pub reads: u32,
    pub writes: u32,
}

#[derive(Clone, Copy)]
pub struct Scope {
    pub parent: u16,
    pub flags: u16,
}

#[derive(Clone, Copy)]
pub struct Frame {
    pub scope: u16,
    pub zero: u16,
    pub initialised: u32,
}

#[derive(Clone, Copy)]
pub struct NodeRecord {
    pub kind: u8,
    pub flags: u8,
    pub label: u16,
    pub children: u16,
    pub zero: u16,
    pub position: u32,
}

#[derive(Clone, Copy)]
pub struct DeclaratorRecord {
    pub name: u16,
    pub present: u16,
}

#[derive(Clone, Copy)]
pub struct StatementRecord {
    pub kind: u8,
    pub zero: u8,
    pub declarators: u16,
}

// The header of a file of at least 24 bytes.
pub fn header_of(file: &[u8]) -> Header
    requires room { header_length ≤ length file.now }
    ensures result { result ≡ header_of file.now }
{
    Header {
        options: file[3],
        version: u16_at(file, 4),
        names: u16_at(file, 6),
        scopes: u16_at(file, 8),
        frames: u16_at(file, 10),
        nodes: u16_at(file, 12),
        declarators: u16_at(file, 14),
        statements: u16_at(file, 16),
        current_scope: u16_at(file, 18),
        this_scope: u16_at(file, 20),
        last: u16_at(file, 22),
    }
}

// The record that begins at `at`, of each kind.
pub fn name_at(file: &[u8], at: usize) -> NameFacts
    requires room { at + name_length ≤ length file.now }
    ensures result { result ≡ name_at file.now at }
{
    NameFacts {
        flags: u16_at(file, at),
        scope: u16_at(file, at + 2),
        reads: u32_at(file, at + 4),
        writes: u32_at(file, at + 8),
    }
}

pub fn scope_at(file: &[u8], at: usize) -> Scope
    requires room { at + scope_length ≤ length file.now }
    ensures result { result ≡ scope_at file.now at }
{
    Scope {
        parent: u16_at(file, at),
        flags: u16_at(file, at + 2),
    }
}

pub fn frame_at(file: &[u8], at: usize) -> Frame
    requires room { at + frame_length ≤ length file.now }
    ensures result { result ≡ frame_at file.now at }
{
    Frame {
        scope: u16_at(file, at),
        zero: u16_at(file, at + 2),
        initialised: u32_at(file, at + 4),
    }
}

pub fn node_at(file: &[u8], at: usize) -> NodeRecord
    requires room { at + node_length ≤ length file.now }
    ensures result { result ≡ node_at file.now at }
{
    NodeRecord {
        kind: file[at],
        flags: file[at + 1],
        label: u16_at(file, at + 2),
        children: u16_at(file, at + 4),
        zero: u16_at(file, at + 6),
        position: u32_at(file, at + 8),
    }
}

pub fn declarator_at(file: &[u8], at: usize) -> DeclaratorRecord
    requires room { at + declarator_length ≤ length file.now }
    ensures result { result ≡ declarator_at file.now at }
{
    DeclaratorRecord {
        name: u16_at(file, at),
        present: u16_at(file, at + 2),
    }
}

pub fn statement_at(file: &[u8], at: usize) -> StatementRecord
    requires room { at + statement_length ≤ length file.now }
    ensures result { result ≡ statement_at file.now at }
{
    StatementRecord {
        kind: file[at],
        zero: file[at + 1],
        declarators: u16_at(file, at + 2),
    }
}
