// The work table: 16 bytes to a node, its record and an end. A file's node records are copied to it, and written from it.
#![tactic(auto)]

pub mod load;

ghost use Rattle.std.specs.Prelude.{◌≡◌, ◌++◌, ◌+◌, ◌*◌, ◌≤◌, length, drop, set};
ghost use Rattle.records.specs.Limits.{node_length};
ghost use Rattle.records.specs.Record.{node_at, node_bytes};
ghost use Rattle.records.specs.Records.{records_from, bytes_of};
ghost use Rattle.records.specs.declared.layout.NodeRecord.{NodeRecord as NodeRecordOf};
ghost use Rattle.records_table.specs.Table.{work_length, work_bytes};

use records::copy::copy;
use records::layout::{NodeId, NodeRecord, node_at};
use records::limits::NODE_LENGTH;
use records::record_bytes::node_bytes;

// The length of a record of the table.
pub const WORK_LENGTH: usize = 16;

// The bytes of the node record at a place, as they stand there.
fn record_at(s: &[u8], at: usize) -> [u8; 12]
    requires record { at + node_length ≤ length s.now }
    ensures result { result ≡ node_bytes (node_at s.now at) }
{
    let mut record = [0; NODE_LENGTH];
    record.copy_from_slice(&s[at..at + NODE_LENGTH]);
    record
}

// A record of the table, its end unknown.
fn work_bytes(b: [u8; 12]) -> [u8; 16]
    ensures result { (n : NodeRecordOf) → b ≡ node_bytes n → result ≡ work_bytes n }
{
    let mut record = [255; WORK_LENGTH];
    copy(&b, &mut record);
    record
}

// Lays a record of the table down at the start of `out`.
pub fn put_work_node(out: &mut [u8], n: NodeRecord)
    requires room { work_length ≤ length out.old }
    ensures output { out.new ≡ work_bytes n ++ drop work_length out.old }
{
    let record = work_bytes(node_bytes(n));
    copy(&record, out);
}

// Lays the node record at a place of a file down at the start of `out`, as a record of the table.
pub fn copy_node(file: &[u8], at: usize, out: &mut [u8])
    requires record { at + node_length ≤ length file.now }
    requires room { work_length ≤ length out.old }
    ensures output { out.new ≡ work_bytes (node_at file.now at) ++ drop work_length out.old }
{
    let record = work_bytes(record_at(file, at));
    copy(&record, out);
}

// Lays the record at a place of the table down at the start of `out`, as a file's node record.
fn put_record(out: &mut [u8], table: &[u8], at: usize)
    requires record { at + node_length ≤ length table.now }
    requires room { node_length ≤ length out.old }
    ensures output { out.new ≡ node_bytes (node_at table.now at) ++ drop node_length out.old }
{
    let record = record_at(table, at);
    copy(&record, out);
}

// The node part of a file: lays the table's first `count` records down at the start of `out`, each behind those before it.
pub fn put_nodes(out: &mut [u8], table: &[u8], count: usize)
    requires table { work_length * count ≤ length table.now }
    requires room { node_length * count ≤ length out.old }
    ensures output { out.new ≡ bytes_of node_bytes (records_from (node_at table.now) work_length count 0)
        ++ drop (node_length * count) out.old }
{
    for i in 0..count {
        let at = NODE_LENGTH * i;
        put_record(&mut out[at..], table, WORK_LENGTH * i);
    }
}

// The record of a node of the table.
pub fn work_node(nodes: &[u8], at: NodeId) -> NodeRecord
    requires node { work_length * at.0 + work_length ≤ length nodes.now }
    ensures result { result ≡ node_at nodes.now (work_length * at.0) }
{
    node_at(nodes, WORK_LENGTH * at.0)
}

// Gives a node of the table other flags, the second byte of its record.
pub fn set_flags(nodes: &mut [u8], at: NodeId, flags: u8)
    requires node { work_length * at.0 + work_length ≤ length nodes.old }
    ensures table { nodes.new ≡ set nodes.old (work_length * at.0 + 1) flags }
{
    nodes[WORK_LENGTH * at.0 + 1] = flags;
}
