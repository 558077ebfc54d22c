// The writers: each lays bytes down at the start of the slice that it gets, the output from the current place onward, and
// leaves what follows as it was. Each record's is one call, so that a generic one over the records would be no plainer.
ghost use Rattle.std.specs.Prelude.{◌≡◌, ◌++◌, ◌+◌, ◌-◌, ◌≤◌, length, take, drop};
ghost use Rattle.records.specs.Limits.{header_length, declarator_length, statement_length};
ghost use Rattle.records.specs.Record.{header_bytes, declarator_bytes, statement_bytes};

use crate::copy::copy;
use crate::layout::{DeclaratorRecord, Header, StatementRecord};
use crate::record_bytes::{declarator_bytes, header_bytes, statement_bytes};

pub fn put_header(out: &mut [u8], h: Header)
    requires room { header_length ≤ length out.old }
    ensures output { out.new ≡ header_bytes h ++ drop header_length out.old }
{
    copy(&header_bytes(h), out);
}

pub fn put_declarator(out: &mut [u8], d: DeclaratorRecord)
    requires room { declarator_length ≤ length out.old }
    ensures output { out.new ≡ declarator_bytes d ++ drop declarator_length out.old }
{
    copy(&declarator_bytes(d), out);
}

pub fn put_statement(out: &mut [u8], s: StatementRecord)
    requires room { statement_length ≤ length out.old }
    ensures output { out.new ≡ statement_bytes s ++ drop statement_length out.old }
{
    copy(&statement_bytes(s), out);
}

// The bytes from one place to another, as they are: names, scopes and frames of a file, declarators and statements of a table.
pub fn put_copy(out: &mut [u8], file: &[u8], from: usize, to: usize)
    requires part { from ≤ to }
    requires file { to ≤ length file.now }
    requires room { to ≤ from + length out.old }
    ensures output { let part = take (to - from) (drop from file.now) in
        out.new ≡ part ++ drop (to - from) out.old }
{
    copy(&file[from..to], out);
}
