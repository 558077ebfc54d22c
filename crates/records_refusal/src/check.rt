// The refusal table, in its order: `refusal`, the public call, tests the rows of the header by `read_header`, and the others by
// `check`.
ghost use Rattle.std.specs.Prelude.{◌≡◌, ◌*◌, ◌≤◌, ◌<◌, length, IfOk};
ghost use Rattle.records.specs.Refusal.{refusal as refusalOf};
ghost use Rattle.records_refusal.specs.Number.{number};
ghost use Rattle.records_refusal.specs.Passing.{header_refusal};

use crate::file_rows::{
    counts_are_bad, facts_are_bad, names_are_declared_twice, node_rows, room_is_short,
    statement_row,
};
use crate::headed_file::HeadedFile;
use crate::outcome::Refusal;
use records::layout::header_of;
use records::limits::{MAX_NAMES, MAX_NODES};
use records::record_file::RecordFile;
use records_tests::header::{not_a_record_file, other_length, other_version, outside_limits};

// Rows 5 to 11, over a stack with a place for each node. `stack` stays a clause, also below: it is about a lent slice and the header.
fn check(headed: &HeadedFile<'_>, room: usize, stack: &mut [u16]) -> Result<(), Refusal>
    requires stack { headed.now.file.header.nodes ≤ length stack.old }
    ensures result { number result ≡ refusalOf headed.now.file.bytes.now room }
{
    let file = &headed.file;
    let bad = facts_are_bad(file);
    let short = room_is_short(file, room);
    if bad {
        return Err(Refusal::BadFacts);
    }
    let statements = statement_row(file);
    statements.row?;
    let mut reads = [0u16; MAX_NAMES as usize];
    let mut targets = [0u16; MAX_NAMES as usize];
    node_rows(headed, statements.trees, stack, &mut reads, &mut targets)?;
    if names_are_declared_twice(file) {
        return Err(Refusal::DeclaredTwice);
    }
    if counts_are_bad(file, &reads, &targets) {
        return Err(Refusal::BadCounts);
    }
    if short {
        return Err(Refusal::NoRoom);
    }
    Ok(())
}

// The same, with a stack for `N` nodes. It is kept a function of its own, so that a small file doesn't take the large stack's frame.
#[inline(never)]
fn check_over<const N: usize>(headed: &HeadedFile<'_>, room: usize) -> Result<(), Refusal>
    requires size { N * 2 < 9223372036854775808 }
    requires stack { headed.now.file.header.nodes ≤ N }
    ensures result { number result ≡ refusalOf headed.now.file.bytes.now room }
{
    let mut stack = [0u16; N];
    check(headed, room, &mut stack)
}

const SMALL_STACK: usize = 240;

const LARGE_STACK: usize = MAX_NODES as usize;

// Rows 5 to 11. A small file gets a small stack, which takes less time to clear.
pub fn check_records(headed: &HeadedFile<'_>, room: usize) -> Result<(), Refusal>
    ensures result { number result ≡ refusalOf headed.now.file.bytes.now room }
{
    if usize::from(headed.file.header.nodes) <= SMALL_STACK {
        check_over::<SMALL_STACK>(headed, room)
    } else {
        check_over::<LARGE_STACK>(headed, room)
    }
}

// Rows 1 to 4, those of the header. Any bytes. It is inlined, so that a file that is refused isn't laid down first.
#[inline(always)]
pub fn read_header(bytes: &[u8]) -> Result<HeadedFile<'_>, Refusal>
    ensures result { number result ≡ header_refusal bytes.now }
    ensures bytes { IfOk result (λ headed. headed.file.bytes.now ≡ bytes.now) }
{
    if not_a_record_file(bytes) {
        return Err(Refusal::NotARecordFile);
    }
    let header = header_of(bytes);
    let other = other_version(header);
    let outside = outside_limits(header);
    if other {
        return Err(Refusal::OtherVersion);
    }
    if outside {
        return Err(Refusal::OutsideLimits);
    }
    if other_length(bytes, header) {
        return Err(Refusal::OtherLength);
    }
    let file = RecordFile { bytes, header };
    Ok(HeadedFile { file })
}

// Whether a file and a room for its result are accepted, or the row of the table that refuses them. Any bytes.
pub fn refusal(bytes: &[u8], room: usize) -> Result<(), Refusal>
    ensures result { number result ≡ refusalOf bytes.now room }
{
    let headed = read_header(bytes)?;
    check_records(&headed, room)
}
