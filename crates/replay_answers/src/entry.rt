// The entries of a list of answers.
ghost use Rattle.std.specs.Prelude.{◌≤◌, length, ◌≢◌, IfOk, IfSome, IfErr};
ghost use Rattle.std.specs.IoError.{error_kind};
ghost use Rattle.std.specs.declared.io.ErrorKind.TheVariants.{UnexpectedEof};

use crate::segment::{fill, number_at, read_whole};
use records::copy::copy;
use std::io;
use std::io::Read;

// The longest file, result and room that a list may have.
pub const LONGEST: usize = 65536;

// The length of a result that is the file itself, or of a repeat's that is the fold's, and so isn't in the list.
const SAME: usize = 4294967295;

// The length of an entry's head.
pub const HEAD_LENGTH: usize = 40;

// No list has more entries; what is behind them isn't read.
pub const MOST_ENTRIES: usize = 1_000_000;

// An entry: its place in the list; the file, the fold's result and the repeat's; the length of the output that is offered; what
// the fold, the repeat and measuring are to return.
#[derive(Clone, Copy)]
pub struct Entry<'a> {
    pub index: usize,
    pub file: &'a [u8],
    pub result: &'a [u8],
    pub steady: &'a [u8],
    pub room: usize,
    pub number: usize,
    pub folds: usize,
    pub looks: usize,
    pub steady_folds: usize,
    pub runs: usize,
    pub measured: usize,
    pub ghost file_length: { length file.now ≤ 65536 },
    pub ghost result_length: { length result.now ≤ 65536 },
    pub ghost steady_length: { length steady.now ≤ 65536 },
    pub ghost room_length: { room ≤ 65536 },
}

// The room that a number offers, 0 if a list may not have so much.
fn room_of(number: usize) -> usize
    ensures result { result ≤ 65536 }
{
    if number <= LONGEST { number } else { 0 }
}

// So many bytes from the list, to the start of `to`; their number, if a list may have so many and this one does.
fn read_bytes(reader: &mut impl Read, count: usize, to: &mut [u8]) -> io::Result<Option<usize>>
    requires to { 65536 ≤ length to.old }
    ensures length { IfOk result (λ o. IfSome o (λ n. n ≤ 65536)) }
    ensures err { IfErr result (λ e. error_kind e ≢ UnexpectedEof) }
{
    if count > LONGEST {
        return Ok(None);
    }
    let filled = fill(reader, to, count)?;
    Ok(filled.then_some(count))
}

// The same of a result, which may be the bytes before it.
fn read_result(
    reader: &mut impl Read,
    count: usize,
    before: &[u8],
    to: &mut [u8],
) -> io::Result<Option<usize>>
    requires before { length before.now ≤ 65536 }
    requires to { 65536 ≤ length to.old }
    ensures length { IfOk result (λ o. IfSome o (λ n. n ≤ 65536)) }
    ensures err { IfErr result (λ e. error_kind e ≢ UnexpectedEof) }
{
    if count == SAME {
        copy(before, to);
        return Ok(Some(before.len()));
    }
    read_bytes(reader, count, to)
}

// Reads the next entry, with this place in the list, its file, the fold's result and the repeat's each to the start of its buffer;
// none behind the last one, and if the bytes aren't an entry. What the list may not have isn't read, and what comes behind it is read
// all the same, so that the reader's error there is told. An error is the reader's, and no end of the list; the buffers may then have
// some of what was read.
pub fn read_entry<'a>(
    reader: &mut impl Read,
    index: usize,
    file: &'a mut [u8],
    res: &'a mut [u8],
    steady: &'a mut [u8],
) -> io::Result<Option<Entry<'a>>>
    requires file { 65536 ≤ length file.old }
    requires res { 65536 ≤ length res.old }
    requires steady { 65536 ≤ length steady.old }
    ensures err { IfErr result (λ e. error_kind e ≢ UnexpectedEof) }
{
    let mut head = [0u8; HEAD_LENGTH];
    if !read_whole(reader, &mut head)? {
        return Ok(None);
    }
    let file_end = read_bytes(reader, number_at(&head, 16), file)?;
    let before = &file[..file_end.unwrap_or(0)];
    let end = read_result(reader, number_at(&head, 20), before, res)?;
    let before = &res[..end.unwrap_or(0)];
    let steady_end = read_result(reader, number_at(&head, 32), before, steady)?;
    let (Some(file_end), Some(end), Some(steady_end)) = (file_end, end, steady_end) else {
        return Ok(None);
    };
    Ok(Some(Entry {
        index,
        file: &file[..file_end],
        result: &res[..end],
        steady: &steady[..steady_end],
        room: room_of(number_at(&head, 0)),
        number: number_at(&head, 4),
        folds: number_at(&head, 8),
        looks: number_at(&head, 12),
        steady_folds: number_at(&head, 24),
        runs: number_at(&head, 28),
        measured: number_at(&head, 36),
    }))
}
