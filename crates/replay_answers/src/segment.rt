// The segments of an entry: bytes that stand so many times.
ghost use Rattle.std.specs.Prelude.{◌+◌, ◌≤◌, ◌≢◌, length, IfErr};
ghost use Rattle.std.specs.IoError.{error_kind};
ghost use Rattle.std.specs.declared.io.ErrorKind.TheVariants.{UnexpectedEof};

use records::number::u32_at;
use std::io;
use std::io::{ErrorKind, Read};

pub(crate) fn number_at(bytes: &[u8], at: usize) -> usize
    requires room { at + 4 ≤ length bytes.now }
{
    u32_at(bytes, at) as usize
}

// Where `times` times so many bytes from `at` on end, as far as they end by `most`.
fn segment_end(at: usize, bytes: usize, times: usize, most: usize) -> usize
    requires segment { at + bytes ≤ most }
    ensures within { (at + bytes ≤ result) × (result ≤ most) }
{
    let mut end = at + bytes;
    for _ in 1..times {
        if most - end < bytes {
            break;
        }
        end += bytes;
    }
    end
}

// Repeats the `period` bytes before `at` up to `end`.
fn repeat(buf: &mut [u8], at: usize, period: usize, end: usize)
    requires period { period ≤ at }
    requires end { end ≤ length buf.old }
{
    for i in at..end {
        buf[i] = buf[i - period];
    }
}

// Fills the buffer; false if the list ends before. An error is the reader's, and no end of the list; the buffer may then have
// some of what was read.
pub fn read_whole(reader: &mut impl Read, buf: &mut [u8]) -> io::Result<bool>
    ensures err { IfErr result (λ e. error_kind e ≢ UnexpectedEof) }
{
    match reader.read_exact(buf) {
        Ok(()) => Ok(true),
        Err(e) if e.kind() == ErrorKind::UnexpectedEof => Ok(false),
        Err(e) => Err(e),
    }
}

// Reads segments to the start of `buf` until so many bytes are there; false if the list doesn't have them. An error is the
// reader's, as in `read_whole`.
pub fn fill(reader: &mut impl Read, buf: &mut [u8], count: usize) -> io::Result<bool>
    requires room { count ≤ length buf.old }
    ensures err { IfErr result (λ e. error_kind e ≢ UnexpectedEof) }
{
    let mut head = [0u8; 8];
    let mut at = 0;
    // No `for`: the list says how long each segment is.
    while at < count {
        if !read_whole(reader, &mut head)? {
            return Ok(false);
        }
        let times = number_at(&head, 0);
        let bytes = number_at(&head, 4);
        if bytes == 0 || count - at < bytes {
            return Ok(false);
        }
        let next = at + bytes;
        if !read_whole(reader, &mut buf[at..next])? {
            return Ok(false);
        }
        let end = segment_end(at, bytes, times, count);
        repeat(buf, next, bytes, end);
        at = end;
    }
    Ok(true)
}
