// The input, read to a buffer.
ghost use Rattle.std.specs.Prelude.{◌≤◌, length, IfOk};

use std::io;
use std::io::Read;

// As many bytes as a program takes of a file, or lends for a result: more than any accepted file has, or wants.
pub const BUFFER_LENGTH: usize = 65536;

// Reads until the buffer is full or the input ends; how many bytes these are.
pub fn read_full(reader: &mut impl Read, buf: &mut [u8]) -> io::Result<usize>
    ensures within { IfOk result (λ n. n ≤ length buf.old) }
{
    let mut at = 0;
    // No `for`: the reader says how far each step comes.
    while at < buf.len() {
        let n = reader.read(&mut buf[at..])?;
        if n == 0 {
            return Ok(at);
        }
        at += n;
    }
    Ok(at)
}
