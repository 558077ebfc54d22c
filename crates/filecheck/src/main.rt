// Reads a record file from standard input and prints `accepted`, or `refused` with the number of the row that refuses it.
#![tactic(auto)]

use program_lines::input::{BUFFER_LENGTH, read_full};
use records_refusal::check::refusal;
use std::io;

// More than any accepted file wants.
const ROOM: usize = 65536;

fn report(rt: &impl Print, file: &[u8]) -> io::Result<()> {
    match refusal(file, ROOM) {
        Ok(()) => println!(rt; "accepted"),
        Err(row) => println!(rt; "refused {}", u8::from(row)),
    }
}

// No accepted file is longer than 42,248 bytes: of a longer input the first 65,536 get the number of the whole.
fn main(rt: HostRuntime) -> io::Result<()> {
    let mut buf = [0u8; BUFFER_LENGTH];
    let n = read_full(&mut rt.reader(), &mut buf)?;
    report(&rt, &buf[..n])
}
