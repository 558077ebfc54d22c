// Reads a record file from standard input, folds it, and prints the folds and the statements and nodes of the result;
// then a line for each statement of the result. Of a file that is refused, the number of the row that refuses it.
#![tactic(auto)]

mod list;

use list::print_result;
use program_lines::input::{BUFFER_LENGTH, read_full};
use statements_fold::fold;
use std::io;

fn report(rt: &impl Print, file: &[u8], output: &mut [u8]) -> io::Result<()> {
    match fold(file, output) {
        Ok(folded) => print_result(rt, output, folded.folds),
        Err(row) => println!(rt; "refused {}", u8::from(row)),
    }
}

// No accepted file is longer than 42,248 bytes, nor wants more room: of a longer input the first 65,536 get the number of
// the whole.
fn main(rt: HostRuntime) -> io::Result<()> {
    let mut file = [0u8; BUFFER_LENGTH];
    let mut output = [0u8; BUFFER_LENGTH];
    let n = read_full(&mut rt.reader(), &mut file)?;
    report(&rt, &file[..n], &mut output)
}
