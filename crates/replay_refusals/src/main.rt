// Reads a list of answers (reference/README.md has its form) from standard input, asks for the refusal of each file in it
// with the room that it names, and prints each file whose number isn't the list's; then how many files got each number.
#![tactic(auto)]

mod tally;

use records_refusal::check::refusal;
use records_refusal::outcome::number_of;
use replay_answers::compare::compare;
use replay_answers::entry::{LONGEST, MOST_ENTRIES, read_entry};
use std::io;
use tally::Tally;

fn main(rt: HostRuntime) -> io::Result<()> {
    let mut reader = rt.reader();
    let mut file = [0u8; LONGEST];
    let mut result = [0u8; LONGEST];
    let mut steady = [0u8; LONGEST];
    let mut tally = Tally::default();
    let mut files = 0;
    for index in 0..MOST_ENTRIES {
        let Some(e) = read_entry(&mut reader, index, &mut file, &mut result, &mut steady)? else {
            break;
        };
        let is = number_of(refusal(e.file, e.room));
        tally.add(is);
        compare(&rt, e, "number", e.number, usize::from(is))?;
        files = index + 1;
    }
    println!(rt; "files {files}")?;
    tally.print(&rt)
}
