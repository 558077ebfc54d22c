// What isn't as the list says.
use crate::entry::Entry;
use std::io;

// Says so where a number of this entry, called `what`, isn't the list's.
pub fn compare(
    rt: &impl Print,
    e: Entry<'_>,
    what: &str,
    said: usize,
    is: usize,
) -> io::Result<()> {
    if said == is {
        return Ok(());
    }
    println!(rt; "entry {} {what} {is}, the list says {said}", e.index)
}
