// How many files got each number.
use std::io;

// By number, from 0 to 11.
#[derive(Clone, Copy, Default)]
pub struct Tally([usize; 12]);

impl Tally {
    // One file more with this number.
    pub fn add(&mut self, number: u8) {
        if let Some(files) = self.0.get_mut(usize::from(number)) {
            *files = files.saturating_add(1);
        }
    }

    // A line for each number.
    pub fn print(&self, rt: &impl Print) -> io::Result<()> {
        for (number, files) in self.0.iter().enumerate() {
            println!(rt; "number {number}: {files}")?;
        }
        Ok(())
    }
}
