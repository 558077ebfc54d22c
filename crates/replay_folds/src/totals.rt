// What is counted over all entries.
use crate::returned::{MeasuredNumbers, Returned};
use std::fmt;

// The sum, if it is a number that fits.
fn sum(a: usize, b: usize) -> usize {
    a.checked_add(b).unwrap_or(a)
}

#[derive(Clone, Copy, Default)]
pub struct ReplayTotals {
    accepted: usize,
    folds: usize,
    runs: usize,
    bytes: usize,
}

impl ReplayTotals {
    pub fn add(&mut self, r: Returned) {
        self.accepted = sum(self.accepted, usize::from(r.number == 0));
        self.folds = sum(self.folds, r.folds);
        self.runs = sum(self.runs, r.runs);
        self.bytes = sum(self.bytes, r.length);
    }
}

impl fmt::Display for ReplayTotals {
    fn fmt<W: fmt::Write>(&self, f: &mut fmt::Formatter<W>) -> fmt::Result {
        write!(
            f,
            "accepted {} folds {} runs {} bytes {}",
            self.accepted, self.folds, self.runs, self.bytes
        )
    }
}

#[derive(Clone, Copy, Default)]
pub struct MeasureTotals {
    measured: usize,
    bytes: usize,
    looks: usize,
}

impl MeasureTotals {
    pub fn add(&mut self, r: MeasuredNumbers) {
        self.measured = sum(self.measured, usize::from(r.number == 0));
        self.bytes = sum(self.bytes, r.length);
        self.looks = sum(self.looks, r.looks);
    }
}

impl fmt::Display for MeasureTotals {
    fn fmt<W: fmt::Write>(&self, f: &mut fmt::Formatter<W>) -> fmt::Result {
        write!(
            f,
            "measured {} bytes {} looks {}",
            self.measured, self.bytes, self.looks
        )
    }
}

#[derive(Clone, Copy, Default)]
pub struct AllTotals {
    pub folds: ReplayTotals,
    pub repeats: ReplayTotals,
    pub measures: MeasureTotals,
}

// A line for each call.
impl fmt::Display for AllTotals {
    fn fmt<W: fmt::Write>(&self, f: &mut fmt::Formatter<W>) -> fmt::Result {
        writeln!(f, "fold: {}", self.folds)?;
        writeln!(f, "until steady: {}", self.repeats)?;
        write!(f, "{}", self.measures)
    }
}
