// The refusal table's outcomes: `Ok`, or the row that refuses a file.
ghost use Rattle.std.specs.Prelude.{◌≡◌};
ghost use Rattle.records_refusal.specs.Number.{number, row_number};

#[derive(Clone, Copy, Debug, PartialEq, Eq)]
pub enum Refusal {
    NotARecordFile,
    OtherVersion,
    OutsideLimits,
    OtherLength,
    BadFacts,
    BadStatements,
    BadNodes,
    BadTrees,
    DeclaredTwice,
    BadCounts,
    NoRoom,
}

// The number of the row in document 01's table.
impl From<Refusal> for u8 {
    ghost from_gives = { λ r n. n ≡ row_number r };

    fn from(r: Refusal) -> u8 {
        match r {
            Refusal::NotARecordFile => 1,
            Refusal::OtherVersion => 2,
            Refusal::OutsideLimits => 3,
            Refusal::OtherLength => 4,
            Refusal::BadFacts => 5,
            Refusal::BadStatements => 6,
            Refusal::BadNodes => 7,
            Refusal::BadTrees => 8,
            Refusal::DeclaredTwice => 9,
            Refusal::BadCounts => 10,
            Refusal::NoRoom => 11,
        }
    }
}

// The number that document 01's table gives an outcome; 0 if the file is accepted.
pub fn number_of(outcome: Result<(), Refusal>) -> u8
    ensures result { result ≡ number outcome }
{
    match outcome {
        Ok(()) => 0,
        Err(r) => u8::from(r),
    }
}
