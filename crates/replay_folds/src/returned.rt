// What a fold, a repeat and measuring return, as the numbers of a list.
use records_refusal::outcome::Refusal;
use statements_fold::Folded;
use statements_measure::Measured;
use statements_steady::Steady;

#[derive(Clone, Copy, Default)]
pub struct Returned {
    pub number: usize,
    pub length: usize,
    pub folds: usize,
    pub runs: usize,
}

// A fold is one run.
impl From<Result<Folded, Refusal>> for Returned {
    fn from(answer: Result<Folded, Refusal>) -> Self {
        match answer {
            Ok(folded) => Self {
                number: 0,
                length: folded.length,
                folds: folded.folds,
                runs: 1,
            },
            Err(row) => Self::from(row),
        }
    }
}

impl From<Result<Steady, Refusal>> for Returned {
    fn from(answer: Result<Steady, Refusal>) -> Self {
        match answer {
            Ok(steady) => Self {
                number: 0,
                length: steady.length,
                folds: steady.folds,
                runs: steady.runs,
            },
            Err(row) => Self::from(row),
        }
    }
}

impl From<Refusal> for Returned {
    fn from(row: Refusal) -> Self {
        Self {
            number: usize::from(u8::from(row)),
            ..Self::default()
        }
    }
}

#[derive(Clone, Copy, Default)]
pub struct MeasuredNumbers {
    pub number: usize,
    pub length: usize,
    pub looks: usize,
}

impl From<Result<Measured, Refusal>> for MeasuredNumbers {
    fn from(answer: Result<Measured, Refusal>) -> Self {
        match answer {
            Ok(measured) => Self {
                number: 0,
                length: measured.length,
                looks: measured.looks,
            },
            Err(row) => Self {
                number: usize::from(u8::from(row)),
                ..Self::default()
            },
        }
    }
}
