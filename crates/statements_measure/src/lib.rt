// The length of a fold's result and the looks of the fold, without an output: the public call. It has no counterpart in the Rust
// that is ported.
#![tactic(auto)]

ghost use Rattle.std.specs.Prelude.{◌≡◌};
ghost use Rattle.statements_measure.specs.Measure.{measure_bytes, numbers};
ghost use Rattle.statements_measure.specs.Laws.{MeasureLaws};

use records::limits::{MAX_DECLARATORS, MAX_STATEMENTS};
use records_refusal::check::read_header;
use records_refusal::file_rows::room_wanted;
use records_refusal::outcome::Refusal;
use statements_fold::tables::fold_records;

// The length of the result that folding gives, and the looks that it makes.
#[derive(Clone, Copy, Debug, PartialEq, Eq)]
pub struct Measured {
    pub length: usize,
    pub looks: usize,
}

// Folds the record file `bytes` in the tables alone: the core gets the room that row 11 asks for, so that row 11 doesn't refuse, and
// an empty output, so that it writes no result. What is returned is the definition `measure_bytes`, by the fields of `fold_file`.
pub fn measure(bytes: &[u8]) -> Result<Measured, Refusal>
    ensures numbers { numbers result ≡ measure_bytes bytes.now }
    ensures laws { MeasureLaws bytes.now }
{
    let headed = read_header(bytes)?;
    let room = room_wanted(&headed.file);
    let mut output = [0u8; 0];
    let mut folded = [0u16; MAX_DECLARATORS as usize];
    let mut kept = [0u16; MAX_STATEMENTS as usize];
    let r = fold_records(&headed, room, &mut output, &mut folded, &mut kept)?;
    Ok(Measured {
        length: r.length,
        looks: r.looks,
    })
}
