// The length of a fold's result and the looks of the fold, for C and Rust to call.
ghost use Rattle.std.specs.Prelude.{◌≡◌};
ghost use Rattle.statements_measure.specs.Measure.{measure_bytes};
ghost use Rattle.statements_measure.specs.Laws.{MeasureLaws};
ghost use Rattle.wsf.specs.Answer.{measure_numbers};

use statements_measure::measure;

// The number of document 01's table that refuses the file, 0 where none of rows 1 to 10 does; the length of the result that
// `wsf_fold` gives; the looks that it makes.
#[repr(C)]
#[derive(Clone, Copy)]
pub struct WsfMeasure {
    pub number: u64,
    pub length: u64,
    pub looks: u64,
}

// Measures the fold of the record file `file`, without an output.
#[unsafe(no_mangle)]
pub extern "C" fn wsf_measure(file: &[u8]) -> WsfMeasure
    ensures numbers { measure_numbers result ≡ measure_bytes file.now }
    ensures laws { MeasureLaws file.now }
{
    match measure(file) {
        Ok(measured) => WsfMeasure {
            number: 0,
            length: measured.length as u64,
            looks: measured.looks as u64,
        },
        Err(row) => WsfMeasure {
            number: u64::from(u8::from(row)),
            length: 0,
            looks: 0,
        },
    }
}
