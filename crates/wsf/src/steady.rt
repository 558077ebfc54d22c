// The fold repeated until the bytes stay the same, for C and Rust to call.
ghost use Rattle.std.specs.Prelude.{◌≡◌, length};
ghost use Rattle.statements_rules.specs.Steady.{steady_bytes};
ghost use Rattle.statements_fold.specs.Answer.{laid_into};
ghost use Rattle.statements_steady.specs.Answer.{numbers_of};
ghost use Rattle.statements_steady.specs.Laws.{SteadyLaws};
ghost use Rattle.wsf.specs.Answer.{steady_numbers};

use statements_steady::fold_until_steady;

// The number of document 01's table that refuses the file, 0 where none does; the last result's length; the declarators that all
// runs folded; the runs, the last unchanged one counted.
#[repr(C)]
#[derive(Clone, Copy)]
pub struct WsfSteady {
    pub number: u64,
    pub length: u64,
    pub folds: u64,
    pub runs: u64,
}

// Folds the record file `file`, then each result, until a run leaves the bytes as they are, and lays the last result down at the
// start of `output`; a refusal leaves `output` as it is, and so it is with every byte past the last result.
#[unsafe(no_mangle)]
pub extern "C" fn wsf_fold_until_steady(file: &[u8], output: &mut [u8]) -> WsfSteady
    ensures numbers { steady_numbers result ≡ numbers_of (steady_bytes file.now (length output.old)) }
    ensures output { output.new
        ≡ laid_into (steady_bytes file.now (length output.old)).result output.old }
    ensures laws { SteadyLaws file.now (length output.old) }
{
    match fold_until_steady(file, output) {
        Ok(steady) => WsfSteady {
            number: 0,
            length: steady.length as u64,
            folds: steady.folds as u64,
            runs: steady.runs as u64,
        },
        Err(row) => WsfSteady {
            number: u64::from(u8::from(row)),
            length: 0,
            folds: 0,
            runs: 0,
        },
    }
}
