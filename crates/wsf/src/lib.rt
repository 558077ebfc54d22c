// The fold of a record file, for C and Rust to call; each other call is in a module of its own.
#![tactic(auto)]

pub mod measure;
pub mod steady;

ghost use Rattle.std.specs.Prelude.{◌≡◌, length};
ghost use Rattle.records.specs.Refusal.{refusal as refusalOf};
ghost use Rattle.statements_rules.specs.Fold.{fold_bytes};
ghost use Rattle.statements_fold.specs.Answer.{numbers_of, laid_over};
ghost use Rattle.wsf.specs.Answer.{answer_numbers};

use statements_fold::fold;

// The number of document 01's table that refuses the file, 0 where none does; the result's length; the declarators folded. C has
// no Result: here and in the other calls the number stands beside the values.
#[repr(C)]
#[derive(Clone, Copy)]
pub struct WsfAnswer {
    pub number: u64,
    pub length: u64,
    pub folds: u64,
}

// Folds the record file `file` and lays the result down at the start of `output`; a refusal leaves `output` as it is, and so
// it is with every byte past the result.
#[unsafe(no_mangle)]
pub extern "C" fn wsf_fold(file: &[u8], output: &mut [u8]) -> WsfAnswer
    ensures numbers { answer_numbers result ≡ numbers_of (fold_bytes file.now (length output.old)) }
    ensures output { output.new
        ≡ laid_over (fold_bytes file.now (length output.old)) output.old }
    ensures accepted { refusalOf file.now (length output.old) ≡ 0
        → refusalOf (fold_bytes file.now (length output.old)).result (length output.old) ≡ 0 }
{
    match fold(file, output) {
        Ok(folded) => WsfAnswer {
            number: 0,
            length: folded.length as u64,
            folds: folded.folds as u64,
        },
        Err(row) => WsfAnswer {
            number: u64::from(u8::from(row)),
            length: 0,
            folds: 0,
        },
    }
}
