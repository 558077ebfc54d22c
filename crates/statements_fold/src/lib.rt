// The fold of a record file: the public call. The record file has no counterpart in the Rust.
#![tactic(auto)]

pub mod tables;

ghost use Rattle.std.specs.Prelude.{◌≡◌, length};
ghost use Rattle.records.specs.Refusal.{refusal as refusalOf};
ghost use Rattle.statements_rules.specs.Fold.{fold_bytes};
ghost use Rattle.statements_fold.specs.Answer.{numbers, numbers_of, laid_over};

use crate::tables::fold_records;
use records::limits::{MAX_DECLARATORS, MAX_STATEMENTS};
use records_refusal::check::read_header;
use records_refusal::outcome::Refusal;

// The result's length, and the declarators folded.
#[derive(Clone, Copy, Debug, PartialEq, Eq)]
pub struct Folded {
    pub length: usize,
    pub folds: usize,
}

// Folds the record file `bytes` and lays the result down at the start of `output`; a refusal leaves `output` as it is, and so
// it is with every byte past the result. What is returned and written is the definition `fold_bytes`, of which demand 3 is
// proved (`theory_demands/proofs/Demand3.antt`): the run of the result is the run of the file, where the file's facts are true
// and no initializer is the bare `eval`. A file is refused before any work table is made.
pub fn fold(bytes: &[u8], output: &mut [u8]) -> Result<Folded, Refusal>
    ensures numbers { numbers result ≡ numbers_of (fold_bytes bytes.now (length output.old)) }
    ensures output { output.new
        ≡ laid_over (fold_bytes bytes.now (length output.old)) output.old }
    ensures accepted { refusalOf bytes.now (length output.old) ≡ 0
        → refusalOf (fold_bytes bytes.now (length output.old)).result (length output.old) ≡ 0 }
{
    let headed = read_header(bytes)?;
    let room = output.len();
    let mut folded = [0u16; MAX_DECLARATORS as usize];
    let mut kept = [0u16; MAX_STATEMENTS as usize];
    let r = fold_records(&headed, room, output, &mut folded, &mut kept)?;
    Ok(Folded {
        length: r.length,
        folds: r.folds,
    })
}
