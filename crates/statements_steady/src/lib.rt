// The fold of a record file repeated until the bytes stay the same: the public call. It has no counterpart in the Rust that is
// ported.
#![tactic(auto)]

mod repeat;
mod run;

ghost use Rattle.std.specs.Prelude.{◌≡◌, length};
ghost use Rattle.statements_rules.specs.Steady.{steady_bytes};
ghost use Rattle.statements_fold.specs.Answer.{laid_into};
ghost use Rattle.statements_steady.specs.Answer.{numbers, numbers_of};
ghost use Rattle.statements_steady.specs.Laws.{SteadyLaws};

use crate::repeat::repeat_in;
use records::limits::MAX_ROOM;
use records_refusal::check::read_header;
use records_refusal::file_rows::room_is_short;
use records_refusal::outcome::Refusal;

// The last result's length, the declarators that all runs folded, and the runs.
#[derive(Clone, Copy, Debug, PartialEq, Eq)]
pub struct Steady {
    pub length: usize,
    pub folds: usize,
    pub runs: usize,
}

// What the small buffers, which take less time to clear, have room for.
const FEW_BYTES: usize = 4096;

// Folds the record file `bytes`, then each result, until a run leaves the bytes as they are, and lays the last result down at the
// start of `output`; a refusal leaves `output` as it is, and so it is with every byte past the last result. What is returned and
// written is the definition `steady_bytes`, of which demand 3 is proved (`theory_steady/proofs/SameRuns.antt`): the run of the last
// result is the run of the file, where the file's facts are true, those on targets of the folds of every run, and no initializer is
// the bare `eval`. A file that wants little room is folded over small buffers.
pub fn fold_until_steady(bytes: &[u8], output: &mut [u8]) -> Result<Steady, Refusal>
    ensures numbers { numbers result ≡ numbers_of (steady_bytes bytes.now (length output.old)) }
    ensures output { output.new
        ≡ laid_into (steady_bytes bytes.now (length output.old)).result output.old }
    ensures laws { SteadyLaws bytes.now (length output.old) }
{
    let headed = read_header(bytes)?;
    if room_is_short(&headed.file, FEW_BYTES) {
        repeat_in::<MAX_ROOM>(&headed, output)
    } else {
        repeat_in::<FEW_BYTES>(&headed, output)
    }
}
