// One run of a repeat: the fold of a file, and whether it left the bytes as they were.
ghost use Rattle.std.specs.Prelude.{◌≡◌, ◌≤◌, length};
ghost use Rattle.records.specs.Refusal.{room_wanted};
ghost use Rattle.statements_rules.specs.Fold.{fold_bytes};
ghost use Rattle.statements_fold.specs.Answer.{laid_over};
ghost use Rattle.statements_steady.specs.Run.{Runs};

use records::limits::{MAX_DECLARATORS, MAX_STATEMENTS};
use records_refusal::headed_file::HeadedFile;
use records_refusal::outcome::Refusal;
use statements_fold::tables::fold_records;

// The result's length; the declarators folded; whether the result is the bytes themselves.
#[derive(Clone, Copy)]
pub struct Run {
    pub length: usize,
    pub folds: usize,
    pub steady: bool,
}

// The fold of the file, with so much room for row 11, laid down at the start of `res`.
pub(crate) fn fold_once(
    headed: &HeadedFile<'_>,
    room: usize,
    res: &mut [u8],
) -> Result<Run, Refusal>
    requires res { room_wanted headed.now.file.bytes.now ≤ length res.old }
    ensures run { Runs headed.now.file.bytes.now room result }
    ensures res { res.new ≡ laid_over (fold_bytes headed.now.file.bytes.now room) res.old }
{
    let mut folded = [0u16; MAX_DECLARATORS as usize];
    let mut kept = [0u16; MAX_STATEMENTS as usize];
    let r = fold_records(headed, room, res, &mut folded, &mut kept)?;
    let steady = &res[..r.length] == headed.file.bytes;
    Ok(Run {
        length: r.length,
        folds: r.folds,
        steady,
    })
}
