// The runs of a repeat, over buffers that are lent.
ghost use Rattle.std.specs.Prelude.{◌≤◌, ◌<◌, length};
ghost use Rattle.records.specs.Refusal.{room_wanted};
ghost use Rattle.statements_steady.specs.Answer.{Repeats};

use crate::Steady;
use crate::run::fold_once;
use records::copy::copy;
use records_refusal::check::read_header;
use records_refusal::headed_file::HeadedFile;
use records_refusal::outcome::Refusal;

// Folds the file into `next`; then, until a run leaves the bytes as they are, copies what is there to `current` and folds that into
// `next`. The output is written last, so that bytes behind the last result stay as they were where a result before it was longer.
fn repeat_over(
    headed: &HeadedFile<'_>,
    output: &mut [u8],
    current: &mut [u8],
    next: &mut [u8],
) -> Result<Steady, Refusal>
    requires current { room_wanted headed.now.file.bytes.now ≤ length current.old }
    requires next { room_wanted headed.now.file.bytes.now ≤ length next.old }
    ensures repeats { Repeats headed.now.file.bytes.now output.old output.new result }
{
    let room = output.len();
    let first = fold_once(headed, room, next)?;
    let mut length = first.length;
    let mut folds = first.folds;
    let mut runs = 1;
    let mut steady = first.steady;
    while !steady {
        copy(&next[..length], current);
        let left = read_header(&current[..length])?;
        let r = fold_once(&left, room, next)?;
        length = r.length;
        folds += r.folds;
        runs += 1;
        steady = r.steady;
    }
    copy(&next[..length], output);
    Ok(Steady {
        length,
        folds,
        runs,
    })
}

// The repeat over buffers of `ROOM` bytes.
pub(crate) fn repeat_in<const ROOM: usize>(
    headed: &HeadedFile<'_>,
    output: &mut [u8],
) -> Result<Steady, Refusal>
    requires size { ROOM < 9223372036854775808 }
    requires room { room_wanted headed.now.file.bytes.now ≤ ROOM }
    ensures repeats { Repeats headed.now.file.bytes.now output.old output.new result }
{
    let mut current = [0u8; ROOM];
    let mut next = [0u8; ROOM];
    repeat_over(headed, output, &mut current, &mut next)
}
