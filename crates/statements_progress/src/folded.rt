// The names that folds took, in the order of the folds. The Rust keeps no such list.
ghost use Rattle.std.specs.Prelude.{◌+◌, ◌-◌, ◌*◌, ◌≤◌, length};
ghost use Rattle.records_table.specs.Overwrites.{Overwrites};
ghost use Rattle.statements_progress.specs.Listed.{names_from};

use records::layout::declarator_at;
use records::limits::DECLARATOR_LENGTH;

// Lists the declarators that a search has folded behind those of the folds before it: number `left` to `many`, the last first.
pub fn list_folded(declarators: &[u8], left: usize, many: usize, folded: &mut [u16], folds: usize)
    requires many { left ≤ many }
    requires declarators { 4 * many ≤ length declarators.now }
    requires room { folds + (many - left) ≤ length folded.old }
    ensures listed { Overwrites folded.old folded.new folds
        (names_from declarators.now left (many - left)) }
{
    for last in (left..many).rev() {
        let d = declarator_at(declarators, DECLARATOR_LENGTH * last);
        folded[folds + (many - 1 - last)] = d.name;
    }
}
