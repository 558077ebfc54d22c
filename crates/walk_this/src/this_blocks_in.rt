// Where `this` blocks: the ThisExpression of `member_part_blocks_reorder` (src/peephole/mod.rs 255-276), over the frames as
// structs, searched from the last. It stays beside `this_blocks`: a listed form (docs/DECISIONS.md, "Forms by location").
ghost use Rattle.std.specs.Prelude.{◌≡◌};
ghost use Rattle.walk_rules.specs.This.{this_blocks};

use crate::this_blocks::is_initialised_at;
use records::layout::{Frame, ScopeId};
use records::limits::NO_NUMBER;

// Whether `this` blocks at a position, by the frames of a slice.
#[tactic(auto, unfolding(walk_rules::specs::This::this_blocks))]
pub fn this_blocks_in(frames: &[Frame], this_scope: ScopeId, position: u32) -> bool
    ensures result { result ≡ this_blocks this_scope.0 frames.now position }
{
    if this_scope.0 == NO_NUMBER {
        return false;
    }
    let mut uninitialised = true; // none of the frames behind was initialised
    for f in frames.iter().rev() {
        uninitialised = !is_initialised_at(*f, position) & uninitialised;
        if f.scope == this_scope.0 {
            return uninitialised;
        }
    }
    true
}
