// Where `this` blocks: the ThisExpression of `member_part_blocks_reorder` (src/peephole/mod.rs 255-276), over the frames in the
// file's bytes, searched from the last. It stays beside `this_blocks_in`: a listed form (docs/DECISIONS.md, "Forms by location").
ghost use Rattle.std.specs.Prelude.{◌≡◌};
ghost use Rattle.records.specs.File.{frames_from};
ghost use Rattle.walk_rules.specs.This.{is_initialised_at, this_blocks};

use records::layout::{Frame, ScopeId, frame_at};
use records::limits::{FRAME_LENGTH, NO_NUMBER, NO_POSITION};
use records::part::Part;

// Whether a frame was initialised at or before a position.
#[tactic(auto, unfolding(walk_rules::specs::This::is_initialised_at))]
pub(crate) fn is_initialised_at(f: Frame, position: u32) -> bool
    ensures result { result ≡ is_initialised_at position f }
{
    !(f.initialised == NO_POSITION) & (f.initialised <= position)
}

// Whether `this` blocks at a position, by the frames of a part.
#[tactic(auto, unfolding(walk_rules::specs::This::this_blocks))]
pub fn this_blocks(frames: &Part<'_, FRAME_LENGTH>, this_scope: ScopeId, position: u32) -> bool
    ensures result { let p = frames.now in
        result ≡ this_blocks this_scope.0 (frames_from p.file.now p.from p.count) position }
{
    if this_scope.0 == NO_NUMBER {
        return false;
    }
    let Part { file, from, count } = *frames;
    let mut uninitialised = true; // none of the frames behind was initialised
    for i in (0..count).rev() {
        let f = frame_at(file, from + FRAME_LENGTH * i);
        uninitialised = !is_initialised_at(f, position) & uninitialised;
        if f.scope == this_scope.0 {
            return uninitialised;
        }
    }
    true
}
