// `this` as a part of a member, by the frames of the file: the ThisExpression of `member_part_blocks_reorder`
// (src/peephole/mod.rs 255-276).
ghost use Rattle.std.specs.Prelude.{◌≡◌};
ghost use Rattle.records.specs.Record.{header_of};
ghost use Rattle.records.specs.File.{frames_of};
ghost use Rattle.walk_rules.specs.This.{this_blocks};

use crate::body_frames::frames_of;
use crate::this_blocks::this_blocks;
use crate::this_blocks_in::this_blocks_in;
use records::layout::ScopeId;
use records::limits::MAX_FRAMES;
use records::record_file::RecordFile;

// The frames as structs, as many as an accepted file may have; of more than that, in the file's bytes.
pub fn this_expression_blocks_reorder(file: &RecordFile<'_>, position: u32) -> bool
    ensures result { result ≡ this_blocks (header_of file.now.bytes.now).this_scope (frames_of file.now.bytes.now)
        position }
{
    let part = file.frames();
    let this_scope = ScopeId(file.header.this_scope);
    if file.header.frames <= MAX_FRAMES {
        let frames = frames_of(&part);
        return this_blocks_in(&frames[..part.count], this_scope, position);
    }
    this_blocks(&part, this_scope, position)
}
