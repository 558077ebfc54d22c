// The frames of a file as structs: `ctx.state.body_frames` (src/peephole/mod.rs 262).
ghost use Rattle.std.specs.Prelude.{◌≡◌, ◌≤◌, take};
ghost use Rattle.records.specs.File.{frames_from};

use records::layout::{Frame, frame_at};
use records::limits::FRAME_LENGTH;
use records::part::Part;

// The frames of a part, in the first `count` places: fixed memory, of which the caller lends that part as a slice.
pub fn frames_of(part: &Part<'_, FRAME_LENGTH>) -> [Frame; 16]
    requires count { part.now.count ≤ 16 }
    ensures result { let p = part.now in take p.count result ≡ frames_from p.file.now p.from p.count }
{
    let Part { file, from, count } = *part;
    let mut frames = [Frame {
        scope: 0,
        zero: 0,
        initialised: 0,
    }; 16];
    for i in 0..count {
        frames[i] = frame_at(file, from + FRAME_LENGTH * i);
    }
    frames
}
