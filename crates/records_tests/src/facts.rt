// Row 5 of the refusal table: name facts, scopes, frames.
ghost use Rattle.std.specs.Prelude.{◌≡◌, ◌+◌, ◌*◌, ◌≤◌, length};
ghost use Rattle.records.specs.Limits.{scope_length};
ghost use Rattle.records.specs.Records.{every, every_from};
ghost use Rattle.records.specs.File.{facts_from, scopes_from, frames_from};
ghost use Rattle.records.specs.Facts.{good_name, good_scope, good_frame};

use records::flags::{NAME_FLAGS_LIMIT, SCOPE_FLAGS_LIMIT, UNRESOLVED};
use records::layout::{Frame, NameFacts, Scope, ScopeId, frame_at, name_at, scope_at};
use records::limits::{FRAME_LENGTH, NAME_LENGTH, NO_NUMBER, SCOPE_LENGTH};
use records::part::Part;

pub fn name_is_good(n: NameFacts, scopes: u16) -> bool
    ensures result { result ≡ good_name scopes n }
{
    let unresolved = n.is_unresolved();
    let eval = n.is_eval();
    let recorded = n.is_recorded();
    let no_counts = (n.reads == 0) & (n.writes == 0);
    let good_unresolved = (n.flags % UNRESOLVED == 0) & (n.scope == NO_NUMBER) & no_counts;
    let good_resolved = !eval & (n.scope < scopes) & (recorded | no_counts);
    (n.flags < NAME_FLAGS_LIMIT) & (unresolved & good_unresolved | !unresolved & good_resolved)
}

// A scope, by its own number.
pub fn scope_is_good(s: Scope, own: ScopeId) -> bool
    ensures result { result ≡ good_scope own.0 s }
{
    let first = own.0 == 0;
    (s.flags < SCOPE_FLAGS_LIMIT) & (first & (s.parent == NO_NUMBER) | !first & (s.parent < own.0))
}

pub fn frame_is_good(f: Frame, scopes: u16) -> bool
    ensures result { result ≡ good_frame scopes f }
{
    (f.scope < scopes) & (f.zero == 0)
}

// Whether all of the name facts are good. The tests of scopes and frames below are one chain too, so that a trait over the three
// records would be longer than they are.
pub fn names_are_good(names: &Part<'_, NAME_LENGTH>, scopes: u16) -> bool
    ensures result { let p = names.now in result ≡ every (good_name scopes) (facts_from p.file.now p.from p.count) }
{
    let Part { file, from, count } = *names;
    (0..count).all(|i| name_is_good(name_at(file, from + NAME_LENGTH * i), scopes))
}

// Whether all of the scopes from `from` on are good. `count` has 16 bits, as a scope's number has, so that this is no `Part`.
pub fn scopes_are_good(file: &[u8], from: usize, count: u16) -> bool
    requires room { from + scope_length * count ≤ length file.now }
    ensures result { result ≡ every_from good_scope 0 (scopes_from file.now from count) }
{
    (0..count).all(|i| {
        let at = from + SCOPE_LENGTH * usize::from(i);
        scope_is_good(scope_at(file, at), ScopeId(i))
    })
}

// Whether all of the frames are good.
pub fn frames_are_good(frames: &Part<'_, FRAME_LENGTH>, scopes: u16) -> bool
    ensures result { let p = frames.now in result ≡ every (good_frame scopes) (frames_from p.file.now p.from p.count) }
{
    let Part { file, from, count } = *frames;
    (0..count).all(|i| frame_is_good(frame_at(file, from + FRAME_LENGTH * i), scopes))
}
