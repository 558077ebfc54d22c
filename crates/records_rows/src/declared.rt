// Row 9 of the refusal table: a name declared twice, in one pass over the declarators.
ghost use Rattle.std.specs.Prelude.{◌≡◌, true, ◌≤◌, ◌<◌, length};
ghost use Rattle.records.specs.Limits.{max_names};
ghost use Rattle.records.specs.Records.{every};
ghost use Rattle.records.specs.File.{declarators_from};
ghost use Rattle.records.specs.Script.{declared_twice};
ghost use Rattle.records_rows.specs.Tally.{Tally, fits};

use records::layout::declarator_at;
use records::limits::DECLARATOR_LENGTH;
use records::part::Part;

// Whether a name is declared twice by the declarators. `seen` has a place for each name: 0 or 1, not a `bool`, since `unseen`
// (`Tally`) is about numbers.
pub fn declared_twice(declarators: &Part<'_, DECLARATOR_LENGTH>, seen: &mut [u8]) -> bool
    requires places { max_names ≤ length seen.old }
    requires limit { length seen.old < 65535 }
    requires unseen { Tally (λ k. 0) seen.old }
    requires names { let p = declarators.now in every fits (declarators_from p.file.now p.from p.count) ≡ true }
    ensures result { let p = declarators.now in result ≡ declared_twice (declarators_from p.file.now p.from p.count) }
{
    let Part { file, from, count } = *declarators;
    let mut twice = false;
    for i in (0..count).rev() {
        let d = declarator_at(file, from + DECLARATOR_LENGTH * i);
        let at = usize::from(d.name);
        if at < seen.len() {
            twice = (seen[at] == 1) | twice;
            seen[at] = 1;
        }
    }
    twice
}
