// The parts of a file that are gone through record by record.
ghost use Rattle.std.specs.Prelude.{◌≡◌, ◌+◌, ◌*◌, ◌≤◌, length};
ghost use Rattle.records.specs.File.{facts_from, frames_from, declarators_from, statements_from};
ghost use Rattle.records.specs.File.{names_of, frames_of, declarators_of, statements_of};

use crate::limits::{DECLARATOR_LENGTH, FRAME_LENGTH, NAME_LENGTH, STATEMENT_LENGTH};
use crate::parts::part_offsets;
use crate::record_file::RecordFile;

// So many records of one length, from a place of a file on.
#[derive(Clone, Copy)]
pub struct Part<'a, const LENGTH: usize> {
    pub file: &'a [u8],
    pub from: usize,
    pub count: usize,
    pub ghost inside: { from + LENGTH * count ≤ length file.now },
}

// One method for each part: callers say its name, and its clause has the definition of its own records.
impl RecordFile<'_> {
    pub fn name_facts(&self) -> Part<'_, NAME_LENGTH>
        ensures records { facts_from result.file.now result.from result.count ≡ names_of self.now.bytes.now }
    {
        Part {
            file: self.bytes,
            from: part_offsets(self.header)[0],
            count: usize::from(self.header.names),
        }
    }

    pub fn frames(&self) -> Part<'_, FRAME_LENGTH>
        ensures count { result.count ≡ self.now.header.frames }
        ensures records { frames_from result.file.now result.from result.count ≡ frames_of self.now.bytes.now }
    {
        Part {
            file: self.bytes,
            from: part_offsets(self.header)[2],
            count: usize::from(self.header.frames),
        }
    }

    pub fn declarators(&self) -> Part<'_, DECLARATOR_LENGTH>
        ensures count { result.count ≡ self.now.header.declarators }
        ensures records { declarators_from result.file.now result.from result.count ≡ declarators_of self.now.bytes.now }
    {
        Part {
            file: self.bytes,
            from: part_offsets(self.header)[4],
            count: usize::from(self.header.declarators),
        }
    }

    pub fn statements(&self) -> Part<'_, STATEMENT_LENGTH>
        ensures count { result.count ≡ self.now.header.statements }
        ensures records { statements_from result.file.now result.from result.count ≡ statements_of self.now.bytes.now }
    {
        Part {
            file: self.bytes,
            from: part_offsets(self.header)[5],
            count: usize::from(self.header.statements),
        }
    }
}
