// A file that none of rows 1 to 4, which no room changes, refuses.
ghost use Rattle.records_refusal.specs.Passing.{HeaderPasses};

use records::record_file::RecordFile;

#[derive(Clone, Copy)]
pub struct HeadedFile<'a> {
    pub file: RecordFile<'a>,
    pub ghost passes: { HeaderPasses file.bytes.now file.header },
}
