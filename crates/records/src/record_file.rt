// The bytes of a file whose counts agree with its length, and its header. It has no counterpart in the Rust.
ghost use Rattle.records.specs.File.{IsHeaderOf};

use crate::layout::Header;

#[derive(Clone, Copy)]
pub struct RecordFile<'a> {
    pub bytes: &'a [u8],
    pub header: Header,
    pub ghost whole: { IsHeaderOf header bytes.now },
}
