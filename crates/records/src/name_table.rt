// The names of a file, whose facts stand behind its header.
ghost use Rattle.std.specs.Prelude.{◌+◌, ◌*◌, ◌≤◌, length};
ghost use Rattle.records.specs.Limits.{header_length, name_length};

// So many names of a file, which has their facts.
#[derive(Clone, Copy)]
pub struct Names<'a> {
    pub file: &'a [u8],
    pub count: u16,
    pub ghost inside: { header_length + name_length * count ≤ length file.now },
}
