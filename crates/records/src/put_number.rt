// A little-endian number, laid down at the start of a slice; what follows stays as it was.
ghost use Rattle.std.specs.Prelude.{◌≡◌, ◌++◌, ◌≤◌, length, drop};
ghost use Rattle.records.specs.Bytes.{u32_bytes};

use crate::copy::copy;

pub fn put_u32(out: &mut [u8], n: u32)
    requires room { 4 ≤ length out.old }
    ensures output { out.new ≡ u32_bytes n ++ drop 4 out.old }
{
    copy(&n.to_le_bytes(), out);
}
