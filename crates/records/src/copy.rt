// Bytes copied to the start of a slice; what follows stays as it was.
ghost use Rattle.std.specs.Prelude.{◌≡◌, ◌++◌, ◌≤◌, length, drop};

pub fn copy(from: &[u8], to: &mut [u8])
    requires room { length from.now ≤ length to.old }
    ensures output { to.new ≡ from.now ++ drop (length from.now) to.old }
{
    to[..from.len()].copy_from_slice(from);
}
