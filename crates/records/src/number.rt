// Little-endian numbers.
ghost use Rattle.std.specs.Prelude.{◌≡◌, ◌+◌, ◌≤◌, length};
ghost use Rattle.records.specs.Bytes.{u16_at, u32_at};

// The number of two bytes.
pub fn u16_at(s: &[u8], at: usize) -> u16
    requires room { at + 2 ≤ length s.now }
    ensures result { result ≡ u16_at s.now at }
{
    u16::from_le_bytes([s[at], s[at + 1]])
}

// The number of four bytes.
pub fn u32_at(s: &[u8], at: usize) -> u32
    requires room { at + 4 ≤ length s.now }
    ensures result { result ≡ u32_at s.now at }
{
    u32::from_le_bytes([s[at], s[at + 1], s[at + 2], s[at + 3]])
}
