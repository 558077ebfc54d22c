// Sets of numbers below 64.
ghost use Rattle.std.specs.Prelude.{◌≡◌, ◌<◌};
ghost use Rattle.records.specs.Sets.{is_in};

// Whether a number is in a set: whether the set has this bit.
pub fn has_bit(set: u64, bit: u16) -> bool
    requires bit { bit < 64 }
    ensures result { result ≡ is_in set bit }
{
    (set >> u64::from(bit)) % 2 == 1
}
