ghost use Rattle.std.specs.Prelude.{◌≡◌};
ghost use Rattle.held_bits.specs.Bits.{are_none, no_bits, AreWithin};

/// What one holder holds on one thing: a bit for each privilege.
#[derive(Clone, Copy, Debug)]
pub struct Bits {
    /// What was granted.
    pub granted: u32,
    /// What was restricted.
    pub restricted: u32,
}

impl Bits {
    /// Nothing granted and nothing restricted.
    pub fn none() -> Bits
        ensures is { result ≡ no_bits }
    {
        Bits {
            granted: 0,
            restricted: 0,
        }
    }

    /// Whether nothing is granted and nothing restricted.
    pub fn are_none(self) -> bool
        ensures is { result ≡ are_none self }
        ensures within { AreWithin self }
    {
        self.granted == 0 && self.restricted == 0
    }
}
