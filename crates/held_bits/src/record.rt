ghost use Rattle.std.specs.Prelude.{◌≡◌, ◌+◌, ◌*◌, ◌^◌};
ghost use Rattle.held_bits.specs.Records.{rank as rank_of};

use crate::Bits;

/// What a holder holds on the thing of a number.
#[derive(Clone, Copy, Debug)]
pub struct Record {
    pub holder: u32,
    pub thing: u32,
    pub bits: Bits,
}

impl Record {
    // The place in the order.
    pub fn rank(&self) -> u64
        ensures { result ≡ rank_of self.now }
    {
        rank(self.holder, self.thing)
    }
}

// The place of a holder and a number in the order.
pub fn rank(holder: u32, thing: u32) -> u64
    ensures { result ≡ holder * 2 ^ 32 + thing }
{
    (holder as u64) * 4_294_967_296 + thing as u64
}
