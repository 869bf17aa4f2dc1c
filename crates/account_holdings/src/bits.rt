//! Sets of privileges as bits.
ghost use Rattle.std.specs.Prelude.{◌≡◌, ◌<◌, ◌==◌, ◌&&◌, ◌||◌, ℕ, not};
ghost use Rattle.account_holdings.specs.Bits.{has_bit as is_in};

/// Whether the bit of the number is set, the lowest bit for 0. There is none from 32 on.
pub fn has_bit(set: u32, number: u8) -> bool
    ensures { result ≡ is_in set number }
{
    number < 32 && set >> number & 1 == 1
}

// The set with the bit of the number.
pub(crate) fn with_bit(set: u32, number: u8) -> u32
    requires { number < 32 }
    ensures { (q : ℕ) → is_in result q ≡ (is_in set q || q == number) }
{
    set | 1 << number
}

// The set without the bit of the number.
pub(crate) fn without_bit(set: u32, number: u8) -> u32
    ensures { (q : ℕ) → is_in result q ≡ (is_in set q && not (q == number)) }
{
    if number < 32 {
        set & !(1 << number)
    } else {
        set
    }
}
