ghost use Rattle.std.specs.Prelude.{◌≡◌, ◌≤◌};
ghost use Rattle.account_match.specs.Address.{address_of, is_mask, mask_length, mask_of};

use std::net::Ipv4Addr;

/// The 32 bits that an IPv4 text stands for.
pub(crate) fn address_of(text: &[u8]) -> Option<u32>
    ensures { result ≡ address_of text.now }
{
    match Ipv4Addr::parse_ascii(text) {
        Ok(address) => Some(address.to_bits()),
        Err(_) => None,
    }
}

/// The length that `text` gives a mask.
pub(crate) fn mask_length(text: &[u8]) -> Option<u32>
    ensures { result ≡ mask_length text.now }
{
    let length = match text {
        [unit @ b'0'..=b'9'] => *unit - b'0',
        [tens @ b'1'..=b'9', unit @ b'0'..=b'9'] => (*tens - b'0') * 10 + (*unit - b'0'),
        _ => return None,
    };
    if length <= 32 {
        Some(length as u32)
    } else {
        None
    }
}

/// The mask of `length` ones, and zeros behind them.
pub(crate) fn mask_of(length: u32) -> u32
    requires { length ≤ 32 }
    ensures { result ≡ mask_of length }
{
    ((1_u64 << 32) - (1_u64 << (32 - length))) as u32
}

/// Whether the bits are ones followed by zeros.
pub(crate) fn is_mask(bits: u32) -> bool
    ensures { result ≡ is_mask bits }
{
    bits.leading_ones() + bits.trailing_zeros() == u32::BITS
}
