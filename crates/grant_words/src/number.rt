ghost use Rattle.std.specs.Prelude.{◌≡◌, Some, None, if◌then◌else◌};
ghost use Rattle.std.specs.Char.{is_ascii_digit};
ghost use Rattle.std.specs.List.{list_all};
ghost use Rattle.grant_words.specs.Numbers.{is_number, number_of};

/// The number that the digits write, leading zeros or not; None where a byte is no digit, or the number needs more
/// than 32 bits.
#[tactic(auto, using(crate::proofs::Numbers::too_large))]
pub fn number_of(text: &[u8]) -> Option<u32>
    ensures { result ≡ (if is_number text.now then Some (number_of text.now) else None) }
{
    if !are_digits(text) {
        return None;
    }
    let mut number: u64 = 0;
    for digit in text {
        if number > u32::MAX as u64 {
            return None;
        }
        number = number * 10 + digit.saturating_sub(b'0') as u64;
    }
    if number > u32::MAX as u64 {
        None
    } else {
        Some(number as u32)
    }
}

fn are_digits(text: &[u8]) -> bool
    ensures { result ≡ list_all is_ascii_digit text.now }
{
    text.iter().all(|byte| byte.is_ascii_digit())
}
