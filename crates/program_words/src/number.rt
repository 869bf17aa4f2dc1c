//! Numbers in decimal digits.
ghost use Rattle.std.specs.Prelude.{◌≡◌};
ghost use Rattle.std.specs.Char.{is_ascii_digit};
ghost use Rattle.std.specs.List.{list_all};
ghost use Rattle.program_words.specs.Forms.{is_number, number_between, within};

/// The number that 1 to 20 digits write, if it lies between these two.
pub(crate) fn number_between(text: &str, least: u64, most: u64) -> Option<u64>
    ensures { result ≡ number_between least most text.now }
{
    if !is_number(text.as_bytes()) {
        return None;
    }
    match text.parse::<u64>() {
        Ok(number) => within(number, least, most),
        Err(_) => None,
    }
}

fn within(number: u64, least: u64, most: u64) -> Option<u64>
    ensures { result ≡ within least most number }
{
    if least <= number && number <= most {
        Some(number)
    } else {
        None
    }
}

fn is_number(text: &[u8]) -> bool
    ensures { result ≡ is_number text.now }
{
    1 <= text.len() && text.len() <= 20 && are_digits(text)
}

fn are_digits(text: &[u8]) -> bool
    ensures { result ≡ list_all is_ascii_digit text.now }
{
    text.iter().all(|byte| byte.is_ascii_digit())
}
