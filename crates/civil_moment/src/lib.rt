//! Moments: civil dates and times of day, told in seconds.
#![tactic(auto)]

ghost use Rattle.std.specs.Prelude.{◌≡◌, ◌+◌, ◌<◌, ◌≤◌, ◌&&◌, length, IsTrue, slice_index};
ghost use Rattle.civil_moment.specs.Moment.{has_form, has_marks, has_pairs, is_pair, moment_of, pair_at, second_of};

use jiff::civil::DateTime;

/// The seconds from 1970-01-01T00:00:00Z to the moment that a text writes, negative before it. A moment is written as in
/// `2024-03-01T00:00:00Z`: a day of the years 0000 to 9999 of the proleptic Gregorian calendar and a time of that day,
/// without leap seconds. None of any other text.
pub fn read_moment(text: &str) -> Option<i64>
    ensures { result ≡ moment_of text.now }
{
    let text = text.as_bytes();
    if !is_written(text) {
        return None;
    }
    let year = u16::from(two_digits(text, 0)) * 100 + u16::from(two_digits(text, 2));
    civil_second(
        year,
        two_digits(text, 5),
        two_digits(text, 8),
        two_digits(text, 11),
        two_digits(text, 14),
        two_digits(text, 17),
    )
}

#[tactic(auto, unfolding(crate::specs::Moment::has_form))]
fn is_written(text: &[u8]) -> bool
    ensures { result ≡ has_form text.now }
{
    text.len() == 20 && are_marks(text) && are_pairs(text)
}

#[tactic(auto, unfolding(crate::specs::Moment::has_marks))]
fn are_marks(text: &[u8]) -> bool
    requires { length text.now ≡ 20 }
    ensures { result ≡ has_marks text.now }
{
    let date = text[4] == b'-' && text[7] == b'-';
    let time = text[13] == b':' && text[16] == b':';
    date && time && text[10] == b'T' && text[19] == b'Z'
}

#[tactic(auto, unfolding(crate::specs::Moment::has_pairs))]
fn are_pairs(text: &[u8]) -> bool
    requires { length text.now ≡ 20 }
    ensures { result ≡ has_pairs text.now }
{
    let date = are_digits(text, 0)
        && are_digits(text, 2)
        && are_digits(text, 5)
        && are_digits(text, 8);
    date && are_digits(text, 11) && are_digits(text, 14) && are_digits(text, 17)
}

fn are_digits(text: &[u8], place: usize) -> bool
    requires { place + 1 < length text.now }
    ensures { result ≡ is_pair text.now place }
{
    text[place].is_ascii_digit() && text[place + 1].is_ascii_digit()
}

// The number of two digits.
fn two_digits(text: &[u8], place: usize) -> u8
    requires within { place + 1 < length text.now }
    requires digits { IsTrue (is_pair text.now place) }
    ensures value { result ≡ pair_at text.now place }
    ensures small { result < 100 }
{
    (text[place] - b'0') * 10 + (text[place + 1] - b'0')
}

// The second at which this day and time stand, if the calendar and the clock have them.
fn civil_second(year: u16, month: u8, day: u8, hour: u8, minute: u8, second: u8) -> Option<i64>
    requires year { year ≤ 9999 }
    requires month { month < 100 }
    requires day { day < 100 }
    requires hour { hour < 100 }
    requires minute { minute < 100 }
    requires second { second < 100 }
    ensures { result ≡ second_of year month day hour minute second }
{
    let civil = DateTime::new(
        year as i16,
        month as i8,
        day as i8,
        hour as i8,
        minute as i8,
        second as i8,
        0,
    )
    .ok()?;
    let day = civil.date().to_plain().to_unix_epoch_day();
    let clock = u32::from(hour) * 3600 + u32::from(minute) * 60 + u32::from(second);
    Some(i64::from(day) * 86_400 + i64::from(clock))
}
