//! Times of day (XML Schema 1.1 Part 2, section 3.3.8).
ghost use Rattle.std.specs.Prelude.{◌≡◌, ◌∷◌, option_copied};
ghost use Rattle.rx_rdfa.specs.Common.{is_digit, after_fraction, after_hms, after_clock, is_zero};
ghost use Rattle.rx_values.specs.Clocks.{after_seconds};

use crate::readers::{after_char, after_some_digits, after_two, split_digits};
use crate::years::are_zeros;

/// What follows a time of day: 00:00:00 to 23:59:59 with any fraction of a second, or 24:00:00 with one of zeros.
pub(crate) fn after_clock(text: &[u8]) -> Option<&[u8]>
    ensures { option_copied result ≡ after_clock text.now }
{
    match after_day_time(text) {
        Some(rest) => Some(rest),
        None => after_midnight(text),
    }
}

fn after_day_time(text: &[u8]) -> Option<&[u8]>
    ensures { option_copied result ≡ after_hms (0, 23) 59 is_digit text.now }
{
    after_fraction(after_hms(text, 0, 23, 59)?)
}

fn after_midnight(text: &[u8]) -> Option<&[u8]>
    ensures { option_copied result ≡ after_hms (24, 24) 0 is_zero text.now }
{
    after_zero_fraction(after_hms(text, 24, 24, 0)?)
}

/// What follows hours from `low` to `high`, minutes and seconds, both at most `last`.
fn after_hms(text: &[u8], low: u8, high: u8, last: u8) -> Option<&[u8]>
    ensures { option_copied result ≡ after_seconds low high last text.now }
{
    let minutes = after_char(after_two(text, low, high)?, b':')?;
    let seconds = after_char(after_two(minutes, 0, last)?, b':')?;
    after_two(seconds, 0, last)
}

/// What follows a fraction, which may be absent: a point and one or more digits.
pub(crate) fn after_fraction(text: &[u8]) -> Option<&[u8]>
    ensures { option_copied result ≡ after_fraction is_digit text.now }
{
    match text {
        [b'.', rest @ ..] => after_any_digits(rest),
        _ => Some(text),
    }
}

fn after_any_digits(text: &[u8]) -> Option<&[u8]>
    ensures { option_copied result ≡ after_fraction is_digit (46 ∷ text.now) }
{
    after_some_digits(text)
}

/// The same with no digit but 0.
fn after_zero_fraction(text: &[u8]) -> Option<&[u8]>
    ensures { option_copied result ≡ after_fraction is_zero text.now }
{
    match text {
        [b'.', rest @ ..] => after_zeros(rest),
        _ => Some(text),
    }
}

fn after_zeros(text: &[u8]) -> Option<&[u8]>
    ensures { option_copied result ≡ after_fraction is_zero (46 ∷ text.now) }
{
    let (digits, rest) = split_digits(text);
    if digits.is_empty() || !are_zeros(digits) {
        return None;
    }
    Some(rest)
}
