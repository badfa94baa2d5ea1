//! Durations (XML Schema 1.1 Part 2, section 3.3.6).
ghost use Rattle.std.specs.Prelude.{◌≡◌, option_copied, false};
ghost use Rattle.rx_terms.specs.Ascii.{is_digit};
ghost use Rattle.rx_values.specs.Durations.{parts};
ghost use Rattle.rx_rdfa.specs.Times.{after_char, after_some_digits, after_fraction, follows, ◌andThen◌, part, seconds, ends_with_part, are_time_parts, is_duration};

use crate::clocks::after_fraction;
use crate::readers::{after_char, after_some_digits, without_minus};

/// A duration read so far.
#[derive(Clone, Copy)]
struct Parts<'a> {
    /// Whether a part stood.
    some: bool,
    rest: &'a [u8],
}

/// Whether the text is a duration: an optional `-`, `P`, years, months and days, and behind `T` hours, minutes and
/// seconds; at least one part, and at least one behind `T`.
pub(crate) fn is_duration(text: &[u8]) -> bool
    ensures { result ≡ is_duration text.now }
{
    match after_char(without_minus(text), b'P') {
        Some(rest) => are_parts(rest),
        None => false,
    }
}

fn are_parts(text: &[u8]) -> bool
    ensures { result ≡ are_time_parts (part 68 (part 77 (part 89 (false, text.now)))) }
{
    let days = Parts::none(text).part(b'Y').part(b'M').part(b'D');
    days.ends() || are_time_parts(days.rest)
}

/// Whether the text is `T` and at least one part of hours, minutes and seconds.
fn are_time_parts(text: &[u8]) -> bool
    ensures { result ≡ follows (λ rest. ends_with_part (seconds (part 77 (part 72 (false, rest))))) (after_char 84 text.now) }
{
    match after_char(text, b'T') {
        Some(rest) => Parts::none(rest).part(b'H').part(b'M').seconds().ends(),
        None => false,
    }
}

impl<'a> Parts<'a> {
    fn none(rest: &'a [u8]) -> Parts<'a>
        ensures { parts result.some result.rest.now ≡ parts false rest.now }
    {
        Parts { some: false, rest }
    }

    /// With digits and the letter, where they follow.
    fn part(self, letter: u8) -> Parts<'a>
        ensures { parts result.some result.rest.now ≡ part letter (parts self.entry.some self.entry.rest.now) }
    {
        match after_number(self.rest, letter) {
            Some(rest) => Parts { some: true, rest },
            None => self,
        }
    }

    /// With digits, a fraction and `S`, where they follow.
    fn seconds(self) -> Parts<'a>
        ensures { parts result.some result.rest.now ≡ seconds (parts self.entry.some self.entry.rest.now) }
    {
        match after_seconds(self.rest) {
            Some(rest) => Parts { some: true, rest },
            None => self,
        }
    }

    /// Whether a part stood, and nothing follows.
    fn ends(self) -> bool
        ensures { result ≡ ends_with_part (parts self.entry.some self.entry.rest.now) }
    {
        self.some && self.rest.is_empty()
    }
}

fn after_number(text: &[u8], letter: u8) -> Option<&[u8]>
    ensures { option_copied result ≡ (after_some_digits text.now andThen after_char letter) }
{
    after_char(after_some_digits(text)?, letter)
}

fn after_seconds(text: &[u8]) -> Option<&[u8]>
    ensures { option_copied result ≡ (after_some_digits text.now andThen after_fraction is_digit andThen after_char 83) }
{
    after_char(after_fraction(after_some_digits(text)?)?, b'S')
}
