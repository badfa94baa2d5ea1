//! Time zones (XML Schema 1.1 Part 2, section 3.3.7).
ghost use Rattle.std.specs.Prelude.{◌≡◌, option_copied};
ghost use Rattle.rx_terms.specs.Text.{is_empty};
ghost use Rattle.rx_rdfa.specs.Times.{after_char, after_two, follows, is_offset, is_zone, ◌andThen◌};

use crate::readers::{after_char, after_two};

/// Whether what follows is a time zone, which may be absent.
pub(crate) fn ends_in_zone(rest: Option<&[u8]>) -> bool
    ensures { result ≡ follows is_zone (option_copied rest.entry) }
{
    match rest {
        Some(rest) => is_zone(rest),
        None => false,
    }
}

/// Whether the text is a time zone, or nothing: `Z`, or a sign and an offset.
fn is_zone(text: &[u8]) -> bool
    ensures { result ≡ is_zone text.now }
{
    match text {
        [] => true,
        [b'Z'] => true,
        [b'+' | b'-', offset @ ..] => is_offset(offset),
        _ => false,
    }
}

/// Whether the text is `HH:MM` from 00:00 to 13:59, or 14:00.
fn is_offset(text: &[u8]) -> bool
    ensures { result ≡ is_offset text.now }
{
    is_hours_and_minutes(text, 0, 13, 59) || is_hours_and_minutes(text, 14, 14, 0)
}

/// Whether the text is two numbers of two digits with `:` between them, the first from `low` to `high`, the second at
/// most `last`.
fn is_hours_and_minutes(text: &[u8], low: u8, high: u8, last: u8) -> bool
    ensures { result ≡ follows is_empty (after_two low high text.now andThen after_char 58 andThen after_two 0 last) }
{
    let Some(rest) = after_two(text, low, high) else {
        return false;
    };
    let Some(rest) = after_char(rest, b':') else {
        return false;
    };
    match after_two(rest, 0, last) {
        Some(rest) => rest.is_empty(),
        None => false,
    }
}
