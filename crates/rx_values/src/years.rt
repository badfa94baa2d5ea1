//! Years, months and days (XML Schema 1.1 Part 2, sections 3.3.9 to 3.3.11).
ghost use Rattle.std.specs.Prelude.{◌≡◌, option_copied};
ghost use Rattle.std.specs.List.{list_all};
ghost use Rattle.rx_rdfa.specs.Times.{after_char, after_two, after_year, is_year, is_zero, ◌andThen◌};

use crate::readers::{after_char, after_two, split_digits, without_minus};

/// What follows a year: an optional `-`, and four or more digits, more than four without a leading zero, not 0000.
pub(crate) fn after_year(text: &[u8]) -> Option<&[u8]>
    ensures { option_copied result ≡ after_year text.now }
{
    let (digits, rest) = split_digits(without_minus(text));
    if !is_year(digits) {
        return None;
    }
    Some(rest)
}

fn is_year(digits: &[u8]) -> bool
    ensures { result ≡ is_year digits.now }
{
    match digits {
        [] => false,
        [first, more @ ..] if more.len() == 3 => !(*first == b'0' && are_zeros(more)),
        [first, more @ ..] => more.len() >= 4 && *first != b'0',
    }
}

/// Whether all are the digit 0.
pub(crate) fn are_zeros(text: &[u8]) -> bool
    ensures { result ≡ list_all is_zero text.now }
{
    text.iter().all(|c| *c == b'0')
}

/// What follows `-` and two digits whose number is from 1 to `last`: a month behind a year, or a day behind a month.
pub(crate) fn after_part(rest: Option<&[u8]>, last: u8) -> Option<&[u8]>
    ensures { option_copied result ≡ (option_copied rest.entry andThen after_char 45 andThen after_two 1 last) }
{
    after_two(after_char(rest?, b'-')?, 1, last)
}
