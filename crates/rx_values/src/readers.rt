//! What follows at the front of a text, which is looked at byte by byte: all that the forms of times have is ASCII.
ghost use Rattle.std.specs.Prelude.{◌≡◌, ◌&&◌, ◌+◌, ◌*◌, ◌-◌, option_copied, length};
ghost use Rattle.rx_rdfa.specs.Common.{take_while, is_digit, between, after_char, after_two, digits, after_digits, after_some_digits, without_minus};

/// What follows the character, where it stands first.
pub(crate) fn after_char(text: &[u8], c: u8) -> Option<&[u8]>
    ensures { option_copied result ≡ after_char c text.now }
{
    match text {
        [first, rest @ ..] if *first == c => Some(rest),
        _ => None,
    }
}

/// What follows two digits whose number is from `low` to `high`.
pub(crate) fn after_two(text: &[u8], low: u8, high: u8) -> Option<&[u8]>
    ensures { option_copied result ≡ after_two low high text.now }
{
    match text {
        [tens, ones, rest @ ..] if is_two(*tens, *ones, low, high) => Some(rest),
        _ => None,
    }
}

/// Whether both are digits, and their number is from `low` to `high`.
fn is_two(tens: u8, ones: u8, low: u8, high: u8) -> bool
    ensures { result ≡ (is_digit tens && is_digit ones && between low high ((tens - 48) * 10 + (ones - 48))) }
{
    if !tens.is_ascii_digit() || !ones.is_ascii_digit() {
        return false;
    }
    let number = (tens - b'0') * 10 + (ones - b'0');
    low <= number && number <= high
}

/// The digits at the front, and what follows them.
pub(crate) fn split_digits(text: &[u8]) -> (&[u8], &[u8])
    ensures digits { result.0.now ≡ digits text.now }
    ensures rest { result.1.now ≡ after_digits text.now }
{
    let count = count_digits(text);
    (&text[..count], &text[count..])
}

fn count_digits(text: &[u8]) -> usize
    ensures { result ≡ length (take_while is_digit text.now) }
{
    text.iter().take_while(|c| c.is_ascii_digit()).count()
}

/// What follows one or more digits.
pub(crate) fn after_some_digits(text: &[u8]) -> Option<&[u8]>
    ensures { option_copied result ≡ after_some_digits text.now }
{
    let (digits, rest) = split_digits(text);
    if digits.is_empty() {
        return None;
    }
    Some(rest)
}

/// The text without a `-` at its front, which may be absent.
pub(crate) fn without_minus(text: &[u8]) -> &[u8]
    ensures { result.now ≡ without_minus text.now }
{
    match text {
        [b'-', rest @ ..] => rest,
        _ => text,
    }
}
