//! Characters above ASCII, told from their bytes by the table of well-formed UTF-8 (RFC 3629, section 4).
ghost use Rattle.std.specs.Prelude.{◌≡◌, ◌≤◌, ◌&&◌, true, length, take};
ghost use Rattle.rx_grammar.specs.Common.{list_all, IsUtf8, is_in, tail};
ghost use Rattle.rx_chars.specs.Held as held;
ghost use Rattle.rx_scan.specs.Plain.{is_plain_char};
ghost use Rattle.rx_scan.specs.WideChars.{BeginsWide};

fn is_tail(byte: u8) -> bool
    ensures { result ≡ is_in tail byte }
{
    matches!(byte, 0x80..=0xBF)
}

// So no form is overlong, and none is of a surrogate or of a number past U+10FFFF.
fn fits_second(first: u8, byte: u8) -> bool
    ensures { result ≡ held.fits_second first byte }
{
    match first {
        0xE0 => matches!(byte, 0xA0..=0xBF),
        0xED => matches!(byte, 0x80..=0x9F),
        0xF0 => matches!(byte, 0x90..=0xBF),
        0xF4 => matches!(byte, 0x80..=0x8F),
        _ => is_tail(byte),
    }
}

fn is_two(first: u8, second: u8) -> bool
    ensures { result ≡ (is_in (0xC2, 0xDF) first && is_in tail second) }
{
    matches!(first, 0xC2..=0xDF) && is_tail(second)
}

fn is_three(first: u8, second: u8, third: u8) -> bool
    ensures { result ≡ (is_in (0xE0, 0xEF) first && (held.fits_second first second && is_in tail third)) }
{
    matches!(first, 0xE0..=0xEF) && fits_second(first, second) && is_tail(third)
}

fn is_four(first: u8, second: u8, third: u8, fourth: u8) -> bool
    ensures { result ≡ (is_in (0xF0, 0xF4) first && (held.fits_second first second && (is_in tail third && is_in tail fourth))) }
{
    matches!(first, 0xF0..=0xF4) && fits_second(first, second) && is_tail(third) && is_tail(fourth)
}

fn begins_two(bytes: &[u8]) -> bool
    ensures { result ≡ true → BeginsWide bytes.now 2 }
{
    if bytes.len() < 2 {
        return false;
    }
    is_two(bytes[0], bytes[1])
}

fn begins_three(bytes: &[u8]) -> bool
    ensures { result ≡ true → BeginsWide bytes.now 3 }
{
    if bytes.len() < 3 {
        return false;
    }
    is_three(bytes[0], bytes[1], bytes[2])
}

fn begins_four(bytes: &[u8]) -> bool
    ensures { result ≡ true → BeginsWide bytes.now 4 }
{
    if bytes.len() < 4 {
        return false;
    }
    is_four(bytes[0], bytes[1], bytes[2], bytes[3])
}

/// How many bytes the character above ASCII has that stands whole at the front, or 0 where none does.
pub(crate) fn wide_length(bytes: &[u8]) -> usize
    ensures fits { result ≤ length bytes.now }
    ensures text { IsUtf8 (take result bytes.now) }
    ensures plain { list_all is_plain_char (take result bytes.now) ≡ true }
{
    if begins_two(bytes) {
        return 2;
    }
    if begins_three(bytes) {
        return 3;
    }
    if begins_four(bytes) {
        return 4;
    }
    0
}
