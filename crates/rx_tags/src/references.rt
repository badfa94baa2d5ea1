//! What references stand for (HTML, 13.2.5.72 to 13.2.5.80; XML 1.0, 4.1 and 4.6).
ghost use Rattle.std.specs.Prelude.{◌≡◌, ◌≤◌, min};
ghost use Rattle.std.specs.List.{list_all};
ghost use Rattle.rx_terms.specs.Ascii as ascii;
ghost use Rattle.rx_grammar.specs.References as texts;
ghost use Rattle.rx_reader.specs.Tables as tables;

use crate::moves::is_letter;
use rx_chars::{Syntax, named, numeric};
use rx_reader::{RunMove, RunPhase};

fn is_hexadecimal_digit(c: char) -> bool
    ensures { result ≡ texts.is_hexadecimal_digit c }
{
    matches!(c, '0'..='9' | 'A'..='F' | 'a'..='f')
}

fn is_digit(c: char) -> bool
    ensures { result ≡ ascii.is_digit c }
{
    matches!(c, '0'..='9')
}

/// What the character does to a run that may become a reference.
pub fn run_move(phase: RunPhase, c: char) -> RunMove
    ensures { result ≡ tables.run_move phase c }
{
    match phase {
        RunPhase::Plain => RunMove::Stops,
        RunPhase::Ampersand if is_letter(c) => RunMove::Goes(RunPhase::Named),
        RunPhase::Ampersand if c == '#' => RunMove::Goes(RunPhase::Hash),
        RunPhase::Named if is_letter(c) || is_digit(c) => RunMove::Goes(RunPhase::Named),
        RunPhase::Hash | RunPhase::Decimal if is_digit(c) => RunMove::Goes(RunPhase::Decimal),
        RunPhase::Hash if c == 'x' || c == 'X' => RunMove::Goes(RunPhase::Mark),
        RunPhase::Mark | RunPhase::Hexadecimal if is_hexadecimal_digit(c) => {
            RunMove::Goes(RunPhase::Hexadecimal)
        }
        RunPhase::Named | RunPhase::Decimal | RunPhase::Hexadecimal if c == ';' => RunMove::Closes,
        _ => RunMove::Stops,
    }
}

// The predefined entities (XML 1.0, 4.6).
fn predefined(name: &str) -> Option<char>
    ensures { result ≡ texts.predefined name.now }
{
    match name {
        "lt" => Some('<'),
        "gt" => Some('>'),
        "amp" => Some('&'),
        "quot" => Some('"'),
        "apos" => Some('\''),
        _ => None,
    }
}

fn name_meaning(syntax: Syntax, name: &str) -> Option<char>
    ensures { result ≡ texts.name_meaning syntax name.now }
{
    match syntax {
        Syntax::Html => named(name),
        Syntax::Xhtml => predefined(name),
    }
}

fn digit_value(digit: u8) -> u32
    ensures { result ≡ texts.digit_value digit }
{
    let value = match digit {
        b'0'..=b'9' => digit - b'0',
        b'A'..=b'F' => digit - (b'A' - 10),
        _ => digit.saturating_sub(b'a' - 10),
    };
    u32::from(value)
}

ghost use Rattle.rx_tags.specs.Numbers.{capped};

// Past the last code point, so that no longer number is a character's.
const PAST_LAST: u32 = 0x11_0000;

// The number that digits to a base have, or 110000 (hexadecimal) where it is larger.
fn number(base: u32, digits: &[u8]) -> u32
    requires most { base ≤ 16 }
    requires least { 1 ≤ base }
    ensures { result ≡ capped (texts.number_from base 0 digits.now) }
{
    let mut number = 0;
    for digit in digits {
        number = (number * base + digit_value(*digit)).min(PAST_LAST);
    }
    number
}

// The number of what stands after `#`.
fn number_after(body: &[u8]) -> u32
    ensures { result ≡ capped (texts.reference_code body.now) }
{
    match body {
        [] => 0,
        [b'x' | b'X', digits @ ..] => number(16, digits),
        digits => number(10, digits),
    }
}

fn is_letter_or_digit(c: u8) -> bool
    ensures { result ≡ ascii.is_letter_or_digit c }
{
    matches!(c, b'A'..=b'Z' | b'a'..=b'z' | b'0'..=b'9')
}

fn are_letters_or_digits(text: &[u8]) -> bool
    ensures { result ≡ list_all ascii.is_letter_or_digit text.now }
{
    for c in text {
        if !is_letter_or_digit(*c) {
            return false;
        }
    }
    true
}

fn is_name(body: &[u8]) -> bool
    ensures { result ≡ texts.is_name body.now }
{
    match body {
        [] => false,
        [first, rest @ ..] => is_letter(char::from(*first)) && are_letters_or_digits(rest),
    }
}

/// The character for which the reference with this body stands, where the body is what stands between `&` and `;`.
pub fn meaning(syntax: Syntax, body: &str) -> Option<char>
    ensures { result ≡ texts.meaning syntax body.now }
{
    match body.as_bytes() {
        bytes if is_name(bytes) => name_meaning(syntax, body),
        [_, number @ ..] => numeric(number_after(number), syntax),
        [] => numeric(0, syntax),
    }
}
