//! Names of prefixes and terms.
ghost use Rattle.std.specs.Prelude.{◌≡◌, ◌||◌, ◌==◌, codes, bytes_eq};
ghost use Rattle.rx_rdfa.specs.Common.{list_all, chars, solidus, is_nc_name, is_term};
ghost use Rattle.rx_chars.specs.NcName as nc;
ghost use Rattle.rx_names.specs.Words.{begins_name, is_term_byte};

use rx_chars::{is_nc, is_nc_start};

/// Whether the text is an NCName (Namespaces in XML 1.0, section 3).
pub fn is_nc_name(text: &str) -> bool
    ensures { result ≡ is_nc_name (chars text.now) }
{
    begins_name(text) && are_nc(text)
}

/// Whether the text is a term (RDFa Core 1.1, section 7.4.3).
pub fn is_term(text: &str) -> bool
    ensures { result ≡ is_term (chars text.now) }
{
    begins_name(text) && are_nc_or_slash(text)
}

/// Whether the text is `_`, which no page can declare as a prefix.
pub fn is_low_line(text: &str) -> bool
    ensures { result ≡ bytes_eq (chars text.now) (codes "_") }
{
    text == "_"
}

#[inline(always)]
fn begins_name(text: &str) -> bool
    ensures { result ≡ begins_name (chars text.now) }
{
    match text.chars().next() {
        Some(first) => is_nc_start(first),
        None => false,
    }
}

fn are_nc(text: &str) -> bool
    ensures { result ≡ list_all nc.is_nc (chars text.now) }
{
    text.chars().all(|c| is_nc(c))
}

fn are_nc_or_slash(text: &str) -> bool
    ensures { result ≡ list_all (λ c. nc.is_nc c || c == solidus) (chars text.now) }
{
    if are_term_bytes(text) {
        return true;
    }
    stand_in_term(text)
}

/// Whether all bytes are characters of ASCII that stand in a term, as those of nearly all terms are.
fn are_term_bytes(text: &str) -> bool
    ensures { result ≡ list_all is_term_byte text.now }
{
    text.bytes().all(|byte| is_term_byte(byte))
}

fn is_term_byte(byte: u8) -> bool
    ensures { result ≡ is_term_byte byte }
{
    byte.is_ascii_alphabetic() || matches!(byte, b'-'..=b'9' | b'_')
}

fn stand_in_term(text: &str) -> bool
    ensures { result ≡ list_all (λ c. nc.is_nc c || c == solidus) (chars text.now) }
{
    text.chars().all(|c| is_nc(c) || c == '/')
}
