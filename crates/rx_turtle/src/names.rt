//! The names of prefixes, and local names.
ghost use Rattle.std.specs.Prelude.{◌≡◌};
ghost use Rattle.rx_terms.specs.Common.{list_all, chars};
ghost use Rattle.rx_notation.specs.Short.{is_name_char, is_prefix_name};
ghost use Rattle.rx_turtle.specs.Shorts.{begins_local};
ghost use Rattle.rx_terms.specs.Iri.{begins_with_letter};

/// Whether a prefix of this name is used.
pub(crate) fn is_prefix_name(name: &str) -> bool
    ensures { result ≡ is_prefix_name (chars name.now) }
{
    begins_with_letter(name) && are_name_chars(name)
}

fn begins_with_letter(name: &str) -> bool
    ensures { result ≡ begins_with_letter (chars name.now) }
{
    match name.chars().next() {
        Some(first) => first.is_ascii_alphabetic(),
        None => false,
    }
}

fn are_name_chars(name: &str) -> bool
    ensures { result ≡ list_all is_name_char (chars name.now) }
{
    name.chars().all(|c| is_name_char(c))
}

fn is_name_char(c: char) -> bool
    ensures { result ≡ is_name_char c }
{
    matches!(c, 'A'..='Z' | 'a'..='z' | '0'..='9' | '_' | '-')
}

/// Whether the byte stands for a character of names, which are ASCII.
pub(crate) fn is_name_byte(byte: u8) -> bool
    ensures { result ≡ is_name_char byte }
{
    matches!(byte, b'A'..=b'Z' | b'a'..=b'z' | b'0'..=b'9' | b'_' | b'-')
}

/// Whether the byte stands for a character that begins a local name.
pub(crate) fn begins_local(byte: u8) -> bool
    ensures { result ≡ begins_local byte }
{
    matches!(byte, b'A'..=b'Z' | b'a'..=b'z' | b'_')
}
