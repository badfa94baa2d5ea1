//! Texts that are compared, and none of them made.
ghost use Rattle.std.specs.Prelude.{◌≡◌, ◌++◌, bytes_eq};
ghost use Rattle.std.specs.Str.{chars};

use rx_words::behind;

/// Whether the two parts, the second behind the first, are this text.
pub(crate) fn are_text(front: &str, more: &str, text: &str) -> bool
    ensures { result ≡ bytes_eq (chars front.now ++ chars more.now) (chars text.now) }
{
    match behind(text, front) {
        Some(rest) => is_same(more, rest),
        None => false,
    }
}

pub(crate) fn is_same(a: &str, b: &str) -> bool
    ensures { result ≡ bytes_eq (chars a.now) (chars b.now) }
{
    a == b
}
