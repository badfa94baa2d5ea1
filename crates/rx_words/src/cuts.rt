//! Cuts of a text at its ends or at a mark.
ghost use Rattle.std.specs.Prelude.{◌≡◌, ◌≢◌, ◌<◌, [], ◌∷◌, ◌++◌, MatchOption, Some, None, false};
ghost use Rattle.rx_terms.specs.Common.{chars, Chars, trimmed, split_at, begins_with, is_empty};

/// The text without the white space at both ends.
pub fn trim(text: &str) -> &str
    ensures { chars result.now ≡ trimmed (chars text.now) }
{
    text.trim_ascii()
}

/// Whether the text has no character.
pub fn is_empty(text: &str) -> bool
    ensures { result ≡ is_empty (chars text.now) }
{
    text.is_empty()
}

/// What stands before and behind the first `mark`, which is ASCII, or `None` exactly where the text has none.
pub fn split_once(text: &str, mark: char) -> Option<(&str, &str)>
    requires { mark < 128 }
    ensures { MatchOption result (split_at mark (chars text.now) ≡ None) (λ p. split_at mark (chars text.now) ≡ Some (chars p.0.now, chars p.1.now)) }
{
    text.split_once(mark)
}

/// What stands behind the text `front` at the text's front, or `None` exactly where it doesn't begin with that.
pub fn behind<'a>(text: &'a str, front: &str) -> Option<&'a str>
    ensures { MatchOption result (begins_with (chars front.now) (chars text.now) ≡ false) (λ rest. chars text.now ≡ chars front.now ++ chars rest.now) }
{
    text.strip_prefix(front)
}

/// What stands before the `mark`, which is ASCII, at the text's end, or `None` exactly where it doesn't end with that.
pub fn split_last(text: &str, mark: char) -> Option<&str>
    requires { mark < 128 }
    ensures { MatchOption result ((front : Chars) → chars text.now ≢ front ++ mark ∷ []) (λ front. chars text.now ≡ chars front.now ++ mark ∷ []) }
{
    text.strip_suffix(mark)
}
