//! Slices of a text, cut at characters of ASCII.
ghost use Rattle.std.specs.Prelude.{◌≡◌, ◌<◌, ◌++◌, false, MatchOption, take, codes};
ghost use Rattle.rx_terms.specs.Common.{chars, IsCharBoundary, solidus, begins_with, seen_slice};
ghost use Rattle.rx_refs.specs.Parts.{before, behind, from_first};
ghost use Rattle.rx_refs.specs.Dots.{CutsAt, holds, without_last_segment};

/// What stands before and behind the first `mark`.
pub fn split_once(text: &str, mark: char) -> Option<(&str, &str)>
    requires { mark < 128 }
    ensures { MatchOption result (holds mark (chars text.now) ≡ false) (λ cut. CutsAt mark (chars text.now) (chars cut.0.now) (chars cut.1.now)) }
{
    text.split_once(mark)
}

/// What stands before the first `mark` and, where there is one, what stands behind it.
pub fn cut(text: &str, mark: char) -> (&str, Option<&str>)
    requires { mark < 128 }
    ensures front { chars result.0.now ≡ before mark (chars text.now) }
    ensures rest { seen_slice result.1 ≡ behind mark (chars text.now) }
{
    match split_once(text, mark) {
        Some((front, rest)) => (front, Some(rest)),
        None => (text, None),
    }
}

/// What stands before the first `/`, and the rest from it on.
pub fn cut_at_slash(text: &str) -> (&str, &str)
    ensures front { chars result.0.now ≡ before solidus (chars text.now) }
    ensures rest { chars result.1.now ≡ from_first solidus (chars text.now) }
{
    let at = text.find('/').unwrap_or(text.len());
    text.split_at(at)
}

/// Where the last `/` stands, in bytes, or 0 where there is none.
pub fn last_slash(path: &str) -> usize
    ensures boundary { IsCharBoundary path.now result }
    ensures front { chars (take result path.now) ≡ without_last_segment (chars path.now) }
{
    path.rfind('/').unwrap_or(0)
}

/// Whether the text begins with `/`.
pub fn begins_with_slash(text: &str) -> bool
    ensures { result ≡ begins_with (codes "/") (chars text.now) }
{
    text.starts_with('/')
}

/// What stands behind the `//` at the front, where there is one.
pub fn behind_slashes(text: &str) -> Option<&str>
    ensures { MatchOption result (begins_with (codes "//") (chars text.now) ≡ false) (λ rest. chars text.now ≡ codes "//" ++ chars rest.now) }
{
    text.strip_prefix("//")
}
