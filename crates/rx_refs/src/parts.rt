//! The components of a reference.
ghost use Rattle.std.specs.Prelude.{◌≡◌};
ghost use Rattle.rx_terms.specs.Common.{chars, seen_slice};
ghost use Rattle.rx_refs.specs.Parts.{components_of, scheme_of, behind_scheme, authority_of, path_of};
ghost use Rattle.rx_refs.specs.Views.{seen};

use crate::slices::{behind_slashes, cut, cut_at_slash, split_once};
use rx_terms::is_scheme;

/// The five components of a URI reference (RFC 3986, section 3), as slices of its text without their delimiters. One
/// that is there and empty is `Some("")`.
#[derive(Clone, Copy, Debug)]
pub struct Parts<'a> {
    /// What stands before the first `:`, where that is a scheme (section 3.1).
    pub scheme: Option<&'a str>,
    /// What stands behind `//` (section 3.2).
    pub authority: Option<&'a str>,
    /// The path, which may be empty (section 3.3).
    pub path: &'a str,
    /// What stands behind the first `?` before any `#` (section 3.4).
    pub query: Option<&'a str>,
    /// What stands behind the first `#` (section 3.5).
    pub fragment: Option<&'a str>,
}

/// The components of any text, by RFC 3986, Appendix B. A text before the first `:` that hasn't the form of a scheme
/// belongs to the path.
pub fn split(text: &str) -> Parts<'_>
    ensures { seen result ≡ components_of (chars text.now) }
{
    let (scheme, rest) = split_scheme(text);
    let (rest, fragment) = cut(rest, '#');
    let (hierarchical, query) = cut(rest, '?');
    let (authority, path) = split_authority(hierarchical);
    Parts {
        scheme,
        authority,
        path,
        query,
        fragment,
    }
}

fn split_scheme(text: &str) -> (Option<&str>, &str)
    ensures scheme { seen_slice result.0 ≡ scheme_of (chars text.now) }
    ensures rest { chars result.1.now ≡ behind_scheme (chars text.now) }
{
    let Some((front, rest)) = split_once(text, ':') else {
        return (None, text);
    };
    if !is_scheme(front) {
        return (None, text);
    }
    (Some(front), rest)
}

fn split_authority(part: &str) -> (Option<&str>, &str)
    ensures authority { seen_slice result.0 ≡ authority_of (chars part.now) }
    ensures path { chars result.1.now ≡ path_of (chars part.now) }
{
    match behind_slashes(part) {
        Some(rest) => {
            let (authority, path) = cut_at_slash(rest);
            (Some(authority), path)
        }
        None => (None, part),
    }
}
