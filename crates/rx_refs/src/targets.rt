//! What a reference leads to, before its path is worked out (RFC 3986, section 5.2.2).
ghost use Rattle.std.specs.Prelude.{◌≡◌, ◌&&◌, is_some};
ghost use Rattle.rx_terms.specs.Common.{chars, is_empty};
ghost use Rattle.rx_refs.specs.Resolve.{target, relative_path};
ghost use Rattle.rx_refs.specs.Views.{seen, seen_target, seen_path};

use crate::parts::Parts;
use crate::slices::begins_with_slash;
use rx_words::is_empty;

/// The components of the target. Each is the base's or the reference's.
#[derive(Clone, Copy)]
pub struct Target<'a> {
    pub scheme: Option<&'a str>,
    pub authority: Option<&'a str>,
    pub path: TargetPath<'a>,
    pub query: Option<&'a str>,
    pub fragment: Option<&'a str>,
}

/// How the target's path comes about.
#[derive(Clone, Copy)]
pub enum TargetPath<'a> {
    /// As it is.
    Kept(&'a str),
    /// Its dot segments are removed.
    Reduced(&'a str),
    /// The reference's stands behind the base's up to its last `/`, and then the dot segments are removed.
    Merged(&'a str, &'a str),
}

/// The table of section 5.2.2, strict.
pub fn target_of<'a>(base: Parts<'a>, reference: Parts<'a>) -> Target<'a>
    ensures { seen_target result ≡ target (seen base.entry) (seen reference.entry) }
{
    if reference.scheme.is_some() {
        return Target {
            scheme: reference.scheme,
            authority: reference.authority,
            path: TargetPath::Reduced(reference.path),
            query: reference.query,
            fragment: reference.fragment,
        };
    }
    if reference.authority.is_some() {
        return Target {
            scheme: base.scheme,
            authority: reference.authority,
            path: TargetPath::Reduced(reference.path),
            query: reference.query,
            fragment: reference.fragment,
        };
    }
    if is_empty(reference.path) {
        return Target {
            scheme: base.scheme,
            authority: base.authority,
            path: TargetPath::Kept(base.path),
            query: reference.query.or(base.query),
            fragment: reference.fragment,
        };
    }
    Target {
        scheme: base.scheme,
        authority: base.authority,
        path: target_path(base, reference.path),
        query: reference.query,
        fragment: reference.fragment,
    }
}

fn target_path<'a>(base: Parts<'a>, path: &'a str) -> TargetPath<'a>
    ensures { seen_path result ≡ relative_path (seen base.entry) (chars path.now) }
{
    if begins_with_slash(path) {
        return TargetPath::Reduced(path);
    }
    if is_bare(base) {
        return TargetPath::Merged("/", path);
    }
    TargetPath::Merged(base.path, path)
}

/// Whether an authority stands in the base and no path behind it.
fn is_bare(base: Parts<'_>) -> bool
    ensures { result ≡ (is_some base.entry.authority && is_empty (chars base.entry.path.now)) }
{
    base.authority.is_some() && is_empty(base.path)
}
