//! References that only take the place of the base's end, so that nothing in them is worked out.
ghost use Rattle.std.specs.Prelude.{◌≡◌, ◌≤◌, ◌*◌, ◌&&◌, not, ◌++◌, codes, true, false, length, take, drop, IfSome};
ghost use Rattle.rx_terms.specs.Common.{list_all, is_forbidden, has_forbidden, IsIri, is_scheme_char, begins_with_letter, is_scheme, chars, IsCharBoundary, Chars, begins_with};
ghost use Rattle.rx_refs.specs.Resolve.{resolved};
ghost use Rattle.rx_refs.specs.Plain.{is_plain_reference, begins_climb, ups, parent_steps, last_solidus, is_plain_from, keeps_all, fragment_from, begins_query, path_end_from, IsPlainAbsolute, is_scheme_byte, is_site_byte, IsSchemeEnd, IsSite, IsSplit, folder_from, is_one_slash, begins_path};

/// Whether no IRI has the character of this byte.
#[inline(always)]
fn is_forbidden_byte(byte: u8) -> bool
    ensures { result ≡ is_forbidden byte }
{
    if matches!(byte, b'a'..=b'z') {
        return false;
    }
    byte <= b' '
        || matches!(
            byte,
            b'<' | b'>' | b'"' | b'{' | b'}' | b'|' | b'\\' | b'^' | b'`'
        )
}

fn has_forbidden(bytes: &[u8]) -> bool
    ensures { result ≡ has_forbidden bytes.now }
{
    for byte in bytes {
        if is_forbidden_byte(*byte) {
            return true;
        }
    }
    false
}

/// Whether the reference has no scheme, no dot segment and no character that is forbidden, as far as that is seen in one
/// pass.
fn is_plain(text: &[u8]) -> bool
    ensures { result ≡ is_plain_reference text.now }
{
    is_plain_from(text, true)
}

/// The same, where `first` says whether its first segment may be cut at a `:`.
fn is_plain_from(text: &[u8], first: bool) -> bool
    ensures { result ≡ is_plain_from first true text.now }
{
    let mut first = first;
    let mut start = true;
    let mut at = 0;
    while at < text.len() {
        let byte = text[at];
        if matches!(byte, b'a'..=b'z') {
            start = false;
            at += 1;
            continue;
        }
        if matches!(byte, b'0'..=b'9') {
            start = false;
            at += 1;
            continue;
        }
        if is_forbidden_byte(byte) {
            return false;
        }
        if byte == b'#' || byte == b'?' {
            return !has_forbidden(&text[at + 1..]);
        }
        if first && byte == b':' {
            return false;
        }
        if start && byte == b'.' {
            return false;
        }
        start = byte == b'/';
        first = if start { false } else { first };
        at += 1;
    }
    true
}

/// Whether the text begins with one `/` and no more.
fn is_rooted(text: &[u8]) -> bool
    ensures { result ≡ is_one_slash text.now }
{
    match text {
        [b'/', b'/', ..] => false,
        [b'/', ..] => true,
        _ => false,
    }
}

/// Whether the text begins with a segment.
fn is_relative(text: &[u8]) -> bool
    ensures { result ≡ begins_path text.now }
{
    match text {
        [] => false,
        [byte, ..] => !matches!(byte, b'#' | b'?' | b'/'),
    }
}

/// What stands from a place on.
#[inline(always)]
fn behind(bytes: &[u8], from: usize) -> &[u8]
    requires { from ≤ length bytes.now }
    ensures { result.now ≡ drop from bytes.now }
{
    &bytes[from..]
}

fn scheme_length(bytes: &[u8]) -> usize
    ensures fits { result ≤ length bytes.now }
    ensures front { list_all is_scheme_byte (take result bytes.now) ≡ true }
{
    let mut count = 0;
    for byte in bytes {
        if *byte == b':' || *byte >= 128 {
            return count;
        }
        count += 1;
    }
    count
}

fn authority_length(bytes: &[u8]) -> usize
    ensures fits { result ≤ length bytes.now }
    ensures front { list_all is_site_byte (take result bytes.now) ≡ true }
{
    let mut count = 0;
    for byte in bytes {
        if matches!(*byte, b'a'..=b'z') {
            count += 1;
            continue;
        }
        if matches!(*byte, b'/' | b'?' | b'#') || *byte >= 128 {
            return count;
        }
        count += 1;
    }
    count
}

/// How many bytes of the base stand up to the `:` behind its scheme, that one included.
fn scheme_end_of(base: &[u8]) -> Option<usize>
    ensures { IfSome result (IsSchemeEnd base.now) }
{
    let colon = scheme_length(base);
    if colon >= base.len() || base[colon] != b':' {
        return None;
    }
    Some(colon + 1)
}

/// Whether the text begins with an authority.
fn has_authority(text: &[u8]) -> bool
    ensures { result ≡ begins_with (codes "//") text.now }
{
    matches!(text, [b'/', b'/', ..])
}

/// How many bytes of the base stand before its path, where that is told at once.
fn site_of(base: &[u8]) -> Option<usize>
    ensures site { IfSome result (IsSite base.now) }
    ensures fits { IfSome result (λ n. n ≤ length base.now) }
{
    let colon = scheme_length(base);
    let rest = behind(base, colon);
    if rest.len() < 4 || rest[0] != b':' || rest[1] != b'/' || rest[2] != b'/' {
        return None;
    }
    let host = behind(rest, 3);
    let count = authority_length(host);
    if count >= host.len() || host[count] != b'/' {
        return None;
    }
    Some(colon + 3 + count)
}

/// How many bytes of the path stand up to its last `/`, that one included, where it has no dot segment and is ASCII.
fn folder_of(path: &[u8]) -> Option<usize>
    ensures exact { result ≡ folder_from 0 0 false path.now }
    ensures fits { IfSome result (λ n. n ≤ length path.now) }
{
    let mut folder = 0;
    let mut start = false;
    let mut at = 0;
    while at < path.len() {
        let byte = path[at];
        if matches!(byte, b'a'..=b'z') {
            start = false;
            at += 1;
            continue;
        }
        if byte == b'#' || byte == b'?' {
            return Some(folder);
        }
        if byte >= 128 {
            return None;
        }
        if start && byte == b'.' {
            return None;
        }
        start = byte == b'/';
        folder = if start { at + 1 } else { folder };
        at += 1;
    }
    Some(folder)
}

/// Where the first `#` of the base stands, or its end, where all before that is ASCII.
fn fragment_of(base: &[u8]) -> Option<usize>
    ensures { result ≡ fragment_from 0 base.now }
{
    let mut at = 0;
    while at < base.len() {
        if base[at] == b'#' {
            return Some(at);
        }
        if base[at] >= 128 {
            return None;
        }
        at += 1;
    }
    Some(at)
}

/// Whether the text is empty or a fragment.
fn keeps_all(text: &[u8]) -> bool
    ensures { result ≡ keeps_all text.now }
{
    match text {
        [] => true,
        [byte, ..] => *byte == b'#',
    }
}

/// Where the first `?` or `#` of the base stands, or its end, where all before that is ASCII.
fn path_end_of(base: &[u8]) -> Option<usize>
    ensures { result ≡ path_end_from 0 base.now }
{
    let mut at = 0;
    while at < base.len() {
        if matches!(base[at], b'?' | b'#') {
            return Some(at);
        }
        if base[at] >= 128 {
            return None;
        }
        at += 1;
    }
    Some(at)
}

/// Whether the text is a query, and a fragment behind it or none.
fn is_query(text: &[u8]) -> bool
    ensures { result ≡ begins_query text.now }
{
    match text {
        [] => false,
        [byte, ..] => *byte == b'?',
    }
}

fn is_scheme_char(byte: u8) -> bool
    ensures { result ≡ is_scheme_char byte }
{
    matches!(byte, b'a'..=b'z' | b'A'..=b'Z' | b'0'..=b'9' | b'+' | b'-' | b'.')
}

fn are_scheme_chars(bytes: &[u8]) -> bool
    ensures { result ≡ list_all is_scheme_char bytes.now }
{
    for byte in bytes {
        if !is_scheme_char(*byte) {
            return false;
        }
    }
    true
}

fn begins_with_letter(bytes: &[u8]) -> bool
    ensures { result ≡ begins_with_letter bytes.now }
{
    match bytes {
        [] => false,
        [byte, ..] => matches!(*byte, b'a'..=b'z' | b'A'..=b'Z'),
    }
}

fn is_scheme(bytes: &[u8]) -> bool
    ensures { result ≡ is_scheme bytes.now }
{
    begins_with_letter(bytes) && are_scheme_chars(bytes)
}

fn front(bytes: &[u8], count: usize) -> &[u8]
    requires { count ≤ length bytes.now }
    ensures { result.now ≡ take count bytes.now }
{
    &bytes[..count]
}

/// Whether the reference has a scheme and means itself, as far as that is seen in one pass.
fn is_whole(text: &[u8]) -> bool
    ensures { result ≡ true → IsPlainAbsolute text.now }
{
    let colon = scheme_length(text);
    if colon >= text.len() || text[colon] != b':' {
        return false;
    }
    if !is_scheme(front(text, colon)) {
        return false;
    }
    is_plain_from(behind(text, colon + 1), false)
}

/// Whether the reference means itself.
pub fn stands_alone(reference: &str) -> bool
    ensures { result ≡ true → (base : Chars) → resolved base (chars reference.now) ≡ chars reference.now }
{
    is_whole(reference.as_bytes())
}

/// Where a base may be cut, as far as its references ask for that.
#[derive(Clone, Copy, Debug)]
pub struct Split {
    /// How many bytes stand before its path.
    pub site: usize,
    /// How many bytes of the path stand up to its last `/`, that one included, where it has no dot segment and is ASCII.
    pub folder: Option<usize>,
}

/// Where the base may be cut, where that is told at once.
pub fn split_of(base: &str) -> Option<Split>
    ensures { IfSome result (IsSplit base.now) }
{
    let Some(site) = site_of(base.as_bytes()) else {
        return None;
    };
    let folder = folder_of(behind(base.as_bytes(), site));
    Some(Split { site, folder })
}

/// How much of the base stands before the reference in what that means, where nothing of it is worked out.
pub fn front_length(base: &str, split: Option<Split>, reference: &str) -> Option<usize>
    requires iri { IsIri (chars base.now) }
    requires split { IfSome split (IsSplit base.now) }
    ensures { IfSome result (λ n. IsCharBoundary base.now n × (resolved (chars base.now) (chars reference.now) ≡ chars (take n base.now) ++ chars reference.now)) }
{
    let text = reference.as_bytes();
    if !is_plain(text) {
        return None;
    }
    if keeps_all(text) {
        return fragment_of(base.as_bytes());
    }
    if is_query(text) {
        return path_end_of(base.as_bytes());
    }
    if has_authority(text) {
        return scheme_end_of(base.as_bytes());
    }
    let Some(cut) = split else {
        return None;
    };
    if is_rooted(text) {
        return Some(cut.site);
    }
    if !is_relative(text) {
        return None;
    }
    let Some(folder) = cut.folder else {
        return None;
    };
    Some(cut.site + folder)
}

/// Whether `../` stands at the front.
fn is_climb(text: &[u8]) -> bool
    ensures { result ≡ begins_climb text.now }
{
    matches!(text, [b'.', b'.', b'/', ..])
}

/// How many `../` stand at the front.
fn count_climbs(text: &[u8]) -> usize
    ensures exact { result ≡ parent_steps text.now }
    ensures fits { result * 3 ≤ length text.now }
{
    let mut count = 0;
    let mut at = 0;
    while is_climb(behind(text, at)) {
        count += 1;
        at += 3;
    }
    count
}

/// Where the last `/` stands, or 0 where there is none.
fn last_slash(path: &[u8]) -> usize
    ensures exact { result ≡ last_solidus 0 0 path.now }
    ensures fits { result ≤ length path.now }
{
    let mut last = 0;
    let mut at = 0;
    while at < path.len() {
        if path[at] == b'/' {
            last = at;
        }
        at += 1;
    }
    last
}

/// The place in the path where so many of the last segments before a place begin.
fn up_place(path: &[u8], place: usize, count: usize) -> usize
    requires { place ≤ length path.now }
    ensures left { take result path.now ≡ ups count (take place path.now) }
    ensures fits { result ≤ length path.now }
{
    let mut here = place;
    let mut more = count;
    while more > 0 {
        here = last_slash(front(path, here));
        more -= 1;
    }
    here
}

/// Of a reference that begins with `../`: how much of the base stands in what it means, and how much of the reference
/// doesn't, where nothing else is worked out.
pub fn climbed(base: &str, split: Option<Split>, reference: &str) -> Option<(usize, usize)>
    requires iri { IsIri (chars base.now) }
    requires split { IfSome split (IsSplit base.now) }
    ensures { IfSome result (λ cut. IsCharBoundary base.now cut.0 × IsCharBoundary reference.now cut.1 × (resolved (chars base.now) (chars reference.now) ≡ chars (take cut.0 base.now) ++ chars (drop cut.1 reference.now))) }
{
    let text = reference.as_bytes();
    let count = count_climbs(text);
    if count == 0 {
        return None;
    }
    if !is_plain_from(behind(text, count * 3), false) {
        return None;
    }
    let Some(cut) = split else {
        return None;
    };
    let Some(folder) = cut.folder else {
        return None;
    };
    if folder == 0 {
        return None;
    }
    let path = behind(base.as_bytes(), cut.site);
    let place = up_place(path, folder - 1, count);
    if place >= path.len() {
        return None;
    }
    Some((cut.site + place + 1, count * 3))
}
