//! Characters at the front of some bytes that a tag takes at once.
ghost use Rattle.std.specs.Prelude.{◌≡◌, ◌≤◌, true, length, map, take, IfSome};
ghost use Rattle.std.specs.List.{list_all};
ghost use Rattle.std.specs.Simd.Lanes.{mask_l};
ghost use Rattle.rx_tags.specs.Fronts as fronts;
ghost use Rattle.rx_tags.specs.Lanes as lanes;

use rx_reader::TagPhase;
use std::simd::prelude::*;

/// A space, or a character of ASCII that is printed.
pub(crate) fn is_printed(byte: u8) -> bool
    ensures { result ≡ fronts.is_printed byte }
{
    matches!(byte, b' '..=b'~')
}

// One that is itself in each value in quotes. Most are letters, which are told first.
fn is_plain(byte: u8) -> bool
    ensures { result ≡ fronts.plain_in_quotes byte }
{
    if byte > b'<' {
        return byte <= b'~';
    }
    is_printed(byte) && !matches!(byte, b'"' | b'&' | b'\'' | b'<')
}

// One that goes on with each name.
fn is_small(byte: u8) -> bool
    ensures { result ≡ fronts.is_small byte }
{
    matches!(byte, b'a'..=b'z')
}

/// Whether a value in quotes is read.
pub(crate) fn is_quoted(phase: TagPhase) -> bool
    ensures { result ≡ fronts.is_quoted phase }
{
    matches!(phase, TagPhase::DoubleQuoted | TagPhase::SingleQuoted)
}

/// Whether a byte ends the value in quotes that is read.
pub(crate) fn ends_value(phase: TagPhase, byte: u8) -> bool
    ensures { result ≡ fronts.ends_value phase byte }
{
    match phase {
        TagPhase::DoubleQuoted => byte == b'"',
        TagPhase::SingleQuoted => byte == b'\'',
        _ => false,
    }
}

/// Whether a small letter goes on with a tag's name, or begins one.
pub(crate) fn is_naming(phase: TagPhase) -> bool
    ensures { result ≡ fronts.is_naming phase }
{
    matches!(
        phase,
        TagPhase::Start | TagPhase::Name | TagPhase::EndName | TagPhase::EndStart
    )
}

/// The phase behind such a letter.
pub(crate) fn named(phase: TagPhase) -> TagPhase
    ensures { result ≡ fronts.after_letter phase }
{
    match phase {
        TagPhase::Start => TagPhase::Name,
        TagPhase::EndStart => TagPhase::EndName,
        _ => phase,
    }
}

/// Whether a small letter goes on with an attribute's name, or begins one.
pub(crate) fn opens_key(phase: TagPhase) -> bool
    ensures { result ≡ fronts.opens_key phase }
{
    matches!(phase, TagPhase::Gap | TagPhase::Key)
}

/// The phase behind a byte by which nothing but the phase changes, where that is seen at once.
pub(crate) fn skip(phase: TagPhase, byte: u8) -> Option<TagPhase>
    ensures { fronts.SkipGives phase byte result }
{
    match (phase, byte) {
        (TagPhase::Start, b'/') => Some(TagPhase::EndStart),
        (TagPhase::Name, b' ') => Some(TagPhase::Gap),
        (TagPhase::Key, b'=') => Some(TagPhase::BeforeValue),
        (TagPhase::BeforeValue, b'"') => Some(TagPhase::DoubleQuoted),
        (TagPhase::BeforeValue, b'\'') => Some(TagPhase::SingleQuoted),
        (TagPhase::AfterValue, b' ') => Some(TagPhase::Gap),
        _ => None,
    }
}

/// The phase behind a `>` that surely ends the tag, where no attribute is read.
pub(crate) fn closed(phase: TagPhase) -> Option<TagPhase>
    ensures { IfSome result (fronts.ClosesTag phase) }
{
    match phase {
        TagPhase::Name | TagPhase::Gap | TagPhase::AfterValue => Some(TagPhase::Opened),
        TagPhase::EndName | TagPhase::EndGap => Some(TagPhase::Closed),
        _ => None,
    }
}

// Whether `="` and a byte more stand at a place.
fn opens_value(bytes: &[u8], at: usize) -> bool
    requires { at ≤ length bytes.now }
    ensures { result ≡ true → fronts.OpensValue bytes.now at }
{
    bytes.len() - at > 2 && bytes[at] == b'=' && bytes[at + 1] == b'"'
}

/// The lengths of the name and of the value of an attribute that stands whole at the front.
#[inline(always)]
pub(crate) fn whole_lengths(bytes: &[u8]) -> Option<(usize, usize)>
    ensures { IfSome result (λ lengths. fronts.AttributeIsWhole bytes.now lengths.0 lengths.1) }
{
    let name = small_length(bytes);
    if name == 0 || !opens_value(bytes, name) {
        return None;
    }
    let rest = &bytes[name + 2..];
    let value = plain_length(rest);
    if value == rest.len() || rest[value] != b'"' {
        return None;
    }
    Some((name, value))
}

// The bytes that aren't plain.
#[inline(always)]
fn ends_plain(bytes: u8x16) -> u64
    ensures { result ≡ mask_l (map lanes.ends_plain bytes) }
{
    (bytes.simd_le(u8x16::splat(0x1F))
        | bytes.simd_eq(u8x16::splat(b'"'))
        | bytes.simd_eq(u8x16::splat(b'&'))
        | bytes.simd_eq(u8x16::splat(b'\''))
        | bytes.simd_eq(u8x16::splat(b'<'))
        | bytes.simd_ge(u8x16::splat(0x7F))).to_bitmask()
}

// The bytes that aren't small letters.
#[inline(always)]
fn ends_small(bytes: u8x16) -> u64
    ensures { result ≡ mask_l (map lanes.ends_small bytes) }
{
    (bytes.simd_le(u8x16::splat(0x60)) | bytes.simd_ge(u8x16::splat(0x7B))).to_bitmask()
}

/// How many bytes at the front are themselves in a value in quotes.
#[inline(always)]
pub(crate) fn plain_length(bytes: &[u8]) -> usize
    ensures fits { result ≤ length bytes.now }
    ensures plain { list_all fronts.plain_in_quotes (take result bytes.now) ≡ true }
{
    let mut count = 0;
    while bytes.len() - count >= 16 {
        let found = ends_plain(u8x16::from_slice(&bytes[count..]));
        if found != 0 {
            return count + found.trailing_zeros() as usize;
        }
        count += 16;
    }
    plain_slowly(bytes, count)
}

// The last bytes of a piece, fewer than 16.
#[inline(never)]
fn plain_slowly(bytes: &[u8], from: usize) -> usize
    requires from { from ≤ length bytes.now }
    requires plain { list_all fronts.plain_in_quotes (take from bytes.now) ≡ true }
    ensures fits { result ≤ length bytes.now }
    ensures plain { list_all fronts.plain_in_quotes (take result bytes.now) ≡ true }
{
    let mut count = from;
    while count < bytes.len() && is_plain(bytes[count]) {
        count += 1;
    }
    count
}

/// How many bytes at the front go on with a name. Of a long name no more than sixteen are told at a time.
#[inline(always)]
pub(crate) fn small_length(bytes: &[u8]) -> usize
    ensures fits { result ≤ length bytes.now }
    ensures small { list_all fronts.is_small (take result bytes.now) ≡ true }
{
    if bytes.len() < 16 {
        return small_slowly(bytes);
    }
    let found = ends_small(u8x16::from_slice(bytes));
    if found == 0 {
        return 16;
    }
    found.trailing_zeros() as usize
}

// The last bytes of a piece, fewer than 16.
#[inline(never)]
fn small_slowly(bytes: &[u8]) -> usize
    ensures fits { result ≤ length bytes.now }
    ensures small { list_all fronts.is_small (take result bytes.now) ≡ true }
{
    let mut count = 0;
    for byte in bytes {
        if !is_small(*byte) {
            return count;
        }
        count += 1;
    }
    count
}
