//! The plain text at the front of some bytes.
ghost use Rattle.std.specs.Prelude.{◌≡◌, ◌<◌, ◌≤◌, true, get_or, length, map, take};
ghost use Rattle.rx_terms.specs.Common.{list_all, IsUtf8};
ghost use Rattle.std.specs.Simd.Lanes.{mask_l};
ghost use Rattle.rx_scan.specs.Plain.{ends_ascii, is_plain_ascii, is_plain_char, is_stop};

use crate::wide_chars::wide_length;
use std::simd::prelude::*;

// Whether a byte may mean something else than itself.
fn is_stop(byte: u8) -> bool
    ensures { result ≡ is_stop byte }
{
    matches!(byte, 0 | b'\r' | b'&' | b'<' | b'>' | b']')
}

// The bytes that may mean something, and those that are no ASCII.
#[inline(always)]
fn ascii_ends(bytes: u8x16) -> u64
    ensures { result ≡ mask_l (map ends_ascii bytes) }
{
    (bytes.simd_eq(u8x16::splat(0))
        | bytes.simd_eq(u8x16::splat(b'\r'))
        | bytes.simd_eq(u8x16::splat(b'&'))
        | bytes.simd_eq(u8x16::splat(b'<'))
        | bytes.simd_eq(u8x16::splat(b'>'))
        | bytes.simd_eq(u8x16::splat(b']'))
        | bytes.simd_ge(u8x16::splat(0x80))).to_bitmask()
}

// How many bytes at the front are plain characters of ASCII; the last ones, fewer than 16, may not be looked at.
#[inline(always)]
fn ascii_length(bytes: &[u8]) -> usize
    ensures fits { result ≤ length bytes.now }
    ensures plain { list_all is_plain_ascii (take result bytes.now) ≡ true }
{
    let mut count = 0;
    while bytes.len() - count >= 16 {
        let found = ascii_ends(u8x16::from_slice(&bytes[count..]));
        if found != 0 {
            return count + found.trailing_zeros() as usize;
        }
        count += 16;
    }
    count
}

// How many bytes at the front are plain characters of ASCII, where the first one is.
#[inline(always)]
fn ascii_run(bytes: &[u8]) -> usize
    requires some { 0 < length bytes.now }
    requires first { is_plain_ascii (get_or bytes.now 0 0) ≡ true }
    ensures fits { result ≤ length bytes.now }
    ensures plain { list_all is_plain_ascii (take result bytes.now) ≡ true }
{
    let count = ascii_length(bytes);
    if count == 0 {
        return 1;
    }
    count
}

// How many bytes at the front are plain characters of ASCII, or one plain character above it.
#[inline(always)]
fn run_length(bytes: &[u8]) -> usize
    ensures fits { result ≤ length bytes.now }
    ensures text { IsUtf8 (take result bytes.now) }
    ensures plain { list_all is_plain_char (take result bytes.now) ≡ true }
{
    if bytes.is_empty() || is_stop(bytes[0]) {
        return 0;
    }
    if bytes[0] >= 0x80 {
        return wide_length(bytes);
    }
    ascii_run(bytes)
}

// How many bytes at the front are plain characters, where the first ones are known to be.
fn text_length(bytes: &[u8], from: usize) -> usize
    requires from { from ≤ length bytes.now }
    requires plain { list_all is_plain_ascii (take from bytes.now) ≡ true }
    ensures fits { result ≤ length bytes.now }
    ensures text { IsUtf8 (take result bytes.now) }
    ensures plain { list_all is_plain_char (take result bytes.now) ≡ true }
{
    let mut count = from;
    while count < bytes.len() {
        let more = run_length(&bytes[count..]);
        if more == 0 {
            return count;
        }
        count += more;
    }
    count
}

// Where bytes that are no ASCII stand in the front.
#[inline(never)]
fn wide_text(bytes: &[u8], ascii: usize) -> &str
    requires from { ascii ≤ length bytes.now }
    requires plain { list_all is_plain_ascii (take ascii bytes.now) ≡ true }
    ensures front { result.now ≡ take (length result.now) bytes.now }
    ensures plain { list_all is_plain_char result.now ≡ true }
{
    let count = text_length(bytes, ascii);
    unsafe { str::from_utf8_unchecked(&bytes[..count]) }
}

/// Text at the front of the bytes of which each character is plain: up to the next that isn't, to one that isn't whole,
/// or to the end.
#[inline(always)]
pub(crate) fn plain_text(bytes: &[u8]) -> &str
    ensures front { result.now ≡ take (length result.now) bytes.now }
    ensures plain { list_all is_plain_char result.now ≡ true }
{
    let count = ascii_length(bytes);
    if count < bytes.len() && is_stop(bytes[count]) {
        // ASCII is UTF-8, so the bytes aren't looked at again.
        return unsafe { str::from_utf8_unchecked(&bytes[..count]) };
    }
    wide_text(bytes, count)
}
