//! What each character does in raw text behind `<` (HTML, 13.2.5.9 to 13.2.5.17).
ghost use Rattle.std.specs.Prelude.{◌≡◌, ◌+◌, ◌<◌, ◌^◌, slice_get, length};
ghost use Rattle.rx_scan.specs.Marks as marks;

use crate::marks::Move;
use crate::words::char_at;
use rx_grammar::{Content, RawName};
use rx_tags::ends_name;

fn end_of_raw(name: RawName) -> &'static [u8]
    ensures { result.now ≡ marks.end_word (Content.Raw name) }
{
    match name {
        RawName::Script => b"/script",
        RawName::Style => b"/style",
        RawName::Iframe => b"/iframe",
        RawName::Noembed => b"/noembed",
        RawName::Noframes => b"/noframes",
        RawName::Xmp => b"/xmp",
        RawName::Title => b"/title",
        RawName::Textarea => b"/textarea",
    }
}

/// `/` and the name of the raw element.
pub(crate) fn end_word(inside: Content) -> &'static [u8]
    ensures { result.now ≡ marks.end_word inside }
{
    match inside {
        Content::Raw(name) | Content::Rcdata(name) => end_of_raw(name),
        _ => b"",
    }
}

/// Behind `<` and so many characters of `/` and the name of the raw element.
pub(crate) fn in_end(inside: Content, count: usize, c: char) -> Move
    ensures { result ≡ marks.in_end (slice_get (marks.end_word inside) count) count c }
{
    match char_at(end_word(inside), count) {
        Some(next) if c.to_ascii_lowercase() == next => Move::KeepsTag(count + 1),
        None if ends_name(c) => Move::Tags,
        _ => Move::Reconsume,
    }
}
