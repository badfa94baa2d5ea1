//! Whether the characters since the last token are known to begin a tag.
ghost use Rattle.std.specs.Prelude.{◌≡◌, slice_get};
ghost use Rattle.rx_scan.specs.KnownTags as known;
ghost use Rattle.rx_scan.specs.Marks as marks;

use crate::marks::TokenState;
use crate::raw_ends::end_word;
use crate::words::char_at;
use rx_chars::Syntax;
use rx_grammar::Content;
use rx_tags::{begins_tag, ends_name};

/// Whether they are known to begin a tag.
pub fn is_tag(mark: TokenState) -> bool
    ensures { result ≡ known.lies_in_tag mark }
{
    mark == TokenState::Tag
}

fn ends_word(inside: Content, count: usize, c: char) -> bool
    ensures { result ≡ known.ends_word (slice_get (marks.end_word inside) count) c }
{
    match char_at(end_word(inside), count) {
        Some(_) => false,
        None => ends_name(c),
    }
}

/// Whether with the character they are known to begin one: behind `<` a `/` or what begins a name does it, in raw text
/// what ends the element's name.
pub fn is_tag_with(syntax: Syntax, inside: Content, mark: TokenState, c: char) -> bool
    ensures { result ≡ known.is_tag_with syntax inside mark c }
{
    match mark {
        TokenState::LessThan => c == '/' || begins_tag(syntax, c),
        TokenState::RawEnd(count) => ends_word(inside, count, c),
        TokenState::Tag => true,
        _ => false,
    }
}
