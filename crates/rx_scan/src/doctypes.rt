//! What each character does in the document type, behind its first word.
ghost use Rattle.std.specs.Prelude.{◌≡◌, slice_get, codes};
ghost use Rattle.rx_scan.specs.Marks as marks;

use crate::marks::{DoctypePhase, Move, TokenState, Whole};
use crate::words::char_at;
use rx_chars::Syntax;
use rx_grammar::Kind;
use rx_tags::{cased, is_white_space};

const NAME: &[u8] = b"html";

// Where the next character of the name is to stand, or its end.
fn in_name(syntax: Syntax, count: usize, c: char) -> Move
    ensures { result ≡ marks.in_doctype_name syntax (slice_get (codes "html") count) count c }
{
    match char_at(NAME, count) {
        Some(next) if cased(syntax, c) == next => {
            Move::Continue(TokenState::Doctype(DoctypePhase::Name(count + 1)))
        }
        None if is_white_space(c) => Move::Continue(TokenState::Doctype(DoctypePhase::Passed)),
        None if c == '>' => Move::Ends(Whole::Doctype),
        _ => Move::Refuses(Kind::BadDoctype),
    }
}

/// In the document type. What stands behind its name is passed over, but for `[`.
pub(crate) fn in_doctype(syntax: Syntax, phase: DoctypePhase, c: char) -> Move
    ensures { result ≡ marks.doctype_char syntax phase c }
{
    match phase {
        DoctypePhase::Keyword if is_white_space(c) => Move::Continue(TokenState::Doctype(
            DoctypePhase::Spaces,
        )),
        DoctypePhase::Keyword => Move::Refuses(Kind::BadDoctype),
        DoctypePhase::Spaces if is_white_space(c) => Move::Continue(TokenState::Doctype(
            DoctypePhase::Spaces,
        )),
        DoctypePhase::Spaces => in_name(syntax, 0, c),
        DoctypePhase::Name(count) => in_name(syntax, count, c),
        DoctypePhase::Passed if c == '>' => Move::Ends(Whole::Doctype),
        DoctypePhase::Passed if c == '[' => Move::Refuses(Kind::BadDoctype),
        DoctypePhase::Passed => Move::Continue(TokenState::Doctype(DoctypePhase::Passed)),
    }
}
