//! What each character does, by what stands before it since the last token.
ghost use Rattle.std.specs.Prelude.{◌≡◌};
ghost use Rattle.rx_grammar.specs.Spelling as spelling;
ghost use Rattle.rx_scan.specs.Marks as marks;

use crate::declarations::{
    at_opened, in_bogus, in_comment, in_instruction, in_section, in_strict_comment, in_word,
};
use crate::doctypes::in_doctype;
use crate::marks::{First, Move, TokenState};
use crate::phases::{has_references, in_run};
use crate::raw_ends::in_end;
use rx_chars::Syntax;
use rx_grammar::{Content, Kind};
use rx_reader::RunPhase;
use rx_tags::{is_letter, is_white_space};

/// What the character does after what is marked, in this syntax and content.
///
/// A fault comes exactly where the character decides it of the token alone: `Outside` where no token of the content
/// begins so, `BadTag`, `BadDoctype` and `StrictText` where one that is begun can't go on. What depends on tokens before
/// it (`]]>` in text of XHTML, a second document type) is the caller's.
pub fn move_of(syntax: Syntax, inside: Content, mark: TokenState, c: char) -> Move
    ensures { result ≡ marks.scan_move syntax inside mark c }
{
    match mark {
        TokenState::Nothing => at_nothing(inside, c),
        TokenState::LessThan => at_less_than(syntax, inside, c),
        TokenState::RawEnd(count) => in_end(inside, count, c),
        TokenState::Tag => Move::Tags,
        TokenState::Run(phase) => in_run(inside, phase, c),
        TokenState::Opened => at_opened(syntax, inside, c),
        TokenState::Opening(word, count) => in_word(syntax, inside, word, count, c),
        TokenState::Comment(phase) => in_comment(phase, c),
        TokenState::StrictComment(phase) => in_strict_comment(phase, c),
        TokenState::Bogus => in_bogus(c),
        TokenState::Instruction(asked) => in_instruction(asked, c),
        TokenState::Doctype(phase) => in_doctype(syntax, phase, c),
        TokenState::Section(brackets) => in_section(brackets, c),
    }
}

/// Whether markup may stand in the content.
pub(crate) fn has_markup(inside: Content) -> bool
    ensures { result ≡ spelling.has_markup inside }
{
    !matches!(inside, Content::Raw(_) | Content::Rcdata(_))
}

fn is_text(inside: Content, c: char) -> bool
    ensures { result ≡ spelling.is_text inside c }
{
    match inside {
        Content::Outside => is_white_space(c),
        Content::Raw(_) => c != '<',
        _ => !(c == '<' || c == '&'),
    }
}

fn less_than_mark(inside: Content) -> TokenState
    ensures { result ≡ marks.less_than_mark inside }
{
    if has_markup(inside) {
        TokenState::LessThan
    } else {
        TokenState::RawEnd(0)
    }
}

/// What the character does between tokens: `<` begins one, so does `&` where references are read, and any other
/// character is text, or the fault `Outside` where the content has no such text.
pub fn at_first(inside: Content, c: char) -> First
    ensures { result ≡ marks.at_first inside c }
{
    if c == '<' {
        return First::Begins(less_than_mark(inside));
    }
    if c == '&' && has_references(inside) {
        return First::Begins(TokenState::Run(RunPhase::Ampersand));
    }
    if is_text(inside, c) {
        First::EmitText
    } else {
        First::Refuses(Kind::Outside)
    }
}

fn at_nothing(inside: Content, c: char) -> Move
    ensures { result ≡ marks.of_first (marks.at_first inside c) }
{
    match at_first(inside, c) {
        First::Begins(mark) => Move::Begins(mark),
        First::EmitText => Move::EmitText,
        First::Refuses(kind) => Move::Refuses(kind),
    }
}

fn begins_markup(c: char) -> bool
    ensures { result ≡ spelling.begins_markup c }
{
    is_letter(c) || c == '/' || c == '!' || c == '?'
}

fn question(syntax: Syntax) -> TokenState
    ensures { result ≡ marks.question syntax }
{
    match syntax {
        Syntax::Html => TokenState::Bogus,
        Syntax::Xhtml => TokenState::Instruction(false),
    }
}

// A `<` that begins nothing is text, but not outside the root.
fn less_than_stops(inside: Content) -> Move
    ensures { result ≡ marks.less_than_stops inside }
{
    match inside {
        Content::Html | Content::Foreign => Move::Reconsume,
        _ => Move::Refuses(Kind::Outside),
    }
}

fn at_less_than(syntax: Syntax, inside: Content, c: char) -> Move
    ensures { result ≡ marks.at_less_than syntax inside c }
{
    match c {
        '!' => Move::Continue(TokenState::Opened),
        '?' => Move::Continue(question(syntax)),
        _ if syntax == Syntax::Html && !begins_markup(c) => less_than_stops(inside),
        _ => Move::Tags,
    }
}
