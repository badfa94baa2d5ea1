//! What each character does behind `<!` and `<?`, in comments and in CDATA sections.
ghost use Rattle.std.specs.Prelude.{◌≡◌, slice_get};
ghost use Rattle.rx_grammar.specs.Spelling as spelling;
ghost use Rattle.rx_scan.specs.Marks as marks;

use crate::marks::{
    Brackets, CommentPhase, DoctypePhase, Move, StrictPhase, TokenState, Whole, Word,
};
use crate::words::char_at;
use rx_chars::Syntax;
use rx_grammar::{Content, Kind};
use rx_tags::cased;

fn has_sections(inside: Content) -> bool
    ensures { result ≡ spelling.has_sections inside }
{
    matches!(inside, Content::Foreign | Content::Strict)
}

// In HTML `<!` and what begins nothing else is a comment, which goes to the first `>`.
pub(crate) fn in_bogus(c: char) -> Move
    ensures { result ≡ marks.in_bogus c }
{
    if c == '>' {
        Move::Ends(Whole::Comment)
    } else {
        Move::Continue(TokenState::Bogus)
    }
}

fn unlike(syntax: Syntax, c: char) -> Move
    ensures { result ≡ marks.unlike syntax c }
{
    match syntax {
        Syntax::Html => in_bogus(c),
        Syntax::Xhtml => Move::Refuses(Kind::BadTag),
    }
}

fn opening_text(syntax: Syntax, word: Word) -> &'static [u8]
    ensures { result.now ≡ marks.opening_text syntax word }
{
    match (syntax, word) {
        (_, Word::Dashes) => b"--",
        (Syntax::Html, Word::Doctype) => b"doctype",
        (Syntax::Xhtml, Word::Doctype) => b"DOCTYPE",
        (_, Word::Section) => b"[CDATA[",
    }
}

fn opening_char(syntax: Syntax, word: Word, c: char) -> char
    ensures { result ≡ marks.opening_char syntax word c }
{
    match (syntax, word) {
        (Syntax::Html, Word::Doctype) => c.to_ascii_lowercase(),
        _ => c,
    }
}

fn begun_word(syntax: Syntax, inside: Content, word: Word) -> Move
    ensures { result ≡ marks.begun_word syntax inside word }
{
    match (syntax, word) {
        (Syntax::Html, Word::Dashes) => Move::Continue(TokenState::Comment(CommentPhase::Start)),
        (Syntax::Xhtml, Word::Dashes) => Move::Continue(TokenState::StrictComment(
            StrictPhase::Text,
        )),
        (_, Word::Doctype) => Move::Continue(TokenState::Doctype(DoctypePhase::Keyword)),
        (_, Word::Section) if has_sections(inside) => Move::Continue(TokenState::Section(
            Brackets::None,
        )),
        (_, Word::Section) => Move::Refuses(Kind::Outside),
    }
}

/// Behind `<!` and so many characters of a word.
pub(crate) fn in_word(syntax: Syntax, inside: Content, word: Word, count: usize, c: char) -> Move
    ensures { result ≡ marks.in_word syntax inside word (slice_get (marks.opening_text syntax word) count) count c }
{
    match char_at(opening_text(syntax, word), count) {
        Some(next) if opening_char(syntax, word, c) == next => {
            more_of_word(syntax, inside, word, count + 1)
        }
        _ => unlike(syntax, c),
    }
}

fn more_of_word(syntax: Syntax, inside: Content, word: Word, count: usize) -> Move
    ensures { result ≡ marks.more_of_word syntax inside word count }
{
    if count == opening_text(syntax, word).len() {
        begun_word(syntax, inside, word)
    } else {
        Move::Continue(TokenState::Opening(word, count))
    }
}

fn doctype_letter(syntax: Syntax) -> char
    ensures { result ≡ marks.doctype_letter syntax }
{
    match syntax {
        Syntax::Html => 'd',
        Syntax::Xhtml => 'D',
    }
}

fn looks_for_sections(syntax: Syntax, inside: Content) -> bool
    ensures { result ≡ marks.looks_for syntax inside Word.Section }
{
    match syntax {
        Syntax::Html => has_sections(inside),
        Syntax::Xhtml => true,
    }
}

/// Behind `<!`.
pub(crate) fn at_opened(syntax: Syntax, inside: Content, c: char) -> Move
    ensures { result ≡ marks.at_opened syntax inside c }
{
    if c == '-' {
        return Move::Continue(TokenState::Opening(Word::Dashes, 1));
    }
    if cased(syntax, c) == doctype_letter(syntax) {
        return Move::Continue(TokenState::Opening(Word::Doctype, 1));
    }
    if c == '[' && looks_for_sections(syntax, inside) {
        return Move::Continue(TokenState::Opening(Word::Section, 1));
    }
    unlike(syntax, c)
}

fn may_close(phase: CommentPhase) -> bool
    ensures { result ≡ marks.may_close phase }
{
    !matches!(phase, CommentPhase::Text | CommentPhase::Dash)
}

fn after_dash(phase: CommentPhase) -> CommentPhase
    ensures { result ≡ marks.after_dash phase }
{
    match phase {
        CommentPhase::Start => CommentPhase::StartDash,
        CommentPhase::StartDash | CommentPhase::Dash | CommentPhase::Dashes => CommentPhase::Dashes,
        CommentPhase::Text | CommentPhase::Bang => CommentPhase::Dash,
    }
}

fn after_bang(phase: CommentPhase) -> CommentPhase
    ensures { result ≡ marks.after_bang phase }
{
    match phase {
        CommentPhase::Dashes => CommentPhase::Bang,
        _ => CommentPhase::Text,
    }
}

/// In a comment of HTML.
pub(crate) fn in_comment(phase: CommentPhase, c: char) -> Move
    ensures { result ≡ marks.in_comment phase c }
{
    match c {
        '>' if may_close(phase) => Move::Ends(Whole::Comment),
        '-' => Move::Continue(TokenState::Comment(after_dash(phase))),
        '!' => Move::Continue(TokenState::Comment(after_bang(phase))),
        _ => Move::Continue(TokenState::Comment(CommentPhase::Text)),
    }
}

/// In a comment of XHTML, which has no `--` but at its end.
pub(crate) fn in_strict_comment(phase: StrictPhase, c: char) -> Move
    ensures { result ≡ marks.after_strict phase c }
{
    match (phase, c) {
        (StrictPhase::Dashes, '>') => Move::Ends(Whole::Comment),
        (StrictPhase::Dashes, _) => Move::Refuses(Kind::StrictText),
        (StrictPhase::Text, '-') => Move::Continue(TokenState::StrictComment(StrictPhase::Dash)),
        (StrictPhase::Dash, '-') => Move::Continue(TokenState::StrictComment(StrictPhase::Dashes)),
        _ => Move::Continue(TokenState::StrictComment(StrictPhase::Text)),
    }
}

/// In an instruction of XHTML.
pub(crate) fn in_instruction(asked: bool, c: char) -> Move
    ensures { result ≡ marks.in_instruction asked c }
{
    if c == '>' && asked {
        Move::Ends(Whole::Comment)
    } else {
        Move::Continue(TokenState::Instruction(c == '?'))
    }
}

/// In a CDATA section.
pub(crate) fn in_section(brackets: Brackets, c: char) -> Move
    ensures { result ≡ marks.after_section brackets c }
{
    match (brackets, c) {
        (Brackets::None, ']') => Move::Continue(TokenState::Section(Brackets::One)),
        (Brackets::One, ']') => Move::Continue(TokenState::Section(Brackets::Two)),
        (Brackets::Two, ']') => Move::Keeps(TokenState::Section(Brackets::Two)),
        (Brackets::Two, '>') => Move::Ends(Whole::Section),
        _ => Move::KeepsAfter(brackets),
    }
}
