//! What each character does in a tag (HTML, 13.2.5.6 to 13.2.5.40; XML 1.0, 3.1).
ghost use Rattle.std.specs.Prelude.{◌≡◌, Some};
ghost use Rattle.rx_terms.specs.Ascii as ascii;
ghost use Rattle.rx_grammar.specs.Shapes as shapes;
ghost use Rattle.rx_reader.specs.Tables as tables;

use rx_chars::{Syntax, is_nc, is_nc_start};
use rx_reader::{TagAction, TagPhase};

/// White space of HTML: tab, LF, FF, CR and space.
pub fn is_white_space(c: char) -> bool
    ensures { result ≡ ascii.is_white_space c }
{
    matches!(c, '\t' | '\n' | '\u{C}' | '\r' | ' ')
}

fn is_strict_start(c: char) -> bool
    ensures { result ≡ shapes.is_strict_start c }
{
    is_nc_start(c) || c == ':'
}

fn is_strict_char(c: char) -> bool
    ensures { result ≡ shapes.is_strict_char c }
{
    is_nc(c) || c == ':'
}

/// What ends a tag's name in HTML: white space, `/` and `>`.
pub fn ends_name(c: char) -> bool
    ensures { result ≡ shapes.ends_name c }
{
    is_white_space(c) || c == '/' || c == '>'
}

fn is_attribute_char(c: char) -> bool
    ensures { result ≡ shapes.is_attribute_char c }
{
    !(ends_name(c) || c == '=' || (c == '"' || c == '\'') || c == '<')
}

/// A letter of ASCII.
pub fn is_letter(c: char) -> bool
    ensures { result ≡ ascii.is_letter c }
{
    matches!(c, 'A'..='Z' | 'a'..='z')
}

/// What begins a tag's name: a letter in HTML, a name's first character in XHTML.
pub fn begins_tag(syntax: Syntax, c: char) -> bool
    ensures { result ≡ shapes.begins_tag syntax c }
{
    match syntax {
        Syntax::Html => is_letter(c),
        Syntax::Xhtml => is_strict_start(c),
    }
}

fn is_tag_char(syntax: Syntax, c: char) -> bool
    ensures { result ≡ shapes.is_tag_char syntax c }
{
    match syntax {
        Syntax::Html => !ends_name(c),
        Syntax::Xhtml => is_strict_char(c),
    }
}

fn begins_attribute(syntax: Syntax, c: char) -> bool
    ensures { result ≡ shapes.begins_attribute syntax c }
{
    match syntax {
        Syntax::Html => is_attribute_char(c),
        Syntax::Xhtml => is_strict_start(c),
    }
}

fn continues_attribute(syntax: Syntax, c: char) -> bool
    ensures { result ≡ shapes.continues_attribute syntax c }
{
    match syntax {
        Syntax::Html => is_attribute_char(c),
        Syntax::Xhtml => is_strict_char(c),
    }
}

/// The phase after the character and what it does, or nothing where no tag goes on so.
#[inline(always)]
pub(crate) fn move_at(syntax: Syntax, phase: TagPhase, c: char) -> Option<(TagPhase, TagAction)>
    ensures { result ≡ tables.move_of syntax phase c }
{
    match phase {
        TagPhase::Start if begins_tag(syntax, c) => Some((TagPhase::Name, TagAction::Name)),
        TagPhase::Start if c == '/' => Some((TagPhase::EndStart, TagAction::Skip)),
        TagPhase::Start => None,
        TagPhase::Name => in_name(syntax, c),
        TagPhase::Gap => in_gap(syntax, c),
        TagPhase::Solidus => after_solidus(syntax, c),
        TagPhase::Key => in_key(syntax, c),
        TagPhase::AfterKey => after_key(syntax, c),
        TagPhase::BeforeValue => before_value(syntax, c),
        TagPhase::DoubleQuoted if c == '"' => Some((TagPhase::AfterValue, TagAction::Add)),
        TagPhase::SingleQuoted if c == '\'' => Some((TagPhase::AfterValue, TagAction::Add)),
        TagPhase::DoubleQuoted | TagPhase::SingleQuoted => Some((phase, TagAction::Value)),
        TagPhase::Unquoted => Some(in_unquoted(c)),
        TagPhase::AfterValue => after_value(syntax, c),
        TagPhase::EndStart if begins_tag(syntax, c) => Some((TagPhase::EndName, TagAction::Name)),
        TagPhase::EndStart => None,
        TagPhase::EndName => in_end_name(syntax, c),
        TagPhase::EndGap => in_end_gap(c),
        TagPhase::Opened | TagPhase::Emptied | TagPhase::Closed => None,
    }
}

fn in_name(syntax: Syntax, c: char) -> Option<(TagPhase, TagAction)>
    ensures { result ≡ tables.in_attribute_name syntax c }
{
    match c {
        '/' => Some((TagPhase::Solidus, TagAction::Skip)),
        '>' => Some((TagPhase::Opened, TagAction::Skip)),
        _ if is_white_space(c) => Some((TagPhase::Gap, TagAction::Skip)),
        _ if is_tag_char(syntax, c) => Some((TagPhase::Name, TagAction::Name)),
        _ => None,
    }
}

fn in_gap(syntax: Syntax, c: char) -> Option<(TagPhase, TagAction)>
    ensures { result ≡ tables.in_gap syntax c }
{
    match c {
        '/' => Some((TagPhase::Solidus, TagAction::Skip)),
        '>' => Some((TagPhase::Opened, TagAction::Skip)),
        _ if is_white_space(c) => Some((TagPhase::Gap, TagAction::Skip)),
        _ if begins_attribute(syntax, c) => Some((TagPhase::Key, TagAction::Key)),
        _ => None,
    }
}

fn after_solidus(syntax: Syntax, c: char) -> Option<(TagPhase, TagAction)>
    ensures { result ≡ tables.after_solidus syntax c }
{
    match syntax {
        _ if c == '>' => Some((TagPhase::Emptied, TagAction::Skip)),
        Syntax::Html => in_gap(syntax, c),
        Syntax::Xhtml => None,
    }
}

fn in_key(syntax: Syntax, c: char) -> Option<(TagPhase, TagAction)>
    ensures { result ≡ tables.in_key syntax c }
{
    match (syntax, c) {
        (_, '=') => Some((TagPhase::BeforeValue, TagAction::Skip)),
        (Syntax::Html, '/') => Some((TagPhase::Solidus, TagAction::Add)),
        (Syntax::Html, '>') => Some((TagPhase::Opened, TagAction::Add)),
        (Syntax::Xhtml, '/' | '>') => None,
        _ if is_white_space(c) => Some((TagPhase::AfterKey, TagAction::Skip)),
        _ if continues_attribute(syntax, c) => Some((TagPhase::Key, TagAction::Key)),
        _ => None,
    }
}

fn after_key(syntax: Syntax, c: char) -> Option<(TagPhase, TagAction)>
    ensures { result ≡ tables.after_key syntax c }
{
    match syntax {
        _ if is_white_space(c) => Some((TagPhase::AfterKey, TagAction::Skip)),
        _ if c == '=' => Some((TagPhase::BeforeValue, TagAction::Skip)),
        Syntax::Xhtml => None,
        Syntax::Html if c == '/' => Some((TagPhase::Solidus, TagAction::Add)),
        Syntax::Html if c == '>' => Some((TagPhase::Opened, TagAction::Add)),
        Syntax::Html if begins_attribute(syntax, c) => Some((TagPhase::Key, TagAction::AddKey)),
        Syntax::Html => None,
    }
}

fn before_value(syntax: Syntax, c: char) -> Option<(TagPhase, TagAction)>
    ensures { result ≡ tables.before_value syntax c }
{
    match (syntax, c) {
        (_, '"') => Some((TagPhase::DoubleQuoted, TagAction::Skip)),
        (_, '\'') => Some((TagPhase::SingleQuoted, TagAction::Skip)),
        (_, '>') => None,
        _ if is_white_space(c) => Some((TagPhase::BeforeValue, TagAction::Skip)),
        (Syntax::Html, _) => Some((TagPhase::Unquoted, TagAction::Value)),
        (Syntax::Xhtml, _) => None,
    }
}

fn in_unquoted(c: char) -> (TagPhase, TagAction)
    ensures { Some result ≡ tables.in_unquoted c }
{
    if is_white_space(c) {
        (TagPhase::Gap, TagAction::Add)
    } else if c == '>' {
        (TagPhase::Opened, TagAction::Add)
    } else {
        (TagPhase::Unquoted, TagAction::Value)
    }
}

fn after_value(syntax: Syntax, c: char) -> Option<(TagPhase, TagAction)>
    ensures { result ≡ tables.after_value syntax c }
{
    match syntax {
        _ if is_white_space(c) => Some((TagPhase::Gap, TagAction::Skip)),
        _ if c == '/' => Some((TagPhase::Solidus, TagAction::Skip)),
        _ if c == '>' => Some((TagPhase::Opened, TagAction::Skip)),
        Syntax::Html if begins_attribute(syntax, c) => Some((TagPhase::Key, TagAction::Key)),
        _ => None,
    }
}

fn in_end_name(syntax: Syntax, c: char) -> Option<(TagPhase, TagAction)>
    ensures { result ≡ tables.in_end_name syntax c }
{
    match c {
        '>' => Some((TagPhase::Closed, TagAction::Skip)),
        _ if is_white_space(c) => Some((TagPhase::EndGap, TagAction::Skip)),
        _ if is_tag_char(syntax, c) => Some((TagPhase::EndName, TagAction::Name)),
        _ => None,
    }
}

fn in_end_gap(c: char) -> Option<(TagPhase, TagAction)>
    ensures { result ≡ tables.in_end_gap c }
{
    match c {
        '>' => Some((TagPhase::Closed, TagAction::Skip)),
        _ if is_white_space(c) => Some((TagPhase::EndGap, TagAction::Skip)),
        _ => None,
    }
}

/// Whether the tag is whole.
pub(crate) fn is_last(phase: TagPhase) -> bool
    ensures { result ≡ tables.is_last phase }
{
    matches!(
        phase,
        TagPhase::Opened | TagPhase::Emptied | TagPhase::Closed
    )
}
