//! What the scanner does with one byte.
ghost use Rattle.std.specs.Prelude.{◌≡◌, ◌+◌, ◌<◌, ◌^◌, true, [], ◌∷◌, ◌++◌, IfSome};
ghost use Rattle.rx_chars.specs.Characters as characters;
ghost use Rattle.rx_chars.specs.Utf8.{answer_of};
ghost use Rattle.rx_scan.specs.Bytes as bytes;
ghost use Rattle.rx_scan.specs.Entries as entries;
ghost use Rattle.rx_scan.specs.declared.places.Setting.{Setting};
ghost use Rattle.rx_tags.specs.TagBufs.{MayStep};

use crate::answers::TokenKind;
use crate::known_tags::{is_tag, is_tag_with};
use crate::marks::TokenState;
use crate::places::{Position, reaches};
use crate::readers::Reader;
use rx_chars::{Utf8, Utf8Step};
use rx_grammar::Kind;
use rx_tags::{Stop, is_letter};

fn is_passed(place: Position, c: char) -> bool
    ensures { result ≡ entries.passes_over place c }
{
    !place.started && c == '\u{FEFF}' || place.after_return && c == '\n'
}

fn as_line_end(c: char) -> char
    ensures { result ≡ characters.as_line_end c }
{
    if c == '\r' { '\n' } else { c }
}

fn is_mark(c: char) -> TokenKind
    ensures { result ≡ entries.kind_of_mark c }
{
    if c == '\u{FEFF}' {
        TokenKind::Skipped
    } else {
        TokenKind::Nothing
    }
}

/// Whether a character that is printed surely belongs to a tag.
pub(crate) fn is_of_tag(mark: TokenState, c: char) -> bool
    ensures { result ≡ true → (setting : Setting) → bytes.IsOfTag setting mark c }
{
    if matches!(mark, TokenState::Tag) {
        return matches!(c, ' '..='~');
    }
    matches!(mark, TokenState::LessThan) && (c == '/' || is_letter(c))
}

// Whether the byte is a character of its own.
fn is_alone(utf8: &Utf8, byte: u8) -> bool
    ensures { result ≡ true → (utf8.now ≡ []) × (byte < 128) }
{
    byte.is_ascii() && utf8.is_whole()
}

// The character that the byte is by itself. Most bytes are one.
#[inline(always)]
fn alone(utf8: &Utf8, byte: u8) -> Option<char>
    ensures { IfSome result (λ c. Utf8Step.Char c ≡ answer_of (utf8.now ++ byte ∷ [])) }
{
    if is_alone(utf8, byte) {
        return Some(char::from(byte));
    }
    None
}

fn hold_byte(utf8: &mut Utf8, byte: u8)
    requires { answer_of (utf8.old ++ byte ∷ []) ≡ Utf8Step.More }
    ensures { utf8.new ≡ utf8.old ++ byte ∷ [] }
{
    utf8.step(byte);
}

impl Reader {
    // Whether with the next byte a tag has too many, where it is known to be one.
    fn is_long(&self, known: bool) -> bool
        ensures { result ≡ entries.is_long self.now known }
    {
        known && reaches(self.token(), self.setting.limits.tag, self.place.at)
    }

    fn pass(&mut self)
        requires { self.old.place.at + 1 < 2 ^ 64 }
        ensures { self.new ≡ entries.with_passed self.old }
    {
        self.place = self.place.passed();
        self.utf8 = Utf8::new();
    }

    fn read_char(&mut self, c: char) -> Result<TokenKind, Stop>
        requires may_step { MayStep self.old.pending.tag }
        requires room { self.old.place.at + 1 < 2 ^ 64 }
        ensures reads { entries.ReadsChar self.old c result self.new }
        ensures between { self.old.pending.mark ≡ TokenState.Nothing → entries.Between self.old result self.new }
        ensures ready { entries.IsReady self.old result self.new }
    {
        if is_passed(self.place, c) {
            self.pass();
            return Ok(is_mark(c));
        }
        let value = as_line_end(c);
        let setting = self.setting;
        if self.is_long(is_tag_with(setting.syntax, setting.inside, self.pending.mark(), value)) {
            return Err(Stop::Fault(self.fault_at(Kind::TagTooLong)));
        }
        self.read_entry(value, c == '\r')
    }

    // Whether the character surely belongs to a tag.
    fn is_in_tag(&self, c: char) -> bool
        ensures { result ≡ true → bytes.IsOfTag self.now.setting self.now.pending.mark c }
    {
        is_of_tag(self.pending.mark(), c)
    }

    // A character of a tag that is no CR and no NUL.
    #[inline(always)]
    fn read_of_tag(&mut self, c: char) -> Result<TokenKind, Stop>
        requires may_step { MayStep self.old.pending.tag }
        requires room { self.old.place.at + 1 < 2 ^ 64 }
        requires of_tag { bytes.IsOfTag self.old.setting self.old.pending.mark c }
        ensures reads { entries.ReadsAnswer self.old [] (Utf8Step.Char c) result self.new }
        ensures ready { entries.IsReady self.old result self.new }
    {
        if self.is_long(true) {
            return Err(Stop::Fault(self.fault_at(Kind::TagTooLong)));
        }
        self.tag_on(c, false)
    }

    // A `<` between tokens.
    #[inline(always)]
    fn read_less_than(&mut self) -> Result<TokenKind, Stop>
        requires may_step { MayStep self.old.pending.tag }
        requires nothing { self.old.pending.mark ≡ TokenState.Nothing }
        requires room { self.old.place.at + 1 < 2 ^ 64 }
        ensures reads { entries.ReadsAnswer self.old [] (Utf8Step.Char 60) result self.new }
        ensures between { entries.Between self.old result self.new }
        ensures ready { entries.IsReady self.old result self.new }
    {
        self.read_first('<', false)
    }

    fn read_any(&mut self, c: char) -> Result<TokenKind, Stop>
        requires may_step { MayStep self.old.pending.tag }
        requires room { self.old.place.at + 1 < 2 ^ 64 }
        ensures reads { entries.ReadsAnswer self.old [] (Utf8Step.Char c) result self.new }
        ensures between { self.old.pending.mark ≡ TokenState.Nothing → entries.Between self.old result self.new }
        ensures ready { entries.IsReady self.old result self.new }
    {
        if c == '\0' {
            return Err(Stop::Fault(self.fault_at(Kind::Nul)));
        }
        if self.is_long(is_tag(self.pending.mark())) {
            return Err(Stop::Fault(self.fault_at(Kind::TagTooLong)));
        }
        self.read_char(c)
    }

    fn hold(&mut self, byte: u8) -> Result<TokenKind, Stop>
        requires may_step { MayStep self.old.pending.tag }
        requires room { self.old.place.at + 1 < 2 ^ 64 }
        requires begun { answer_of (self.old.held ++ byte ∷ []) ≡ Utf8Step.More }
        ensures reads { entries.ReadsAnswer self.old (self.old.held ++ byte ∷ []) Utf8Step.More result self.new }
        ensures between { self.old.pending.mark ≡ TokenState.Nothing → entries.Between self.old result self.new }
        ensures ready { entries.IsReady self.old result self.new }
    {
        if self.is_long(is_tag(self.pending.mark())) {
            return Err(Stop::Fault(self.fault_at(Kind::TagTooLong)));
        }
        hold_byte(&mut self.utf8, byte);
        self.place = self.place.holding();
        Ok(TokenKind::Nothing)
    }

    // Any byte, where the page may have one more.
    #[inline(never)]
    fn read_rare(&mut self, byte: u8) -> Result<TokenKind, Stop>
        requires may_step { MayStep self.old.pending.tag }
        requires room { self.old.place.at + 1 < 2 ^ 64 }
        ensures reads { entries.ReadsAnswer self.old (self.old.held ++ byte ∷ []) (answer_of (self.old.held ++ byte ∷ [])) result self.new }
        ensures between { self.old.pending.mark ≡ TokenState.Nothing → entries.Between self.old result self.new }
        ensures ready { entries.IsReady self.old result self.new }
    {
        match self.utf8.peek(byte) {
            Utf8Step::Bad => Err(Stop::Fault(self.fault_at(Kind::NotUtf8))),
            Utf8Step::Char(c) => self.read_any(c),
            Utf8Step::More => self.hold(byte),
        }
    }

    // The same. What is rare is called apart, and its answer is made again, so that what is common stays in registers.
    #[inline(always)]
    fn read_apart(&mut self, byte: u8) -> Result<TokenKind, Stop>
        requires may_step { MayStep self.old.pending.tag }
        requires room { self.old.place.at + 1 < 2 ^ 64 }
        ensures reads { entries.ReadsAnswer self.old (self.old.held ++ byte ∷ []) (answer_of (self.old.held ++ byte ∷ [])) result self.new }
        ensures between { self.old.pending.mark ≡ TokenState.Nothing → entries.Between self.old result self.new }
        ensures ready { entries.IsReady self.old result self.new }
    {
        match self.read_rare(byte) {
            Ok(what) => Ok(what),
            Err(stop) => Err(stop),
        }
    }

    /// Reads one more byte. At a fault nothing is changed where no token is begun. Most bytes that are read one by one are
    /// of tags, and are told first.
    pub(crate) fn read(&mut self, byte: u8) -> Result<TokenKind, Stop>
        requires { MayStep self.old.pending.tag }
        ensures reads { entries.ReadsByte self.old byte result self.new }
        ensures between { self.old.pending.mark ≡ TokenState.Nothing → entries.Between self.old result self.new }
        ensures ready { entries.IsReady self.old result self.new }
    {
        if self.place.at >= self.setting.limits.page {
            return Err(Stop::Fault(self.fault_at(Kind::PageTooLong)));
        }
        if let Some(c) = alone(&self.utf8, byte) {
            if c == '<' && matches!(self.pending.mark(), TokenState::Nothing) {
                return self.read_less_than();
            }
            if self.is_in_tag(c) {
                return self.read_of_tag(c);
            }
        }
        self.read_apart(byte)
    }
}
