//! Where the scanner stands.
ghost use Rattle.std.specs.Prelude.{◌≡◌, ◌+◌, ◌<◌, ◌^◌, false, nat_le};
ghost use Rattle.rx_scan.specs.Places as places;

use rx_chars::Syntax;
use rx_grammar::{Content, Limits};

/// How many bytes were taken, and what is known of them.
#[derive(Clone, Copy, Debug, PartialEq, Eq)]
pub(crate) struct Position {
    /// The bytes taken.
    pub(crate) at: u64,
    /// The first byte of the character that comes next, or that is begun.
    pub(crate) starts: u64,
    /// The first byte of the token that is begun.
    pub(crate) token: u64,
    /// Whether a character was read.
    pub(crate) started: bool,
    /// Whether the last one was a CR.
    pub(crate) after_return: bool,
    /// Whether the two tokens before the unfinished one are literal `]` of XHTML.
    pub(crate) two: bool,
    /// Whether the one before it is.
    pub(crate) last: bool,
}

/// What is read, and how.
#[derive(Clone, Copy, Debug, PartialEq, Eq)]
pub(crate) struct Setting {
    pub(crate) syntax: Syntax,
    pub(crate) limits: Limits,
    /// The content in which the next token stands.
    pub(crate) inside: Content,
    /// Whether a document type may come.
    pub(crate) leads: bool,
    /// Whether a line feed that comes next is dropped.
    pub(crate) drops: bool,
}

impl Position {
    /// Before the first byte.
    pub(crate) fn first() -> Position
        ensures { result ≡ places.page_start }
    {
        Position {
            at: 0,
            starts: 0,
            token: 0,
            started: false,
            after_return: false,
            two: false,
            last: false,
        }
    }

    /// Behind a byte of a character that isn't whole.
    pub(crate) fn holding(self) -> Position
        requires { self.at + 1 < 2 ^ 64 }
        ensures { result ≡ places.byte_held self }
    {
        Position {
            at: self.at + 1,
            ..self
        }
    }

    /// Behind a character that isn't entered.
    pub(crate) fn passed(self) -> Position
        requires { self.at + 1 < 2 ^ 64 }
        ensures { result ≡ places.entered false self }
    {
        self.entered(false)
    }

    /// Behind a character.
    pub(crate) fn entered(self, after_return: bool) -> Position
        requires { self.at + 1 < 2 ^ 64 }
        ensures { result ≡ places.entered after_return self }
    {
        Position {
            at: self.at + 1,
            starts: self.at + 1,
            started: true,
            after_return,
            ..self
        }
    }

    /// Behind the first character of a token.
    pub(crate) fn begun(self, after_return: bool) -> Position
        requires { self.at + 1 < 2 ^ 64 }
        ensures { result ≡ places.begun after_return self }
    {
        Position {
            token: self.starts,
            ..self.entered(after_return)
        }
    }

    /// Behind a token's last character; whether it is a literal `]` of XHTML.
    pub(crate) fn ended(self, after_return: bool, bracket: bool) -> Position
        requires { self.at + 1 < 2 ^ 64 }
        ensures { result ≡ places.ended after_return bracket self }
    {
        Position {
            two: self.last && bracket,
            last: bracket,
            ..self.entered(after_return)
        }
    }

    /// Behind so many characters of a tag of which each has one byte, and none is a CR.
    pub(crate) fn fed(self, count: u64) -> Position
        requires { self.at + count < 2 ^ 64 }
        ensures { result ≡ places.fed count self }
    {
        Position {
            at: self.at + count,
            starts: self.at + count,
            started: true,
            after_return: false,
            ..self
        }
    }

    /// Behind so many bytes of whole characters of text of which none is a CR or a `]`.
    pub(crate) fn said(self, count: u64) -> Position
        requires { self.at + count < 2 ^ 64 }
        ensures { result ≡ places.text_passed count self }
    {
        Position {
            at: self.at + count,
            starts: self.at + count,
            started: true,
            after_return: false,
            two: false,
            last: false,
            ..self
        }
    }

    /// Behind a token that the next character ends.
    pub(crate) fn cut(self) -> Position
        ensures { result ≡ places.cut self }
    {
        Position {
            two: false,
            last: false,
            ..self
        }
    }
}

/// Whether what begins at a byte has more than so many bytes, with the one at `at`.
pub(crate) fn reaches(first: u64, limit: u64, at: u64) -> bool
    ensures { result ≡ nat_le (first + limit) at }
{
    match at.checked_sub(first) {
        Some(before) => before >= limit,
        None => false,
    }
}
