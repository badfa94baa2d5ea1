//! The scanner.
ghost use Rattle.std.specs.Prelude.{◌≡◌, true, false, IfOk};

use crate::answers::{Token, TokenKind};
use crate::buffers::Buffer;
use crate::latch::Latch;
use crate::marks::TokenState;
use crate::pending::Unfinished;
use crate::places::{Position, Setting};
use crate::readers::Reader;
use crate::runs::ROOM;
use rx_chars::{Syntax, Utf8};
use rx_grammar::{Content, Kind, Limits};
use rx_tags::{Stop, Tag};
use rx_terms::NoMemory;
use std::alloc::Global;
use std::marker::Model;

/// Reads a page's bytes in pieces, and tells its tokens. A contract sees what it stands for: the place, the bytes of a
/// character that isn't whole, and the characters since the last token; and whether a fault or want of memory was
/// answered, which then comes again.
#[derive(Drop)]
pub struct Scan {
    reader: Reader,
    what: TokenKind,
    stepped: bool,
    latch: Latch,
}

impl Model for Scan {
    ghost use Rattle.rx_scan.specs.Scanner.{Scanner};
    ghost use Rattle.rx_scan.specs.Steps.{MayShow};

    ghost Value = { Scanner };

    ghost view = { λ s. record { reading = s.reader; what = s.what; stepped = s.stepped; failed = s.latch.failed; out_of_memory = s.latch.out_of_memory } };

    ghost invariant = { λ s. MayShow s.what s.stepped s.latch.failed s.reader };
}

impl Scan {
    ghost use Rattle.rx_pages.specs.PageReader.{Scanning, no_bytes};
    ghost use Rattle.rx_scan.specs.Steps.{ScanStands, first_setting, is_of_syntax, may_enter, moved_inside, Finishes};

    /// Before the first byte of a page, in content Outside. It takes the memory of the buffer through which text is
    /// handed out, so text by itself asks for no memory later.
    pub fn new(alloc: Global, syntax: Syntax, limits: Limits) -> Result<Scan, NoMemory>
        ensures setting { IfOk result (λ v. v.reading.setting ≡ first_setting syntax limits) }
        ensures stands { IfOk result (λ v. ScanStands v no_bytes) }
        ensures enter { IfOk result (λ v. v.stepped ≡ false) }
        ensures nothing { IfOk result (λ v. v.what ≡ TokenKind.Nothing) }
    {
        let text = Buffer::with_room(alloc, ROOM)?;
        let pending = Unfinished::new(alloc, syntax)?;
        let setting = Setting {
            syntax,
            limits,
            inside: Content::Outside,
            leads: true,
            drops: false,
        };
        Ok(Scan {
            reader: Reader {
                setting,
                place: Position::first(),
                utf8: Utf8::new(),
                pending,
                text,
                end: 0,
            },
            what: TokenKind::Nothing,
            stepped: false,
            latch: Latch::new(),
        })
    }

    /// Sets the content for what follows, and whether a line feed that comes next is dropped. It may be called where the
    /// last step answered a tag or no step was made, with a content of the syntax.
    pub fn enter(&mut self, content: Content, drop_newline: bool)
        requires between { may_enter self.old ≡ true }
        requires content { is_of_syntax self.old.reading.setting.syntax content ≡ true }
        ensures new { self.new ≡ moved_inside content drop_newline self.old }
        ensures stands { (s : Scanning) → ScanStands self.old s → ScanStands self.new s }
    {
        self.set(content, drop_newline);
    }

    fn set(&mut self, content: Content, drop_newline: bool)
        ensures new { self.new ≡ moved_inside content drop_newline self.old }
        ensures between { may_enter self.old ≡ true → self.old.reading.pending.mark ≡ TokenState.Nothing }
    {
        self.reader.setting.inside = content;
        self.reader.setting.drops = drop_newline;
    }

    /// The page's end. Unended comes exactly where a token is unfinished, and then at each later call.
    pub fn end(&mut self) -> Result<(), Stop>
        ensures { Finishes self.old result self.new }
    {
        self.latch.repeat()?;
        if self.reader.is_whole() {
            return Ok(());
        }
        let stop = Stop::Fault(self.reader.fault_at(Kind::Unended));
        self.latch.keep(stop);
        Err(stop)
    }

    /// The number of bytes taken.
    pub fn place(&self) -> u64
        ensures place { result ≡ self.now.reading.place.at }
        ensures taken { (s : Scanning) → ScanStands self.now s → result ≡ s.at }
    {
        self.reader.place.at
    }
}

impl Scan {
    ghost use Rattle.rx_pages.specs.PageReader.{Scanning};
    ghost use Rattle.std.specs.Borrow.{sem};
    ghost use Rattle.std.specs.Io.BufRead.{Rests};
    ghost use Rattle.rx_scan.specs.contracts.scans.Scan.{the_row};
    ghost use Rattle.std.specs.Prelude.{[], None, Some, OnOk};
    ghost use Rattle.rx_reader.specs.TagReader.{parts_of};
    ghost use Rattle.rx_scan.specs.Steps.{ScanStands, StepsOn, IsQuiet, NoTagOfText, KeepsStop, KeepsOn, Advances, Prepared, FailsBy, LiesThere, Shows, ShowsTag, IsLastTag, is_tag, shows_tag};

    // What the last step told is forgotten.
    fn prepare(&mut self)
        ensures { Prepared self.old self.new }
    {
        if self.what == TokenKind::Tag {
            self.reader.pending.forget_tag();
        }
        self.reader.text.clear();
        self.what = TokenKind::Nothing;
        self.stepped = true;
    }

    // Answers this from now on.
    fn fail(&mut self, stop: Stop)
        requires nothing { self.old.what ≡ TokenKind.Nothing }
        requires place { LiesThere stop self.old.reading.place.at }
        ensures { FailsBy stop self.old self.new }
    {
        self.latch.keep(stop);
    }

    fn advance(&mut self, piece: &[u8]) -> Result<usize, Stop>
        ensures steps { (s : Scanning) → ScanStands self.old s → Advances self.old s piece.now result self.new }
        ensures keeps { KeepsOn self.old piece.now result self.new }
        ensures quiet { IsQuiet self.old piece.now result }
        ensures quiet_tells { NoTagOfText self.old piece.now (OnOk result (is_tag self.new.what ≡ false)) }
    {
        self.prepare();
        self.latch.repeat()?;
        match self.reader.run(piece) {
            Ok((taken, what)) => {
                self.what = what;
                Ok(taken)
            }
            Err(stop) => {
                self.reader.pending.forget_tag();
                self.fail(stop);
                Err(stop)
            }
        }
    }

    /// Takes bytes of the piece up to the end of a token, or all of them, and tells how many and what they are.
    ///
    /// `More` comes exactly where the whole piece was taken and no token is complete. A fault comes exactly where the
    /// scanner's reading has one in the bytes so far, before a token is complete, and then at each later call. After
    /// want of memory nothing else is answered. Text by itself takes no memory, and answers no tag.
    pub fn step(&mut self, piece: &[u8]) -> Result<(usize, Token<'_>), Stop>
        ensures* after { sem 𝓛 (Rests the_row self.entry (λ new. KeepsStop self.old piece.now result new × StepsOn self.old piece.now result new)) }
        ensures quiet { IsQuiet self.old piece.now result }
        ensures quiet_tells { NoTagOfText self.old piece.now (IfOk result (λ r. shows_tag r.1 ≡ false)) }
    {
        let taken = self.advance(piece)?;
        Ok((taken, self.token()))
    }

    /// What the last step answered, for a caller that has let go of it.
    pub fn token(&self) -> Token<'_>
        ensures { Shows self.now.what self.now.reading result }
    {
        match self.what {
            TokenKind::Nothing => Token::More,
            TokenKind::Skipped => Token::Skipped,
            TokenKind::Doctype => Token::Doctype,
            TokenKind::Text => Token::Text(self.reader.text.as_str()),
            TokenKind::Section => Token::Text(self.reader.pending.run().as_str()),
            TokenKind::Tag => self.shown_tag(),
        }
    }

    fn tag(&self) -> Tag<'_>
        requires { self.now.what ≡ TokenKind.Tag }
        ensures { ShowsTag self.now.reading (parts_of self.now.reading.pending.tag.state).closing result }
    {
        self.reader
            .pending
            .tag(self.reader.place.token, self.reader.end)
    }

    fn shown_tag(&self) -> Token<'_>
        requires { self.now.what ≡ TokenKind.Tag }
        ensures { Shows TokenKind.Tag self.now.reading result }
    {
        let tag = self.tag();
        if tag.closing() {
            Token::End(tag)
        } else {
            Token::Start(tag)
        }
    }

    /// The tag that the last step answered, or none where it answered no tag, or no step was made.
    pub fn last(&self) -> Option<Tag<'_>>
        ensures { IsLastTag self.now result }
    {
        if self.what == TokenKind::Tag {
            Some(self.tag())
        } else {
            None
        }
    }
}
