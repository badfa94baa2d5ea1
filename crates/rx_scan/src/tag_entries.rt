//! Characters of a tag.
ghost use Rattle.std.specs.Prelude.{◌≡◌, ◌+◌, ◌<◌, ◌^◌, true};
ghost use Rattle.rx_reader.specs.Tables.{is_last};
ghost use Rattle.rx_scan.specs.Entries as entries;
ghost use Rattle.rx_tags.specs.TagBufs.{MayStep};

use crate::answers::TokenKind;
use crate::marks::TokenState;
use crate::readers::Reader;
use rx_chars::Utf8;
use rx_grammar::{Fault, Kind};
use rx_tags::{Stop, TagError, TagStep};

impl Reader {
    /// The tag that was read is whole.
    pub(crate) fn end_tag(&mut self, after_return: bool)
        requires last { is_last self.old.pending.tag.state.phase ≡ true }
        requires room { self.old.place.at + 1 < 2 ^ 64 }
        ensures { self.new ≡ entries.with_tag self.old after_return }
    {
        let closing = self.pending.is_closing();
        self.setting.pass_tag(closing);
        self.pending.turn(TokenState::Nothing);
        self.end = self.place.at;
        self.place = self.place.ended(after_return, false);
        self.utf8 = Utf8::new();
    }

    #[inline(always)]
    pub(crate) fn tag_on(&mut self, c: char, after_return: bool) -> Result<TokenKind, Stop>
        requires may_step { MayStep self.old.pending.tag }
        requires room { self.old.place.at + 1 < 2 ^ 64 }
        ensures does { entries.Tags self.old c after_return (entries.with_mark TokenState.Tag self.old.pending) result self.new }
        ensures ready { entries.IsReady self.old result self.new }
    {
        let fault = self.fault_at(Kind::BadTag);
        match self.pending.feed(TokenState::Tag, c) {
            Ok(TagStep::More) => {
                self.place = self.place.entered(after_return);
                self.utf8 = Utf8::new();
                Ok(TokenKind::Nothing)
            }
            Ok(TagStep::Done) => {
                self.end_tag(after_return);
                Ok(TokenKind::Tag)
            }
            Err(TagError::Bad(kind)) => Err(Stop::Fault(Fault { kind, ..fault })),
            Err(TagError::NoMemory) => Err(Stop::NoMemory),
        }
    }

    pub(crate) fn keep_tag(
        &mut self,
        c: char,
        after_return: bool,
        count: usize,
    ) -> Result<TokenKind, Stop>
        requires may_step { MayStep self.old.pending.tag }
        requires room { self.old.place.at + 1 < 2 ^ 64 }
        ensures does { entries.Tags self.old c after_return (entries.with_character (TokenState.RawEnd count) c self.old.pending) result self.new }
        ensures ready { entries.IsReady self.old result self.new }
    {
        let fault = self.fault_at(Kind::BadTag);
        if self.pending.keep(self.pending.mark(), c).is_err() {
            return Err(Stop::NoMemory);
        }
        match self.pending.feed(TokenState::RawEnd(count), c) {
            Ok(TagStep::More) => {
                self.place = self.place.entered(after_return);
                self.utf8 = Utf8::new();
                Ok(TokenKind::Nothing)
            }
            Ok(TagStep::Done) => {
                self.end_tag(after_return);
                Ok(TokenKind::Tag)
            }
            Err(TagError::Bad(kind)) => Err(Stop::Fault(Fault { kind, ..fault })),
            Err(TagError::NoMemory) => Err(Stop::NoMemory),
        }
    }
}
