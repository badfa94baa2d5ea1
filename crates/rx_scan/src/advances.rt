//! Characters with which a token begins or goes on.
ghost use Rattle.std.specs.Prelude.{◌+◌, ◌<◌, ◌^◌, IsOk};
ghost use Rattle.rx_scan.specs.Entries as entries;
ghost use Rattle.rx_tags.specs.TagBufs.{MayStep};

use crate::answers::TokenKind;
use crate::marks::{Brackets, Move, TokenState};
use crate::readers::Reader;
use rx_chars::Utf8;
use rx_tags::Stop;

impl Reader {
    pub(crate) fn begin(&mut self, after_return: bool, mark: TokenState) -> Result<TokenKind, Stop>
        requires may_step { MayStep self.old.pending.tag }
        requires room { self.old.place.at + 1 < 2 ^ 64 }
        ensures enters { entries.Enters self.old 0 after_return (Move.Begins mark) result self.new }
        ensures ok { IsOk result }
        ensures ready { entries.IsReady self.old result self.new }
    {
        self.pending.begin(mark);
        self.place = self.place.begun(after_return);
        self.utf8 = Utf8::new();
        Ok(TokenKind::Nothing)
    }

    pub(crate) fn go(&mut self, after_return: bool, mark: TokenState) -> Result<TokenKind, Stop>
        requires may_step { MayStep self.old.pending.tag }
        requires room { self.old.place.at + 1 < 2 ^ 64 }
        ensures does { entries.Enters self.old 0 after_return (Move.Continue mark) result self.new }
        ensures ready { entries.IsReady self.old result self.new }
    {
        self.pending.turn(mark);
        self.place = self.place.entered(after_return);
        self.utf8 = Utf8::new();
        Ok(TokenKind::Nothing)
    }

    pub(crate) fn keep(
        &mut self,
        c: char,
        after_return: bool,
        mark: TokenState,
    ) -> Result<TokenKind, Stop>
        requires may_step { MayStep self.old.pending.tag }
        requires room { self.old.place.at + 1 < 2 ^ 64 }
        ensures does { entries.Enters self.old c after_return (Move.Keeps mark) result self.new }
        ensures ready { entries.IsReady self.old result self.new }
    {
        self.pending.keep(mark, c)?;
        self.place = self.place.entered(after_return);
        self.utf8 = Utf8::new();
        Ok(TokenKind::Nothing)
    }

    pub(crate) fn keep_after(
        &mut self,
        c: char,
        after_return: bool,
        brackets: Brackets,
    ) -> Result<TokenKind, Stop>
        requires may_step { MayStep self.old.pending.tag }
        requires room { self.old.place.at + 1 < 2 ^ 64 }
        ensures does { entries.Enters self.old c after_return (Move.KeepsAfter brackets) result self.new }
        ensures ready { entries.IsReady self.old result self.new }
    {
        self.pending.keep_after(brackets, c)?;
        self.place = self.place.entered(after_return);
        self.utf8 = Utf8::new();
        Ok(TokenKind::Nothing)
    }
}
