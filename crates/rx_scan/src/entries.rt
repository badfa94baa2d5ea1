//! What the scanner does with one character.
ghost use Rattle.std.specs.Prelude.{◌≡◌, ◌+◌, ◌<◌, ◌^◌};
ghost use Rattle.rx_scan.specs.Entries as entries;
ghost use Rattle.rx_tags.specs.TagBufs.{MayStep};

use crate::answers::TokenKind;
use crate::marks::{First, Move, TokenState};
use crate::readers::Reader;
use crate::settings::is_bracket;
use rx_tags::Stop;

impl Reader {
    // The next character, as an LF where it ends a line.
    pub(crate) fn read_entry(&mut self, c: char, after_return: bool) -> Result<TokenKind, Stop>
        requires may_step { MayStep self.old.pending.tag }
        requires room { self.old.place.at + 1 < 2 ^ 64 }
        ensures enters { entries.Enters self.old c after_return (entries.move_at self.old c) result self.new }
        ensures between { self.old.pending.mark ≡ TokenState.Nothing → entries.Between self.old result self.new }
        ensures ready { entries.IsReady self.old result self.new }
    {
        match self.pending.mark() {
            TokenState::Nothing => self.read_first(c, after_return),
            _ => self.read_further(c, after_return),
        }
    }

    pub(crate) fn read_first(&mut self, c: char, after_return: bool) -> Result<TokenKind, Stop>
        requires may_step { MayStep self.old.pending.tag }
        requires nothing { self.old.pending.mark ≡ TokenState.Nothing }
        requires room { self.old.place.at + 1 < 2 ^ 64 }
        ensures enters { entries.Enters self.old c after_return (entries.move_at self.old c) result self.new }
        ensures between { entries.Between self.old result self.new }
        ensures ready { entries.IsReady self.old result self.new }
    {
        match self.first_at(c) {
            First::Begins(mark) => self.begin(after_return, mark),
            First::EmitText => {
                let place = self.place.ended(after_return, is_bracket(self.setting, c));
                self.say(c, place)
            }
            First::Refuses(kind) => Err(Stop::Fault(self.fault_at(kind))),
        }
    }

    fn read_further(&mut self, c: char, after_return: bool) -> Result<TokenKind, Stop>
        requires may_step { MayStep self.old.pending.tag }
        requires room { self.old.place.at + 1 < 2 ^ 64 }
        ensures does { entries.Enters self.old c after_return (entries.move_at self.old c) result self.new }
        ensures ready { entries.IsReady self.old result self.new }
    {
        match self.move_at(c) {
            Move::Begins(mark) => self.begin(after_return, mark),
            Move::Continue(mark) => self.go(after_return, mark),
            Move::Keeps(mark) => self.keep(c, after_return, mark),
            Move::KeepsAfter(brackets) => self.keep_after(c, after_return, brackets),
            Move::Tags => self.tag_on(c, after_return),
            Move::KeepsTag(count) => self.keep_tag(c, after_return, count),
            Move::EmitText => {
                let place = self.place.ended(after_return, is_bracket(self.setting, c));
                self.say(c, place)
            }
            Move::Ends(whole) => self.finish(after_return, whole),
            Move::Closes => self.close(after_return),
            Move::Reconsume => self.stop(c, after_return),
            Move::Refuses(kind) => Err(Stop::Fault(self.fault_at(kind))),
        }
    }
}
