//! Characters of text, by themselves, by a reference, and those that turn out to be text.
ghost use Rattle.std.specs.Prelude.{◌+◌, ◌<◌, ◌≤◌, ◌^◌, IsOk, OnOk};
ghost use Rattle.rx_scan.specs.Entries as entries;
ghost use Rattle.rx_tags.specs.TagBufs.{MayStep};

use crate::answers::TokenKind;
use crate::marks::{First, Move, TokenState};
use crate::moves::at_first;
use crate::phases::{first_char, phase_of};
use crate::places::Position;
use crate::readers::Reader;
use crate::settings::{is_bracket, is_dropped};
use rx_chars::Utf8;
use rx_tags::{Stop, meaning, no_meaning};
use rx_terms::NoMemory;

impl Reader {
    // One character of text, by itself or by a reference.
    pub(crate) fn say(&mut self, c: char, place: Position) -> Result<TokenKind, Stop>
        requires may_step { MayStep self.old.pending.tag }
        ensures says { entries.SaysCharacter self.old c place result self.new }
        ensures room { self.old.text.size + 4 ≤ self.old.text.room → IsOk result }
        ensures ready { entries.IsReady self.old result self.new }
    {
        let dropped = is_dropped(self.setting, c);
        if !dropped && self.text.push(c).is_err() {
            return Err(Stop::NoMemory);
        }
        self.setting.drop_none();
        self.place = place;
        self.pending.turn(TokenState::Nothing);
        self.utf8 = Utf8::new();
        if dropped {
            Ok(TokenKind::Skipped)
        } else {
            Ok(TokenKind::Nothing)
        }
    }

    pub(crate) fn close(&mut self, after_return: bool) -> Result<TokenKind, Stop>
        requires may_step { MayStep self.old.pending.tag }
        requires room { self.old.place.at + 1 < 2 ^ 64 }
        ensures does { entries.Enters self.old 0 after_return Move.Closes result self.new }
        ensures ready { entries.IsReady self.old result self.new }
    {
        match meaning(self.setting.syntax, self.pending.run().as_str()) {
            Some(c) => {
                let place = self.place.ended(after_return, false);
                self.say(c, place)
            }
            None => {
                let kind = no_meaning(phase_of(self.pending.mark()));
                Err(Stop::Fault(self.fault_at(kind)))
            }
        }
    }

    // The run before the character is text.
    pub(crate) fn stop(&mut self, c: char, after_return: bool) -> Result<TokenKind, Stop>
        requires may_step { MayStep self.old.pending.tag }
        requires room { self.old.place.at + 1 < 2 ^ 64 }
        ensures does { entries.Enters self.old c after_return Move.Reconsume result self.new }
        ensures ready { entries.IsReady self.old result self.new }
    {
        match at_first(self.setting.inside, c) {
            First::Begins(mark) => {
                if self.tell_run().is_err() {
                    return Err(Stop::NoMemory);
                }
                self.begin(after_return, mark)
            }
            First::EmitText => {
                if self.tell_run().is_err() {
                    return Err(Stop::NoMemory);
                }
                let place = self.place.ended(after_return, is_bracket(self.setting, c));
                self.say(c, place)
            }
            First::Refuses(kind) => Err(Stop::Fault(self.fault_at(kind))),
        }
    }

    fn tell_run(&mut self) -> Result<(), NoMemory>
        ensures told { OnOk result (entries.TellsRun self.old self.new) }
        ensures room { self.old.text.room ≤ self.new.text.room }
    {
        if self.text.push(first_char(self.pending.mark())).is_err() {
            return Err(NoMemory);
        }
        if self.text.push_all(self.pending.run()).is_err() {
            return Err(NoMemory);
        }
        self.setting.drop_none();
        self.place = self.place.cut();
        Ok(())
    }
}
