//! The last character of a token of which no text is told, or of a CDATA section.
ghost use Rattle.std.specs.Prelude.{◌+◌, ◌<◌, ◌^◌};
ghost use Rattle.rx_scan.specs.Entries as entries;
ghost use Rattle.rx_tags.specs.TagBufs.{MayStep};

use crate::answers::TokenKind;
use crate::marks::{TokenState, Whole};
use crate::readers::Reader;
use rx_chars::Utf8;
use rx_tags::Stop;

impl Reader {
    pub(crate) fn finish(&mut self, after_return: bool, whole: Whole) -> Result<TokenKind, Stop>
        requires may_step { MayStep self.old.pending.tag }
        requires room { self.old.place.at + 1 < 2 ^ 64 }
        ensures does { entries.TokenEnds self.old after_return whole result self.new }
        ensures ready { entries.IsReady self.old result self.new }
    {
        match whole {
            Whole::Doctype => self.setting.pass_doctype(),
            Whole::Comment | Whole::Section => self.setting.drop_none(),
        }
        self.place = self.place.ended(after_return, false);
        self.pending.turn(TokenState::Nothing);
        self.utf8 = Utf8::new();
        match whole {
            Whole::Doctype => Ok(TokenKind::Doctype),
            Whole::Section if !self.pending.run().is_empty() => Ok(TokenKind::Section),
            Whole::Comment | Whole::Section => Ok(TokenKind::Skipped),
        }
    }
}
