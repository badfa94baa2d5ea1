//! What a character does with regard to what stands before its token, and where a fault is.
ghost use Rattle.std.specs.Prelude.{◌≡◌};
ghost use Rattle.rx_scan.specs.Marks as marks;
ghost use Rattle.rx_scan.specs.Entries as entries;

use crate::marks::{First, Move, TokenState, Whole};
use crate::moves::{at_first, move_of};
use crate::places::{Position, Setting};
use crate::readers::Reader;
use rx_grammar::{Content, Fault, Kind};

// What stands before the token may refuse it: `]]` before `>` in text of XHTML, and all before a document type that
// isn't the first.
fn judged(setting: Setting, two: bool, c: char, move_: Move) -> Move
    ensures { result ≡ entries.judged setting two c move_ }
{
    match move_ {
        Move::EmitText if two && setting.inside == Content::Strict && c == '>' => {
            Move::Refuses(Kind::StrictText)
        }
        Move::Ends(Whole::Doctype) if !setting.leads => Move::Refuses(Kind::BadDoctype),
        other => other,
    }
}

fn token_from(mark: TokenState, place: Position) -> u64
    ensures { result ≡ entries.token_from mark place }
{
    match mark {
        TokenState::Nothing => place.starts,
        _ => place.token,
    }
}

impl Reader {
    pub(crate) fn move_at(&self, c: char) -> Move
        ensures { result ≡ entries.move_at self.now c }
    {
        let setting = self.setting;
        judged(
            setting,
            self.place.two,
            c,
            move_of(setting.syntax, setting.inside, self.pending.mark(), c),
        )
    }

    // The same between tokens.
    pub(crate) fn first_at(&self, c: char) -> First
        requires { self.now.pending.mark ≡ TokenState.Nothing }
        ensures { marks.of_first result ≡ entries.move_at self.now c }
    {
        let setting = self.setting;
        match at_first(setting.inside, c) {
            First::EmitText if self.place.two && setting.inside == Content::Strict && c == '>' => {
                First::Refuses(Kind::StrictText)
            }
            first => first,
        }
    }

    // The first byte of the token that the next character belongs to.
    pub(crate) fn token(&self) -> u64
        ensures { result ≡ entries.token_from self.now.pending.mark self.now.place }
    {
        token_from(self.pending.mark(), self.place)
    }

    // The fault that the next byte decides.
    pub(crate) fn fault_at(&self, kind: Kind) -> Fault
        ensures { result ≡ entries.fault_at self.now kind }
    {
        Fault {
            kind,
            token: self.token(),
            at: self.place.at,
        }
    }
}
