//! References and line ends of CR and LF that stand whole in the piece, and the text around them. They are taken at once, so
//! that the text isn't cut.
ghost use Rattle.std.specs.Prelude.{◌≡◌, ◌+◌, ◌<◌, ◌≤◌, ◌==◌, true, ◌∷◌, MatchBool, length, take, IfSome};
ghost use Rattle.rx_terms.specs.Ascii.{ampersand};
ghost use Rattle.rx_grammar.specs.Spelling as spelling;
ghost use Rattle.rx_scan.specs.Fronts.{TellsPlain};
ghost use Rattle.rx_scan.specs.WholeReferences as references;

use crate::marks::TokenState;
use crate::phases::has_references;
use crate::readers::Reader;
use crate::runs::ROOM;
use rx_chars::Syntax;
use rx_reader::{RunMove, RunPhase};
use rx_tags::{meaning, run_move};

// One of those that stand most at the front: the character that it stands for, and how many bytes it has.
fn usual_reference(bytes: &[u8]) -> Option<(char, usize)>
    ensures { result ≡ references.usual_reference bytes.now }
{
    match bytes {
        [b'&', b'a', b'm', b'p', b';', ..] => Some(('&', 5)),
        [b'&', b'l', b't', b';', ..] => Some(('<', 4)),
        [b'&', b'g', b't', b';', ..] => Some(('>', 4)),
        [b'&', b'q', b'u', b'o', b't', b';', ..] => Some(('"', 6)),
        _ => None,
    }
}

// How many bytes stand behind an `&` through the `;` of its reference, or 0 where it is none.
fn body_length(bytes: &[u8]) -> usize
    ensures is { result ≡ references.body_length bytes.now }
    ensures fits { result ≤ length bytes.now }
{
    let mut phase = RunPhase::Ampersand;
    let mut count = 0;
    for byte in bytes {
        count += 1;
        match run_move(phase, char::from(*byte)) {
            RunMove::Goes(next) => phase = next,
            RunMove::Closes => return count,
            RunMove::Stops => return 0,
        }
    }
    0
}

// Any reference of four bytes or more, of a name or of a number, behind its `&`.
#[inline(never)]
fn other_reference(syntax: Syntax, behind: &[u8]) -> Option<(char, usize)>
    ensures { IfSome result (λ r. references.BeginsReference syntax (ampersand ∷ behind.now) r.0 r.1) }
{
    let count = body_length(behind);
    if count < 3 {
        return None;
    }
    let Ok(body) = str::from_utf8(&behind[..count - 1]) else {
        return None;
    };
    match meaning(syntax, body) {
        Some(c) => Some((c, count + 1)),
        None => None,
    }
}

// The reference at the front.
fn whole_reference(syntax: Syntax, bytes: &[u8]) -> Option<(char, usize)>
    ensures { IfSome result (λ r. references.BeginsReference syntax bytes.now r.0 r.1) }
{
    if let Some(found) = usual_reference(bytes) {
        return Some(found);
    }
    match bytes {
        [b'&', behind @ ..] => other_reference(syntax, behind),
        _ => None,
    }
}

// Whether a CR and an LF stand at the front.
fn begins_line_end(bytes: &[u8]) -> bool
    ensures { result ≡ true → references.BeginsLineEnd bytes.now }
{
    matches!(bytes, [b'\r', b'\n', ..])
}

// Whether a reference or a line end may stand there.
fn may_go_on(bytes: &[u8], at: usize) -> bool
    ensures { result ≡ true → at < length bytes.now }
{
    at < bytes.len() && matches!(bytes[at], b'&' | b'\r')
}

impl Reader {
    // Whether a reference is told at once where no token is begun.
    fn tells_references(&self) -> bool
        ensures plain { result ≡ true → TellsPlain self.now }
        ensures reads { result ≡ true → spelling.has_references self.now.setting.inside ≡ true }
    {
        self.tells_plain() && has_references(self.setting.inside)
    }

    // Takes the reference at the front, and tells how many bytes it has.
    fn say_reference(&mut self, bytes: &[u8]) -> usize
        requires between { self.old.pending.mark ≡ TokenState.Nothing }
        requires size { self.old.text.size + 4 ≤ ROOM }
        requires room { ROOM ≤ self.old.text.room }
        ensures fits { result ≤ length bytes.now }
        ensures size { self.new.text.size + 4 ≤ ROOM }
        ensures room { ROOM ≤ self.new.text.room }
        ensures says { MatchBool (result == 0) (self.new ≡ self.old) (references.TellsReference self.old (take result bytes.now) self.new) }
    {
        if !self.tells_references() {
            return 0;
        }
        let Some((c, count)) = whole_reference(self.setting.syntax, bytes) else {
            return 0;
        };
        if self.front_limit(bytes.len()) < count {
            return 0;
        }
        if self.text.push(c).is_err() {
            return 0;
        }
        self.place = self.place.said(count as u64);
        self.setting.drop_none();
        count
    }

    // Takes the line end at the front, which is one LF of text, and tells how many bytes it has.
    fn say_line_end(&mut self, bytes: &[u8]) -> usize
        requires between { self.old.pending.mark ≡ TokenState.Nothing }
        requires size { self.old.text.size + 4 ≤ ROOM }
        requires room { ROOM ≤ self.old.text.room }
        ensures fits { result ≤ length bytes.now }
        ensures size { self.new.text.size + 4 ≤ ROOM }
        ensures room { ROOM ≤ self.new.text.room }
        ensures says { MatchBool (result == 0) (self.new ≡ self.old) (references.TellsLineEnd self.old (take result bytes.now) self.new) }
    {
        if !self.tells_plain() {
            return 0;
        }
        if !begins_line_end(bytes) {
            return 0;
        }
        // As much room as any character may have.
        if self.front_limit(bytes.len()) < 4 {
            return 0;
        }
        if self.text.push('\n').is_err() {
            return 0;
        }
        self.place = self.place.said(2);
        self.setting.drop_none();
        2
    }

    // Takes the reference, the line end or the plain text at the front.
    fn say_one(&mut self, bytes: &[u8]) -> usize
        requires between { self.old.pending.mark ≡ TokenState.Nothing }
        requires size { self.old.text.size + 4 ≤ ROOM }
        requires room { ROOM ≤ self.old.text.room }
        ensures fits { result ≤ length bytes.now }
        ensures size { self.new.text.size + 4 ≤ ROOM }
        ensures room { ROOM ≤ self.new.text.room }
        ensures says { MatchBool (result == 0) (self.new ≡ self.old) (references.TellsOne self.old (take result bytes.now) self.new) }
    {
        match bytes.first() {
            None | Some(b'<') => 0,
            Some(b'&') => self.say_reference(bytes),
            Some(b'\r') => self.say_line_end(bytes),
            Some(_) => self.say_front(bytes),
        }
    }

    // Takes references, line ends and plain text one after another.
    #[inline(never)]
    fn say_more(&mut self, bytes: &[u8]) -> usize
        requires between { self.old.pending.mark ≡ TokenState.Nothing }
        requires size { self.old.text.size + 4 ≤ ROOM }
        requires room { ROOM ≤ self.old.text.room }
        ensures fits { result ≤ length bytes.now }
        ensures size { self.new.text.size + 4 ≤ ROOM }
        ensures room { ROOM ≤ self.new.text.room }
        ensures says { MatchBool (result == 0) (self.new ≡ self.old) (references.TellsText self.old (take result bytes.now) self.new) }
    {
        let mut taken = 0;
        while taken < bytes.len() {
            let count = self.say_one(&bytes[taken..]);
            if count == 0 {
                return taken;
            }
            taken += count;
        }
        taken
    }

    /// Takes plain text, references and line ends at the front, as far as there is room, and tells how many bytes they have.
    #[inline(always)]
    pub(crate) fn say_text(&mut self, bytes: &[u8]) -> usize
        requires between { self.old.pending.mark ≡ TokenState.Nothing }
        requires size { self.old.text.size + 4 ≤ ROOM }
        requires room { ROOM ≤ self.old.text.room }
        ensures fits { result ≤ length bytes.now }
        ensures size { self.new.text.size + 4 ≤ ROOM }
        ensures room { ROOM ≤ self.new.text.room }
        ensures says { MatchBool (result == 0) (self.new ≡ self.old) (references.TellsText self.old (take result bytes.now) self.new) }
    {
        let count = self.say_front(bytes);
        if !may_go_on(bytes, count) {
            return count;
        }
        let more = self.say_more(&bytes[count..]);
        count + more
    }
}
