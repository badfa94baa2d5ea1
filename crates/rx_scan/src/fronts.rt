//! Plain text at the front of some bytes, and characters of a tag, which are taken at once.
ghost use Rattle.std.specs.Prelude.{◌≡◌, ◌+◌, ◌<◌, ◌≤◌, ◌^◌, true, ◌==◌, MatchBool, length, take};
ghost use Rattle.rx_tags.specs.TagBufs.{MayStep};
ghost use Rattle.rx_scan.specs.Fronts.{FeedsFront, MayBeTold, TellsFront, TellsPlain, tells_text};
ghost use Rattle.rx_scan.specs.Openings.{OpensFront, OpensTag, ReadsFront};
ghost use Rattle.rx_scan.specs.WholeReferences.{TellsText};
ghost use Rattle.rx_scan.specs.declared.places.Setting.{Setting};

use crate::bytes::is_of_tag;
use crate::marks::TokenState;
use crate::plain::plain_text;
use crate::readers::Reader;
use crate::runs::ROOM;
use rx_grammar::Content;

// Outside the root white space alone is text.
fn has_text(inside: Content) -> bool
    ensures { result ≡ tells_text inside }
{
    inside != Content::Outside
}

/// The lesser of both.
pub(crate) fn at_most(most: u64, length: usize) -> usize
    ensures most { result ≤ most }
    ensures fits { result ≤ length }
{
    if most < length as u64 {
        most as usize
    } else {
        length
    }
}

// What is left of so many bytes behind those that are taken.
fn left_of(most: u64, taken: u64) -> u64
    ensures most { 0 < result → taken + result ≤ most }
    ensures place { 0 < result → taken + result < 2 ^ 64 }
{
    most.saturating_sub(taken)
}

/// Whether the first byte behind a `<` surely begins a tag.
pub(crate) fn opens_tag(bytes: &[u8]) -> bool
    ensures { result ≡ true → (setting : Setting) → OpensTag setting bytes.now }
{
    match bytes.first() {
        Some(byte) => is_of_tag(TokenState::LessThan, char::from(*byte)),
        None => false,
    }
}

impl Reader {
    /// Takes the characters at the front that may be taken at once, of text as far as it has room or of a tag, and tells
    /// how many bytes they have.
    #[inline(always)]
    pub(crate) fn take_front(&mut self, bytes: &[u8]) -> usize
        requires may_step { MayStep self.old.pending.tag }
        requires size { self.old.text.size + 4 ≤ ROOM }
        requires room { ROOM ≤ self.old.text.room }
        ensures fits { result ≤ length bytes.now }
        ensures size { self.new.text.size + 4 ≤ ROOM }
        ensures room { ROOM ≤ self.new.text.room }
        ensures takes { MatchBool (result == 0) (self.new ≡ self.old) (ReadsFront self.old (take result bytes.now) self.new) }
    {
        match self.pending.mark() {
            TokenState::Nothing => self.tell_front(bytes),
            TokenState::Tag => self.feed_front(bytes),
            TokenState::LessThan => self.open_front(bytes),
            _ => 0,
        }
    }

    /// How many bytes of a tag are past neither the page's limit nor the tag's.
    pub(crate) fn tag_limit(&self, length: usize) -> usize
        ensures fits { result ≤ length }
        ensures page { 0 < result → self.now.place.at + result ≤ self.now.setting.limits.page }
        ensures tag { 0 < result → self.now.place.at + result ≤ self.now.place.token + self.now.setting.limits.tag }
        ensures room { self.now.place.at + result < 2 ^ 64 }
    {
        let read = self.place.at.saturating_sub(self.place.token);
        let tag = self.setting.limits.tag.saturating_sub(read);
        let rest = self.setting.limits.page.saturating_sub(self.place.at);
        at_most(tag, at_most(rest, length))
    }

    // Takes the characters at the front with which the tag goes on, and tells how many.
    #[inline(never)]
    fn feed_front(&mut self, bytes: &[u8]) -> usize
        requires in_tag { self.old.pending.mark ≡ TokenState.Tag }
        requires may_step { MayStep self.old.pending.tag }
        ensures fits { result ≤ length bytes.now }
        ensures text { self.new.text ≡ self.old.text }
        ensures feeds { MatchBool (result == 0) (self.new ≡ self.old) (FeedsFront self.old (take result bytes.now) self.new) }
    {
        if !self.utf8.is_whole() {
            return 0;
        }
        let limit = self.tag_limit(bytes.len());
        let count = self.pending.feed_front(&bytes[..limit]);
        if count == 0 {
            return 0;
        }
        self.place = self.place.fed(count as u64);
        count
    }

    // Takes the characters at the front with which a tag begins behind its `<`, and tells how many.
    #[inline(always)]
    fn open_front(&mut self, bytes: &[u8]) -> usize
        requires opened { self.old.pending.mark ≡ TokenState.LessThan }
        requires may_step { MayStep self.old.pending.tag }
        ensures fits { result ≤ length bytes.now }
        ensures text { self.new.text ≡ self.old.text }
        ensures opens { MatchBool (result == 0) (self.new ≡ self.old) (OpensFront self.old (take result bytes.now) self.new) }
    {
        if !opens_tag(bytes) {
            return 0;
        }
        self.pending.turn(TokenState::Tag);
        let count = self.feed_front(bytes);
        if count == 0 {
            self.pending.turn(TokenState::LessThan);
            return 0;
        }
        count
    }

    /// How many bytes of text have room, and aren't past the page's limit.
    pub(crate) fn front_limit(&self, length: usize) -> usize
        requires { self.now.text.size + 4 ≤ ROOM }
        ensures fits { result ≤ length }
        ensures room { (self.now.text.size + result) + 4 ≤ ROOM }
        ensures page { 0 < result → self.now.place.at + result ≤ self.now.setting.limits.page }
        ensures place { 0 < result → self.now.place.at + result < 2 ^ 64 }
    {
        let room = ROOM - 4 - self.text.len();
        let rest = left_of(self.setting.limits.page, self.place.at);
        at_most(rest, at_most(room as u64, length))
    }

    /// Whether plain text is told at once where no token is begun. A byte order mark may stand first, and a line feed may be
    /// dropped or belong to a CR before it.
    pub(crate) fn tells_plain(&self) -> bool
        ensures { result ≡ true → TellsPlain self.now }
    {
        if !self.utf8.is_whole() {
            return false;
        }
        if self.setting.drops || self.place.after_return || !self.place.started {
            return false;
        }
        has_text(self.setting.inside)
    }

    // The text at the front that is told at once.
    fn front<'a>(&self, bytes: &'a [u8]) -> &'a str
        requires between { self.now.pending.mark ≡ TokenState.Nothing }
        requires size { self.now.text.size + 4 ≤ ROOM }
        ensures front { result.now ≡ take (length result.now) bytes.now }
        ensures room { (self.now.text.size + length result.now) + 4 ≤ ROOM }
        ensures may { 0 < length result.now → MayBeTold self.now result.now }
        ensures place { 0 < length result.now → self.now.place.at + length result.now < 2 ^ 64 }
    {
        if !self.tells_plain() {
            return "";
        }
        plain_text(&bytes[..self.front_limit(bytes.len())])
    }

    // Takes the text at the front. Where a tag comes next, which is often, nothing else is looked at.
    #[inline(always)]
    fn tell_front(&mut self, bytes: &[u8]) -> usize
        requires between { self.old.pending.mark ≡ TokenState.Nothing }
        requires size { self.old.text.size + 4 ≤ ROOM }
        requires room { ROOM ≤ self.old.text.room }
        ensures fits { result ≤ length bytes.now }
        ensures size { self.new.text.size + 4 ≤ ROOM }
        ensures room { ROOM ≤ self.new.text.room }
        ensures says { MatchBool (result == 0) (self.new ≡ self.old) (TellsText self.old (take result bytes.now) self.new) }
    {
        if matches!(bytes.first(), None | Some(b'<')) {
            return 0;
        }
        self.say_text(bytes)
    }

    /// Takes the plain text at the front, as far as it has room, and tells how many bytes it has.
    #[inline(never)]
    pub(crate) fn say_front(&mut self, bytes: &[u8]) -> usize
        requires between { self.old.pending.mark ≡ TokenState.Nothing }
        requires size { self.old.text.size + 4 ≤ ROOM }
        requires room { ROOM ≤ self.old.text.room }
        ensures fits { result ≤ length bytes.now }
        ensures size { self.new.text.size + 4 ≤ ROOM }
        ensures room { ROOM ≤ self.new.text.room }
        ensures says { MatchBool (result == 0) (self.new ≡ self.old) (TellsFront self.old (take result bytes.now) self.new) }
    {
        let text = self.front(bytes);
        let count = text.len();
        if count == 0 {
            return 0;
        }
        if self.text.push_text(text).is_err() {
            return 0;
        }
        self.place = self.place.said(count as u64);
        self.setting.drop_none();
        count
    }
}
