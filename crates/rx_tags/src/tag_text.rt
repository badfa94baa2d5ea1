//! The text of one tag, read a character at a time.
ghost use Rattle.std.specs.Prelude.{◌≡◌, ◌≤◌, true, [], ◌∷◌, ◌++◌, ◌&&◌, not, length, IfErr, OnErr, OnOk};
ghost use Rattle.std.specs.Str.{chars};
ghost use Rattle.rx_reader.specs.Tables.{is_html_syntax};
ghost use Rattle.rx_reader.specs.Values.{no_value_yet};
ghost use Rattle.rx_tags.specs.TagReads.{ActGives, CanEnd, TagReadEndGives};

use crate::fronts::{
    closed, ends_value, is_naming, is_printed, is_quoted, named, opens_key, skip, small_length,
    whole_lengths,
};
use crate::moves::{is_last, move_at};
use crate::pairs::{Pairs, TagError};
use crate::tag_name::TagName;
use crate::values::cased;
use rx_chars::Syntax;
use rx_grammar::Kind;
use rx_reader::{TagAction, TagPhase};
use rx_terms::NoMemory;
use std::alloc::Global;
use std::marker::Model;

/// What one more character makes of a tag.
#[derive(Clone, Copy, Debug, PartialEq, Eq)]
pub enum TagStep {
    /// The tag goes on.
    More,
    /// The character was the tag's `>`.
    Done,
}

/// The characters of one tag after its `<`, as far as they were read. Names and values are decoded into one buffer.
#[derive(Drop)]
pub(crate) struct TagText {
    syntax: Syntax,
    phase: TagPhase,
    name: TagName,
    pairs: Pairs,
}

impl Model for TagText {
    ghost use Rattle.rx_tags.specs.TagReads.{TagRead, state_of, IsSettled};

    ghost Value = { TagRead };

    ghost view = { λ t. record { syntax = t.syntax; state = state_of t.phase t.name t.pairs } };

    ghost invariant = { λ t. IsSettled t.phase t.pairs.value };
}

impl TagText {
    ghost use Rattle.rx_reader.specs.TagReader.{fresh};

    pub(crate) fn new(alloc: Global, syntax: Syntax) -> TagText
        ensures { result ≡ record { syntax = syntax; state = fresh } }
    {
        TagText {
            syntax,
            phase: TagPhase::Start,
            name: TagName::new(alloc),
            pairs: Pairs::new(alloc),
        }
    }

    /// Forgets the tag, and keeps the memory.
    pub(crate) fn clear(&mut self)
        ensures { self.new ≡ record self.old { state = fresh } }
    {
        self.phase = TagPhase::Start;
        self.name.clear();
        self.pairs.clear();
    }
}

impl TagText {
    ghost use Rattle.std.specs.Prelude.{Some, false};
    ghost use Rattle.rx_reader.specs.Tables as tables;
    ghost use Rattle.rx_reader.specs.Tables.{move_of};
    ghost use Rattle.rx_tags.specs.TagReads.{TagReadGives, GoGives, TagReadEnds, EndsTag, FinishGives, KeepsAtNoMemory};

    /// Reads one more character, and at the tag's `>` keeps the first attribute of each name.
    pub(crate) fn step(&mut self, alloc: Global, c: char) -> Result<TagStep, TagError>
        ensures gives { TagReadGives self.old c result self.new.state }
        ensures syntax { self.new.syntax ≡ self.old.syntax }
        ensures memory { KeepsAtNoMemory result self.old self.new }
    {
        let Some((phase, action)) = move_at(self.syntax, self.phase, c) else {
            return Err(TagError::Bad(Kind::BadTag));
        };
        if is_last(phase) {
            return match self.finish(alloc, phase, action) {
                Ok(()) => Ok(TagStep::Done),
                Err(error) => Err(error),
            };
        }
        match self.go(phase, action, c) {
            Ok(()) => Ok(TagStep::More),
            Err(error) => Err(error),
        }
    }

    /// Whether this is the tag's `>`, with at most two attributes and none underway, as in most tags. Then the tag is whole.
    #[inline(always)]
    pub(crate) fn closes(&mut self, c: char) -> bool
        ensures ends { result ≡ true → TagReadEnds self.old c self.new.state }
        ensures same { result ≡ false → self.new ≡ self.old }
        ensures syntax { self.new.syntax ≡ self.old.syntax }
    {
        if c != '>' {
            return false;
        }
        if !self.pairs.are_apart() {
            return false;
        }
        let Some(last) = closed(self.phase) else {
            return false;
        };
        self.phase = last;
        true
    }

    // The character by its move, which doesn't end the tag. Where that fails nothing is changed.
    #[inline(always)]
    fn go(&mut self, phase: TagPhase, action: TagAction, c: char) -> Result<(), TagError>
        requires by_move { move_of self.old.syntax self.old.state.phase c ≡ Some (phase, action) }
        requires unfinished { tables.is_last phase ≡ false }
        ensures gives { GoGives self.old c result self.new.state }
        ensures syntax { self.new.syntax ≡ self.old.syntax }
        ensures err { OnErr result (self.new ≡ self.old) }
    {
        match act(self.syntax, action, c, &mut self.name, &mut self.pairs) {
            Ok(()) => {
                self.phase = phase;
                Ok(())
            }
            Err(error) => Err(error),
        }
    }

    // The tag's `>`, which ends the last attribute or does nothing.
    fn finish(&mut self, alloc: Global, phase: TagPhase, action: TagAction) -> Result<(), TagError>
        requires { EndsTag phase action self.old.state.value }
        ensures gives { FinishGives self.old phase action result self.new.state }
        ensures syntax { self.new.syntax ≡ self.old.syntax }
        ensures memory { KeepsAtNoMemory result self.old self.new }
    {
        match end_pairs(self.syntax, action, alloc, &mut self.pairs) {
            Ok(repeated) => {
                self.phase = phase;
                if refuses(self.syntax, repeated) {
                    return Err(TagError::Bad(Kind::RepeatedAttribute));
                }
                Ok(())
            }
            Err(error) => Err(error),
        }
    }
}

impl TagText {
    ghost use Rattle.std.specs.Prelude.{◌<◌, false};
    ghost use Rattle.rx_tags.specs.Fronts as fronts;
    ghost use Rattle.rx_tags.specs.Fronts.{GoesTo, TakesFront, TakesOn};

    /// Takes characters at the front, as far as each is printed ASCII, goes on with the tag and finds memory, and tells how
    /// many.
    pub(crate) fn take_front(&mut self, bytes: &[u8]) -> usize
        ensures takes { TakesFront self.old.syntax self.old.state bytes.now result self.new.state }
        ensures syntax { self.new.syntax ≡ self.old.syntax }
    {
        let mut taken = 0;
        while taken < bytes.len() {
            let count = self.take_some(&bytes[taken..]);
            if count == 0 {
                return taken;
            }
            taken += count;
        }
        taken
    }

    // What stands at the front with what ends it, or one character. At a `>`, which mostly ends the tag, nothing else is
    // looked at.
    fn take_some(&mut self, bytes: &[u8]) -> usize
        requires { 0 < length bytes.now }
        ensures takes { TakesFront self.old.syntax self.old.state bytes.now result self.new.state }
        ensures syntax { self.new.syntax ≡ self.old.syntax }
    {
        if bytes[0] == b'>' {
            return 0;
        }
        let count = self.take_run(bytes);
        if count > 0 {
            return count;
        }
        if self.goes_on(bytes[0]) {
            return 1;
        }
        0
    }

    // The front of a value in quotes, of an attribute's name, or of the rest of the tag's, with what ends it.
    fn take_run(&mut self, bytes: &[u8]) -> usize
        ensures takes { TakesFront self.old.syntax self.old.state bytes.now result self.new.state }
        ensures syntax { self.new.syntax ≡ self.old.syntax }
    {
        if is_quoted(self.phase) {
            return self.take_value(bytes);
        }
        if opens_key(self.phase) {
            return self.take_pair(bytes);
        }
        if is_naming(self.phase) {
            return self.take_named(bytes);
        }
        0
    }

    // An attribute that stands whole at the front with a space behind it, else what stands of its name.
    fn take_pair(&mut self, bytes: &[u8]) -> usize
        requires { fronts.opens_key self.old.state.phase ≡ true }
        ensures takes { TakesFront self.old.syntax self.old.state bytes.now result self.new.state }
        ensures syntax { self.new.syntax ≡ self.old.syntax }
    {
        let count = self.take_whole(bytes);
        if count == 0 {
            return self.take_key(bytes);
        }
        self.skip_on(bytes, count)
    }

    // An attribute that stands whole at the front.
    #[inline(always)]
    fn take_whole(&mut self, bytes: &[u8]) -> usize
        requires { fronts.opens_key self.old.state.phase ≡ true }
        ensures fits { result ≤ length bytes.now }
        ensures takes { TakesFront self.old.syntax self.old.state bytes.now result self.new.state }
        ensures none { result ≡ 0 → self.new ≡ self.old }
        ensures syntax { self.new.syntax ≡ self.old.syntax }
    {
        let Some((name, value)) = whole_lengths(bytes) else {
            return 0;
        };
        if self.pairs.add_whole(bytes, name, value).is_err() {
            return 0;
        }
        self.phase = TagPhase::AfterValue;
        name + 2 + value + 1
    }

    // Characters at the front that are themselves in the value, the quote behind them, and a space behind that.
    fn take_value(&mut self, bytes: &[u8]) -> usize
        requires { fronts.is_quoted self.old.state.phase ≡ true }
        ensures takes { TakesFront self.old.syntax self.old.state bytes.now result self.new.state }
        ensures syntax { self.new.syntax ≡ self.old.syntax }
    {
        let count = self.pairs.take_plain(bytes);
        let taken = self.end_value(bytes, count);
        if taken == count {
            return taken;
        }
        self.skip_on(bytes, taken)
    }

    // The small letters at the front, which go on with an attribute's name or begin one, and `=` with its quote behind them.
    fn take_key(&mut self, bytes: &[u8]) -> usize
        requires { fronts.opens_key self.old.state.phase ≡ true }
        ensures takes { TakesFront self.old.syntax self.old.state bytes.now result self.new.state }
        ensures syntax { self.new.syntax ≡ self.old.syntax }
    {
        let count = self.pairs.take_small(bytes);
        if count == 0 {
            return 0;
        }
        self.phase = TagPhase::Key;
        let taken = self.skip_on(bytes, count);
        if taken == count {
            return taken;
        }
        self.skip_on(bytes, taken)
    }

    // The `/` of an end tag with what stands of its name, or the front of what is left of a name, and a space behind it.
    fn take_named(&mut self, bytes: &[u8]) -> usize
        requires { fronts.is_naming self.old.state.phase ≡ true }
        ensures takes { TakesFront self.old.syntax self.old.state bytes.now result self.new.state }
        ensures syntax { self.new.syntax ≡ self.old.syntax }
    {
        if matches!(bytes.first(), Some(b'/')) {
            return self.take_closing(bytes);
        }
        let count = self.take_letters(bytes);
        self.skip_on(bytes, count)
    }

    // A `/` that begins an end tag, and the small letters behind it.
    fn take_closing(&mut self, bytes: &[u8]) -> usize
        ensures takes { TakesFront self.old.syntax self.old.state bytes.now result self.new.state }
        ensures syntax { self.new.syntax ≡ self.old.syntax }
    {
        let taken = self.skip_on(bytes, 0);
        if !is_naming(self.phase) {
            return taken;
        }
        taken + self.take_letters(&bytes[taken..])
    }

    // The small letters at the front, which go on with the tag's name, or begin an end tag's.
    #[inline(always)]
    fn take_letters(&mut self, bytes: &[u8]) -> usize
        requires { fronts.is_naming self.old.state.phase ≡ true }
        ensures takes { TakesFront self.old.syntax self.old.state bytes.now result self.new.state }
        ensures syntax { self.new.syntax ≡ self.old.syntax }
    {
        let count = self.name.take_small(bytes);
        if count == 0 {
            return 0;
        }
        self.phase = named(self.phase);
        count
    }

    // One byte more, where it ends the value that is read and there is memory.
    fn end_value(&mut self, bytes: &[u8], taken: usize) -> usize
        requires { taken ≤ length bytes.now }
        ensures fits { result ≤ length bytes.now }
        ensures takes { TakesOn self.old.syntax self.old.state bytes.now taken result self.new.state }
        ensures syntax { self.new.syntax ≡ self.old.syntax }
    {
        if taken == bytes.len() {
            return taken;
        }
        if !ends_value(self.phase, bytes[taken]) {
            return taken;
        }
        if self.pairs.add(self.syntax).is_err() {
            return taken;
        }
        self.phase = TagPhase::AfterValue;
        taken + 1
    }

    // One byte more, where by it nothing but the phase changes.
    fn skip_on(&mut self, bytes: &[u8], taken: usize) -> usize
        requires { taken ≤ length bytes.now }
        ensures fits { result ≤ length bytes.now }
        ensures takes { TakesOn self.old.syntax self.old.state bytes.now taken result self.new.state }
        ensures syntax { self.new.syntax ≡ self.old.syntax }
    {
        if taken == bytes.len() {
            return taken;
        }
        let Some(next) = skip(self.phase, bytes[taken]) else {
            return taken;
        };
        self.phase = next;
        taken + 1
    }

    // One character, if it is printed and the tag goes on with it; else nothing is changed.
    fn goes_on(&mut self, byte: u8) -> bool
        ensures goes { result ≡ true → GoesTo self.old.syntax self.old.state byte self.new.state }
        ensures printed { result ≡ true → fronts.is_printed byte ≡ true }
        ensures same { result ≡ false → self.new ≡ self.old }
        ensures syntax { self.new.syntax ≡ self.old.syntax }
    {
        if let Some(next) = skip(self.phase, byte) {
            self.phase = next;
            return true;
        }
        if byte == b'>' || !is_printed(byte) {
            return false;
        }
        let c = char::from(byte);
        let Some((phase, action)) = move_at(self.syntax, self.phase, c) else {
            return false;
        };
        if is_last(phase) {
            return false;
        }
        match self.go(phase, action, c) {
            Ok(()) => true,
            Err(_) => false,
        }
    }
}

impl TagText {
    ghost use Rattle.std.specs.Prelude.{◌<◌, get_or};
    ghost use Rattle.rx_terms.specs.Ascii.{solidus};
    ghost use Rattle.rx_reader.specs.TagReader.{fresh};
    ghost use Rattle.rx_tags.specs.Lists.{IsBegun, TakesTag};

    /// Takes a tag that stands whole at the front in its usual form, where nothing was read before and there is memory, and
    /// tells how many bytes it has. Else 0 is told, and the tag is as it was.
    #[inline(always)]
    pub(crate) fn take_tag(&mut self, bytes: &[u8]) -> usize
        ensures none { result ≡ 0 → self.new ≡ self.old }
        ensures takes { 0 < result → TakesTag self.old bytes.now result self.new.state }
        ensures fresh { 0 < result → self.old.state ≡ fresh }
        ensures syntax { self.new.syntax ≡ self.old.syntax }
    {
        if self.phase != TagPhase::Start {
            return 0;
        }
        if !self.name.is_empty() {
            return 0;
        }
        if !self.pairs.are_none() {
            return 0;
        }
        if bytes.is_empty() {
            return 0;
        }
        if bytes[0] == b'/' {
            return self.take_end_tag(bytes);
        }
        self.take_start_tag(bytes)
    }

    // An end tag that stands whole: `/`, small letters and `>`.
    #[inline(always)]
    fn take_end_tag(&mut self, bytes: &[u8]) -> usize
        requires begun { IsBegun self.old.state }
        requires some { 0 < length bytes.now }
        requires first { get_or bytes.now 0 0 ≡ solidus }
        ensures none { result ≡ 0 → self.new ≡ self.old }
        ensures takes { 0 < result → TakesTag self.old bytes.now result self.new.state }
        ensures syntax { self.new.syntax ≡ self.old.syntax }
    {
        let letters = &bytes[1..];
        let count = small_length(letters);
        if count == 0 {
            return 0;
        }
        if count == letters.len() {
            return 0;
        }
        if letters[count] != b'>' {
            return 0;
        }
        if self.name.put(letters, count).is_err() {
            return 0;
        }
        self.phase = TagPhase::Closed;
        count + 2
    }

    // A start tag that stands whole: small letters, a list of attributes or none, and `>`.
    #[inline(always)]
    fn take_start_tag(&mut self, bytes: &[u8]) -> usize
        requires begun { IsBegun self.old.state }
        ensures none { result ≡ 0 → self.new ≡ self.old }
        ensures takes { 0 < result → TakesTag self.old bytes.now result self.new.state }
        ensures syntax { self.new.syntax ≡ self.old.syntax }
    {
        let count = small_length(bytes);
        if count == 0 {
            return 0;
        }
        if count == bytes.len() {
            return 0;
        }
        let end = self.pairs.take_behind(bytes, count);
        if end == 0 {
            return 0;
        }
        if self.name.put(bytes, count).is_err() {
            self.pairs.clear();
            return 0;
        }
        self.phase = TagPhase::Opened;
        end + 1
    }
}

impl TagText {
    ghost use Rattle.std.specs.Prelude.{◌<◌, slice_get, Some};

    pub(crate) fn phase(&self) -> TagPhase
        ensures { result ≡ self.now.state.phase }
    {
        self.phase
    }

    /// The tag's name.
    pub(crate) fn name(&self) -> &str
        ensures { chars result.now ≡ self.now.state.name }
    {
        self.name.as_str()
    }

    /// How many attributes are whole.
    pub(crate) fn count(&self) -> usize
        ensures { result ≡ length self.now.state.attributes }
    {
        self.pairs.count()
    }

    /// The name and the value of an attribute that is whole.
    pub(crate) fn attr_at(&self, i: usize) -> (&str, &str)
        requires { i < length self.now.state.attributes }
        ensures { slice_get self.now.state.attributes i ≡ Some (chars result.0.now, chars result.1.now) }
    {
        self.pairs.at(i)
    }
}

// XHTML refuses a name that stands twice.
fn refuses(syntax: Syntax, repeated: bool) -> bool
    ensures { result ≡ (not (is_html_syntax syntax) && repeated) }
{
    syntax == Syntax::Xhtml && repeated
}

#[inline(always)]
fn act(
    syntax: Syntax,
    action: TagAction,
    c: char,
    name: &mut TagName,
    pairs: &mut Pairs,
) -> Result<(), TagError>
    requires { action ≡ TagAction.Key → pairs.old.value ≡ no_value_yet }
    ensures gives { ActGives syntax action c name.old pairs.old result name.new pairs.new }
    ensures name { OnErr result (name.new ≡ name.old) }
    ensures pairs { OnErr result (pairs.new ≡ pairs.old) }
{
    match action {
        TagAction::Skip => Ok(()),
        TagAction::Name => push_name(name, cased(syntax, c)),
        TagAction::Key => pairs.push_key(cased(syntax, c)),
        TagAction::Value => pairs.take(syntax, c),
        TagAction::Add => pairs.add(syntax),
        TagAction::AddKey => pairs.add_key(syntax, cased(syntax, c)),
    }
}

// Ends the last attribute or does nothing, and keeps of those of one name the first. Tells whether a name stood twice.
fn end_pairs(
    syntax: Syntax,
    action: TagAction,
    alloc: Global,
    pairs: &mut Pairs,
) -> Result<bool, TagError>
    requires { CanEnd action pairs.old.value }
    ensures gives { TagReadEndGives syntax action pairs.old result pairs.new }
    ensures err { OnErr result (pairs.new ≡ pairs.old) }
{
    if action == TagAction::Add {
        return pairs.add_last(syntax, alloc);
    }
    Ok(pairs.keep_firsts(alloc)?)
}

fn push_name(name: &mut TagName, c: char) -> Result<(), TagError>
    ensures ok { OnOk result (name.new ≡ name.old ++ c ∷ []) }
    ensures err { OnErr result (name.new ≡ name.old) }
    ensures memory { IfErr result (λ error. error ≡ TagError.NoMemory) }
{
    name.push(c)?;
    Ok(())
}
