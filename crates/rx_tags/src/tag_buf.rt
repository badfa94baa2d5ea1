//! One tag that is read a character at a time.
ghost use Rattle.std.specs.Prelude.{◌≡◌, ◌<◌, true, [], ◌∷◌, ◌++◌, IfOk, take};
ghost use Rattle.rx_grammar.specs.Common.{Chars, SpellsTag};
ghost use Rattle.rx_reader.specs.Tables.{is_last};
ghost use Rattle.rx_reader.specs.TagReader.{parts_of};
ghost use Rattle.rx_tags.specs.Seen.{tag_seen};
ghost use Rattle.rx_tags.specs.TagBufs.{no_tag, MayStep, StepGives, TakesMore, TakesWhole, TagStands, TagGoesOn, StepTells, AnswersAll};

use crate::pairs::TagError;
use crate::tag_text::{TagStep, TagText};
use crate::tags::Tag;
use rx_chars::Syntax;
use rx_terms::NoMemory;
use std::alloc::Global;
use std::marker::Model;

/// Reads the characters of one tag after its `<`, and lends the tag when it is whole. A contract sees how the reader
/// stands after these characters, and whether a fault was answered.
#[derive(Drop)]
pub struct TagBuf {
    text: TagText,
    alloc: Global,
    refused: bool,
}

impl Model for TagBuf {
    ghost use Rattle.rx_tags.specs.TagBufs.{TagSoFar};

    ghost Value = { TagSoFar };

    ghost view = { λ buf. record { syntax = buf.text.syntax; state = buf.text.state; refused = buf.refused } };
}

impl TagBuf {
    /// Before the first character of a tag.
    pub fn new(alloc: Global, syntax: Syntax) -> Result<TagBuf, NoMemory>
        ensures { IfOk result (λ buf. buf ≡ no_tag syntax) }
    {
        Ok(TagBuf {
            text: TagText::new(alloc, syntax),
            alloc,
            refused: false,
        })
    }

    /// Reads the tag's next character. `Done` comes exactly where the characters spell a tag, which ends at this `>`.
    /// `More` comes exactly where they begin one in which no fault stands, and spell none yet. `Bad` comes exactly where
    /// this character decides the tag's fault, with its kind: BadTag, UnknownReference, BadReference, StrictText, or at
    /// the `>` in XHTML RepeatedAttribute. Want of memory leaves the tag as it was before this character.
    #[inline(always)]
    pub fn step(&mut self, c: char) -> Result<TagStep, TagError>
        requires { MayStep self.old }
        ensures gives { StepGives self.old c result self.new }
        ensures tells { (chars : Chars) → TagStands self.old chars → StepTells (chars ++ c ∷ []) result self.new }
        ensures answers { (chars : Chars) → TagStands self.old chars → AnswersAll self.old.syntax (chars ++ c ∷ []) result }
    {
        self.read(c)
    }

    // Most tags end so, and are told before all else.
    #[inline(always)]
    fn read(&mut self, c: char) -> Result<TagStep, TagError>
        requires { MayStep self.old }
        ensures { StepGives self.old c result self.new }
    {
        if self.text.closes(c) {
            return Ok(TagStep::Done);
        }
        match self.read_slowly(c) {
            Ok(step) => Ok(step),
            Err(error) => Err(error),
        }
    }

    #[inline(never)]
    fn read_slowly(&mut self, c: char) -> Result<TagStep, TagError>
        requires { MayStep self.old }
        ensures { StepGives self.old c result self.new }
    {
        match self.text.step(self.alloc, c) {
            Ok(step) => Ok(step),
            Err(TagError::Bad(kind)) => {
                self.text.clear();
                self.refused = true;
                Err(TagError::Bad(kind))
            }
            Err(TagError::NoMemory) => Err(TagError::NoMemory),
        }
    }

    /// Takes characters at the front of some bytes, as far as each is printed ASCII and goes on with the tag and there is
    /// memory, and tells how many. They are read as by so many steps, each of which answers `More`; what `step` would make
    /// of the next one isn't known.
    pub fn take_front(&mut self, bytes: &[u8]) -> usize
        requires { MayStep self.old }
        ensures takes { TakesMore self.old bytes.now result self.new }
        ensures none { result ≡ 0 → self.new ≡ self.old }
        ensures may_step { MayStep self.new }
        ensures tells { (chars : Chars) → TagStands self.old chars → TagGoesOn self.new (chars ++ take result bytes.now) }
    {
        self.read_front(bytes)
    }

    fn read_front(&mut self, bytes: &[u8]) -> usize
        requires { MayStep self.old }
        ensures { TakesMore self.old bytes.now result self.new }
    {
        self.text.take_front(bytes)
    }

    /// Takes a tag that stands whole at the front with its `>`, in its usual form: small letters, or `/` and small letters, and
    /// behind the former attributes with different names in small letters, a space apart, their values in `"` without a
    /// reference and in printed ASCII. They are read as by so many steps, of which the last one answers `Done`, and how many
    /// they are is told. Where the tag has another form, a character of it was read before, or there is no memory, 0 is told,
    /// and nothing is changed.
    #[inline(always)]
    pub fn take_whole(&mut self, bytes: &[u8]) -> usize
        ensures none { result ≡ 0 → self.new ≡ self.old }
        ensures takes { 0 < result → TakesWhole self.old bytes.now result self.new }
        ensures fresh { 0 < result → self.old ≡ no_tag self.old.syntax }
        ensures tells { 0 < result → (chars : Chars) → TagStands self.old chars → SpellsTag self.new.syntax (chars ++ take result bytes.now) (parts_of self.new.state) }
    {
        self.read_whole(bytes)
    }

    #[inline(always)]
    fn read_whole(&mut self, bytes: &[u8]) -> usize
        ensures none { result ≡ 0 → self.new ≡ self.old }
        ensures takes { 0 < result → TakesWhole self.old bytes.now result self.new }
        ensures fresh { 0 < result → self.old ≡ no_tag self.old.syntax }
    {
        if self.refused {
            return 0;
        }
        self.text.take_tag(bytes)
    }

    /// The tag that was read, with the byte offsets of its `<` and its `>`.
    pub fn tag(&self, token: u64, at: u64) -> Tag<'_>
        requires { is_last self.now.state.phase ≡ true }
        ensures tag { tag_seen result ≡ parts_of self.now.state }
        ensures token { result.token ≡ token }
        ensures at { result.at ≡ at }
    {
        Tag::of(&self.text, token, at)
    }

    /// Forgets the tag, so that another one can be read. The memory is kept.
    pub fn clear(&mut self)
        ensures { self.new ≡ no_tag self.old.syntax }
    {
        self.text.clear();
        self.refused = false;
    }
}
