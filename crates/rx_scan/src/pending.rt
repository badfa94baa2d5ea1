//! The characters since the last token.
ghost use Rattle.std.specs.Prelude.{◌≡◌, ◌<◌, true, [], ◌∷◌, ◌++◌, IfOk, Ok, OnOk};
ghost use Rattle.rx_reader.specs.Tables.{is_last};
ghost use Rattle.rx_reader.specs.TagReader.{parts_of, is_closing};
ghost use Rattle.rx_tags.specs.Seen.{tag_seen};
ghost use Rattle.rx_tags.specs.TagBufs.{no_tag, MayStep, StepGives, TakesMore, TakesWhole};
ghost use Rattle.rx_scan.specs.Pending.{bracket_text, section_pending};

use crate::buffers::Buffer;
use crate::marks::{Brackets, TokenState};
use rx_chars::Syntax;
use rx_tags::{Tag, TagBuf, TagError, TagStep};
use rx_terms::NoMemory;
use std::alloc::Global;
use std::marker::Model;

/// What is kept of the characters since the last token: what they are the front of, the run that may stay text or is a
/// CDATA section's text, and the tag.
#[derive(Drop)]
pub(crate) struct Unfinished {
    mark: TokenState,
    run: Buffer,
    tag: TagBuf,
}

impl Model for Unfinished {
    ghost use Rattle.rx_scan.specs.Pending.{Pending};

    ghost Value = { Pending };

    ghost view = { λ p. record { mark = p.mark; run = p.run.text; tag = p.tag } };
}

impl Unfinished {
    /// There are no characters.
    pub(crate) fn new(alloc: Global, syntax: Syntax) -> Result<Unfinished, NoMemory>
        ensures { IfOk result (λ p. p ≡ record { mark = TokenState.Nothing; run = []; tag = no_tag syntax }) }
    {
        let run = Buffer::with_room(alloc, 0)?;
        let tag = TagBuf::new(alloc, syntax)?;
        Ok(Unfinished {
            mark: TokenState::Nothing,
            run,
            tag,
        })
    }

    pub(crate) fn mark(&self) -> TokenState
        ensures { result ≡ self.now.mark }
    {
        self.mark
    }

    /// A token begins.
    pub(crate) fn begin(&mut self, mark: TokenState)
        ensures { self.new ≡ record { mark = mark; run = []; tag = no_tag self.old.tag.syntax } }
    {
        self.mark = mark;
        self.run.clear();
        self.tag.clear();
    }

    /// It goes on, or is whole, and nothing is kept of its last character.
    pub(crate) fn turn(&mut self, mark: TokenState)
        ensures { self.new ≡ record self.old { mark = mark } }
    {
        self.mark = mark;
    }

    /// It goes on, and its last character is kept.
    pub(crate) fn keep(&mut self, mark: TokenState, c: char) -> Result<(), NoMemory>
        ensures { OnOk result (self.new ≡ record { mark = mark; run = self.old.run ++ c ∷ []; tag = self.old.tag }) }
    {
        if self.run.push(c).is_err() {
            return Err(NoMemory);
        }
        self.mark = mark;
        Ok(())
    }

    fn keep_brackets(&mut self, brackets: Brackets) -> Result<(), NoMemory>
        ensures { OnOk result (self.new ≡ record self.old { run = self.old.run ++ bracket_text brackets }) }
    {
        match brackets {
            Brackets::None => Ok(()),
            Brackets::One => self.keep(self.mark, ']'),
            Brackets::Two => {
                self.keep(self.mark, ']')?;
                self.keep(self.mark, ']')
            }
        }
    }

    /// The CDATA section goes on with a character behind brackets that are text.
    pub(crate) fn keep_after(&mut self, brackets: Brackets, c: char) -> Result<(), NoMemory>
        ensures { OnOk result (self.new ≡ section_pending self.old ((self.old.run ++ bracket_text brackets) ++ c ∷ [])) }
    {
        self.keep_brackets(brackets)?;
        self.keep(TokenState::Section(Brackets::None), c)
    }

    /// One more character of a tag.
    #[inline(always)]
    pub(crate) fn feed(&mut self, mark: TokenState, c: char) -> Result<TagStep, TagError>
        requires { MayStep self.old.tag }
        ensures gives { StepGives self.old.tag c result self.new.tag }
        ensures kept { OnOk result (self.new ≡ record { mark = mark; run = self.old.run; tag = self.new.tag }) }
        ensures last { result ≡ Ok TagStep.Done → is_last self.new.tag.state.phase ≡ true }
        ensures more { result ≡ Ok TagStep.More → MayStep self.new.tag }
    {
        match self.tag.step(c) {
            Ok(step) => {
                self.mark = mark;
                Ok(step)
            }
            Err(error) => Err(error),
        }
    }

    /// Characters at the front of some bytes with which the tag goes on. Tells how many.
    pub(crate) fn feed_front(&mut self, bytes: &[u8]) -> usize
        requires { MayStep self.old.tag }
        ensures takes { TakesMore self.old.tag bytes.now result self.new.tag }
        ensures none { result ≡ 0 → self.new ≡ self.old }
        ensures kept { self.new ≡ record self.old { tag = self.new.tag } }
    {
        self.tag.take_front(bytes)
    }

    /// A tag that stands whole at the front of some bytes, where nothing was read of one. Tells how many bytes it has, and 0 where
    /// none does.
    #[inline(always)]
    pub(crate) fn take_whole(&mut self, bytes: &[u8]) -> usize
        ensures none { result ≡ 0 → self.new ≡ self.old }
        ensures takes { 0 < result → TakesWhole (no_tag self.old.tag.syntax) bytes.now result self.new.tag }
        ensures kept { 0 < result → self.new ≡ record { mark = self.old.mark; run = []; tag = self.new.tag } }
    {
        let count = self.tag.take_whole(bytes);
        if count == 0 {
            return 0;
        }
        self.run.clear();
        count
    }

    /// Whether the tag is an end tag.
    pub(crate) fn is_closing(&self) -> bool
        requires { is_last self.now.tag.state.phase ≡ true }
        ensures { result ≡ is_closing self.now.tag.state.phase }
    {
        let tag = self.tag.tag(0, 0);
        tag.closing()
    }

    /// Forgets the tag.
    pub(crate) fn forget_tag(&mut self)
        ensures { self.new ≡ record self.old { tag = no_tag self.old.tag.syntax } }
    {
        self.tag.clear();
    }

    pub(crate) fn run(&self) -> &Buffer
        ensures { result.now.text ≡ self.now.run }
    {
        &self.run
    }

    pub(crate) fn tag(&self, token: u64, at: u64) -> Tag<'_>
        requires { is_last self.now.tag.state.phase ≡ true }
        ensures tag { tag_seen result ≡ parts_of self.now.tag.state }
        ensures token { result.token ≡ token }
        ensures at { result.at ≡ at }
    {
        self.tag.tag(token, at)
    }
}
