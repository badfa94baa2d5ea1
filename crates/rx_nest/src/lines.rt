//! What a tag does to the open elements.
ghost use Rattle.std.specs.Prelude.{◌≡◌, OnOk, true, false, nat_le, length, not, ◌&&◌, if◌then◌else◌, option_map};
ghost use Rattle.rx_grammar.specs.Contents as contents;
ghost use Rattle.rx_grammar.specs.Common.{row_of, is_held, first_row};
ghost use Rattle.rx_tags.specs.Seen.{tag_seen};
ghost use Rattle.rx_nest.specs.Levels as levels;
ghost use Rattle.rx_nest.specs.Rows.{row_seen};
ghost use Rattle.rx_nest.specs.Lines as lines;
ghost use Rattle.rx_nest.specs.Ordinary.{IsOrdinaryUnder, IsPlainUnder};

use crate::element_names;
use crate::levels::{Levels, Traits};
use crate::places::Place;
use crate::tables::OmittedEnd;
use rx_chars::Syntax;
use rx_grammar::{Content, Kind};
use rx_tags::Tag;
use rx_terms::NoMemory;
use std::alloc::Global;
use std::marker::Model;

/// What a tag tells besides the elements that it ends by omission.
#[derive(Clone, Copy, Debug, PartialEq, Eq)]
pub(crate) enum TagAction {
    /// Nothing: it is hidden.
    Nothing,
    /// An element begins.
    Begin,
    /// An element begins, and ends with the tag.
    Alone,
    /// The element of its name ends.
    Finish,
}

/// What a tag tells: how many elements end by omission, and then its own.
#[derive(Clone, Copy, Debug, PartialEq, Eq)]
pub(crate) struct TagEffect {
    pub(crate) ends: usize,
    pub(crate) own: TagAction,
    /// Whether a line feed directly after the tag is dropped.
    pub(crate) drops: bool,
}

/// Why a tag isn't taken.
#[derive(Clone, Copy, Debug, PartialEq, Eq)]
pub(crate) enum Refused {
    Fault(Kind),
    NoMemory,
}

impl From<NoMemory> for Refused {
    ghost use Rattle.rx_nest.specs.declared.lines.Refused.TheVariants.{NoMemory};

    ghost from_gives = { λ _ error. error ≡ NoMemory };

    fn from(_error: NoMemory) -> Refused {
        Refused::NoMemory
    }
}

/// The open elements of a page.
#[derive(Drop)]
pub(crate) struct OpenElements {
    syntax: Syntax,
    depth: u32,
    begun: bool,
    levels: Levels,
}

impl Model for OpenElements {
    ghost use Rattle.std.specs.Prelude.{◌≡◌};
    ghost use Rattle.rx_nest.specs.Lines.{Lines};

    ghost Value = { Lines };

    ghost view = { λ l. record { syntax = l.syntax; depth = l.depth; begun = l.begun; levels = l.levels.levels } };

    ghost invariant = { λ l. l.levels.room ≡ l.depth };
}

impl OpenElements {
    ghost use Rattle.std.specs.Prelude.{[], false, IfOk};

    /// Before the root. The memory of all levels is taken.
    pub(crate) fn new(alloc: Global, syntax: Syntax, depth: u32) -> Result<OpenElements, NoMemory>
        ensures { IfOk result (λ l. l ≡ record { syntax = syntax; depth = depth; begun = false; levels = [] }) }
    {
        let levels = Levels::new(alloc, depth)?;
        Ok(OpenElements {
            syntax,
            depth,
            begun: false,
            levels,
        })
    }

    /// How many elements are open.
    pub(crate) fn depth(&self) -> u32
        ensures { result ≡ length self.now.levels }
    {
        // There is room for so many levels, whose number has 32 bits.
        let _most = self.depth;
        self.levels.depth() as u32
    }

    /// What may stand inside the innermost element.
    pub(crate) fn content(&self) -> Content
        ensures { result ≡ (levels.place_under self.now.levels).content }
    {
        self.levels.place().content()
    }

    /// Whether text is text of the tree.
    pub(crate) fn says_text(&self) -> bool
        ensures { result ≡ lines.says_text self.now }
    {
        self.is_open() && !self.levels.hides()
    }

    // Whether an element is open.
    fn is_open(&self) -> bool
        ensures { result ≡ not (lines.is_none_open self.now.levels) }
    {
        self.levels.depth() > 0
    }

    /// Whether the root has ended.
    pub(crate) fn is_over(&self) -> bool
        ensures { result ≡ (self.now.begun && lines.is_none_open self.now.levels) }
    {
        self.begun && !self.is_open()
    }

    // Why the start tag isn't taken, whatever it ends.
    fn refusal(&self, tag: &Tag<'_>) -> Option<Kind>
        ensures { result ≡ first_row (lines.start_refusals self.now (tag_seen tag.now)) }
    {
        if self.begun && !self.is_open() {
            return Some(Kind::Outside);
        }
        if !self.begun && !element_names::is_root(tag.name()) {
            return Some(Kind::RootNotHtml);
        }
        if self.levels.place().is_plaintext(self.syntax, tag) {
            return Some(Kind::Plaintext);
        }
        if self.levels.place().is_self_closed(self.syntax, tag) {
            return Some(Kind::SelfClosed);
        }
        None
    }

    /// A tag begins an element, or ends one, after those that it ends by omission. A tag that is refused leaves the elements
    /// as they were.
    pub(crate) fn take(&mut self, tag: &Tag<'_>) -> Result<TagEffect, Refused>
        ensures { lines.TagGives self.old (tag_seen tag.now) result self.new }
    {
        if tag.closing() {
            self.end(tag)
        } else {
            self.begin(tag)
        }
    }

    fn begin(&mut self, tag: &Tag<'_>) -> Result<TagEffect, Refused>
        ensures { lines.BeginGives self.old (tag_seen tag.now) result self.new }
    {
        if let Some(kind) = self.refusal(tag) {
            return Err(Refused::Fault(kind));
        }
        let ends = self.end_before(tag);
        if self.is_full() {
            return Err(Refused::Fault(Kind::TooDeep));
        }
        if self.is_ordinary(tag) {
            self.begin_plain(tag, ends, None, false)
        } else if self.is_omissible(tag) {
            let row = element_names::row_of(tag.name());
            let held = element_names::is_held(self.levels.name(), tag.name());
            self.begin_plain(tag, ends, row, held)
        } else {
            self.begin_own(tag, ends)
        }
    }

    // Whether an element begins of which the tables say nothing.
    fn is_ordinary(&self, tag: &Tag<'_>) -> bool
        ensures { result ≡ true → IsOrdinaryUnder self.now.syntax self.now.levels (tag_seen tag.now).name }
    {
        self.syntax == Syntax::Html
            && self.levels.place().is_html()
            && element_names::is_ordinary(tag.name())
    }

    // Whether an element begins of which one table alone says something, that of omitted end tags.
    fn is_omissible(&self, tag: &Tag<'_>) -> bool
        ensures { result ≡ true → IsPlainUnder self.now.syntax self.now.levels (tag_seen tag.now).name }
    {
        self.syntax == Syntax::Html
            && self.levels.place().is_html()
            && element_names::is_omissible(tag.name())
    }

    // What `begin_own` does, where the table of omitted end tags alone says something of the name: this row, and whether
    // the parent holds the element open.
    fn begin_plain(
        &mut self,
        tag: &Tag<'_>,
        ends: usize,
        row: Option<OmittedEnd>,
        held: bool,
    ) -> Result<TagEffect, Refused>
        requires room { nat_le self.old.depth (length self.old.levels) ≡ false }
        requires plain { IsPlainUnder self.old.syntax self.old.levels (tag_seen tag.now).name }
        requires row { option_map row_seen row ≡ row_of (tag_seen tag.now).name }
        requires held { held ≡ is_held (levels.name_under self.old.levels) (tag_seen tag.now).name }
        ensures { lines.OwnGives ends self.old (tag_seen tag.now) result self.new }
    {
        let own = self.own_of_start(false);
        let hidden = self.levels.hides();
        let traits = Traits {
            inside: Place::of(Content::Html),
            row,
            held,
            shown: !hidden,
            hides: hidden,
        };
        self.begun = true;
        self.levels.push(tag.name(), traits)?;
        Ok(TagEffect {
            ends,
            own,
            drops: false,
        })
    }

    // The tag's own element begins.
    fn begin_own(&mut self, tag: &Tag<'_>, ends: usize) -> Result<TagEffect, Refused>
        requires room { nat_le self.old.depth (length self.old.levels) ≡ false }
        ensures { lines.OwnGives ends self.old (tag_seen tag.now) result self.new }
    {
        let alone = self.levels.place().is_alone(self.syntax, tag);
        let own = self.own_of_start(alone);
        let drops = self.drops_line_feed(tag, alone);
        self.enter(tag, alone)?;
        Ok(TagEffect { ends, own, drops })
    }

    // Ends the elements that the start tag ends.
    fn end_before(&mut self, tag: &Tag<'_>) -> usize
        ensures ends { result ≡ lines.ended_at_start (tag_seen tag.now).name self.old.levels }
        ensures becomes { self.new ≡ record self.old { levels = lines.kept_at_start (tag_seen tag.now).name self.old.levels } }
        ensures none { nat_le self.new.depth (length self.new.levels) ≡ true → self.new ≡ self.old }
    {
        if self.levels.place().is_html() {
            self.levels.end_by(false, tag.name())
        } else {
            0
        }
    }

    fn is_full(&self) -> bool
        ensures { result ≡ nat_le self.now.depth (length self.now.levels) }
    {
        self.levels.depth() >= self.depth as usize
    }

    fn own_of_start(&self, alone: bool) -> TagAction
        ensures { result ≡ (if levels.hidden_under self.now.levels then TagAction.Nothing else if alone then TagAction.Alone else TagAction.Begin) }
    {
        if self.levels.hides() {
            TagAction::Nothing
        } else if alone {
            TagAction::Alone
        } else {
            TagAction::Begin
        }
    }

    fn drops_line_feed(&self, tag: &Tag<'_>, alone: bool) -> bool
        ensures { result ≡ (not alone && contents.drops_line_feed (levels.place_under self.now.levels) (tag_seen tag.now)) }
    {
        !alone && self.levels.place().drops_line_feed(tag)
    }

    // The element begins.
    fn enter(&mut self, tag: &Tag<'_>, alone: bool) -> Result<(), NoMemory>
        requires room { nat_le self.old.depth (length self.old.levels) ≡ false }
        requires is { alone ≡ contents.is_alone self.old.syntax (levels.place_under self.old.levels) (tag_seen tag.now) }
        ensures { OnOk result (self.new ≡ record self.old { begun = true; levels = lines.levels_begun self.old.syntax (tag_seen tag.now) self.old.levels }) }
    {
        self.begun = true;
        if alone {
            return Ok(());
        }
        let traits = self.traits(tag);
        self.levels.push(tag.name(), traits)
    }

    // What the open elements make of one that begins inside them.
    fn traits(&self, tag: &Tag<'_>) -> Traits
        ensures { levels.level_of (tag_seen tag.now).name result ≡ lines.level_under self.now.syntax (tag_seen tag.now) self.now.levels }
    {
        let place = self.levels.place();
        let hidden = self.levels.hides();
        Traits {
            inside: place.inside(self.syntax, tag.name()),
            row: place.row_of(tag.name()),
            held: element_names::is_held(self.levels.name(), tag.name()),
            shown: !hidden,
            hides: hidden || place.hides(tag),
        }
    }

    fn end(&mut self, tag: &Tag<'_>) -> Result<TagEffect, Refused>
        ensures { lines.EndTagGives self.old (tag_seen tag.now) result self.new }
    {
        if !self.is_open() {
            return Err(Refused::Fault(Kind::NothingOpen));
        }
        let before = self.levels.depth();
        let ends = self.levels.end_by(true, tag.name());
        if !self.is_named(tag) {
            self.levels.reopen(before);
            return Err(Refused::Fault(Kind::Mismatch));
        }
        let own = self.own_of_end();
        self.levels.pop();
        Ok(TagEffect {
            ends,
            own,
            drops: false,
        })
    }

    // Whether the innermost element has the end tag's name.
    fn is_named(&self, tag: &Tag<'_>) -> bool
        ensures { result ≡ lines.is_open_named (tag_seen tag.now).name self.now.levels }
    {
        match self.levels.top() {
            Some(level) => element_names::is_same(level.name(), tag.name()),
            None => false,
        }
    }

    fn own_of_end(&self) -> TagAction
        ensures { result ≡ lines.own_of_end self.now.levels }
    {
        match self.levels.top() {
            Some(level) if level.shown() => TagAction::Finish,
            _ => TagAction::Nothing,
        }
    }
}
