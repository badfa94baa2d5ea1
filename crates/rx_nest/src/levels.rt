//! The open elements, with room for all levels from the start. What memory a name took is kept for the next element there.
ghost use Rattle.std.specs.Prelude.{◌≡◌, ◌∷◌, [], ◌<◌, ◌≤◌, OnOk, IfOk, MatchOption, length, drop};
ghost use Rattle.std.specs.Str.{chars};
ghost use Rattle.rx_nest.specs.Levels as levels;

use crate::element_names;
use crate::places::Place;
use crate::tables::OmittedEnd;
use rx_grammar::Content;
use rx_terms::NoMemory;
use std::alloc::Global;
use std::marker::Model;

/// What an open element's ancestors make of it.
#[derive(Clone, Copy)]
pub(crate) struct Traits {
    /// What may stand inside.
    pub(crate) inside: Place,
    /// The start tags that end it, where its end tag may be omitted.
    pub(crate) row: Option<OmittedEnd>,
    /// Whether it is a p that its parent's end doesn't end.
    pub(crate) held: bool,
    /// Whether it is in the page's tree.
    pub(crate) shown: bool,
    /// Whether what it holds isn't.
    pub(crate) hides: bool,
}

/// An open element.
#[derive(Drop)]
pub(crate) struct Level {
    name: String,
    traits: Traits,
}

impl Model for Level {
    ghost use Rattle.std.specs.Prelude.{string_bytes};
    ghost use Rattle.std.specs.Str.{chars};
    ghost use Rattle.rx_nest.specs.Levels.{Level as TheLevel, level_of};

    ghost Value = { TheLevel };

    ghost view = { λ level. level_of (chars (string_bytes level.name)) level.traits };
}

impl Level {
    ghost use Rattle.rx_grammar.specs.Omission.{has_row};
    ghost use Rattle.rx_nest.specs.Levels.{level_of};

    fn new(alloc: Global) -> Level {
        Level {
            name: String::new(alloc),
            traits: Traits {
                inside: Place::of(Content::Outside),
                row: None,
                held: false,
                shown: false,
                hides: false,
            },
        }
    }

    fn set(&mut self, name: &str, traits: Traits) -> Result<(), NoMemory>
        ensures { OnOk result (self.new ≡ level_of (chars name.now) traits) }
    {
        self.rename(name)?;
        self.traits = traits;
        Ok(())
    }

    // Where elements come again, as in lists and tables, the name is there already.
    fn rename(&mut self, name: &str) -> Result<(), NoMemory>
        ensures { OnOk result (self.new.name ≡ chars name.now) }
    {
        if element_names::is_same(&self.name, name) {
            return Ok(());
        }
        self.name.clear();
        self.name.push_str(name)?;
        Ok(())
    }

    // Whether another tag than its own may end the element.
    fn is_omissible(&self) -> bool
        ensures { result ≡ has_row self.now.row }
    {
        self.traits.row.is_some()
    }

    // Whether a start tag of this name, or an end tag, ends the element.
    fn ends_by(&self, closing: bool, name: &str) -> bool
        ensures { result ≡ levels.ends_by closing (chars name.now) self.now }
    {
        match self.traits.row {
            Some(_) if closing => !element_names::is_same(&self.name, name) && !self.traits.held,
            Some(row) => element_names::has(row, name),
            None => false,
        }
    }

    pub(crate) fn name(&self) -> &str
        ensures { chars result.now ≡ self.now.name }
    {
        &self.name
    }

    pub(crate) fn inside(&self) -> Place
        ensures { result ≡ self.now.inside }
    {
        self.traits.inside
    }

    pub(crate) fn shown(&self) -> bool
        ensures { result ≡ self.now.shown }
    {
        self.traits.shown
    }

    pub(crate) fn hides(&self) -> bool
        ensures { result ≡ self.now.hides }
    {
        self.traits.hides
    }
}

/// The open elements. A contract sees them with the innermost first.
#[derive(Drop)]
pub(crate) struct Levels {
    alloc: Global,
    // the levels that were open so far, the outermost first
    levels: Vec<Level>,
    depth: usize,
    // how many may be open
    room: usize,
}

impl Model for Levels {
    ghost use Rattle.std.specs.Prelude.{◌≤◌, length};
    ghost use Rattle.rx_nest.specs.Levels.{Opened, innermost_first};

    ghost Value = { Opened };

    ghost view = { λ l. record { levels = innermost_first l.depth l.levels.items; room = l.room; memory = l.levels.items } };

    ghost invariant = { λ l. (l.depth ≤ length l.levels.items) × (length l.levels.items ≤ l.room) };
}

impl Levels {
    /// No element is open. There is room for all levels, which are made as elements come to them.
    pub(crate) fn new(alloc: Global, depth: u32) -> Result<Levels, NoMemory>
        ensures levels { IfOk result (λ l. l.levels ≡ []) }
        ensures room { IfOk result (λ l. l.room ≡ depth) }
    {
        let levels = Vec::with_capacity(alloc, depth as usize)?;
        Ok(Levels {
            alloc,
            levels,
            depth: 0,
            room: depth as usize,
        })
    }

    /// How many elements are open.
    pub(crate) fn depth(&self) -> usize
        ensures depth { result ≡ length self.now.levels }
        ensures fits { result ≤ self.now.room }
        ensures stored { result ≤ length self.now.memory }
        ensures are { self.now.levels ≡ levels.innermost_first result self.now.memory }
    {
        self.depth
    }

    /// An element begins inside the innermost one.
    pub(crate) fn push(&mut self, name: &str, traits: Traits) -> Result<(), NoMemory>
        requires { length self.old.levels < self.old.room }
        ensures levels { OnOk result (self.new.levels ≡ levels.level_of (chars name.now) traits ∷ self.old.levels) }
        ensures room { self.new.room ≡ self.old.room }
    {
        self.make_next()?;
        let depth = self.depth;
        self.levels[depth].set(name, traits)?;
        self.depth = depth + 1;
        Ok(())
    }

    // There is a level behind the open ones. Most often there is one already.
    #[inline(always)]
    fn make_next(&mut self) -> Result<(), NoMemory>
        requires { length self.old.levels < self.old.room }
        ensures next { OnOk result (length self.new.levels < length self.new.memory) }
        ensures levels { OnOk result (self.new.levels ≡ self.old.levels) }
        ensures room { self.new.room ≡ self.old.room }
    {
        if self.depth < self.levels.len() {
            return Ok(());
        }
        self.make_level()
    }

    // A level more than there were.
    #[inline(never)]
    fn make_level(&mut self) -> Result<(), NoMemory>
        requires { length self.old.memory < self.old.room }
        ensures next { OnOk result (length self.new.levels < length self.new.memory) }
        ensures levels { OnOk result (self.new.levels ≡ self.old.levels) }
        ensures room { self.new.room ≡ self.old.room }
    {
        self.levels.push(Level::new(self.alloc))?;
        Ok(())
    }

    /// The innermost element ends.
    pub(crate) fn pop(&mut self)
        ensures levels { self.new.levels ≡ drop 1 self.old.levels }
        ensures room { self.new.room ≡ self.old.room }
        ensures memory { self.new.memory ≡ self.old.memory }
    {
        self.depth = self.depth.saturating_sub(1);
    }

    /// So many elements are open again, as they were before the last ones ended.
    pub(crate) fn reopen(&mut self, count: usize)
        requires { count ≤ length self.old.memory }
        ensures levels { self.new.levels ≡ levels.innermost_first count self.old.memory }
        ensures room { self.new.room ≡ self.old.room }
    {
        self.depth = count;
    }

    /// The innermost element.
    pub(crate) fn top(&self) -> Option<&Level>
        ensures { MatchOption result (self.now.levels ≡ []) (λ level. levels.IsTop level.now self.now.levels) }
    {
        match self.depth.checked_sub(1) {
            Some(last) => Some(&self.levels[last]),
            None => None,
        }
    }

    /// What may stand inside the innermost element.
    pub(crate) fn place(&self) -> Place
        ensures { result ≡ levels.place_under self.now.levels }
    {
        match self.top() {
            Some(level) => level.inside(),
            None => Place::of(Content::Outside),
        }
    }

    /// Whether what stands inside the innermost element is hidden.
    pub(crate) fn hides(&self) -> bool
        ensures { result ≡ levels.hidden_under self.now.levels }
    {
        match self.top() {
            Some(level) => level.hides(),
            None => false,
        }
    }

    /// The name of the innermost element, empty where none is open.
    pub(crate) fn name(&self) -> &str
        ensures { chars result.now ≡ levels.name_under self.now.levels }
    {
        match self.top() {
            Some(level) => level.name(),
            None => "",
        }
    }

    /// Ends the elements that a start tag of this name ends, or an end tag, and counts those in the tree. Most often the
    /// innermost element is one that no other tag ends, which is told first.
    #[inline(always)]
    pub(crate) fn end_by(&mut self, closing: bool, name: &str) -> usize
        ensures levels { self.new.levels ≡ levels.kept_levels (levels.ends_by closing (chars name.now)) self.old.levels }
        ensures ended { result ≡ levels.ended_count (levels.ends_by closing (chars name.now)) self.old.levels }
        ensures room { self.new.room ≡ self.old.room }
        ensures memory { self.new.memory ≡ self.old.memory }
        ensures fits { length self.old.levels ≤ self.old.room }
    {
        // No more are open than there is room for.
        let _most = self.depth;
        let Some(level) = self.top() else {
            return 0;
        };
        if !level.is_omissible() {
            return 0;
        }
        self.end_omissible(closing, name)
    }

    // The same, one after another. It is rare, and stands apart so that what is common stays short.
    #[inline(never)]
    fn end_omissible(&mut self, closing: bool, name: &str) -> usize
        ensures levels { self.new.levels ≡ levels.kept_levels (levels.ends_by closing (chars name.now)) self.old.levels }
        ensures ended { result ≡ levels.ended_count (levels.ends_by closing (chars name.now)) self.old.levels }
        ensures room { self.new.room ≡ self.old.room }
        ensures memory { self.new.memory ≡ self.old.memory }
    {
        let mut ended = 0;
        for _ in 0..self.depth() {
            let Some(level) = self.top() else {
                return ended;
            };
            if !level.ends_by(closing, name) {
                return ended;
            }
            ended += usize::from(level.shown());
            self.pop();
        }
        ended
    }
}
