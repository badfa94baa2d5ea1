//! The attributes of a tag while their values are read.
ghost use Rattle.std.specs.Prelude.{◌≡◌, ℕ, List, [], ◌∷◌, ◌++◌, IfErr, OnErr, OnOk};
ghost use Rattle.rx_terms.specs.Ascii.{ampersand};
ghost use Rattle.rx_reader.specs.Values as values;
ghost use Rattle.rx_reader.specs.Values.{no_value_yet};
ghost use Rattle.rx_tags.specs.Pairs as ends;

use crate::attributes::Attributes;
use crate::fronts::{plain_length, small_length};
use crate::references::meaning;
use crate::values::{ValueMove, no_meaning, value_move};
use rx_chars::Syntax;
use rx_grammar::Kind;
use rx_reader::RunPhase;
use rx_terms::NoMemory;
use std::alloc::Global;
use std::marker::Model;

/// Why a step gives nothing.
#[derive(Clone, Copy, Debug, PartialEq, Eq)]
pub enum TagError {
    /// The tag has a fault of this kind at this character.
    Bad(Kind),
    /// There was no memory.
    NoMemory,
}

impl From<NoMemory> for TagError {
    ghost use Rattle.rx_tags.specs.declared.pairs.TagError.TheVariants.{NoMemory};

    ghost from_gives = { λ _ error. error ≡ NoMemory };

    fn from(_error: NoMemory) -> TagError {
        TagError::NoMemory
    }
}

/// The attributes that are whole, and the one that is read with the phase of its value.
#[derive(Drop)]
pub(crate) struct Pairs {
    attributes: Attributes,
    run: RunPhase,
}

impl Model for Pairs {
    ghost use Rattle.rx_tags.specs.Pairs.{Pairs as PairsRead, pairs_read, IsPendingRun};

    ghost Value = { PairsRead };

    ghost view = { λ p. pairs_read p.run p.attributes };

    ghost invariant = { λ p. IsPendingRun p.run p.attributes.pending };
}

impl Pairs {
    ghost use Rattle.std.specs.Prelude.{◌≤◌, ◌==◌, MatchBool, length, take};
    ghost use Rattle.rx_tags.specs.Fronts.{GainsValue, GainsKey};
    ghost use Rattle.rx_tags.specs.Pairs.{no_pairs, TakeGives, AddGives};

    pub(crate) fn new(alloc: Global) -> Pairs
        ensures { result ≡ no_pairs }
    {
        Pairs {
            attributes: Attributes::new(alloc),
            run: RunPhase::Plain,
        }
    }

    /// Forgets all, and keeps the memory.
    pub(crate) fn clear(&mut self)
        ensures { self.new ≡ no_pairs }
    {
        self.attributes.clear();
        self.run = RunPhase::Plain;
    }

    /// One more character of the name, where no value was begun.
    pub(crate) fn push_key(&mut self, c: char) -> Result<(), TagError>
        requires { self.old.value ≡ no_value_yet }
        ensures ok { OnOk result (self.new ≡ record self.old { key = self.old.key ++ c ∷ [] }) }
        ensures err { OnErr result (self.new ≡ self.old) }
        ensures memory { IfErr result (λ error. error ≡ TagError.NoMemory) }
    {
        self.attributes.push_key(c)?;
        Ok(())
    }

    /// One more character of the value, in which references are decoded.
    pub(crate) fn take(&mut self, syntax: Syntax, c: char) -> Result<(), TagError>
        ensures gives { TakeGives syntax self.old c result self.new }
        ensures err { OnErr result (self.new ≡ self.old) }
    {
        match value_move(syntax, self.run, c) {
            ValueMove::Begins => {
                self.attributes.begin_run(c)?;
                self.run = RunPhase::Ampersand;
                Ok(())
            }
            ValueMove::Is(given) => {
                self.attributes.push(given)?;
                self.run = RunPhase::Plain;
                Ok(())
            }
            ValueMove::Goes(next) => {
                self.attributes.push_run(c)?;
                self.run = next;
                Ok(())
            }
            ValueMove::Closes => {
                let body = body_of(self.attributes.run());
                let Some(given) = meaning(syntax, body) else {
                    return Err(TagError::Bad(no_meaning(self.run)));
                };
                self.attributes.replace_run(given)?;
                self.run = RunPhase::Plain;
                Ok(())
            }
            ValueMove::Bad => Err(TagError::Bad(Kind::StrictText)),
        }
    }

    /// Takes the characters at the front that are themselves in each value in quotes, where the value has no run at its
    /// end and there is memory, and tells how many.
    pub(crate) fn take_plain(&mut self, bytes: &[u8]) -> usize
        ensures fits { result ≤ length bytes.now }
        ensures gains { MatchBool (result == 0) (self.new ≡ self.old) (GainsValue self.old (take result bytes.now) self.new) }
    {
        if is_run(self.run) {
            return 0;
        }
        let count = plain_length(bytes);
        if count == 0 {
            return 0;
        }
        if self.attributes.push_ascii(bytes, count).is_err() {
            return 0;
        }
        count
    }

    /// Takes the small letters at the front for the name, where no value was begun and there is memory, and tells how many.
    pub(crate) fn take_small(&mut self, bytes: &[u8]) -> usize
        requires { self.old.value ≡ no_value_yet }
        ensures fits { result ≤ length bytes.now }
        ensures gains { MatchBool (result == 0) (self.new ≡ self.old) (GainsKey self.old (take result bytes.now) self.new) }
    {
        let count = small_length(bytes);
        if count == 0 {
            return 0;
        }
        if self.attributes.push_key_ascii(bytes, count).is_err() {
            return 0;
        }
        count
    }

    /// The attribute that is read is whole.
    pub(crate) fn add(&mut self, syntax: Syntax) -> Result<(), TagError>
        ensures gives { AddGives syntax self.old result self.new }
        ensures err { OnErr result (self.new ≡ self.old) }
    {
        if !may_end(syntax, self.run) {
            return Err(TagError::Bad(Kind::StrictText));
        }
        self.attributes.add()?;
        self.run = RunPhase::Plain;
        Ok(())
    }
}

impl Pairs {
    ghost use Rattle.rx_tags.specs.Fronts.{AttributeIsWhole, GainsWhole};
    ghost use Rattle.rx_tags.specs.Pairs.{AddKeyGives};

    /// Adds the attribute that stands whole at the front, where no value was begun.
    #[inline(always)]
    pub(crate) fn add_whole(
        &mut self,
        bytes: &[u8],
        name: usize,
        value: usize,
    ) -> Result<(), NoMemory>
        requires begun { self.old.value ≡ no_value_yet }
        requires whole { AttributeIsWhole bytes.now name value }
        ensures ok { OnOk result (GainsWhole self.old bytes.now name value self.new) }
        ensures err { OnErr result (self.new ≡ self.old) }
    {
        self.attributes
            .add_ascii(bytes, name, &bytes[name + 2..], value)?;
        self.run = RunPhase::Plain;
        Ok(())
    }

    /// The attribute that is read is whole, and the character begins the name of the next one.
    pub(crate) fn add_key(&mut self, syntax: Syntax, c: char) -> Result<(), TagError>
        ensures gives { AddKeyGives syntax self.old c result self.new }
        ensures err { OnErr result (self.new ≡ self.old) }
    {
        if !may_end(syntax, self.run) {
            return Err(TagError::Bad(Kind::StrictText));
        }
        self.attributes.add_key(c)?;
        self.run = RunPhase::Plain;
        Ok(())
    }
}

impl Pairs {
    ghost use Rattle.std.specs.Prelude.{◌<◌, true, length};
    ghost use Rattle.rx_tags.specs.Lists.{TakesBehind, TakesList};
    ghost use Rattle.rx_tags.specs.Pairs.{no_pairs};

    /// Whether surely nothing was read.
    #[inline(always)]
    pub(crate) fn are_none(&self) -> bool
        ensures { result ≡ true → self.now ≡ no_pairs }
    {
        self.attributes.are_none()
    }

    // Takes the attributes that stand whole at the front, a space apart, where a tag's `>` stands behind the last one, surely
    // no name stands twice and there is memory, and tells the place of the `>`; else 0.
    #[inline(always)]
    fn take_list(&mut self, bytes: &[u8]) -> usize
        requires { self.old ≡ no_pairs }
        ensures none { result ≡ 0 → self.new ≡ self.old }
        ensures takes { 0 < result → TakesList bytes.now result self.new }
    {
        let end = self.attributes.take_list(bytes);
        if end == 0 {
            return 0;
        }
        if !self.attributes.are_apart() {
            self.attributes.clear();
            return 0;
        }
        end
    }

    /// Takes what stands behind a tag's name of so many bytes: nothing, or a list of attributes. Tells the place of the `>`
    /// behind it, or 0 where something else stands there.
    #[inline(always)]
    pub(crate) fn take_behind(&mut self, bytes: &[u8], count: usize) -> usize
        requires none { self.old ≡ no_pairs }
        requires some { 0 < count }
        requires fits { count < length bytes.now }
        ensures none { result ≡ 0 → self.new ≡ self.old }
        ensures takes { 0 < result → TakesBehind bytes.now count result self.new }
    {
        if bytes[count] == b'>' {
            return count;
        }
        if bytes[count] != b' ' {
            return 0;
        }
        let end = self.take_list(&bytes[count + 1..]);
        if end == 0 {
            return 0;
        }
        count + 1 + end
    }
}

impl Pairs {
    ghost use Rattle.std.specs.Prelude.{IfOk, true, false};
    ghost use Rattle.rx_grammar.specs.Tags.{firsts, has_repeat};
    ghost use Rattle.rx_tags.specs.Pairs.{AddLastGives};

    /// Whether surely no name stands twice among the attributes that are whole.
    #[inline(always)]
    pub(crate) fn are_apart(&self) -> bool
        ensures { result ≡ true → has_repeat self.now.whole ≡ false }
    {
        self.attributes.are_apart()
    }

    /// Forgets each attribute whose name stands before it, and tells whether there was one.
    pub(crate) fn keep_firsts(&mut self, alloc: Global) -> Result<bool, NoMemory>
        ensures kept { OnOk result (self.new ≡ record self.old { whole = firsts self.old.whole }) }
        ensures repeated { IfOk result (λ repeated. repeated ≡ has_repeat self.old.whole) }
        ensures err { OnErr result (self.new ≡ self.old) }
    {
        self.attributes.keep_firsts(alloc)
    }

    /// The attribute that is read is whole, and the last one. Forgets each whose name stands before it, and tells whether
    /// there was one.
    pub(crate) fn add_last(&mut self, syntax: Syntax, alloc: Global) -> Result<bool, TagError>
        ensures gives { AddLastGives syntax self.old result self.new }
        ensures err { OnErr result (self.new ≡ self.old) }
    {
        if !may_end(syntax, self.run) {
            return Err(TagError::Bad(Kind::StrictText));
        }
        let repeated = self.attributes.add_last(alloc)?;
        self.run = RunPhase::Plain;
        Ok(repeated)
    }
}

impl Pairs {
    ghost use Rattle.std.specs.Prelude.{◌<◌, length, slice_get, Some};
    ghost use Rattle.std.specs.Str.{chars};

    /// How many attributes are whole.
    pub(crate) fn count(&self) -> usize
        ensures { result ≡ length self.now.whole }
    {
        self.attributes.count()
    }

    /// The name and the value of an attribute that is whole.
    pub(crate) fn at(&self, i: usize) -> (&str, &str)
        requires { i < length self.now.whole }
        ensures { slice_get self.now.whole i ≡ Some (chars result.0.now, chars result.1.now) }
    {
        self.attributes.at(i)
    }
}

fn is_run(run: RunPhase) -> bool
    ensures { result ≡ values.is_run run }
{
    run != RunPhase::Plain
}

// Whether a value may end in this phase.
fn may_end(syntax: Syntax, run: RunPhase) -> bool
    ensures { result ≡ ends.may_end syntax run }
{
    syntax == Syntax::Html || run == RunPhase::Plain
}

// What stands after the `&` of a run.
fn body_of(run: &str) -> &str
    ensures { (body : List ℕ) → run.now ≡ ampersand ∷ body → result.now ≡ body }
{
    match run.strip_prefix("&") {
        Some(body) => body,
        None => run,
    }
}
