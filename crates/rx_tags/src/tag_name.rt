//! The name of one tag while it is read.
ghost use Rattle.std.specs.Prelude.{◌≡◌, ◌≤◌, ◌==◌, [], ◌∷◌, ◌++◌, MatchBool, OnErr, OnOk, length, take, true};
ghost use Rattle.rx_terms.specs.Common.{list_all, chars};
ghost use Rattle.rx_tags.specs.Fronts.{GainsName, is_small};

use crate::fronts::small_length;
use crate::texts::{push_char, push_front};
use rx_terms::NoMemory;
use std::alloc::Global;
use std::marker::Model;

/// The characters of a tag's name, as far as they were read.
#[derive(Drop)]
pub(crate) struct TagName {
    text: Vec<u8>,
}

impl Model for TagName {
    ghost use Rattle.rx_terms.specs.Common.{chars, IsUtf8, Chars};

    ghost Value = { Chars };

    ghost view = { λ name. chars name.text.items };

    ghost invariant = { λ name. IsUtf8 name.text.items };
}

impl TagName {
    pub(crate) fn new(alloc: Global) -> TagName
        ensures { result ≡ [] }
    {
        TagName {
            text: Vec::new(alloc),
        }
    }

    /// Forgets the name, and keeps the memory.
    pub(crate) fn clear(&mut self)
        ensures { self.new ≡ [] }
    {
        self.text.clear();
    }

    /// Whether nothing of the name was read.
    pub(crate) fn is_empty(&self) -> bool
        ensures { result ≡ true → self.now ≡ [] }
    {
        self.text.is_empty()
    }

    /// One more character.
    pub(crate) fn push(&mut self, c: char) -> Result<(), NoMemory>
        ensures ok { OnOk result (self.new ≡ self.old ++ c ∷ []) }
        ensures err { OnErr result (self.new ≡ self.old) }
    {
        push_char(&mut self.text, c)?;
        Ok(())
    }

    /// So many small letters at the front.
    #[inline(always)]
    pub(crate) fn put(&mut self, bytes: &[u8], count: usize) -> Result<(), NoMemory>
        requires fits { count ≤ length bytes.now }
        requires small { list_all is_small (take count bytes.now) ≡ true }
        ensures ok { OnOk result (GainsName self.old (take count bytes.now) self.new) }
        ensures err { OnErr result (self.new ≡ self.old) }
    {
        push_front(&mut self.text, bytes, count)?;
        Ok(())
    }

    /// Takes the small letters at the front, where there is memory, and tells how many.
    #[inline(always)]
    pub(crate) fn take_small(&mut self, bytes: &[u8]) -> usize
        ensures fits { result ≤ length bytes.now }
        ensures gains { MatchBool (result == 0) (self.new ≡ self.old) (GainsName self.old (take result bytes.now) self.new) }
    {
        let count = small_length(bytes);
        if count == 0 {
            return 0;
        }
        if self.put(bytes, count).is_err() {
            return 0;
        }
        count
    }

    pub(crate) fn as_str(&self) -> &str
        ensures { chars result.now ≡ self.now }
    {
        unsafe { str::from_utf8_unchecked(&self.text) }
    }
}
