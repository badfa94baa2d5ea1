//! One buffer for the text of all elements that gather it.
ghost use Rattle.std.specs.Prelude.{◌≡◌, [], ◌++◌, length, OnOk, OnErr, encode_utf8_all};
ghost use Rattle.rx_terms.specs.Common.{chars, Chars};
ghost use Rattle.rx_values.specs.Marks.{CutAt, NoCut};

use rx_terms::NoMemory;
use std::alloc::Global;
use std::marker::Model;

/// Text that grows at its end and is cut back to a mark. A contract sees the characters that are kept.
#[derive(Debug, Drop)]
pub struct TextStore {
    text: String,
}

impl Model for TextStore {
    ghost use Rattle.std.specs.Prelude.{ℕ, List, string_bytes};
    ghost use Rattle.std.specs.Str.{chars, IsUtf8};

    ghost Value = { List ℕ };

    ghost view = { λ store. chars (string_bytes store.text) };

    ghost invariant = { λ store. IsUtf8 (string_bytes store.text) };
}

impl TextStore {
    /// A store that keeps nothing yet.
    pub fn new(alloc: Global) -> TextStore
        ensures { result ≡ [] }
    {
        TextStore {
            text: String::new(alloc),
        }
    }

    /// Adds the text at the end.
    pub fn push(&mut self, text: &str) -> Result<(), NoMemory>
        ensures ok { OnOk result (self.new ≡ self.old ++ chars text.now) }
        ensures err { OnErr result (self.new ≡ self.old) }
    {
        self.text.push_str(text)?;
        Ok(())
    }

    /// The length in bytes of the text that is kept: the mark of what is pushed next.
    pub fn mark(&self) -> usize
        ensures { result ≡ length (encode_utf8_all self.now) }
    {
        self.text.as_str().len()
    }

    /// The text behind the mark, which is the length in bytes of a front of what is kept. Behind any other number there
    /// is none.
    pub fn since(&self, mark: usize) -> &str
        ensures rest { (front rest : Chars) → CutAt self.now mark front rest → chars result.now ≡ rest }
        ensures none { NoCut self.now mark → result.now ≡ [] }
    {
        match self.text.as_str().split_at_checked(mark) {
            Some((_front, rest)) => rest,
            None => "",
        }
    }

    /// Drops the text behind the mark, which is the length in bytes of a front of what is kept. Any other number drops
    /// nothing.
    pub fn cut(&mut self, mark: usize)
        ensures front { (front rest : Chars) → CutAt self.old mark front rest → self.new ≡ front }
        ensures stays { NoCut self.old mark → self.new ≡ self.old }
    {
        if self.text.as_str().is_char_boundary(mark) {
            self.text.truncate(mark);
        }
    }
}
