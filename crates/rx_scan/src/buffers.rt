//! Text that is gathered a character at a time.
ghost use Rattle.std.specs.Prelude.{◌≡◌, ◌+◌, ◌≤◌, true, [], ◌∷◌, ◌++◌, length, IfOk, IsOk, OnErr, OnOk, encode_utf8_all};
ghost use Rattle.rx_terms.specs.Common.{chars, is_empty};

use rx_terms::NoMemory;
use std::alloc::Global;
use std::marker::Model;

/// A text that grows. A contract sees its characters, how many bytes it has, and how many fit without more memory.
#[derive(Drop)]
pub(crate) struct Buffer {
    text: String,
}

impl Model for Buffer {
    ghost use Rattle.std.specs.Prelude.{string_bytes};
    ghost use Rattle.std.specs.String.{string_len, string_capacity};
    ghost use Rattle.std.specs.Str.{chars};
    ghost use Rattle.rx_scan.specs.Buffers.{Buffered};

    ghost Value = { Buffered };

    ghost view = { λ b. record { text = chars (string_bytes b.text); size = string_len b.text; room = string_capacity b.text } };
}

impl Buffer {
    /// No text, with room for so many bytes.
    pub(crate) fn with_room(alloc: Global, room: usize) -> Result<Buffer, NoMemory>
        ensures text { IfOk result (λ b. b.text ≡ []) }
        ensures size { IfOk result (λ b. b.size ≡ 0) }
        ensures room { IfOk result (λ b. room ≤ b.room) }
    {
        let text = String::with_capacity(alloc, room)?;
        Ok(Buffer { text })
    }

    /// Forgets the text, and keeps the memory.
    pub(crate) fn clear(&mut self)
        ensures text { self.new.text ≡ [] }
        ensures size { self.new.size ≡ 0 }
        ensures room { self.new.room ≡ self.old.room }
    {
        self.text.clear();
    }

    /// One more character, which may have four bytes.
    pub(crate) fn push(&mut self, c: char) -> Result<(), NoMemory>
        ensures ok { OnOk result (self.new.text ≡ self.old.text ++ c ∷ []) }
        ensures err { OnErr result (self.new.text ≡ self.old.text) }
        ensures size { self.new.size ≤ self.old.size + 4 }
        ensures room { self.old.room ≤ self.new.room }
        ensures fits { self.old.size + 4 ≤ self.old.room → IsOk result }
    {
        if self.text.push(c).is_err() {
            return Err(NoMemory);
        }
        Ok(())
    }

    /// Text behind this one.
    pub(crate) fn push_text(&mut self, text: &str) -> Result<(), NoMemory>
        ensures ok { OnOk result (self.new.text ≡ self.old.text ++ chars text.now) }
        ensures size { OnOk result (self.new.size ≡ self.old.size + length text.now) }
        ensures room { self.old.room ≤ self.new.room }
        ensures fits { self.old.size + length text.now ≤ self.old.room → IsOk result }
    {
        if self.text.push_str(text).is_err() {
            return Err(NoMemory);
        }
        Ok(())
    }

    /// The other text behind this one.
    pub(crate) fn push_all(&mut self, other: &Buffer) -> Result<(), NoMemory>
        ensures ok { OnOk result (self.new.text ≡ self.old.text ++ other.now.text) }
        ensures room { self.old.room ≤ self.new.room }
    {
        if self.text.push_str(other.text.as_str()).is_err() {
            return Err(NoMemory);
        }
        Ok(())
    }

    /// How many bytes the text has.
    pub(crate) fn len(&self) -> usize
        ensures { result ≡ self.now.size }
    {
        self.text.len()
    }

    /// Whether there is no text.
    pub(crate) fn is_empty(&self) -> bool
        ensures value { result ≡ is_empty self.now.text }
        ensures size { result ≡ true → self.now.size ≡ 0 }
    {
        self.text.as_str().is_empty()
    }

    pub(crate) fn as_str(&self) -> &str
        ensures characters { chars result.now ≡ self.now.text }
        ensures bytes { result.now ≡ encode_utf8_all self.now.text }
    {
        self.text.as_str()
    }
}
