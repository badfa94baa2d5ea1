//! The attributes of one tag in one buffer.
ghost use Rattle.std.specs.Prelude.{◌≡◌, ◌<◌, ◌≤◌, true, false, [], ◌∷◌, ◌++◌, length, take, IfOk, OnErr, OnOk, encode_utf8_all, Some, slice_get};
ghost use Rattle.rx_grammar.specs.Common.{list_all, chars, is_ascii, firsts, has_repeat};
ghost use Rattle.rx_tags.specs.Reading.{all_read, begun_behind};

use crate::lists::list_rows;
use crate::repeats::{are_apart, unrepeated};
use crate::texts::{push_char, push_front, text_between};
use rx_terms::NoMemory;
use std::alloc::Global;
use std::marker::Model;

/// Where an attribute stands in the buffer: its name from `start` to `middle`, its value from `value` to `end`. Between them
/// stands nothing, or the `="` of an attribute that was copied as it is written.
#[derive(Clone, Copy, Drop)]
pub(crate) struct AttributeSpan {
    // The fields stand so that `start` and `middle`, which were written apart shortly before a row is made of them, aren't
    // copied as one word of twice the size, for which the processor would wait.
    pub(crate) start: usize,
    pub(crate) end: usize,
    pub(crate) middle: usize,
    pub(crate) value: usize,
}

/// Names and values one after another in one buffer: those of the attributes that are whole, and of the one that is read.
#[derive(Drop)]
pub(crate) struct Attributes {
    text: Vec<u8>,
    rows: Vec<AttributeSpan>,
    // the attribute that is read: its name from `start` to `middle`, what is known of its value from there to `end`, and
    // after that nothing or a run that may become a reference
    start: usize,
    middle: usize,
    end: usize,
}

impl Model for Attributes {
    ghost use Rattle.rx_tags.specs.Reading.{AttributeReading, read_as, SpansFit};

    ghost Value = { AttributeReading };

    ghost view = { λ a. read_as a.text.items a.rows.items a.start a.middle a.end };

    ghost invariant = { λ a. SpansFit a.text.items a.rows.items a.start a.middle a.end };
}

impl Attributes {
    ghost use Rattle.rx_tags.specs.Reading.{nothing_read};

    pub(crate) fn new(alloc: Global) -> Attributes
        ensures { result ≡ nothing_read }
    {
        Attributes {
            text: Vec::new(alloc),
            rows: Vec::new(alloc),
            start: 0,
            middle: 0,
            end: 0,
        }
    }

    /// Forgets all, and keeps the memory.
    pub(crate) fn clear(&mut self)
        ensures { self.new ≡ nothing_read }
    {
        self.text.clear();
        self.rows.clear();
        self.start = 0;
        self.middle = 0;
        self.end = 0;
    }

    /// One more character of the name, where no value was begun.
    pub(crate) fn push_key(&mut self, c: char) -> Result<(), NoMemory>
        requires known { self.old.known ≡ [] }
        requires pending { self.old.pending ≡ [] }
        ensures ok { OnOk result (self.new ≡ record self.old { key = self.old.key ++ c ∷ [] }) }
        ensures err { OnErr result (self.new ≡ self.old) }
    {
        push_char(&mut self.text, c)?;
        self.middle = self.text.len();
        self.end = self.middle;
        Ok(())
    }

    /// One more character of the value. A run before it is text.
    pub(crate) fn push(&mut self, c: char) -> Result<(), NoMemory>
        ensures ok { OnOk result (self.new ≡ record self.old { known = self.old.known ++ (self.old.pending ++ c ∷ []); pending = [] }) }
        ensures err { OnErr result (self.new ≡ self.old) }
    {
        push_char(&mut self.text, c)?;
        self.end = self.text.len();
        Ok(())
    }

    /// So many characters of ASCII at the front, of the name, where no value was begun.
    pub(crate) fn push_key_ascii(&mut self, bytes: &[u8], count: usize) -> Result<(), NoMemory>
        requires fits { count ≤ length bytes.now }
        requires ascii { list_all is_ascii (take count bytes.now) ≡ true }
        requires known { self.old.known ≡ [] }
        requires pending { self.old.pending ≡ [] }
        ensures ok { OnOk result (self.new ≡ record self.old { key = self.old.key ++ take count bytes.now }) }
        ensures err { OnErr result (self.new ≡ self.old) }
    {
        push_front(&mut self.text, bytes, count)?;
        self.middle = self.text.len();
        self.end = self.middle;
        Ok(())
    }

    /// So many characters of ASCII at the front, of the value. A run before them is text.
    pub(crate) fn push_ascii(&mut self, bytes: &[u8], count: usize) -> Result<(), NoMemory>
        requires fits { count ≤ length bytes.now }
        requires ascii { list_all is_ascii (take count bytes.now) ≡ true }
        ensures ok { OnOk result (self.new ≡ record self.old { known = self.old.known ++ (self.old.pending ++ take count bytes.now); pending = [] }) }
        ensures err { OnErr result (self.new ≡ self.old) }
    {
        push_front(&mut self.text, bytes, count)?;
        self.end = self.text.len();
        Ok(())
    }

    /// The character that begins a run. A run before it is text.
    pub(crate) fn begin_run(&mut self, c: char) -> Result<(), NoMemory>
        ensures ok { OnOk result (self.new ≡ record self.old { known = self.old.known ++ self.old.pending; pending = c ∷ [] }) }
        ensures err { OnErr result (self.new ≡ self.old) }
    {
        let end = self.text.len();
        push_char(&mut self.text, c)?;
        self.end = end;
        Ok(())
    }

    /// One more character of the run.
    pub(crate) fn push_run(&mut self, c: char) -> Result<(), NoMemory>
        ensures ok { OnOk result (self.new ≡ record self.old { pending = self.old.pending ++ c ∷ [] }) }
        ensures err { OnErr result (self.new ≡ self.old) }
    {
        push_char(&mut self.text, c)?;
        Ok(())
    }

    /// The character for which the run stands takes its place.
    pub(crate) fn replace_run(&mut self, c: char) -> Result<(), NoMemory>
        ensures ok { OnOk result (self.new ≡ record self.old { known = self.old.known ++ c ∷ []; pending = [] }) }
        ensures err { OnErr result (self.new ≡ self.old) }
    {
        let mut room = [0; 4];
        let bytes = c.encode_utf8(&mut room).as_bytes();
        self.text.reserve(4)?;
        self.text.truncate(self.end);
        self.text.extend_from_slice(bytes)?;
        self.end = self.text.len();
        Ok(())
    }

    /// The attribute is whole. A run at its end is text.
    pub(crate) fn add(&mut self) -> Result<(), NoMemory>
        ensures ok { OnOk result (self.new ≡ begun_behind (all_read self.old) []) }
        ensures err { OnErr result (self.new ≡ self.old) }
    {
        let end = self.text.len();
        let row = AttributeSpan {
            start: self.start,
            middle: self.middle,
            value: self.middle,
            end,
        };
        if self.rows.push(row).is_err() {
            return Err(NoMemory);
        }
        self.start = end;
        self.middle = end;
        self.end = end;
        Ok(())
    }

    /// An attribute is whole, with so many characters of ASCII more of its name, and so many for its value, which wasn't begun.
    #[inline(always)]
    pub(crate) fn add_ascii(
        &mut self,
        name: &[u8],
        letters: usize,
        value: &[u8],
        count: usize,
    ) -> Result<(), NoMemory>
        requires name_fits { letters ≤ length name.now }
        requires fits { count ≤ length value.now }
        requires name { list_all is_ascii (take letters name.now) ≡ true }
        requires value { list_all is_ascii (take count value.now) ≡ true }
        requires known { self.old.known ≡ [] }
        requires pending { self.old.pending ≡ [] }
        ensures ok { OnOk result (self.new ≡ begun_behind (self.old.whole ++ (self.old.key ++ take letters name.now, take count value.now) ∷ []) []) }
        ensures err { OnErr result (self.new ≡ self.old) }
    {
        let before = self.text.len();
        push_front(&mut self.text, name, letters)?;
        let middle = self.text.len();
        if push_front(&mut self.text, value, count).is_err() {
            self.text.truncate(before);
            return Err(NoMemory);
        }
        let end = self.text.len();
        let row = AttributeSpan {
            start: self.start,
            middle,
            value: middle,
            end,
        };
        if self.rows.push(row).is_err() {
            self.text.truncate(before);
            return Err(NoMemory);
        }
        self.start = end;
        self.middle = end;
        self.end = end;
        Ok(())
    }

    /// The attribute is whole, and the character begins the name of the next one.
    pub(crate) fn add_key(&mut self, c: char) -> Result<(), NoMemory>
        ensures ok { OnOk result (self.new ≡ begun_behind (all_read self.old) (c ∷ [])) }
        ensures err { OnErr result (self.new ≡ self.old) }
    {
        let end = self.text.len();
        push_char(&mut self.text, c)?;
        let row = AttributeSpan {
            start: self.start,
            middle: self.middle,
            value: self.middle,
            end,
        };
        if self.rows.push(row).is_err() {
            self.text.truncate(end);
            return Err(NoMemory);
        }
        self.start = end;
        self.middle = self.text.len();
        self.end = self.middle;
        Ok(())
    }

    /// The run, as it is written.
    pub(crate) fn run(&self) -> &str
        ensures { result.now ≡ encode_utf8_all self.now.pending }
    {
        text_between(&self.text, self.end, self.text.len())
    }

    /// How many attributes are whole.
    pub(crate) fn count(&self) -> usize
        ensures { result ≡ length self.now.whole }
    {
        self.rows.len()
    }

    /// The name and the value of an attribute that is whole.
    pub(crate) fn at(&self, i: usize) -> (&str, &str)
        requires { i < length self.now.whole }
        ensures { slice_get self.now.whole i ≡ Some (chars result.0.now, chars result.1.now) }
    {
        let row = self.rows[i];
        (
            text_between(&self.text, row.start, row.middle),
            text_between(&self.text, row.value, row.end),
        )
    }
}

impl Attributes {
    ghost use Rattle.rx_reader.specs.declared.phases.TagPhase.TheVariants as phase;
    ghost use Rattle.rx_tags.specs.Lists.{ClosesAt, ListsTo};
    ghost use Rattle.rx_tags.specs.Reading.{nothing_read};

    /// Whether surely nothing was read.
    #[inline(always)]
    pub(crate) fn are_none(&self) -> bool
        ensures { result ≡ true → self.now ≡ nothing_read }
    {
        self.text.is_empty() && self.rows.is_empty()
    }

    /// Takes the attributes that stand whole at the front, a space apart, where a tag's `>` stands behind the last one and
    /// there is memory, and tells the place of the `>`; else 0. They are copied as they are written.
    #[inline(always)]
    pub(crate) fn take_list(&mut self, bytes: &[u8]) -> usize
        requires { self.old ≡ nothing_read }
        ensures none { result ≡ 0 → self.new ≡ self.old }
        ensures closes { 0 < result → ClosesAt bytes.now result }
        ensures lists { 0 < result → ListsTo phase.AfterValue bytes.now result self.new.whole }
        ensures is { 0 < result → self.new ≡ begun_behind self.new.whole [] }
    {
        self.text.clear();
        self.rows.clear();
        self.start = 0;
        self.middle = 0;
        self.end = 0;
        let end = list_rows(&mut self.rows, bytes);
        if end == 0 {
            self.rows.clear();
            return 0;
        }
        if push_front(&mut self.text, bytes, end).is_err() {
            self.rows.clear();
            return 0;
        }
        self.start = end;
        self.middle = end;
        self.end = end;
        end
    }
}

impl Attributes {
    /// Whether surely no name stands twice among the attributes that are whole.
    #[inline(always)]
    pub(crate) fn are_apart(&self) -> bool
        ensures { result ≡ true → has_repeat self.now.whole ≡ false }
    {
        are_apart(&self.text, &self.rows)
    }

    /// Forgets each attribute whose name stands before it, and tells whether there was one.
    pub(crate) fn keep_firsts(&mut self, alloc: Global) -> Result<bool, NoMemory>
        ensures kept { OnOk result (self.new ≡ record self.old { whole = firsts self.old.whole }) }
        ensures repeated { IfOk result (λ repeated. repeated ≡ has_repeat self.old.whole) }
        ensures err { OnErr result (self.new ≡ self.old) }
    {
        let Some(kept) = unrepeated(alloc, &self.text, &self.rows)? else {
            return Ok(false);
        };
        self.rows = kept;
        Ok(true)
    }

    /// The attribute is whole, and it is the last one. Forgets each whose name stands before it, and tells whether there was
    /// one.
    pub(crate) fn add_last(&mut self, alloc: Global) -> Result<bool, NoMemory>
        ensures kept { OnOk result (self.new ≡ begun_behind (firsts (all_read self.old)) []) }
        ensures repeated { IfOk result (λ repeated. repeated ≡ has_repeat (all_read self.old)) }
        ensures err { OnErr result (self.new ≡ self.old) }
    {
        let count = self.rows.len();
        let end = self.text.len();
        let row = AttributeSpan {
            start: self.start,
            middle: self.middle,
            value: self.middle,
            end,
        };
        if self.rows.push(row).is_err() {
            return Err(NoMemory);
        }
        let kept = match unrepeated(alloc, &self.text, &self.rows) {
            Ok(kept) => kept,
            Err(NoMemory) => {
                self.rows.truncate(count);
                return Err(NoMemory);
            }
        };
        self.start = end;
        self.middle = end;
        self.end = end;
        let Some(rows) = kept else {
            return Ok(false);
        };
        self.rows = rows;
        Ok(true)
    }
}
