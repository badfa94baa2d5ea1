//! The slots of several lists.
ghost use Rattle.rx_lists.specs.Rows.{first_slots};
ghost use Rattle.std.specs.Prelude.{◌≡◌, ◌<◌, [], ◌∷◌, ◌++◌, length, OnOk, OnErr, IfOk, IsTrue, ◌↔◌, Some, None, slice_get, slice_set, slice_index_or, take, ◌-◌};

use rx_terms::{NoMemory, Term};
use std::alloc::Global;
use std::marker::Model;

/// A row of slots for each list. A slot is empty until its term comes.
#[derive(Drop)]
pub(crate) struct SlotRows {
    alloc: Global,
    rows: Vec<Vec<Option<Term>>>,
}

impl Model for SlotRows {
    ghost use Rattle.std.specs.Prelude.{List, Option, map};
    ghost use Rattle.rx_terms.specs.declared.triples.Term.{Term};

    ghost Value = { List (List (Option Term)) };

    ghost view = { λ rows. map (λ row. row.items) rows.rows.items };
}

impl SlotRows {
    pub(crate) fn new(alloc: Global) -> SlotRows
        ensures { result ≡ [] }
    {
        SlotRows {
            alloc,
            rows: Vec::new(alloc),
        }
    }

    pub(crate) fn len(&self) -> usize
        ensures { result ≡ length self.now }
    {
        self.rows.len()
    }

    /// Adds a row with one empty slot or with none.
    pub(crate) fn add(&mut self, with_slot: bool) -> Result<(), NoMemory>
        ensures ok { OnOk result (self.new ≡ self.old ++ first_slots with_slot ∷ []) }
        ensures err { OnErr result (self.new ≡ self.old) }
    {
        let row = first_slots(self.alloc, with_slot)?;
        self.rows.push(row)?;
        Ok(())
    }

    /// Drops the last row.
    pub(crate) fn pop(&mut self)
        ensures { self.new ≡ take (length self.old - 1) self.old }
    {
        self.rows.pop();
    }

    /// Adds an empty slot at the end of a row.
    pub(crate) fn grow(&mut self, row: usize) -> Result<(), NoMemory>
        requires { row < length self.old }
        ensures ok { OnOk result (self.new ≡ slice_set self.old row (slice_index_or self.old row [] ++ None ∷ [])) }
        ensures err { OnErr result (self.new ≡ self.old) }
    {
        if self.rows[row].push(None).is_err() {
            return Err(NoMemory);
        }
        Ok(())
    }

    /// Puts the term into the slot, if it is there.
    pub(crate) fn set(&mut self, row: usize, place: usize, term: Term)
        ensures { self.new ≡ slice_set self.old row (slice_set (slice_index_or self.old row []) place (Some term)) }
    {
        if self.has(row, place) {
            self.put(row, place, term);
        }
    }

    /// Whether the slot is there.
    fn has(&self, row: usize, place: usize) -> bool
        ensures { IsTrue result ↔ ((row < length self.now) × (place < length (slice_index_or self.now row []))) }
    {
        if row >= self.rows.len() {
            return false;
        }
        place < self.rows[row].len()
    }

    fn put(&mut self, row: usize, place: usize, term: Term)
        requires row { row < length self.old }
        requires place { place < length (slice_index_or self.old row []) }
        ensures { self.new ≡ slice_set self.old row (slice_set (slice_index_or self.old row []) place (Some term)) }
    {
        self.rows[row][place] = Some(term);
    }

    /// The slots of a row.
    pub(crate) fn row(&self, row: usize) -> &[Option<Term>]
        requires { row < length self.now }
        ensures { result.now ≡ slice_index_or self.now row [] }
    {
        &self.rows[row]
    }
}

/// One empty slot, or none.
fn first_slots(alloc: Global, with_slot: bool) -> Result<Vec<Option<Term>>, NoMemory>
    ensures { IfOk result (λ slots. slots.items ≡ first_slots with_slot) }
{
    let mut row = Vec::new(alloc);
    if !with_slot {
        return Ok(row);
    }
    row.push(None)?;
    Ok(row)
}
