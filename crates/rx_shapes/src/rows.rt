//! Lists of numbers.
ghost use Rattle.std.specs.Prelude.{◌≡◌, ◌<◌, [], ◌∷◌, ◌++◌, length, IfOk, OnOk, Some, slice_get, get_or};
ghost use Rattle.rx_graph.specs.Rows.{pushed, empty_rows};
ghost use Rattle.rx_shapes.specs.Rows.{filed_in};

use rx_terms::NoMemory;
use std::alloc::Global;
use std::marker::Model;

/// A list of lists of numbers, each of which grows at its end. A contract sees the lists.
#[derive(Drop)]
pub(crate) struct Rows {
    rows: Vec<Vec<usize>>,
}

impl Model for Rows {
    ghost use Rattle.std.specs.Prelude.{ℕ, List, map};

    ghost Value = { List (List ℕ) };

    ghost view = { λ rows. map (λ row. row.items) rows.rows.items };
}

impl Rows {
    /// So many empty rows.
    pub(crate) fn empty(alloc: Global, len: usize) -> Result<Rows, NoMemory>
        ensures { IfOk result (λ rows. rows ≡ empty_rows len) }
    {
        let mut rows = Rows {
            rows: Vec::new(alloc),
        };
        for _ in 0..len {
            rows.add(alloc)?;
        }
        Ok(rows)
    }

    /// Adds an empty row.
    pub(crate) fn add(&mut self, alloc: Global) -> Result<(), NoMemory>
        ensures { OnOk result (self.new ≡ self.old ++ [] ∷ []) }
    {
        self.rows.push(Vec::new(alloc))?;
        Ok(())
    }

    /// Adds the number at the end of a row, where there is such a row.
    pub(crate) fn file(&mut self, row: Option<usize>, number: usize) -> Result<(), NoMemory>
        ensures { OnOk result (self.new ≡ filed_in self.old row number) }
    {
        match row {
            Some(row) => self.push_within(row, number),
            None => Ok(()),
        }
    }

    fn push_within(&mut self, row: usize, number: usize) -> Result<(), NoMemory>
        ensures { OnOk result (self.new ≡ pushed self.old row number) }
    {
        if row >= self.len() {
            return Ok(());
        }
        self.push(row, number)
    }

    fn push(&mut self, row: usize, number: usize) -> Result<(), NoMemory>
        requires { row < length self.old }
        ensures { OnOk result (self.new ≡ pushed self.old row number) }
    {
        if self.rows[row].push(number).is_err() {
            return Err(NoMemory);
        }
        Ok(())
    }

    /// How many rows there are.
    pub(crate) fn len(&self) -> usize
        ensures { result ≡ length self.now }
    {
        self.rows.as_slice().len()
    }

    /// The numbers of a row. There is none in a row that isn't there.
    pub(crate) fn row(&self, row: usize) -> &[usize]
        ensures { result.now ≡ get_or self.now row [] }
    {
        if row >= self.len() {
            return &[];
        }
        self.row_within(row)
    }

    fn row_within(&self, row: usize) -> &[usize]
        requires { row < length self.now }
        ensures { slice_get self.now row ≡ Some result.now }
    {
        &self.rows[row]
    }
}
