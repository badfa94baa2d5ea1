//! Lists of numbers.
ghost use Rattle.std.specs.Prelude.{◌≡◌, ◌<◌, [], ◌∷◌, ◌++◌, length, IfOk, OnErr, OnOk, Some, slice_get, slice_set, get_or};
ghost use Rattle.rx_graph.specs.Rows.{pushed, empty_rows};

use rx_terms::NoMemory;
use std::alloc::Global;
use std::marker::Model;

/// A list of lists of numbers, each of which grows at its end. A contract sees the lists.
#[derive(Drop)]
pub struct Rows {
    rows: Vec<Vec<usize>>,
}

impl Model for Rows {
    ghost use Rattle.std.specs.Prelude.{ℕ, List, map};

    ghost Value = { List (List ℕ) };

    ghost view = { λ rows. map (λ row. row.items) rows.rows.items };
}

impl Rows {
    /// No row.
    pub fn new(alloc: Global) -> Rows
        ensures { result ≡ [] }
    {
        Rows {
            rows: Vec::new(alloc),
        }
    }

    /// How many rows there are.
    pub fn len(&self) -> usize
        ensures { result ≡ length self.now }
    {
        self.rows.len()
    }

    /// Adds an empty row. Without memory nothing changes.
    pub fn add(&mut self, alloc: Global) -> Result<(), NoMemory>
        ensures ok { OnOk result (self.new ≡ self.old ++ [] ∷ []) }
        ensures err { OnErr result (self.new ≡ self.old) }
    {
        self.rows.push(Vec::new(alloc))?;
        Ok(())
    }

    /// Adds the number at the end of a row. Without memory nothing changes.
    pub fn push(&mut self, row: usize, number: usize) -> Result<(), NoMemory>
        requires { row < length self.old }
        ensures ok { OnOk result (self.new ≡ pushed self.old row number) }
        ensures err { OnErr result (self.new ≡ self.old) }
    {
        if self.rows[row].push(number).is_err() {
            return Err(NoMemory);
        }
        Ok(())
    }

    /// The numbers of a row.
    pub fn row(&self, row: usize) -> &[usize]
        requires { row < length self.now }
        ensures { slice_get self.now row ≡ Some result.now }
    {
        &self.rows[row]
    }
    /// The same, and no number where there is no such row.
    pub(crate) fn numbers(&self, row: usize) -> &[usize]
        ensures { result.now ≡ get_or self.now row [] }
    {
        if row >= self.rows.len() {
            return &[];
        }
        self.row(row)
    }

    /// Adds the number at the end of a row, where there is such a row. Without memory nothing changes.
    pub(crate) fn put(&mut self, row: usize, number: usize) -> Result<(), NoMemory>
        ensures ok { OnOk result (self.new ≡ pushed self.old row number) }
        ensures err { OnErr result (self.new ≡ self.old) }
    {
        if row >= self.len() {
            return Ok(());
        }
        self.push(row, number)
    }

    /// So many empty rows.
    pub(crate) fn empty(alloc: Global, len: usize) -> Result<Rows, NoMemory>
        ensures { IfOk result (λ rows. rows ≡ empty_rows len) }
    {
        let mut rows = Rows::new(alloc);
        for _ in 0..len {
            rows.add(alloc)?;
        }
        Ok(rows)
    }
    /// Puts other numbers in the place of a row, where there is such a row.
    pub(crate) fn fill(&mut self, row: usize, numbers: Vec<usize>)
        ensures { self.new ≡ slice_set self.old row numbers.items }
    {
        if row >= self.len() {
            return;
        }
        self.rows[row] = numbers;
    }
}
