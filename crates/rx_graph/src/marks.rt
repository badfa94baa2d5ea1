//! A number for each number below a size.
ghost use Rattle.std.specs.Prelude.{◌≡◌, length, replicate, slice_set, IfOk};
ghost use Rattle.rx_graph.specs.Numbering.{numbers_to};
ghost use Rattle.rx_graph.specs.Ways.{mark_at};

use rx_terms::NoMemory;
use std::alloc::Global;
use std::marker::Model;

/// A number for each number below a size. One that isn't below the size says that there is none. A contract sees them.
#[derive(Drop)]
pub(crate) struct Marks {
    marks: Vec<usize>,
}

impl Model for Marks {
    ghost use Rattle.std.specs.Prelude.{ℕ, List};

    ghost Value = { List ℕ };

    ghost view = { λ marks. marks.marks.items };
}

impl Marks {
    /// None for each of so many.
    pub(crate) fn none(alloc: Global, size: usize) -> Result<Marks, NoMemory>
        ensures { IfOk result (λ marks. marks ≡ replicate size size) }
    {
        let marks = vec![in alloc; size; size]?;
        Ok(Marks { marks })
    }

    /// For each of so many the number itself.
    pub(crate) fn own(alloc: Global, size: usize) -> Result<Marks, NoMemory>
        ensures { IfOk result (λ marks. marks ≡ numbers_to size) }
    {
        let mut marks = Vec::with_capacity(alloc, size)?;
        for number in 0..size {
            marks.push(number)?;
        }
        Ok(Marks { marks })
    }

    /// The size.
    pub(crate) fn len(&self) -> usize
        ensures { result ≡ length self.now }
    {
        self.marks.as_slice().len()
    }

    /// What stands for the number; it itself where it isn't below the size.
    pub(crate) fn at(&self, number: usize) -> usize
        ensures { result ≡ mark_at self.now number }
    {
        if number >= self.marks.as_slice().len() {
            return number;
        }
        self.marks[number]
    }

    /// Puts another in its place.
    pub(crate) fn set(&mut self, number: usize, mark: usize)
        ensures { self.new ≡ slice_set self.old number mark }
    {
        if number >= self.marks.as_slice().len() {
            return;
        }
        self.marks[number] = mark;
    }
}
