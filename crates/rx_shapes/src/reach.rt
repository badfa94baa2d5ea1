//! Numbers that are reached, each once.
ghost use Rattle.std.specs.Prelude.{◌≡◌, ◌<◌, [], true, length, IfOk, OnOk, get_or, slice_get, Some};
ghost use Rattle.rx_shapes.specs.Reach.{reach_added, reach_all, reach_marked, unreached};

use rx_terms::NoMemory;
use std::alloc::Global;
use std::marker::Model;

/// Numbers below a size, in the order in which they were reached, each once. A contract sees them, and the marks of all.
#[derive(Drop)]
pub(crate) struct Reached {
    marks: Vec<bool>,
    list: Vec<usize>,
}

impl Model for Reached {
    ghost use Rattle.rx_shapes.specs.Reach.{Reach};

    ghost Value = { Reach };

    ghost view = { λ r. record { marks = r.marks.items; list = r.list.items } };
}

impl Reached {
    /// None of so many.
    pub(crate) fn new(alloc: Global, size: usize) -> Result<Reached, NoMemory>
        ensures { IfOk result (λ reached. reached ≡ unreached size) }
    {
        let marks = vec![in alloc; false; size]?;
        let list = Vec::new(alloc);
        Ok(Reached { marks, list })
    }

    /// Adds the numbers that aren't reached yet.
    pub(crate) fn add_all(&mut self, numbers: &[usize]) -> Result<(), NoMemory>
        ensures { OnOk result (self.new ≡ reach_all self.old numbers.now) }
    {
        for number in numbers {
            self.add(*number)?;
        }
        Ok(())
    }

    fn add(&mut self, number: usize) -> Result<(), NoMemory>
        ensures { OnOk result (self.new ≡ reach_added self.old number) }
    {
        if self.is_marked(number) {
            return Ok(());
        }
        self.mark(number)
    }

    /// Whether the number is reached, or isn't below the size.
    fn is_marked(&self, number: usize) -> bool
        ensures { result ≡ get_or self.now.marks number true }
    {
        if number >= self.marks.as_slice().len() {
            return true;
        }
        self.marks[number]
    }

    fn mark(&mut self, number: usize) -> Result<(), NoMemory>
        requires { number < length self.old.marks }
        ensures { OnOk result (self.new ≡ reach_marked self.old number) }
    {
        self.list.push(number)?;
        self.marks[number] = true;
        Ok(())
    }

    /// How many are reached.
    pub(crate) fn len(&self) -> usize
        ensures { result ≡ length self.now.list }
    {
        self.list.as_slice().len()
    }

    /// The one that was reached after so many.
    pub(crate) fn at(&self, place: usize) -> usize
        requires { place < length self.now.list }
        ensures { slice_get self.now.list place ≡ Some result }
    {
        self.list[place]
    }

    /// For each number below the size whether it is reached.
    pub(crate) fn into_marks(self) -> Vec<bool>
        ensures { result.items ≡ self.marks }
    {
        self.marks
    }
}
