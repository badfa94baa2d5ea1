//! Which lengths texts have.
ghost use Rattle.std.specs.Prelude.{◌≡◌, ◌<◌, ℕ, true, false, cond, nat_eq, length, get_or, OnOk};

use rx_terms::NoMemory;
use std::alloc::Global;
use std::marker::Model;

/// For each number, up to the greatest that was added, whether it was. A contract sees these marks.
#[derive(Drop)]
pub(crate) struct Lengths {
    marks: Vec<bool>,
}

impl Model for Lengths {
    ghost use Rattle.std.specs.Prelude.{List, Bool};

    ghost Value = { List Bool };

    ghost view = { λ lengths. lengths.marks.items };
}

impl Lengths {
    ghost use Rattle.std.specs.Prelude.{[]};

    /// None, without memory.
    pub(crate) fn new(alloc: Global) -> Lengths
        ensures { result ≡ [] }
    {
        Lengths {
            marks: Vec::new(alloc),
        }
    }

    #[inline(always)]
    pub(crate) fn contains(&self, size: usize) -> bool
        ensures { result ≡ get_or self.now size false }
    {
        if size >= self.marks.len() {
            return false;
        }
        self.marks[size]
    }

    /// Adds a length, which takes memory for as many bytes as it is.
    pub(crate) fn add(&mut self, size: usize) -> Result<(), NoMemory>
        ensures { OnOk result ((n : ℕ) → get_or self.new n false ≡ cond (nat_eq size n) true (get_or self.old n false)) }
    {
        self.make_room(size)?;
        self.mark(size);
        Ok(())
    }

    fn make_room(&mut self, size: usize) -> Result<(), NoMemory>
        ensures room { OnOk result (size < length self.new) }
        ensures same { OnOk result ((n : ℕ) → get_or self.new n false ≡ get_or self.old n false) }
    {
        while self.marks.len() <= size {
            if self.marks.push(false).is_err() {
                return Err(NoMemory);
            }
        }
        Ok(())
    }

    fn mark(&mut self, size: usize)
        requires { size < length self.old }
        ensures { (n : ℕ) → get_or self.new n false ≡ cond (nat_eq size n) true (get_or self.old n false) }
    {
        self.marks[size] = true;
    }
}
