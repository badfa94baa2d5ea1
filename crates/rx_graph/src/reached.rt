//! Numbers that are reached.
ghost use Rattle.std.specs.Prelude.{◌≡◌, ◌<◌, [], length, nat_lt, IfOk, OnOk, Some, slice_get, if◌then◌else◌, nat_eq};
ghost use Rattle.rx_model.specs.Sets.{with_one};
ghost use Rattle.rx_graph.specs.Ways.{led_one, led_all, EachOnce, IsWalk};

use crate::marks::Marks;
use crate::rows::Rows;
use indexmap::IndexSet;
use rx_terms::NoMemory;
use std::alloc::Global;
use std::hash::{BuildHasherDefault, FoldHasher};
use std::marker::Model;

/// Numbers in the order in which they were reached, each once. A contract sees the list.
#[derive(Drop)]
pub(crate) struct Reached {
    // They are numbers in order, so that a quick hash is enough.
    numbers: IndexSet<usize, BuildHasherDefault<FoldHasher>>,
}

impl Model for Reached {
    ghost use Rattle.std.specs.Prelude.{ℕ, List};

    ghost Value = { List ℕ };

    ghost view = { λ reached. reached.numbers.keys };
}

impl Reached {
    fn new(alloc: Global) -> Reached
        ensures { result ≡ [] }
    {
        Reached {
            numbers: IndexSet::with_hasher(alloc, BuildHasherDefault::new()),
        }
    }

    /// Adds the number at the end, where it isn't there yet.
    fn add(&mut self, number: usize) -> Result<(), NoMemory>
        ensures { OnOk result (self.new ≡ with_one nat_eq self.old number) }
    {
        self.numbers.insert(number)?;
        Ok(())
    }

    /// How many there are.
    pub(crate) fn len(&self) -> usize
        ensures len { result ≡ length self.now }
        ensures each_once { EachOnce self.now }
    {
        self.numbers.len()
    }

    /// The one at a place.
    pub(crate) fn at(&self, place: usize) -> usize
        requires { place < length self.now }
        ensures { slice_get self.now place ≡ Some result }
    {
        self.numbers[place]
    }

    /// Adds what stands for the numbers of a row.
    fn add_led(&mut self, row: &[usize], lead: &Marks) -> Result<(), NoMemory>
        ensures { OnOk result (self.new ≡ led_all lead.now self.old row.now) }
    {
        for number in row {
            self.add_below(lead.at(*number), lead.len())?;
        }
        Ok(())
    }

    /// Adds the number where it is below the size.
    fn add_below(&mut self, number: usize, size: usize) -> Result<(), NoMemory>
        ensures { OnOk result (self.new ≡ (if nat_lt number size then with_one nat_eq self.old number else self.old)) }
    {
        if number >= size {
            return Ok(());
        }
        self.add(number)
    }
}

/// What is reached from one that stands for others: itself, and what stands for all that it leads to; nothing where it is
/// none.
pub(crate) fn reach(
    alloc: Global,
    nexts: &Rows,
    lead: &Marks,
    from: usize,
) -> Result<Reached, NoMemory>
    ensures { IfOk result (λ reached. IsWalk nexts.now lead.now from reached) }
{
    let mut reached = Reached::new(alloc);
    reached.add_below(from, lead.len())?;
    let mut done = 0;
    while done < reached.len() {
        reached.add_led(nexts.numbers(reached.at(done)), lead)?;
        done += 1;
    }
    Ok(reached)
}
