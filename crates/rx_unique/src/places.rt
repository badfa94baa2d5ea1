//! Where numbers stand in a list.
ghost use Rattle.std.specs.Prelude.{◌≡◌, ◌<◌, ◌-◌, [], ◌∷◌, ◌++◌, take, length, slice_index, OnOk, OnErr};
ghost use Rattle.rx_unique.specs.Places.{last_place};

use rx_terms::NoMemory;
use std::alloc::Global;
use std::collections::BTreeMap;
use std::marker::Model;

/// Numbers in the order in which they came. It tells where each stands last without going through the others. A contract
/// sees the list.
#[derive(Debug, Drop)]
pub struct Places {
    entries: Vec<Entry>,
    // the last place of each number
    last: BTreeMap<u64, usize>,
}

#[derive(Debug, Clone, Copy)]
struct Entry {
    number: u64,
    // the last place before this one that has the same number
    earlier: Option<usize>,
}

impl Model for Places {
    ghost use Rattle.std.specs.Prelude.{List, ℕ};
    ghost use Rattle.rx_unique.specs.Entries.{numbers_of, earlier_of};
    ghost use Rattle.rx_unique.specs.Places.{AreFiled};

    ghost Value = { List ℕ };

    ghost view = { λ places. numbers_of places.entries.items };

    ghost invariant = { λ places. AreFiled (numbers_of places.entries.items) (earlier_of places.entries.items) places.last };
}

impl Places {
    /// No number.
    pub fn new(alloc: Global) -> Places
        ensures empty { result ≡ [] }
    {
        Places {
            entries: Vec::new(alloc),
            last: BTreeMap::new(alloc),
        }
    }

    /// Adds the number at the end.
    pub fn push(&mut self, number: u64) -> Result<(), NoMemory>
        ensures ok { OnOk result (self.new ≡ self.old ++ number ∷ []) }
        ensures err { OnErr result (self.new ≡ self.old) }
    {
        self.entries.reserve(1)?;
        let place = self.entries.len();
        let earlier = self.last.insert(number, place)?;
        self.entries.push(Entry { number, earlier })?;
        Ok(())
    }

    /// How many numbers there are.
    pub fn len(&self) -> usize
        ensures length { result ≡ length self.now }
    {
        self.entries.len()
    }

    /// Where the number stands last.
    pub fn last(&self, number: u64) -> Option<usize>
        ensures { result ≡ last_place number self.now }
    {
        self.last.get(&number).copied()
    }

    /// Where the number at the place stands last before it.
    pub fn earlier(&self, place: usize) -> Option<usize>
        requires { place < length self.now }
        ensures { result ≡ last_place (slice_index self.now place) (take place self.now) }
    {
        self.entries[place].earlier
    }

    /// Drops all but the first numbers.
    pub fn truncate(&mut self, count: usize)
        ensures front { self.new ≡ take count self.old }
    {
        while self.len() > count {
            self.pop();
        }
    }

    fn pop(&mut self)
        ensures front { self.new ≡ take (length self.old - 1) self.old }
    {
        let Some(entry) = self.entries.pop() else {
            return;
        };
        match entry.earlier {
            // the number is there, so this takes no memory
            Some(place) => drop(self.last.insert(entry.number, place)),
            None => drop(self.last.remove(&entry.number)),
        }
    }
}
