//! Keys that found their slot taken.
ghost use Rattle.std.specs.Prelude.{◌≡◌, [], ◌∷◌, ◌++◌, OnOk, OnErr};

use crate::places::Places;
use rx_terms::NoMemory;
use std::alloc::Global;

/// Some of the keys of a list, with the whole of their SipHash.
#[derive(Drop)]
pub(crate) struct Others {
    // of each its SipHash, so that a look-up goes to the keys of one number alone
    pub(crate) numbers: Places,
    // of each its place among all keys
    pub(crate) places: Vec<usize>,
}

impl Others {
    /// No key.
    pub(crate) fn new(alloc: Global) -> Others
        ensures numbers { result.numbers ≡ [] }
        ensures places { result.places.items ≡ [] }
    {
        Others {
            numbers: Places::new(alloc),
            places: Vec::new(alloc),
        }
    }

    /// Adds the key of this SipHash that stands at the place.
    pub(crate) fn push(&mut self, number: u64, place: usize) -> Result<(), NoMemory>
        ensures numbers { OnOk result (self.new.numbers ≡ self.old.numbers ++ number ∷ []) }
        ensures places { OnOk result (self.new.places.items ≡ self.old.places.items ++ place ∷ []) }
        ensures err_numbers { OnErr result (self.new.numbers ≡ self.old.numbers) }
        ensures err_places { OnErr result (self.new.places.items ≡ self.old.places.items) }
    {
        self.places.reserve(1)?;
        self.numbers.push(number)?;
        self.places.push(place)?;
        Ok(())
    }
}
