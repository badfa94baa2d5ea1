//! How a page is read from left to right: the tables of a reader that takes one character at a time.
//!
//! The reader is a means: its laws say that it reads exactly what the grammar spells, and that it stops exactly at the
//! grammar's faults. The code of the layers above does what these tables say.
#![tactic(auto)]

ghost use Rattle.rx_reader.specs.Laws.{TableIsExact, ReadsEachTag, SpellsEachTag, OneTag, OneTagFront, ReadsEachValue, DenotesEachValue, ReadsEachFront, RefusesEachFault, OneTagFault};

mod phases;

pub use phases::{RunMove, RunPhase, TagAction, TagPhase};

/// Characters that spell a tag are read to its end, with that tag.
pub fn reads_each_tag()
    ensures { ReadsEachTag }
{}

/// Characters that are read to a tag's end spell that tag.
pub fn spells_each_tag()
    ensures { SpellsEachTag }
{}

/// A list of characters spells one tag at most.
pub fn one_tag()
    ensures { OneTag }
{}

/// At most one front of a list of characters spells a tag.
pub fn one_tag_front()
    ensures { OneTagFront }
{}

/// A value is read as what its characters denote.
pub fn reads_each_value()
    ensures { ReadsEachValue }
{}

/// What is read of a value is what its characters denote.
pub fn denotes_each_value()
    ensures { DenotesEachValue }
{}

/// What is read of a tag begins one, and the table refuses exactly the characters with which no tag goes on.
pub fn table_is_exact()
    ensures { TableIsExact }
{}

/// Exactly the characters that begin a tag with no fault are read, and don't end the tag.
pub fn reads_each_front()
    ensures { ReadsEachFront }
{}

/// After them a character is refused exactly where it decides the tag's fault, and with its kind.
pub fn refuses_each_fault()
    ensures { RefusesEachFault }
{}

/// A character decides one fault of a tag at most.
pub fn one_tag_fault()
    ensures { OneTagFault }
{}
