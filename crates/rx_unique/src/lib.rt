//! Keys in order, each once, that are found in few steps whoever chose them.
//!
//! [`Unique`] has a table of slots by the low bits of a quick hash, each of which belongs to the first key that comes to it. A
//! page can choose keys that share these bits, which is cheap to do: each of them that found its slot taken is found by the
//! whole of its SipHash, 64 bits, in a tree, and many keys that share all of them are out of reach. So a look-up never goes
//! through many keys. No answer hangs on a hash: a contract sees the list of keys alone.
//!
//! [`Places`] is that tree: where numbers stand in a list, and each before it.
#![tactic(auto)]

mod hashes;
mod others;
mod places;
mod slots;
mod unique;

pub use places::Places;
pub use unique::Unique;
