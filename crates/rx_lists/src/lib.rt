//! The lists of `inlist`: their places are reserved in document order, and filled later.
//!
//! [`Lists`] keeps the lists of every owner that isn't finished. What an owner's lists are is `rx_rdfa`'s table that grows
//! by one item or touch at a time.
#![tactic(auto)]

mod cell_iris;
mod cells;
mod lists;
mod owner_lists;
mod slot_rows;

pub use lists::{Finished, Lists, Owner, SlotId};
