//! How much is read or written at once.

/// At most so many bytes are asked of a shelf, or handed to a sink, at once.
pub const PIECE: usize = 65_536;
