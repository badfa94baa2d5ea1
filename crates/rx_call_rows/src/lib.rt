//! Calls that no row reaches, as tests: what no clause says of them, which is that a call succeeds where memory is there, and
//! that real devices are read and written. The rows of rx_vectors and rx_session_rows reach all other calls, as far as a search
//! for callers by name tells.
#![tactic(auto)]

#[cfg(test)]
mod tests;
