//! The static library: extraction for a program that has its pages in memory, in C or in any language that calls C.
//!
//! A page is opened (`rdfax_extract_given`, `rdfax_items_given`, `rdfax_check_given`), fed piece by piece (`rdfax_feed_given`)
//! and finished (`rdfax_finish`); then its text is copied out (`rdfax_text_given`), its quads are lent one at a time
//! (`rdfax_quad`), or its fault is told (`rdfax_fault`). Each call restates the clauses of the session's call below it, and
//! does nothing but cross the border. There is no state but that of the pages, which the caller keeps, so that two pages may
//! be used in turn. `include/rdfax.h` declares the calls.
#![tactic(auto)]

mod exports;
mod handles;
mod loose;
mod options;
mod pages;
mod statuses;
mod terms;
