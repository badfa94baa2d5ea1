//! Where a page comes from.
use rx_terms::Iri;
use std::alloc::Global;

/// The page's address, and how many levels of elements it may have.
#[derive(Debug, Drop)]
pub(crate) struct Origin {
    pub(crate) alloc: Global,
    pub(crate) address: Iri,
    pub(crate) levels: u32,
}
