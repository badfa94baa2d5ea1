//! The base of a page.
ghost use Rattle.std.specs.Prelude.{◌≡◌, IfOk};
ghost use Rattle.rx_rdfa.specs.Common.{base_by, seen_slice};

use rx_refs::{resolve, without_fragment};
use rx_terms::{Iri, NoMemory};
use std::alloc::Global;

/// The base of the page at an address, by the href that was found or without one.
pub fn base(alloc: Global, address: &Iri, href: Option<&str>) -> Result<Iri, NoMemory>
    ensures { IfOk result (λ base. base ≡ base_by (seen_slice href.entry) address.now) }
{
    match href {
        Some(href) => {
            let whole = resolve(alloc, address, href)?;
            without_fragment(alloc, &whole)
        }
        None => without_fragment(alloc, address),
    }
}
