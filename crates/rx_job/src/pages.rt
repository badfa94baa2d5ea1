//! The pages of a job that gathers several.
ghost use Rattle.std.specs.Prelude.{◌≡◌, ◌<◌, [], ◌∷◌, ◌++◌, length, OnOk, OnErr, Some, slice_get};

use rx_terms::{Iri, NoMemory, Text};
use std::alloc::Global;
use std::marker::Model;

/// A page of several, by its address.
#[derive(Debug, Drop)]
struct Page {
    address: Iri,
    name: Text,
}

/// Pages whose graphs are gathered in one dataset, in the order of their pushes: of each its address, and the name of the
/// page. A contract sees the list.
#[derive(Debug, Drop)]
pub struct Pages {
    pages: Vec<Page>,
}

impl Model for Pages {
    ghost use Rattle.std.specs.Prelude.{List, map};
    ghost use Rattle.rx_job.specs.Words.{Listed};
    ghost use Rattle.rx_job.specs.Pages.{listed_seen};

    ghost Value = { List Listed };

    ghost view = { λ pages. map listed_seen pages.pages.items };
}

impl Pages {
    /// No page.
    pub fn new(alloc: Global) -> Pages
        ensures { result ≡ [] }
    {
        Pages {
            pages: Vec::new(alloc),
        }
    }

    /// Adds the page of this name, whose address is given. Where there is no memory, nothing is added.
    pub fn push(&mut self, address: Iri, page: Text) -> Result<(), NoMemory>
        ensures ok { OnOk result (self.new ≡ self.old ++ record { address = address; page = page } ∷ []) }
        ensures err { OnErr result (self.new ≡ self.old) }
    {
        let name = page;
        match self.pages.push(Page { address, name }) {
            Ok(()) => Ok(()),
            Err(refused) => {
                drop(refused);
                Err(NoMemory)
            }
        }
    }

    /// How many pages there are.
    pub fn len(&self) -> usize
        ensures { result ≡ length self.now }
    {
        self.pages.len()
    }

    /// The address and the name of the page at a place below `len`, from 0.
    pub fn at(&self, i: usize) -> (&Iri, &Text)
        requires { i < length self.now }
        ensures { slice_get self.now i ≡ Some (record { address = result.0.now; page = result.1.now }) }
    {
        let page = &self.pages[i];
        (&page.address, &page.name)
    }
}
