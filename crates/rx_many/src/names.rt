//! The names of the graphs of pages.
ghost use Rattle.std.specs.Prelude.{◌≡◌, [], IfOk, OnOk, IsTrue, IsFalse};
ghost use Rattle.rx_model.specs.Sets.{Among};
ghost use Rattle.rx_many.specs.Names.{AreApart, Notes};

use crate::pages::Page;
use rx_refs::without_fragment;
use rx_terms::{Iri, NoMemory};
use rx_unique::Unique;
use std::alloc::Global;

/// Names of pages, each once, and those of them that came again.
#[derive(Drop)]
struct Names {
    seen: Unique<Iri>,
    shared: Unique<Iri>,
}

/// The names that several pages have, where the name of a page is its address without fragment.
pub(crate) fn shared_names(alloc: Global, pages: &[Page]) -> Result<Unique<Iri>, NoMemory>
    ensures { IfOk result (λ shared. AreApart shared pages.now) }
{
    let mut names = Names::new(alloc);
    for i in 0..pages.len() {
        let name = without_fragment(alloc, &pages[i].address)?;
        names.add(name)?;
    }
    let Names { seen, shared } = names;
    drop(seen);
    Ok(shared)
}

impl Names {
    /// No name.
    fn new(alloc: Global) -> Names
        ensures seen { result.seen ≡ [] }
        ensures shared { result.shared ≡ [] }
    {
        Names {
            seen: Unique::new(alloc),
            shared: Unique::new(alloc),
        }
    }

    /// Adds the name of one more page.
    fn add(&mut self, name: Iri) -> Result<(), NoMemory>
        ensures { OnOk result (Notes self.old.seen self.old.shared name self.new.seen self.new.shared) }
    {
        let again = name.try_clone()?;
        if self.seen.insert(name)? {
            return Ok(());
        }
        self.shared.insert(again)?;
        Ok(())
    }
}

/// Whether several pages have the name, where these are such names.
pub(crate) fn is_shared(name: &Iri, shared: &Unique<Iri>) -> bool
    ensures yes { IsTrue result → Among shared.now name.now }
    ensures no { IsFalse result → Among shared.now name.now → ⊥ }
{
    shared.contains(name)
}
