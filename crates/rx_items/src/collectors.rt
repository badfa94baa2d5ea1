//! What is kept of a page while its elements are told.
ghost use Rattle.std.specs.Prelude.{◌≡◌, ◌∷◌, [], map, IfOk, IsOk, OnOk};
ghost use Rattle.std.proofs.Common.{refl};
ghost use Rattle.rx_rdfa.specs.Common.{chars, base_by, seen_slice};
ghost use Rattle.rx_nest.specs.Nests.{tag_shown};
ghost use Rattle.rx_nest.specs.Signs.{begun, said, finished};
ghost use Rattle.rx_nest.specs.Ways.{none_refuses};
ghost use Rattle.rx_base.specs.Seekings.{known, seek_begun, seek_finished};
ghost use Rattle.rx_tags.specs.Seen.{tag_seen};
ghost use Rattle.rx_rdfa.specs.Pages.{token_tag};
ghost use Rattle.rx_items.specs.Collecting.{BaseIs, BaseMoves, Collects, CollectsMore, MicrodataSetting, microdata_way};
ghost use Rattle.rx_items.specs.Growing.{GathersNoText};

use crate::tables::Table;
use rx_base::{BaseSearchStep, Sought, base};
use rx_nest::{Event, Listener, Stop, Tag};
use rx_terms::{Iri, NoMemory};
use std::alloc::Global;

/// The page's base, or what is looked for until it is known.
#[derive(Drop)]
pub(crate) enum Base {
    Sought(Sought),
    Known(Iri),
}

/// What is kept of a page: the table of its elements that matter, and its base.
#[derive(Drop)]
pub(crate) struct Collector {
    pub(crate) alloc: Global,
    pub(crate) address: Iri,
    pub(crate) base: Base,
    pub(crate) table: Table,
}

impl Collector {
    /// Before the first element of a page at this address.
    pub(crate) fn new(alloc: Global, address: Iri) -> Collector
        ensures { (setting : MicrodataSetting) → setting.address ≡ address → Collects setting result [] }
    {
        Collector {
            alloc,
            address,
            base: Base::Sought(Sought::FirstChild),
            table: Table::new(alloc),
        }
    }

    fn begin(&mut self, tag: &Tag<'_>) -> Result<(), Stop>
        ensures { CollectsMore self.old (begun (tag_shown tag.now) ∷ []) result self.new }
    {
        begin_base(
            self.alloc,
            &self.address,
            &mut self.base,
            self.table.depth(),
            tag,
        )?;
        self.table.begin(self.alloc, tag)?;
        Ok(())
    }

    fn text(&mut self, text: &str) -> Result<(), Stop>
        ensures hears { CollectsMore self.old (map said (chars text.now)) result self.new }
        ensures quiet { GathersNoText self.old.table → IsOk result × GathersNoText self.new.table }
    {
        self.table.text(text)?;
        Ok(())
    }

    fn finish(&mut self) -> Result<(), Stop>
        ensures { CollectsMore self.old (finished ∷ []) result self.new }
    {
        end_base(
            self.alloc,
            &self.address,
            &mut self.base,
            self.table.depth(),
        )?;
        self.table.finish();
        Ok(())
    }
}

/// An element begins where so many are open.
fn begin_base(
    alloc: Global,
    address: &Iri,
    base: &mut Base,
    count: usize,
    tag: &Tag<'_>,
) -> Result<(), NoMemory>
    ensures { OnOk result (BaseMoves address.now (λ seeking. seek_begun count seeking (token_tag (tag_seen tag.now))) base.old base.new) }
{
    let Base::Sought(sought) = base else {
        return Ok(());
    };
    match sought.begun(count, tag) {
        BaseSearchStep::Seeks(next) => {
            *base = Base::Sought(next);
            Ok(())
        }
        BaseSearchStep::Known(href) => {
            *base = known_base(alloc, address, href)?;
            Ok(())
        }
    }
}

/// The innermost of so many elements ends.
fn end_base(alloc: Global, address: &Iri, base: &mut Base, count: usize) -> Result<(), NoMemory>
    ensures { OnOk result (BaseMoves address.now (seek_finished count) base.old base.new) }
{
    let Base::Sought(sought) = base else {
        return Ok(());
    };
    if sought.ends(count) {
        *base = known_base(alloc, address, None)?;
    }
    Ok(())
}

fn known_base(alloc: Global, address: &Iri, href: Option<&str>) -> Result<Base, NoMemory>
    ensures { IfOk result (λ found. BaseIs address.now (known (seen_slice href.entry)) found) }
{
    let iri = base(alloc, address, href)?;
    Ok(Base::Known(iri))
}

impl Listener for Collector {
    ghost Setting = { MicrodataSetting };

    ghost way = { microdata_way };

    ghost knows = { Collects };

    ghost idle = { λ collector. GathersNoText collector.table };

    #[inline]
    fn hear(&mut self, event: Event<'_>) -> Result<(), Stop> {
        match event {
            Event::More | Event::Skipped => Ok(()),
            Event::Begin(tag) => self.begin(&tag),
            Event::Text(text) => self.text(text),
            Event::Finish => self.finish(),
        }
    }

    ghost accepts = { λ setting collector signs collects. refl };

    ghost refuses = { λ setting. none_refuses };
}
