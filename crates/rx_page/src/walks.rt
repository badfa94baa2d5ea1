//! What gives a page's triples, its items, or that it is a page.
ghost use Rattle.rx_terms.specs.Text.{Chars};
ghost use Rattle.rx_nest.specs.Ways.{none_refuses};
ghost use Rattle.rx_walk.specs.Settings.{Setting, way_of};
ghost use Rattle.rx_walk.specs.RefusalLaws.{refusal_laws};
ghost use Rattle.rx_walk.specs.Checks as checks;
ghost use Rattle.rx_walk.specs.Walks as walks;
ghost use Rattle.rx_items.specs.Collecting as items;
ghost use Rattle.rx_items.specs.Walks as item_walks;
ghost use Rattle.rx_page.specs.Readers.{shown_read};
ghost use Rattle.std.proofs.Common.{refl};

use crate::readers::PageReader;
use rx_items::{ItemWalk, Items};
use rx_terms::TripleList;
use rx_walk::{Check, Stop, Walk};

impl PageReader for Walk {
    type Given = TripleList;

    ghost Setting = { Setting × Chars };

    ghost way = { λ made. way_of made.0 };

    ghost stands = { λ made walk bytes. walks.WalkStands made.0 made.1 walk bytes };

    ghost gives = { λ made bytes list. walks.WalkEnded made.0 made.1 bytes list };

    fn feed(&mut self, piece: &[u8]) -> Result<(), Stop> {
        self.feed(piece)
    }

    fn finish(self) -> Result<TripleList, Stop> {
        self.finish()
    }

    ghost shows = { λ made walk bytes s. shown_read (way_of made.0) bytes walk.nest s.goes.signs s.goes.shown s.paid s.goes.known.accepted };

    ghost refuses = { λ made. refusal_laws made.0.context };
}

impl PageReader for ItemWalk {
    type Given = Items;

    ghost Setting = { items.MicrodataSetting };

    ghost way = { items.microdata_way };

    ghost stands = { item_walks.ItemWalkStands };

    ghost gives = { item_walks.ItemWalkEnded };

    fn feed(&mut self, piece: &[u8]) -> Result<(), Stop> {
        self.feed(piece)
    }

    fn finish(self) -> Result<Items, Stop> {
        self.finish()
    }

    ghost shows = { λ setting walk bytes s. shown_read (items.microdata_way setting) bytes walk.nest s.goes.signs s.goes.shown s.paid refl };

    ghost refuses = { λ setting. none_refuses };
}

impl PageReader for Check {
    type Given = ();

    ghost Setting = { Setting };

    ghost way = { way_of };

    ghost stands = { checks.CheckStands };

    ghost gives = { λ setting bytes done. checks.Accepted setting bytes };

    fn feed(&mut self, piece: &[u8]) -> Result<(), Stop> {
        self.feed(piece)
    }

    fn finish(self) -> Result<(), Stop> {
        self.finish()
    }

    ghost shows = { λ setting check bytes s. shown_read (way_of setting) bytes check.nest s.goes.signs s.goes.shown s.paid s.goes.known.accepted };

    ghost refuses = { λ setting. refusal_laws setting.context };
}
