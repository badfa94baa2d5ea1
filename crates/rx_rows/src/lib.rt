//! Worked rows of RDFa's and Microdata's rules: each page is read as the grammar reads it, and the text that is written of
//! it is computed on the definitions.
//!
//! A wrong edit of a definition fails here. Each function is a group of rows, and does nothing when it is called.
#![tactic(auto)]

ghost use Rattle.rx_rows.specs.Forms.{FormsHold};
ghost use Rattle.rx_rows.specs.Items.{ItemsHold};
ghost use Rattle.rx_rows.specs.Many.{ManyRefuse};
ghost use Rattle.rx_rows.specs.Refused.{RefusalsHold};
ghost use Rattle.rx_rows.specs.Trees.{TreesHold};
ghost use Rattle.rx_rows.specs.Triples.{TriplesHold};

/// Pages as the grammar reads them: trees and faults.
pub fn trees_hold()
    ensures { TreesHold }
{}

/// Triples: subjects, links, names, attributes, values, lists and property copying.
pub fn triples_hold()
    ensures { TriplesHold }
{}

/// The forms of times.
pub fn forms_hold()
    ensures { FormsHold }
{}

/// Start tags that are refused for what they mean.
pub fn refusals_hold()
    ensures { RefusalsHold }
{}

/// Items: values, names, itemref, cycles, random pages, and items too deep and too many.
pub fn items_hold()
    ensures { ItemsHold }
{}

/// The 100,001st item of a page is one too many.
pub fn many_refuse()
    ensures { ManyRefuse }
{}
