//! The dataset of several pages.
ghost use Rattle.std.specs.Prelude.{◌≡◌, [], ◌∷◌, ◌++◌, IfOk, OnOk, OnErr, encode_utf8_all};
ghost use Rattle.rx_model.specs.Common.{chars, triples_seen};
ghost use Rattle.rx_many.specs.Dataset.{DenotesPages};
ghost use Rattle.rx_many.specs.Pages.{accepted_page, refused_page};
ghost use Rattle.rx_many.specs.Seen.{page_seen};
ghost use Rattle.rx_many.specs.Writing.{pages_document};

use crate::documents::{Document, document_of};
use crate::pages::{Judgement, Page};
use rx_grammar::Fault;
use rx_graph::Graph;
use rx_terms::{Iri, NoMemory};
use std::alloc::Global;
use std::marker::Model;

/// Pages of a dataset, in the order in which they came. A contract sees the list, each page by its address with its
/// triples, or with its fault where it is refused.
#[derive(Drop)]
pub struct Many {
    pages: Vec<Page>,
}

impl Model for Many {
    ghost use Rattle.std.specs.Prelude.{List, map};
    ghost use Rattle.rx_many.specs.Pages.{JudgedPage};
    ghost use Rattle.rx_many.specs.Seen.{page_seen};

    ghost Value = { List JudgedPage };

    ghost view = { λ many. map page_seen many.pages.items };
}

impl Many {
    /// No page.
    pub fn new(alloc: Global) -> Result<Many, NoMemory>
        ensures { IfOk result (λ many. many ≡ []) }
    {
        Ok(Many {
            pages: Vec::new(alloc),
        })
    }

    /// Adds a page of this address, which gives the graph. Its blank nodes are its own, whatever numbers they have. Where
    /// there is no memory, nothing is added.
    pub fn add(&mut self, alloc: Global, address: &Iri, graph: &Graph) -> Result<(), NoMemory>
        ensures ok { OnOk result (self.new ≡ self.old ++ accepted_page address.now (triples_seen graph.now) ∷ []) }
        ensures err { OnErr result (self.new ≡ self.old) }
    {
        self.add_owned(address, graph.try_clone(alloc)?)
    }

    /// The same of a graph that is handed over, so that no triple is copied.
    pub fn add_owned(&mut self, address: &Iri, graph: Graph) -> Result<(), NoMemory>
        ensures ok { OnOk result (self.new ≡ self.old ++ accepted_page address.now (triples_seen graph) ∷ []) }
        ensures err { OnErr result (self.new ≡ self.old) }
    {
        let Ok(address) = address.try_clone() else {
            drop(graph);
            return Err(NoMemory);
        };
        let judgement = Judgement::Accepted(graph);
        self.push(Page { address, judgement })
    }

    /// Adds a page of this address, which is refused with this fault. Where there is no memory, nothing is added.
    pub fn refuse(&mut self, address: &Iri, fault: Fault) -> Result<(), NoMemory>
        ensures ok { OnOk result (self.new ≡ self.old ++ refused_page address.now fault ∷ []) }
        ensures err { OnErr result (self.new ≡ self.old) }
    {
        let address = address.try_clone()?;
        let judgement = Judgement::Refused(fault);
        self.push(Page { address, judgement })
    }

    fn push(&mut self, page: Page) -> Result<(), NoMemory>
        ensures ok { OnOk result (self.new ≡ self.old ++ page_seen page ∷ []) }
        ensures err { OnErr result (self.new ≡ self.old) }
    {
        match self.pages.push(page) {
            Ok(()) => Ok(()),
            Err(refused) => {
                drop(refused);
                Err(NoMemory)
            }
        }
    }

    /// The document of the pages as UTF-8: for each page in order a comment with its fault, or a line for each of its quads
    /// that stands in no earlier line. Blank nodes are numbered in order of first occurrence over all pages.
    pub fn text(&self, alloc: Global) -> Result<Vec<u8>, NoMemory>
        ensures bytes { IfOk result (λ text. text.items ≡ encode_utf8_all (pages_document self.now)) }
        ensures denotes { IfOk result (λ text. DenotesPages (chars text.items) self.now) }
    {
        let Document {
            text,
            blanks,
            statements,
        } = document_of(alloc, self.pages.as_slice())?;
        drop(blanks);
        drop(statements);
        let bytes = text.into_bytes()?;
        Ok(bytes)
    }
}
