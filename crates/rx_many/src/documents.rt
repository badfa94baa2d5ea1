//! A document that is being written.
ghost use Rattle.std.specs.Prelude.{◌≡◌, ◌<◌, ℕ, List, [], ◌∷◌, IfOk, OnOk, Some, length, map, slice_get};
ghost use Rattle.rx_model.specs.Common.{Chars, triple_seen, triples_seen};
ghost use Rattle.rx_many.specs.Lines.{QuadLine, comment, lines_from, numbered_lines};
ghost use Rattle.rx_many.specs.Pages.{accepted_page};
ghost use Rattle.rx_many.specs.Seen.{page_seen};
ghost use Rattle.rx_many.specs.Names.{AreApart};
ghost use Rattle.rx_many.specs.Standing.{AddsComment, AddsNew, AddsOnce, AddsPage, AddsTriples, DocumentStands, SpellsLines, WritesLine};

use crate::blanks::Blanks;
use crate::names::{is_shared, shared_names};
use crate::pages::{Judgement, Page};
use crate::refusals::comment_on;
use crate::statements::{Statement, Statements, may_repeat};
use rx_grammar::Fault;
use rx_graph::Graph;
use rx_nquads::Lines;
use rx_refs::without_fragment;
use rx_terms::{Iri, NoMemory, Triple};
use rx_unique::Unique;
use std::alloc::Global;

/// A document so far: its text, the numbers of its blank nodes, and what it states without them in graphs that several pages
/// have. What else a page states stands in no other line, since its graph has each triple once.
#[derive(Drop)]
pub(crate) struct Document {
    pub(crate) text: Lines,
    pub(crate) blanks: Blanks,
    pub(crate) statements: Statements,
}

/// The document of the pages.
pub(crate) fn document_of(alloc: Global, pages: &[Page]) -> Result<Document, NoMemory>
    ensures { IfOk result (λ document. SpellsLines document.text.bytes (numbered_lines (lines_from 0 (map page_seen pages.now)))) }
{
    let shared = shared_names(alloc, pages)?;
    document_by(alloc, pages, &shared)
}

/// The document of the pages, where these are the names that several of them have.
fn document_by(alloc: Global, pages: &[Page], shared: &Unique<Iri>) -> Result<Document, NoMemory>
    requires { AreApart shared.now pages.now }
    ensures { IfOk result (λ document. DocumentStands shared.now document (lines_from 0 (map page_seen pages.now))) }
{
    let mut document = Document::new(alloc)?;
    for i in 0..pages.len() {
        let Ok(()) = document.put_page(alloc, &pages[i], shared) else {
            drop(document);
            return Err(NoMemory);
        };
    }
    Ok(document)
}

impl Document {
    fn new(alloc: Global) -> Result<Document, NoMemory>
        ensures { IfOk result (λ document. (shared : List Chars) → DocumentStands shared document []) }
    {
        let text = Lines::new(alloc)?;
        Ok(Document {
            text,
            blanks: Blanks::new(alloc),
            statements: Statements::new(alloc),
        })
    }

    /// Adds the lines of the page, which comes behind those whose lines are there.
    fn put_page(&mut self, alloc: Global, page: &Page, shared: &Unique<Iri>) -> Result<(), NoMemory>
        ensures { AddsPage result shared.now self.old self.new (page_seen page.now) }
    {
        match &page.judgement {
            Judgement::Refused(fault) => self.put_comment(alloc, &page.address, *fault),
            Judgement::Accepted(graph) => self.put_graph(alloc, &page.address, graph, shared),
        }
    }

    fn put_comment(&mut self, alloc: Global, address: &Iri, fault: Fault) -> Result<(), NoMemory>
        ensures { AddsComment result self.old self.new (comment address.now fault ∷ []) }
    {
        let line = comment_on(alloc, address, fault)?;
        let put = self.text.put_bytes(line.as_bytes());
        drop(line);
        put
    }

    /// Adds the triples of the page of this address, in the graph of the address without fragment.
    fn put_graph(
        &mut self,
        alloc: Global,
        address: &Iri,
        graph: &Graph,
        shared: &Unique<Iri>,
    ) -> Result<(), NoMemory>
        ensures { AddsPage result shared.now self.old self.new (accepted_page address.now (triples_seen graph.now)) }
    {
        self.blanks.turn(alloc)?;
        let name = without_fragment(alloc, address)?;
        let is_shared = is_shared(&name, shared);
        self.put_triples(&name, is_shared, graph)
    }

    /// Adds the triples of a page, in the graph of this name, which several pages may have.
    fn put_triples(&mut self, name: &Iri, is_shared: bool, graph: &Graph) -> Result<(), NoMemory>
        ensures { AddsTriples result is_shared name.now self.old self.new (triples_seen graph.now) }
    {
        for i in 0..graph.len() {
            self.put_triple(name, is_shared, graph.at(i))?;
        }
        Ok(())
    }

    /// Adds the line of a triple of the page, where no earlier line states it.
    fn put_triple(&mut self, name: &Iri, is_shared: bool, triple: &Triple) -> Result<(), NoMemory>
        ensures { AddsTriples result is_shared name.now self.old self.new (triple_seen triple.now ∷ []) }
    {
        if may_repeat(is_shared, triple) {
            self.put_once(name, triple)
        } else {
            self.put_new(name, triple)
        }
    }

    /// Adds the line of a triple of the page, which no line states.
    fn put_new(&mut self, name: &Iri, triple: &Triple) -> Result<(), NoMemory>
        ensures { AddsNew result name.now self.old self.new (triple_seen triple.now) }
    {
        let triple = self.blanks.numbered(triple)?;
        self.text.put(&triple, Some(name))
    }

    /// Adds the line of a triple that several pages may state, where no earlier line states it.
    fn put_once(&mut self, name: &Iri, triple: &Triple) -> Result<(), NoMemory>
        ensures { AddsOnce result name.now self.old self.new (triple_seen triple.now) }
    {
        let triple = self.blanks.numbered(triple)?;
        let name = name.try_clone()?;
        match self.statements.add(Statement { name, triple })? {
            Some(place) => self.write(place),
            None => Ok(()),
        }
    }

    /// Adds the line of the statement at this place.
    fn write(&mut self, place: usize) -> Result<(), NoMemory>
        requires { place < length self.old.statements }
        ensures { (line : QuadLine ℕ) → slice_get self.old.statements place ≡ Some line → OnOk result (WritesLine self.old line self.new) }
    {
        let statement = self.statements.at(place);
        self.text.put(&statement.triple, Some(&statement.name))
    }
}
