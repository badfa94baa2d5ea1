//! An index of the patterns of a list, and what copying each gives.
ghost use Rattle.std.specs.Prelude.{◌≡◌, [], flat_map, get_or, option_map, IfOk, OnOk};
ghost use Rattle.rx_model.specs.Common.{IsPermutation, IsNonDecreasing, triple_seen, triples_seen};
ghost use Rattle.rx_graph.specs.Resources.{resource_seen, number_in};
ghost use Rattle.rx_graph.specs.Patterns.{ArePatterns};
ghost use Rattle.rx_graph.specs.Ways.{mark_at, EachOnce};
ghost use Rattle.rx_graph.specs.Copying.{gives_by, own_key, place_pushed, AreOwn, IsIndex, IsContent, AreContents};

use crate::joining::{Joining, join, nexts};
use crate::leading::leading;
use crate::links::links;
use crate::marks::Marks;
use crate::reached::{Reached, reach};
use crate::resources::{Nodes, Resource};
use crate::rows::Rows;
use crate::vocabulary::says_pattern;
use rx_terms::{NoMemory, Triple, TripleList};
use std::alloc::Global;

/// The patterns of a list by number, and where in the list that stands which they give.
///
/// Patterns that copy one another are joined under a root. A root that gives nothing, and leads to one that gives all that
/// it leads to, is left out.
#[derive(Drop)]
pub(crate) struct Index<'a> {
    pub(crate) nodes: Nodes<'a>,
    /// The root of each pattern.
    pub(crate) roots: Marks,
    /// What stands for each root.
    pub(crate) lead: Marks,
    /// The roots that each root leads to.
    pub(crate) nexts: Rows,
    /// For each root the places of what is given of those that it joins.
    pub(crate) own: Rows,
}

impl<'a> Index<'a> {
    /// The index of a list, whose patterns are the nodes.
    pub(crate) fn of(
        alloc: Global,
        triples: &'a TripleList,
        nodes: Nodes<'a>,
    ) -> Result<Index<'a>, NoMemory>
        requires { ArePatterns (triples_seen triples.now) nodes }
        ensures { IfOk result (λ index. IsIndex (triples_seen triples.now) index.nodes index.roots index.lead index.nexts index.own) }
    {
        match tables(alloc, triples, &nodes) {
            Ok((roots, lead, nexts, own)) => Ok(Index {
                nodes,
                roots,
                lead,
                nexts,
                own,
            }),
            Err(error) => {
                drop(nodes);
                Err(error)
            }
        }
    }

    /// What stands for the pattern.
    pub(crate) fn lead_of(&self, pattern: Resource<'a>) -> Option<usize>
        ensures { result ≡ option_map (λ k. mark_at self.now.lead (mark_at self.now.roots k)) (number_in self.now.nodes (resource_seen pattern.entry)) }
    {
        match self.nodes.number(pattern) {
            Some(number) => Some(self.lead.at(self.roots.at(number))),
            None => None,
        }
    }

    /// The places of what is given by copying a pattern for which this stands, in order.
    pub(crate) fn content(&self, alloc: Global, from: usize) -> Result<Vec<usize>, NoMemory>
        ensures { IfOk result (λ places. IsContent self.now.nodes self.now.roots self.now.lead self.now.nexts self.now.own from places.items) }
    {
        let reached = reach(alloc, &self.nexts, &self.lead, from)?;
        let places = gathered(alloc, &self.own, &reached)?;
        Ok(places)
    }

    /// For what stands for the patterns that a triple of the list copies: what copying them gives, each once.
    pub(crate) fn contents(
        &self,
        alloc: Global,
        triples: &'a TripleList,
        referenced: &Nodes<'a>,
    ) -> Result<Rows, NoMemory>
        ensures { IfOk result (λ rows. AreContents self.now.nodes self.now.roots self.now.lead self.now.nexts self.now.own rows) }
    {
        let mut rows = Rows::empty(alloc, self.nodes.len())?;
        for i in 0..triples.len() {
            self.add_content(alloc, triples.at(i), referenced, &mut rows)?;
        }
        Ok(rows)
    }

    /// Adds what the triple's subject gets by it, where it copies a pattern and isn't dropped.
    fn add_content(
        &self,
        alloc: Global,
        triple: &'a Triple,
        referenced: &Nodes<'a>,
        rows: &mut Rows,
    ) -> Result<(), NoMemory>
        requires { AreContents self.now.nodes self.now.roots self.now.lead self.now.nexts self.now.own rows.old }
        ensures { OnOk result (AreContents self.now.nodes self.now.roots self.now.lead self.now.nexts self.now.own rows.new) }
    {
        if referenced.contains(Resource::of_node(&triple.subject)) {
            return Ok(());
        }
        let Some(pattern) = self.nodes.live(triple) else {
            return Ok(());
        };
        let Some(from) = self.lead_of(pattern) else {
            return Ok(());
        };
        if !rows.numbers(from).is_empty() {
            return Ok(());
        }
        let places = self.content(alloc, from)?;
        rows.fill(from, places);
        Ok(())
    }
}

/// What an index has beside its nodes: the root of each, what stands for each root, the roots that it leads to, and the
/// places of what is given of those that it joins.
fn tables<'a>(
    alloc: Global,
    triples: &'a TripleList,
    nodes: &Nodes<'a>,
) -> Result<(Marks, Marks, Rows, Rows), NoMemory>
    requires { ArePatterns (triples_seen triples.now) nodes.now }
    ensures { IfOk result (λ tables. IsIndex (triples_seen triples.now) nodes.now tables.0 tables.1 tables.2 tables.3) }
{
    let links = links(alloc, triples, nodes)?;
    let Joining { roots, tops } = join(alloc, &links)?;
    let nexts = nexts(alloc, &links, &roots)?;
    drop(links);
    let Ok(own) = own(alloc, triples, nodes, &roots) else {
        drop(roots);
        drop(tops);
        drop(nexts);
        return Err(NoMemory);
    };
    match leading(alloc, &nexts, &own, &tops) {
        Ok(lead) => {
            drop(tops);
            Ok((roots, lead, nexts, own))
        }
        Err(error) => {
            drop(roots);
            drop(tops);
            drop(nexts);
            drop(own);
            Err(error)
        }
    }
}

/// For each root the places of what is given of those that it joins.
fn own<'a>(
    alloc: Global,
    triples: &'a TripleList,
    nodes: &Nodes<'a>,
    roots: &Marks,
) -> Result<Rows, NoMemory>
    ensures { IfOk result (λ own. AreOwn (triples_seen triples.now) nodes.now roots.now own) }
{
    let mut own = Rows::empty(alloc, roots.len())?;
    for i in 0..triples.len() {
        put_own(triples.at(i), i, nodes, roots, &mut own)?;
    }
    Ok(own)
}

/// Adds the place of a triple to the row of its subject's root, where it is given.
fn put_own<'a>(
    triple: &'a Triple,
    place: usize,
    nodes: &Nodes<'a>,
    roots: &Marks,
    own: &mut Rows,
) -> Result<(), NoMemory>
    ensures { OnOk result (own.new ≡ place_pushed own.old (own_key nodes.now roots.now (triple_seen triple.now)) place) }
{
    if !gives(triple, nodes) {
        return Ok(());
    }
    match nodes.number(Resource::of_node(&triple.subject)) {
        Some(number) => own.put(roots.at(number), place),
        None => Ok(()),
    }
}

/// Whether who copies the triple's subject gets something by it.
fn gives<'a>(triple: &'a Triple, nodes: &Nodes<'a>) -> bool
    ensures { result ≡ gives_by nodes.now (triple_seen triple.now) }
{
    !says_pattern(triple) && nodes.live(triple).is_none()
}

/// The numbers in the rows that are reached, in order.
fn gathered(alloc: Global, own: &Rows, reached: &Reached) -> Result<Vec<usize>, NoMemory>
    ensures all { IfOk result (λ places. IsPermutation (flat_map (λ a. get_or own.now a []) reached.now) places.items) }
    ensures rises { IfOk result (λ places. IsNonDecreasing places.items) }
    ensures once { IfOk result (λ places. EachOnce reached.now) }
{
    let mut places = Vec::new(alloc);
    for i in 0..reached.len() {
        places.extend_from_slice(own.numbers(reached.at(i)))?;
    }
    places.sort_unstable();
    Ok(places)
}
