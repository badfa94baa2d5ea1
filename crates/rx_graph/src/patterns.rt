//! The patterns of a list of triples, and what they give.
ghost use Rattle.std.specs.Prelude.{◌≡◌, true, filter_map, option_to_list, IfOk, OnOk, nat_eq};
ghost use Rattle.rx_model.specs.Common.{is_pattern, node_seen, triple_seen, triples_seen};
ghost use Rattle.rx_graph.specs.Graph.{AddsMissing};
ghost use Rattle.rx_graph.specs.Resources.{resource_seen};
ghost use Rattle.rx_graph.specs.Patterns.{ArePatterns, AreReferenced, edges_by, given_one};
ghost use Rattle.rx_graph.specs.Copying.{given_all, given_at, stand_ins};

use crate::index::Index;
use crate::resources::{Nodes, Resource};
use crate::rows::Rows;
use crate::sets::TripleSet;
use crate::vocabulary::says_pattern;
use rx_terms::{NoMemory, Node, Triple, TripleList};
use std::alloc::Global;
use std::marker::Model;

/// The patterns of a list of triples, and what they give. A contract sees the list.
#[derive(Drop)]
pub(crate) struct Patterns<'a> {
    triples: &'a TripleList,
    /// The patterns that something copies.
    referenced: Nodes<'a>,
    index: Index<'a>,
    /// What is given by copying a pattern, for what stands for it: the places in the list. It is found once for all.
    contents: Rows,
}

impl<'a> Model for Patterns<'a> {
    ghost use Rattle.std.specs.Prelude.{List};
    ghost use Rattle.rx_terms.specs.declared.triples.Triple.{Triple};
    ghost use Rattle.rx_model.specs.Seen.{triples_seen};
    ghost use Rattle.rx_graph.specs.Copying.{IsFound};

    ghost Value = { List Triple };

    ghost view = { λ p. p.triples.now };

    ghost invariant = { λ p. IsFound (triples_seen p.triples.now) p.referenced p.index.nodes p.index.roots p.index.lead p.index.nexts p.index.own p.contents };
}

impl<'a> Patterns<'a> {
    pub(crate) fn of(alloc: Global, triples: &'a TripleList) -> Result<Patterns<'a>, NoMemory>
        ensures { IfOk result (λ patterns. patterns ≡ triples.now) }
    {
        let nodes = pattern_nodes(alloc, triples)?;
        let Ok(referenced) = referenced(alloc, triples, &nodes) else {
            drop(nodes);
            return Err(NoMemory);
        };
        let Ok(index) = Index::of(alloc, triples, nodes) else {
            drop(referenced);
            return Err(NoMemory);
        };
        match index.contents(alloc, triples, &referenced) {
            Ok(contents) => Ok(Patterns {
                triples,
                referenced,
                index,
                contents,
            }),
            Err(error) => {
                drop(index);
                drop(referenced);
                Err(error)
            }
        }
    }

    /// Adds what stands in place of a triple of the list.
    pub(crate) fn treat(
        &self,
        alloc: Global,
        triple: &'a Triple,
        gathering: &mut TripleSet,
    ) -> Result<(), NoMemory>
        ensures { OnOk result (AddsMissing (stand_ins (triples_seen self.now) (triple_seen triple.now)) gathering.old gathering.new) }
    {
        if self.referenced.contains(Resource::of_node(&triple.subject)) {
            return Ok(());
        }
        match self.index.nodes.live(triple) {
            None => gathering.add(triple.try_clone()?),
            Some(pattern) => self.give(alloc, &triple.subject, pattern, gathering),
        }
    }

    /// Adds what the subject gets by copying the pattern.
    fn give(
        &self,
        alloc: Global,
        subject: &Node,
        pattern: Resource<'a>,
        gathering: &mut TripleSet,
    ) -> Result<(), NoMemory>
        requires { is_pattern nat_eq (triples_seen self.now) (resource_seen pattern) ≡ true }
        ensures { OnOk result (AddsMissing (given_all (triples_seen self.now) (node_seen subject.now) (resource_seen pattern.entry)) gathering.old gathering.new) }
    {
        let Some(from) = self.index.lead_of(pattern) else {
            return Ok(());
        };
        let found = self.contents.numbers(from);
        if !found.is_empty() {
            return self.give_all(subject, found, gathering);
        }
        let places = self.index.content(alloc, from)?;
        self.give_all(subject, &places, gathering)
    }

    /// Adds what the subject gets by the triples at these places.
    fn give_all(
        &self,
        subject: &Node,
        places: &[usize],
        gathering: &mut TripleSet,
    ) -> Result<(), NoMemory>
        ensures { OnOk result (AddsMissing (filter_map (given_at (triples_seen self.now) (node_seen subject.now)) places.now) gathering.old gathering.new) }
    {
        for place in places {
            self.give_at(subject, *place, gathering)?;
        }
        Ok(())
    }

    /// Adds what the subject gets by the triple at a place.
    fn give_at(
        &self,
        subject: &Node,
        place: usize,
        gathering: &mut TripleSet,
    ) -> Result<(), NoMemory>
        ensures { OnOk result (AddsMissing (option_to_list (given_at (triples_seen self.now) (node_seen subject.now) place)) gathering.old gathering.new) }
    {
        if place >= self.triples.len() {
            return Ok(());
        }
        self.give_one(subject, self.triples.at(place), gathering)
    }

    /// Adds what the subject gets by a triple of a pattern that it copies.
    fn give_one(
        &self,
        subject: &Node,
        triple: &'a Triple,
        gathering: &mut TripleSet,
    ) -> Result<(), NoMemory>
        ensures { OnOk result (AddsMissing (option_to_list (given_one (triples_seen self.now) (node_seen subject.now) (triple_seen triple.now))) gathering.old gathering.new) }
    {
        if says_pattern(triple) || self.index.nodes.live(triple).is_some() {
            return Ok(());
        }
        gathering.add(Triple {
            subject: subject.try_clone()?,
            predicate: triple.predicate.try_clone()?,
            object: triple.object.try_clone()?,
        })
    }
}

/// The nodes of which a triple says that they are patterns.
fn pattern_nodes<'a>(alloc: Global, triples: &'a TripleList) -> Result<Nodes<'a>, NoMemory>
    ensures { IfOk result (λ nodes. ArePatterns (triples_seen triples.now) nodes) }
{
    let mut nodes = Nodes::new(alloc);
    for i in 0..triples.len() {
        let triple = triples.at(i);
        if says_pattern(triple) {
            nodes.add(Resource::of_node(&triple.subject))?;
        }
    }
    Ok(nodes)
}

/// Those of the nodes that a copy triple copies.
fn referenced<'a>(
    alloc: Global,
    triples: &'a TripleList,
    nodes: &Nodes<'a>,
) -> Result<Nodes<'a>, NoMemory>
    ensures { IfOk result (λ referenced. AreReferenced (edges_by nodes.now (triples_seen triples.now)) referenced) }
{
    let mut referenced = Nodes::new(alloc);
    for i in 0..triples.len() {
        if let Some(copied) = nodes.live(triples.at(i)) {
            referenced.add(copied)?;
        }
    }
    Ok(referenced)
}
