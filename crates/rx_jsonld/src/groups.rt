//! The places of a node's triples under their keys, in the order of the keys' bytes.
ghost use Rattle.std.specs.Prelude.{◌≡◌, ℕ, ◌∷◌, ◌++◌, [], IfOk, OnOk};
ghost use Rattle.rx_model.specs.Seen.{triple_seen, triples_seen};
ghost use Rattle.rx_shapes.specs.declared.shapes.Shape.{Shape};
ghost use Rattle.rx_jsonld.specs.Groups.{member_name};
ghost use Rattle.rx_jsonld.specs.Places.{with_place, with_places};
ghost use Rattle.rx_jsonld.specs.Changes.{AreGroups, Files, FilesUnder, StartsUnder};

use crate::objects::type_of;
use rx_graph::Graph;
use rx_terms::{NoMemory, Triple};
use std::alloc::Global;
use std::collections::BTreeMap;

/// These places under their keys.
pub(crate) fn groups_of<'a>(
    alloc: Global,
    graph: &'a Graph,
    places: &[usize],
) -> Result<BTreeMap<&'a str, Vec<usize>>, NoMemory>
    ensures { (shapes : ℕ → Shape) → IfOk result (λ groups. AreGroups (triples_seen graph.now) shapes places.now groups.entries) }
{
    let mut groups = BTreeMap::new(alloc);
    match add_places(alloc, graph, places, &mut groups) {
        Ok(()) => Ok(groups),
        Err(NoMemory) => {
            drop(groups);
            Err(NoMemory)
        }
    }
}

fn add_places<'a>(
    alloc: Global,
    graph: &'a Graph,
    places: &[usize],
    groups: &mut BTreeMap<&'a str, Vec<usize>>,
) -> Result<(), NoMemory>
    ensures { Files result (λ list shapes. with_places list shapes places.now) (triples_seen graph.now) groups.old groups.new }
{
    for place in places {
        add_place(alloc, graph, *place, groups)?;
    }
    Ok(())
}

fn add_place<'a>(
    alloc: Global,
    graph: &'a Graph,
    place: usize,
    groups: &mut BTreeMap<&'a str, Vec<usize>>,
) -> Result<(), NoMemory>
    ensures { Files result (λ list shapes. with_place list shapes place) (triples_seen graph.now) groups.old groups.new }
{
    if place >= graph.len() {
        return Ok(());
    }
    put_place(alloc, key_of(graph.at(place)), place, groups)
}

/// The key under which a triple speaks of its subject.
fn key_of(triple: &Triple) -> &str
    ensures { result.now ≡ member_name (triple_seen triple.now) }
{
    match type_of(triple) {
        Some(_node) => "@type",
        None => triple.predicate.as_str(),
    }
}

/// Puts a place behind those of its key.
fn put_place<'a>(
    alloc: Global,
    key: &'a str,
    place: usize,
    groups: &mut BTreeMap<&'a str, Vec<usize>>,
) -> Result<(), NoMemory>
    ensures { FilesUnder result key.now place groups.old groups.new }
{
    match groups.get_mut(key) {
        Some(places) => push_place(places, place),
        None => start_group(alloc, key, place, groups),
    }
}

/// The places of a key that has none yet.
fn start_group<'a>(
    alloc: Global,
    key: &'a str,
    place: usize,
    groups: &mut BTreeMap<&'a str, Vec<usize>>,
) -> Result<(), NoMemory>
    ensures { StartsUnder result key.now place groups.old groups.new }
{
    let mut places = Vec::new(alloc);
    push_place(&mut places, place)?;
    match groups.insert(key, places) {
        Ok(replaced) => {
            drop(replaced);
            Ok(())
        }
        Err(refused) => {
            drop(refused);
            Err(NoMemory)
        }
    }
}

fn push_place(places: &mut Vec<usize>, place: usize) -> Result<(), NoMemory>
    ensures { OnOk result (places.new.items ≡ places.old.items ++ place ∷ []) }
{
    places.push(place)?;
    Ok(())
}
