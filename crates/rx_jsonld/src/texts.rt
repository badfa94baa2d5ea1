//! The JSON-LD of a graph, as serde writes it: one description, of which the text and the value are made.
ghost use Rattle.std.specs.Prelude.{◌≡◌, [], false, map, nat_eq, IfOk, OnOk};
ghost use Rattle.serde_json.specs.View.{view};
ghost use Rattle.serde_json.specs.Written.{compact_text, has_float};
ghost use Rattle.rx_json.specs.Events.{Grows, members_events};
ghost use Rattle.rx_model.specs.Seen.{node_seen, triples_seen};
ghost use Rattle.rx_shapes.specs.Places.{places_of};
ghost use Rattle.rx_shapes.specs.Table.{AreShapes, shape_in};
ghost use Rattle.rx_pieces.specs.Writable.{IsWritable};
ghost use Rattle.rx_nquads.specs.Quads.{proper_triple};
ghost use Rattle.rx_jsonld.specs.Changes.{Writes, WritesEach, WritesUnder};
ghost use Rattle.rx_jsonld.specs.Groups.{array_at, grouped, grouped_node, value_at, values_at};
ghost use Rattle.rx_jsonld.specs.Lists.{listed};
ghost use Rattle.rx_jsonld.specs.Meaning.{JsonLd};
ghost use Rattle.rx_jsonld.specs.Places.{PlacesAre, node_at, nodes_added};
ghost use Rattle.rx_jsonld.specs.Value.{jsonld, node_value, nodes_of};

use crate::groups::groups_of;
use crate::listed::listed_cells;
use crate::nodes::begins_node;
use crate::said::{write_id, write_said};
use rx_graph::{Graph, Nodes, Resource};
use rx_json::{OUT_OF_MEMORY, text_of, value_of};
use rx_shapes::Shapes;
use rx_terms::{NoMemory, Node};
use serde::{Described, Serialize, Serializer};
use serde_json::Value;
use std::alloc::Global;
use std::collections::BTreeMap;

/// The node objects of a graph, as they are written.
#[derive(Drop)]
struct NodeObjects<'a> {
    alloc: Global,
    graph: &'a Graph,
    shapes: &'a Shapes,
    cells: &'a Nodes<'a>,
    ghost placed: { PlacesAre (triples_seen graph.now) shapes.now },
    ghost cells_are: { cells.now ≡ nodes_added [] (listed (shape_in shapes.now) (triples_seen graph.now)) },
}

impl Described for NodeObjects<'_> {
    ghost writes = { λ nodes old new. IsWritable (triples_seen nodes.graph.now) → Writes (jsonld (triples_seen nodes.graph.now) (shape_in nodes.shapes.now)) old new };
}

impl Serialize for NodeObjects<'_> {
    fn serialize<S: Serializer>(&self, out: &mut S) -> Result<(), S::Error> {
        write_nodes(self.alloc, self.graph, self.shapes, self.cells, out)
    }
}

/// The JSON-LD of a graph with these shapes, expanded and flattened (JSON-LD 1.1, section 9). The time is that of the graph's
/// length, but for the order of keys. The one error is want of memory.
pub fn value(alloc: Global, graph: &Graph, shapes: &Shapes) -> Result<Value, NoMemory>
    requires shapes { AreShapes (triples_seen graph.now) shapes.now }
    ensures value { IfOk result (λ value. view value ≡ jsonld (triples_seen graph.now) (shape_in shapes.now)) }
    ensures denotes { IfOk result (λ value. JsonLd (view value) (map proper_triple (triples_seen graph.now))) }
    ensures written { IfOk result (λ value. has_float (view value) ≡ false) }
{
    let cells = listed_cells(alloc, graph, shapes)?;
    let value = made(alloc, graph, shapes, &cells);
    drop(cells);
    value
}

fn made(alloc: Global, graph: &Graph, shapes: &Shapes, cells: &Nodes) -> Result<Value, NoMemory>
    requires shapes { PlacesAre (triples_seen graph.now) shapes.now }
    requires listed { cells.now ≡ nodes_added [] (listed (shape_in shapes.now) (triples_seen graph.now)) }
    requires writable { IsWritable (triples_seen graph.now) }
    ensures { IfOk result (λ value. view value ≡ jsonld (triples_seen graph.now) (shape_in shapes.now)) }
{
    value_of(
        alloc,
        &NodeObjects {
            alloc,
            graph,
            shapes,
            cells,
        },
    )
}

/// The compact text of a graph's JSON-LD, which is that of [`value`]. The bytes are UTF-8. It is written piece by
/// piece, so beside the text no more is in memory than the places of one node's triples. The one error is want of memory.
pub fn text(alloc: Global, graph: &Graph, shapes: &Shapes) -> Result<Vec<u8>, NoMemory>
    requires shapes { AreShapes (triples_seen graph.now) shapes.now }
    ensures text { IfOk result (λ text. text.items ≡ compact_text (jsonld (triples_seen graph.now) (shape_in shapes.now))) }
    ensures denotes { IfOk result (λ text. JsonLd (jsonld (triples_seen graph.now) (shape_in shapes.now)) (map proper_triple (triples_seen graph.now))) }
{
    let cells = listed_cells(alloc, graph, shapes)?;
    let text = spelled(alloc, graph, shapes, &cells);
    drop(cells);
    text
}

fn spelled(
    alloc: Global,
    graph: &Graph,
    shapes: &Shapes,
    cells: &Nodes,
) -> Result<Vec<u8>, NoMemory>
    requires shapes { PlacesAre (triples_seen graph.now) shapes.now }
    requires listed { cells.now ≡ nodes_added [] (listed (shape_in shapes.now) (triples_seen graph.now)) }
    requires writable { IsWritable (triples_seen graph.now) }
    ensures { IfOk result (λ text. text.items ≡ compact_text (jsonld (triples_seen graph.now) (shape_in shapes.now))) }
{
    text_of(
        alloc,
        &NodeObjects {
            alloc,
            graph,
            shapes,
            cells,
        },
    )
}

/// Writes the array of the node objects.
fn write_nodes<S: Serializer>(
    alloc: Global,
    graph: &Graph,
    shapes: &Shapes,
    cells: &Nodes,
    out: &mut S,
) -> Result<(), S::Error>
    requires shapes { PlacesAre (triples_seen graph.now) shapes.now }
    requires listed { cells.now ≡ nodes_added [] (listed (shape_in shapes.now) (triples_seen graph.now)) }
    ensures { IsWritable (triples_seen graph.now) → OnOk result (Writes (jsonld (triples_seen graph.now) (shape_in shapes.now)) (S.written out.old) (S.written out.new)) }
{
    out.begin_seq(None)?;
    write_each(alloc, graph, shapes, cells, out)?;
    out.end_seq()
}

/// Writes the node objects, in order of first occurrence as a subject.
fn write_each<S: Serializer>(
    alloc: Global,
    graph: &Graph,
    shapes: &Shapes,
    cells: &Nodes,
    out: &mut S,
) -> Result<(), S::Error>
    requires shapes { PlacesAre (triples_seen graph.now) shapes.now }
    requires listed { cells.now ≡ nodes_added [] (listed (shape_in shapes.now) (triples_seen graph.now)) }
    ensures { IsWritable (triples_seen graph.now) → OnOk result (WritesEach (nodes_of (triples_seen graph.now) (shape_in shapes.now)) (S.written out.old) (S.written out.new)) }
{
    for i in 0..graph.len() {
        let subject = &graph.at(i).subject;
        write_first(alloc, graph, shapes, cells, i, subject, out)?;
    }
    Ok(())
}

/// Writes the node object of a triple's subject, where this is the subject's first triple and it is no listed cell.
fn write_first<S: Serializer>(
    alloc: Global,
    graph: &Graph,
    shapes: &Shapes,
    cells: &Nodes,
    place: usize,
    subject: &Node,
    out: &mut S,
) -> Result<(), S::Error>
    requires shapes { PlacesAre (triples_seen graph.now) shapes.now }
    requires listed { cells.now ≡ nodes_added [] (listed (shape_in shapes.now) (triples_seen graph.now)) }
    ensures { IsWritable (triples_seen graph.now) → OnOk result (WritesEach (node_at (triples_seen graph.now) (shape_in shapes.now) place (node_seen subject.now)) (S.written out.old) (S.written out.new)) }
{
    let places = shapes.places(subject);
    if !begins_node(graph, shapes, cells, places, place, subject) {
        return Ok(());
    }
    write_node(alloc, graph, shapes, subject, places, out)
}

// ---- one node object

/// Writes the node object of a subject that has these places.
fn write_node<S: Serializer>(
    alloc: Global,
    graph: &Graph,
    shapes: &Shapes,
    subject: &Node,
    places: &[usize],
    out: &mut S,
) -> Result<(), S::Error>
    requires shapes { PlacesAre (triples_seen graph.now) shapes.now }
    requires places { places.now ≡ places_of nat_eq (triples_seen graph.now) (node_seen subject.now) }
    ensures { IsWritable (triples_seen graph.now) → OnOk result (Writes (node_value (triples_seen graph.now) (shape_in shapes.now) (node_seen subject.now)) (S.written out.old) (S.written out.new)) }
{
    let Ok(groups) = groups_of(alloc, graph, places) else {
        return Err(out.custom(OUT_OF_MEMORY));
    };
    let written = write_object(alloc, graph, shapes, subject, &groups, out);
    drop(groups);
    written
}

/// Writes the object that has the node's name and these groups.
fn write_object<S: Serializer>(
    alloc: Global,
    graph: &Graph,
    shapes: &Shapes,
    subject: &Node,
    groups: &BTreeMap<&str, Vec<usize>>,
    out: &mut S,
) -> Result<(), S::Error>
    requires { PlacesAre (triples_seen graph.now) shapes.now }
    ensures { OnOk result (Writes (grouped_node (triples_seen graph.now) (shape_in shapes.now) (node_seen subject.now) groups.now.entries) (S.written out.old) (S.written out.new)) }
{
    out.begin_map(None)?;
    out.key("@id")?;
    write_id(alloc, Resource::of_node(subject), out)?;
    write_groups(alloc, graph, shapes, groups, out)?;
    out.end_map()
}

fn write_groups<S: Serializer>(
    alloc: Global,
    graph: &Graph,
    shapes: &Shapes,
    groups: &BTreeMap<&str, Vec<usize>>,
    out: &mut S,
) -> Result<(), S::Error>
    requires { PlacesAre (triples_seen graph.now) shapes.now }
    ensures { OnOk result (Grows (S.written out.old) (S.written out.new) (members_events (grouped (triples_seen graph.now) (shape_in shapes.now) groups.now.entries))) }
{
    for (key, places) in groups.iter() {
        write_group(alloc, graph, shapes, key, places, out)?;
    }
    Ok(())
}

/// Writes a key and the array of what is said under it.
fn write_group<S: Serializer>(
    alloc: Global,
    graph: &Graph,
    shapes: &Shapes,
    key: &str,
    places: &[usize],
    out: &mut S,
) -> Result<(), S::Error>
    requires { PlacesAre (triples_seen graph.now) shapes.now }
    ensures { OnOk result (WritesUnder key.now (array_at (triples_seen graph.now) (shape_in shapes.now) places.now) (S.written out.old) (S.written out.new)) }
{
    out.key(key)?;
    out.begin_seq(None)?;
    write_places(alloc, graph, shapes, places, out)?;
    out.end_seq()
}

/// Writes what the triples at these places put under their key.
fn write_places<S: Serializer>(
    alloc: Global,
    graph: &Graph,
    shapes: &Shapes,
    places: &[usize],
    out: &mut S,
) -> Result<(), S::Error>
    requires { PlacesAre (triples_seen graph.now) shapes.now }
    ensures { OnOk result (WritesEach (values_at (triples_seen graph.now) (shape_in shapes.now) places.now) (S.written out.old) (S.written out.new)) }
{
    for place in places {
        write_place(alloc, graph, shapes, *place, out)?;
    }
    Ok(())
}

fn write_place<S: Serializer>(
    alloc: Global,
    graph: &Graph,
    shapes: &Shapes,
    place: usize,
    out: &mut S,
) -> Result<(), S::Error>
    requires { PlacesAre (triples_seen graph.now) shapes.now }
    ensures { OnOk result (Writes (value_at (triples_seen graph.now) (shape_in shapes.now) place) (S.written out.old) (S.written out.new)) }
{
    if place >= graph.len() {
        return out.unit();
    }
    write_said(alloc, graph, shapes, graph.at(place), out)
}
