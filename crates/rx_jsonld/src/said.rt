//! What a triple says of its subject, as serde writes it.
ghost use Rattle.std.specs.Prelude.{◌≡◌, [], ◌∷◌, None, codes, encode_utf8_all, map, string_bytes, IfOk, OnOk};
ghost use Rattle.serde.specs.Event as event;
ghost use Rattle.serde.specs.declared.name.Case.TheVariants.{AsIs};
ghost use Rattle.serde_json.specs.Data.{object};
ghost use Rattle.rx_model.specs.Seen.{kind_seen, term_seen, triple_seen, triples_seen};
ghost use Rattle.rx_graph.specs.Resources.{resource_seen};
ghost use Rattle.rx_pieces.specs.Writing.{blank_text};
ghost use Rattle.rx_shapes.specs.Table.{shape_in};
ghost use Rattle.rx_jsonld.specs.Changes.{Writes, WritesEach};
ghost use Rattle.rx_jsonld.specs.Groups.{value_said};
ghost use Rattle.rx_json.specs.Events.{Grows, members_events};
ghost use Rattle.rx_jsonld.specs.Places.{PlacesAre};
ghost use Rattle.rx_jsonld.specs.Value.{id_text, item_value, list_from, list_value, literal_members, object_value, object_with, plain_value, term_value};
ghost use Rattle.rx_json.specs.Plain.{string_of};

use crate::chains::{chain, first_cell, object_at};
use crate::objects::{is_empty_list, type_of};
use rx_graph::{Graph, Resource};
use rx_json::OUT_OF_MEMORY;
use rx_shapes::{CellPart, Shapes};
use rx_terms::{Blank, Iri, Literal, LiteralKind, NoMemory, Term, Triple};
use serde::Serializer;
use std::alloc::Global;

/// Writes the value that a triple puts under its key: a type's name, or its object's value.
pub(crate) fn write_said<S: Serializer>(
    alloc: Global,
    graph: &Graph,
    shapes: &Shapes,
    triple: &Triple,
    out: &mut S,
) -> Result<(), S::Error>
    requires { PlacesAre (triples_seen graph.now) shapes.now }
    ensures { OnOk result (Writes (value_said (triples_seen graph.now) (shape_in shapes.now) (triple_seen triple.now)) (S.written out.old) (S.written out.new)) }
{
    match type_of(triple) {
        Some(node) => write_id(alloc, node, out),
        None => write_object(alloc, graph, shapes, triple, out),
    }
}

/// Writes the value of a triple's object: a list object where it is the first cell of a listed chain.
fn write_object<S: Serializer>(
    alloc: Global,
    graph: &Graph,
    shapes: &Shapes,
    triple: &Triple,
    out: &mut S,
) -> Result<(), S::Error>
    requires { PlacesAre (triples_seen graph.now) shapes.now }
    ensures { OnOk result (Writes (object_value (triples_seen graph.now) (shape_in shapes.now) (triple_seen triple.now)) (S.written out.old) (S.written out.new)) }
{
    match first_cell(shapes, triple) {
        Some(first) => write_chain(alloc, graph, shapes, first, out),
        None => write_plain(alloc, &triple.predicate, &triple.object, out),
    }
}

fn write_chain<S: Serializer>(
    alloc: Global,
    graph: &Graph,
    shapes: &Shapes,
    first: Blank,
    out: &mut S,
) -> Result<(), S::Error>
    requires { PlacesAre (triples_seen graph.now) shapes.now }
    ensures { OnOk result (Writes (list_from (triples_seen graph.now) first.0) (S.written out.old) (S.written out.new)) }
{
    let Ok(cells) = chain(alloc, graph, shapes, first) else {
        return Err(out.custom(OUT_OF_MEMORY));
    };
    let written = write_list(alloc, graph, shapes, &cells, out);
    drop(cells);
    written
}

fn write_plain<S: Serializer>(
    alloc: Global,
    predicate: &Iri,
    object: &Term,
    out: &mut S,
) -> Result<(), S::Error>
    ensures { OnOk result (Writes (plain_value predicate.now (term_seen object.now)) (S.written out.old) (S.written out.new)) }
{
    if is_empty_list(predicate, object) {
        write_empty_list(out)
    } else {
        write_term(alloc, object, out)
    }
}

// ---- lists

/// Writes the list object of these cells.
fn write_list<S: Serializer>(
    alloc: Global,
    graph: &Graph,
    shapes: &Shapes,
    cells: &[Blank],
    out: &mut S,
) -> Result<(), S::Error>
    requires { PlacesAre (triples_seen graph.now) shapes.now }
    ensures { OnOk result (Writes (list_value (map (item_value (triples_seen graph.now)) (map (λ b. b.0) cells.now))) (S.written out.old) (S.written out.new)) }
{
    begin_list(out)?;
    write_items(alloc, graph, shapes, cells, out)?;
    end_list(out)
}

/// Writes a list object of no items.
fn write_empty_list<S: Serializer>(out: &mut S) -> Result<(), S::Error>
    ensures { OnOk result (Writes (list_value []) (S.written out.old) (S.written out.new)) }
{
    begin_list(out)?;
    end_list(out)
}

fn begin_list<S: Serializer>(out: &mut S) -> Result<(), S::Error>
    ensures { OnOk result (Grows (S.written out.old) (S.written out.new) (event.map_begins None ∷ event.field_key (codes "@list") AsIs ∷ event.seq_begins None ∷ [])) }
{
    out.begin_map(None)?;
    out.key("@list")?;
    out.begin_seq(None)
}

fn end_list<S: Serializer>(out: &mut S) -> Result<(), S::Error>
    ensures { OnOk result (Grows (S.written out.old) (S.written out.new) (event.seq_ends ∷ event.map_ends ∷ [])) }
{
    out.end_seq()?;
    out.end_map()
}

fn write_items<S: Serializer>(
    alloc: Global,
    graph: &Graph,
    shapes: &Shapes,
    cells: &[Blank],
    out: &mut S,
) -> Result<(), S::Error>
    requires { PlacesAre (triples_seen graph.now) shapes.now }
    ensures { OnOk result (WritesEach (map (item_value (triples_seen graph.now)) (map (λ b. b.0) cells.now)) (S.written out.old) (S.written out.new)) }
{
    for cell in cells {
        write_item(alloc, graph, shapes, *cell, out)?;
    }
    Ok(())
}

fn write_item<S: Serializer>(
    alloc: Global,
    graph: &Graph,
    shapes: &Shapes,
    cell: Blank,
    out: &mut S,
) -> Result<(), S::Error>
    requires { PlacesAre (triples_seen graph.now) shapes.now }
    ensures { OnOk result (Writes (item_value (triples_seen graph.now) cell.0) (S.written out.old) (S.written out.new)) }
{
    match object_at(graph, shapes, cell, CellPart::Item) {
        Some(item) => write_term(alloc, item, out),
        None => out.unit(),
    }
}

// ---- terms

/// Writes a node object that names a node, or a value object.
fn write_term<S: Serializer>(alloc: Global, term: &Term, out: &mut S) -> Result<(), S::Error>
    ensures { OnOk result (Writes (term_value (term_seen term.now)) (S.written out.old) (S.written out.new)) }
{
    match term {
        Term::Iri(iri) => write_reference(alloc, Resource::Iri(iri), out),
        Term::Blank(blank) => write_reference(alloc, Resource::Blank(*blank), out),
        Term::Literal(literal) => write_literal(literal, out),
    }
}

fn write_reference<S: Serializer>(
    alloc: Global,
    node: Resource,
    out: &mut S,
) -> Result<(), S::Error>
    ensures { OnOk result (Writes (object_with (codes "@id") (string_of (id_text (resource_seen node.entry)))) (S.written out.old) (S.written out.new)) }
{
    out.begin_map(None)?;
    out.key("@id")?;
    write_id(alloc, node, out)?;
    out.end_map()
}

fn write_literal<S: Serializer>(literal: &Literal, out: &mut S) -> Result<(), S::Error>
    ensures { OnOk result (Writes (object (literal_members literal.now.lexical (kind_seen literal.now.kind))) (S.written out.old) (S.written out.new)) }
{
    out.begin_map(None)?;
    write_members(literal, out)?;
    out.end_map()
}

fn write_members<S: Serializer>(literal: &Literal, out: &mut S) -> Result<(), S::Error>
    ensures { OnOk result (Grows (S.written out.old) (S.written out.new) (members_events (literal_members literal.now.lexical (kind_seen literal.now.kind)))) }
{
    match &literal.kind {
        LiteralKind::Plain => write_text("@value", literal.lexical.as_str(), out),
        LiteralKind::Tagged(tag) => {
            write_text("@language", tag.as_str(), out)?;
            write_text("@value", literal.lexical.as_str(), out)
        }
        LiteralKind::Typed(datatype) => {
            write_text("@type", datatype.as_str(), out)?;
            write_text("@value", literal.lexical.as_str(), out)
        }
    }
}

fn write_text<S: Serializer>(name: &str, text: &str, out: &mut S) -> Result<(), S::Error>
    ensures { OnOk result (Grows (S.written out.old) (S.written out.new) (event.field_key name.now AsIs ∷ event.text text.now ∷ [])) }
{
    out.key(name)?;
    out.str(text)
}

/// Writes the name of a node: its IRI, or `_:b` and its number.
pub(crate) fn write_id<S: Serializer>(
    alloc: Global,
    node: Resource,
    out: &mut S,
) -> Result<(), S::Error>
    ensures { OnOk result (Writes (string_of (id_text (resource_seen node.entry))) (S.written out.old) (S.written out.new)) }
{
    match node {
        Resource::Iri(iri) => out.str(iri.as_str()),
        Resource::Blank(blank) => write_label(alloc, blank, out),
    }
}

fn write_label<S: Serializer>(alloc: Global, blank: Blank, out: &mut S) -> Result<(), S::Error>
    ensures { OnOk result (Writes (string_of (blank_text blank.0)) (S.written out.old) (S.written out.new)) }
{
    let Ok(text) = label(alloc, blank) else {
        return Err(out.custom(OUT_OF_MEMORY));
    };
    let written = out.str(text.as_str());
    drop(text);
    written
}

/// `_:b` and the number.
fn label(alloc: Global, blank: Blank) -> Result<String, NoMemory>
    ensures { IfOk result (λ label. string_bytes label ≡ encode_utf8_all (blank_text blank.0)) }
{
    let number = blank.0;
    Ok(format!(in alloc; "_:b{number}")?)
}
