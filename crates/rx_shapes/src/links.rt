//! The chains of parents and of lists.
ghost use Rattle.std.specs.Prelude.{◌≡◌, ◌<◌, length, IfOk, get_or, false, [], slice_get, nat_eq, ◌&&◌, if◌then◌else◌};
ghost use Rattle.rx_model.specs.Seen.{term_seen, triple_seen, triples_seen};
ghost use Rattle.rx_graph.specs.Resources.{number_in};
ghost use Rattle.rx_shapes.specs.Rows.{filed, table};
ghost use Rattle.rx_shapes.specs.Links.{object_number, link_to, parent_link, subject_link, rest_link, are_pair, pair_link, found_link, cell_link, inner_link, nil_link, is_inner_by, AreInner, AreCells, IsTripleIndex, subject_rows, object_rows, parent_links, inner_marks, cell_links};

use crate::chains::{Link, settle};
use crate::index::Index;
use crate::rows::Rows;
use crate::vocabulary::{is_first, is_nil, is_rest};
use rx_graph::Graph;
use rx_terms::{NoMemory, Term, Triple};
use std::alloc::Global;

/// For each node the places of the triples with that subject.
pub(crate) fn subject_rows(alloc: Global, graph: &Graph, index: &Index) -> Result<Rows, NoMemory>
    ensures { IfOk result (λ rows. rows ≡ subject_rows (triples_seen graph.now) index.now) }
{
    let mut rows = Rows::empty(alloc, index.len())?;
    for i in 0..graph.len() {
        rows.file(index.number(&graph.at(i).subject), i)?;
    }
    Ok(rows)
}

/// For each node the places of the triples with that object, where it is a blank node.
fn object_rows(alloc: Global, graph: &Graph, index: &Index) -> Result<Rows, NoMemory>
    ensures { IfOk result (λ rows. rows ≡ object_rows (triples_seen graph.now) index.now) }
{
    let mut rows = Rows::empty(alloc, index.len())?;
    for i in 0..graph.len() {
        rows.file(index.object_number(&graph.at(i).object), i)?;
    }
    Ok(rows)
}

/// Of each node whether it is inner.
pub(crate) fn inner_nodes(
    alloc: Global,
    graph: &Graph,
    index: &Index,
) -> Result<Vec<bool>, NoMemory>
    requires { IsTripleIndex (triples_seen graph.now) index.now }
    ensures { IfOk result (λ marks. AreInner (triples_seen graph.now) index.now marks.items) }
{
    let uses = object_rows(alloc, graph, index)?;
    let links = parent_links(alloc, graph, index, &uses)?;
    let ends = settle(alloc, &links)?;
    Ok(inner_marks(alloc, index.len(), &ends, &uses)?)
}

/// Of each node whether it is a cell, by those that are inner and the places of each.
pub(crate) fn cell_nodes(
    alloc: Global,
    graph: &Graph,
    index: &Index,
    inner: &[bool],
    places: &Rows,
) -> Result<Vec<bool>, NoMemory>
    requires nodes { IsTripleIndex (triples_seen graph.now) index.now }
    requires inner { AreInner (triples_seen graph.now) index.now inner.now }
    requires places { places.now ≡ subject_rows (triples_seen graph.now) index.now }
    ensures { IfOk result (λ marks. AreCells (triples_seen graph.now) index.now marks.items) }
{
    let links = cell_links(alloc, graph, index, inner, places)?;
    Ok(settle(alloc, &links)?)
}

fn parent_links(
    alloc: Global,
    graph: &Graph,
    index: &Index,
    uses: &Rows,
) -> Result<Vec<Link>, NoMemory>
    ensures { IfOk result (λ links. links.items ≡ parent_links (triples_seen graph.now) index.now uses.now (length index.now)) }
{
    let mut links = Vec::with_capacity(alloc, index.len())?;
    for i in 0..index.len() {
        links.push(parent_link(graph, index, uses.row(i)))?;
    }
    Ok(links)
}

fn inner_marks(
    alloc: Global,
    size: usize,
    ends: &[bool],
    uses: &Rows,
) -> Result<Vec<bool>, NoMemory>
    ensures { IfOk result (λ marks. marks.items ≡ inner_marks ends.now uses.now size) }
{
    let mut marks = Vec::with_capacity(alloc, size)?;
    for i in 0..size {
        marks.push(is_inner_by(mark(ends, i), uses.row(i)))?;
    }
    Ok(marks)
}

fn cell_links(
    alloc: Global,
    graph: &Graph,
    index: &Index,
    inner: &[bool],
    places: &Rows,
) -> Result<Vec<Link>, NoMemory>
    ensures { IfOk result (λ links. links.items ≡ cell_links (triples_seen graph.now) index.now inner.now places.now (length index.now)) }
{
    let mut links = Vec::with_capacity(alloc, index.len())?;
    for i in 0..index.len() {
        links.push(inner_link(graph, index, mark(inner, i), places.row(i)))?;
    }
    Ok(links)
}

/// The mark of a number. One that isn't there has none.
pub(crate) fn mark(marks: &[bool], number: usize) -> bool
    ensures { result ≡ get_or marks.now number false }
{
    if number >= marks.len() {
        return false;
    }
    marks[number]
}

/// Where the chain of parents goes on from a node, by the places of the triples that have it as object.
fn parent_link(graph: &Graph, index: &Index, uses: &[usize]) -> Link
    ensures { result ≡ parent_link (triples_seen graph.now) index.now uses.now }
{
    match uses {
        [place] => subject_link(graph, index, *place),
        _ => Link::Ends,
    }
}

fn subject_link(graph: &Graph, index: &Index, place: usize) -> Link
    ensures { result ≡ subject_link index.now (slice_get (triples_seen graph.now) place) }
{
    if place >= graph.len() {
        return Link::Breaks;
    }
    link_to(index.number(&graph.at(place).subject))
}

fn link_to(number: Option<usize>) -> Link
    ensures { result ≡ link_to number }
{
    match number {
        Some(number) => Link::To(number),
        None => Link::Breaks,
    }
}

fn is_inner_by(ends: bool, uses: &[usize]) -> bool
    ensures { result ≡ is_inner_by ends uses.now }
{
    ends && uses.len() == 1
}

fn inner_link(graph: &Graph, index: &Index, is_inner: bool, places: &[usize]) -> Link
    ensures { result ≡ inner_link (triples_seen graph.now) index.now is_inner places.now }
{
    if is_inner {
        cell_link(graph, index, places)
    } else {
        Link::Breaks
    }
}

/// Where a list goes on from an inner node, by the places of its triples.
fn cell_link(graph: &Graph, index: &Index, places: &[usize]) -> Link
    ensures { result ≡ cell_link (triples_seen graph.now) index.now places.now }
{
    match places {
        [place, other] => found_link(graph, index, *place, *other),
        _ => Link::Breaks,
    }
}

fn found_link(graph: &Graph, index: &Index, place: usize, other: usize) -> Link
    ensures { result ≡ found_link index.now (slice_get (triples_seen graph.now) place) (slice_get (triples_seen graph.now) other) }
{
    if place >= graph.len() {
        return Link::Breaks;
    }
    if other >= graph.len() {
        return Link::Breaks;
    }
    pair_link(index, graph.at(place), graph.at(other))
}

fn pair_link(index: &Index, one: &Triple, other: &Triple) -> Link
    ensures { result ≡ pair_link index.now (triple_seen one.now) (triple_seen other.now) }
{
    if are_pair(one, other) {
        return rest_link(index, &other.object);
    }
    if are_pair(other, one) {
        return rest_link(index, &one.object);
    }
    Link::Breaks
}

/// Whether these have an item, and what comes after it.
fn are_pair(one: &Triple, other: &Triple) -> bool
    ensures { result ≡ are_pair (triple_seen one.now) (triple_seen other.now) }
{
    is_first(&one.predicate) && is_rest(&other.predicate)
}

/// Where a list goes on from a cell, by the object of its rdf:rest.
fn rest_link(index: &Index, after: &Term) -> Link
    ensures { result ≡ rest_link index.now (term_seen after.now) }
{
    match after {
        Term::Iri(iri) => nil_link(is_nil(iri)),
        Term::Blank(_blank) => link_to(index.object_number(after)),
        Term::Literal(_literal) => Link::Breaks,
    }
}

fn nil_link(is_nil: bool) -> Link
    ensures { result ≡ nil_link is_nil }
{
    if is_nil { Link::Ends } else { Link::Breaks }
}
