//! What a cell of a list has: its item, and what comes after it.
ghost use Rattle.std.specs.Prelude.{◌≡◌, Some, option_map, slice_get, bytes_eq};
ghost use Rattle.rx_model.specs.Seen.{term_seen, triple_seen, triples_seen};
ghost use Rattle.rx_shapes.specs.Cells.{object_among, object_if, predicate_of};

use crate::vocabulary::{is_first, is_rest};
use rx_graph::Graph;
use rx_terms::{Term, Triple};

/// What a cell has (RDF Schema 1.1, 5.2).
#[derive(Clone, Copy)]
pub enum CellPart {
    /// Its item, by rdf:first.
    Item,
    /// What comes after it, by rdf:rest.
    Rest,
}

/// The object of the first triple at the places that says this part of a cell.
pub fn object_of<'a>(graph: &'a Graph, places: &[usize], part: CellPart) -> Option<&'a Term>
    ensures { option_map (λ o. term_seen o.now) result ≡ object_among (triples_seen graph.now) places.now (predicate_of part) }
{
    for place in places {
        if let Some(object) = object_if(graph, *place, part) {
            return Some(object);
        }
    }
    None
}

fn object_if<'a>(graph: &'a Graph, place: usize, part: CellPart) -> Option<&'a Term>
    ensures { option_map (λ o. term_seen o.now) result ≡ object_if (slice_get (triples_seen graph.now) place) (predicate_of part) }
{
    if place >= graph.len() {
        return None;
    }
    object_in(graph.at(place), part)
}

fn object_in(triple: &Triple, part: CellPart) -> Option<&Term>
    ensures { option_map (λ o. term_seen o.now) result ≡ object_if (Some (triple_seen triple.now)) (predicate_of part) }
{
    if has_part(triple, part) {
        Some(&triple.object)
    } else {
        None
    }
}

fn has_part(triple: &Triple, part: CellPart) -> bool
    ensures { result ≡ bytes_eq triple.now.predicate (predicate_of part) }
{
    match part {
        CellPart::Item => is_first(&triple.predicate),
        CellPart::Rest => is_rest(&triple.predicate),
    }
}
