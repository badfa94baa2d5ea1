//! Terms, lists of triples that are lent, and texts of a graph by themselves.
use crate::tests::elements::iri;
use rx_graph::{Graph, copy_patterns, relabel};
use rx_jsonld::value;
use rx_many::Many;
use rx_nquads::put_quad;
use rx_refs::{clean, split};
use rx_shapes::Shapes;
use rx_terms::{Blank, Iri, Lang, Literal, LiteralKind, Node, Term, Text, Triple, TripleList};
use std::alloc::Global;
use std::process::Abort;

/// The triple `_:b7 <x:p> "Hi"@de`.
fn triple(rt: &impl Abort, alloc: Global) -> Triple {
    let lang = Lang::of(alloc, "de").expect(rt, "memory");
    let object = Literal {
        lexical: Text::of(alloc, "Hi").expect(rt, "memory"),
        kind: LiteralKind::Tagged(lang.expect(rt, "a tag")),
    };
    Triple {
        subject: Node::Blank(Blank(7)),
        predicate: iri(rt, alloc, "x:p"),
        object: Term::Literal(object),
    }
}

fn check_text(rt: &impl Abort, text: &[u8], wanted: &str) {
    assert!(rt; text == wanted.as_bytes(), "not {wanted}");
}

/// A list of the triple, which comes twice, is lent: as a set, numbered, and copied.
fn graph(rt: &impl Abort, alloc: Global, triple: &Triple) -> Graph {
    let mut triples = TripleList::new(alloc);
    for _ in 0..2 {
        let copy = triple.try_clone().expect(rt, "memory");
        triples.push(copy).expect(rt, "memory");
    }
    let copied = copy_patterns(alloc, &triples).expect(rt, "memory");
    assert!(rt; copied.len() == 1);
    drop(copied);
    let graph = Graph::of(alloc, &triples).expect(rt, "memory");
    drop(triples);
    let numbered = relabel(alloc, &graph).expect(rt, "memory");
    drop(graph);
    numbered
}

fn check_value(rt: &impl Abort, alloc: Global, graph: &Graph) {
    let shapes = Shapes::of(alloc, graph).expect(rt, "memory");
    let value = value(alloc, graph, &shapes).expect(rt, "memory");
    drop(shapes);
    let text = value.to_vec(alloc).expect(rt, "memory");
    drop(value);
    let wanted = "[{\"@id\":\"_:b0\",\"x:p\":[{\"@language\":\"de\",\"@value\":\"Hi\"}]}]";
    check_text(rt, text.as_slice(), wanted);
}

fn check_dataset(rt: &impl Abort, alloc: Global, graph: &Graph) {
    let mut many = Many::new(alloc).expect(rt, "memory");
    let address = iri(rt, alloc, "x:page");
    many.add(alloc, &address, graph).expect(rt, "memory");
    drop(address);
    let text = many.text(alloc).expect(rt, "memory");
    drop(many);
    check_text(rt, text.as_slice(), "_:b0 <x:p> \"Hi\"@de <x:page> .\n");
}

#[test]
fn a_list_is_lent(rt: HostRuntime) {
    let triple = triple(&rt, rt.alloc());
    let graph = graph(&rt, rt.alloc(), &triple);
    check_value(&rt, rt.alloc(), &graph);
    check_dataset(&rt, rt.alloc(), &graph);
    drop(graph);
    let mut lines = Vec::new(rt.alloc());
    put_quad(rt.alloc(), &mut lines, &triple, None).expect(&rt, "memory");
    drop(triple);
    check_text(&rt, lines.as_slice(), "_:b7 <x:p> \"Hi\"@de .\n");
}

#[test]
fn texts_of_references(rt: HostRuntime) {
    let text = clean(rt.alloc(), "a`\u{1f}é").expect(&rt, "memory");
    check_text(&rt, text.as_str().as_bytes(), "a%60%1Fé");
    assert!(rt; split("http://h:80/p").authority == Some("h:80"));
    let refused = Iri::of(rt.alloc(), "relative");
    assert!(rt; refused.is_err());
}
