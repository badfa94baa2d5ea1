//! One element as its calls, and items as a value.
ghost use Rattle.std.specs.Prelude.{◌<◌, ◌+◌, ◌^◌, length};
ghost use Rattle.rx_rdfa.specs.Renaming.{labels as labels_of};
ghost use Rattle.rx_curie.specs.Seen.{facts_seen};

use rx_curie::{ElementKind, Facts, Ref};
use rx_eval::{Labels, Placed, is_blank, value_of};
use rx_items::{ItemWalk, Limits, Syntax};
use rx_terms::{Iri, Iris, Node, Term, Text};
use std::alloc::Global;
use std::process::Abort;

pub(crate) fn iri(rt: &impl Abort, alloc: Global, text: &str) -> Iri {
    Iri::of(alloc, text).expect(rt, "an IRI")
}

/// Whether the term is this text.
fn is_text(term: &Term, text: &str) -> bool {
    match term {
        Term::Literal(literal) => literal.lexical.as_str() == text,
        _ => false,
    }
}

/// Where an element with these facts stands, with the labels that have numbers then, and its value.
fn check(rt: &impl Abort, alloc: Global, facts: &Facts, base: &Iri)
    requires { 7 + 1 + length (labels_of (facts_seen facts.now)) < 2 ^ 64 }
{
    let mut labels = Labels::new(alloc).expect(rt, "memory");
    let page = Node::Iri(base.try_clone().expect(rt, "memory"));
    let placed = Placed::of(alloc, facts, 2, base, &page, &page, 7, &mut labels);
    let placed = placed.expect(rt, "memory");
    assert!(rt; is_blank(&placed.subject, 7) && placed.next_blank == 8);
    assert!(rt; labels.number("x") == Some(7) && labels.number("y").is_none());
    let value = value_of(alloc, facts, &placed, base, &labels, "Hi").expect(rt, "memory");
    assert!(rt; is_text(&value, "Hi"));
    drop(value);
    drop(placed);
    drop(page);
    drop(labels);
}

#[test]
fn a_text_about_a_label(rt: HostRuntime) {
    let label = Text::of(rt.alloc(), "x").expect(&rt, "memory");
    let mut property = Iris::new(rt.alloc());
    let name = iri(&rt, rt.alloc(), "http://v.example/p");
    property.push(name).expect(&rt, "memory");
    let facts = Facts {
        element: ElementKind::Other,
        about: Some(Ref::Label(label)),
        resource: None,
        href: None,
        src: None,
        rel: None,
        rev: None,
        property: Some(property),
        types: None,
        content: None,
        datetime: None,
        datatype: None,
        inlist: false,
        vocab: None,
        lang: None,
    };
    let base = iri(&rt, rt.alloc(), "http://h.example/d");
    check(&rt, rt.alloc(), &facts, &base);
    drop(facts);
}

const PAGE: &[u8] =
    b"<html><body><p id=\"r\" itemprop=\"z b\">N</p><div itemscope itemtype=\"http://t.example/A\" itemref=\"r\"><a itemprop=\"b\" href=\"y\"></a></div></body></html>";

const TEXT: &str =
    "{\"items\":[{\"properties\":{\"b\":[\"N\",\"http://h.example/y\"],\"z\":[\"N\"]},\"type\":[\"http://t.example/A\"]}]}";

#[test]
fn items_are_a_value(rt: HostRuntime) {
    let alloc = rt.alloc();
    let address = iri(&rt, alloc, "http://h.example/d");
    let walk = ItemWalk::new(alloc, Syntax::Html, address, Limits::standard());
    let mut walk = walk.expect(&rt, "memory");
    walk.feed(PAGE).expect(&rt, "a page");
    let items = walk.finish().expect(&rt, "items");
    let value = items.json(alloc).expect(&rt, "memory");
    drop(items);
    let text = value.to_vec(alloc).expect(&rt, "memory");
    drop(value);
    assert!(rt; text.as_slice() == TEXT.as_bytes());
}
