//! What the parts of every triple are: texts of Unicode scalar values, IRIs and language tags. The functions do nothing;
//! their contracts say so of the values that they are shown.
ghost use Rattle.std.specs.Prelude.{◌<◌, ◌^◌, None};
ghost use Rattle.rx_model.specs.Seen.{kind_seen, node_seen, term_seen, triple_seen};
ghost use Rattle.rx_pieces.specs.Writable.{WritableIri, WritableKind, WritableNode, WritableTag, WritableTerm, WritableText, WritableTriple};

use rx_terms::{Blank, Iri, Lang, Literal, LiteralKind, Node, Term, Text, Triple};

/// What the parts of a triple are.
#[inline(always)]
pub fn is_writable(triple: &Triple)
    ensures { WritableTriple None (triple_seen triple.now) }
{
    is_writable_node(&triple.subject);
    is_writable_iri(&triple.predicate);
    is_writable_term(&triple.object);
}

/// The same of a literal.
#[inline(always)]
pub fn is_writable_literal(literal: &Literal)
    ensures { WritableText literal.now.lexical × WritableKind (kind_seen literal.now.kind) }
{
    is_writable_text(&literal.lexical);
    is_writable_kind(&literal.kind);
}

#[inline(always)]
fn is_writable_node(node: &Node)
    ensures { WritableNode (node_seen node.now) }
{
    match node {
        Node::Iri(iri) => is_writable_iri(iri),
        Node::Blank(blank) => is_writable_blank(*blank),
    }
}

#[inline(always)]
fn is_writable_term(term: &Term)
    ensures { WritableTerm (term_seen term.now) }
{
    match term {
        Term::Iri(iri) => is_writable_iri(iri),
        Term::Blank(blank) => is_writable_blank(*blank),
        Term::Literal(literal) => {
            is_writable_text(&literal.lexical);
            is_writable_kind(&literal.kind);
        }
    }
}

#[inline(always)]
fn is_writable_kind(kind: &LiteralKind)
    ensures { WritableKind (kind_seen kind.now) }
{
    match kind {
        LiteralKind::Plain => {}
        LiteralKind::Tagged(tag) => is_writable_tag(tag),
        LiteralKind::Typed(datatype) => is_writable_iri(datatype),
    }
}

/// The same of a blank node.
#[inline(always)]
pub fn is_writable_blank(blank: Blank)
    ensures { blank.0 < 2 ^ 64 }
{}

#[inline(always)]
fn is_writable_text(text: &Text)
    ensures { WritableText text.now }
{
    let _characters = text.as_str();
}

#[inline(always)]
fn is_writable_tag(tag: &Lang)
    ensures { WritableTag tag.now }
{
    let _characters = tag.as_str();
}

/// The same of an IRI.
#[inline(always)]
pub fn is_writable_iri(iri: &Iri)
    ensures { WritableIri iri.now }
{
    let _characters = iri.as_str();
}
