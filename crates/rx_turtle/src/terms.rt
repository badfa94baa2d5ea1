//! How terms are written, each IRI in its short form where it has one.
ghost use Rattle.std.specs.Prelude.{◌++◌, codes};
ghost use Rattle.rx_model.specs.Seen.{kind_seen, term_seen};
ghost use Rattle.rx_graph.specs.Resources.{resource_seen};
ghost use Rattle.rx_notation.specs.Layout.{short_iri, resource_text, short_predicate, kind_suffix, object_text};
ghost use Rattle.rx_pieces.specs.Writing.{blank_text, string_text};
ghost use Rattle.rx_pieces.specs.Writable.{Pushes};
ghost use Rattle.rx_turtle.specs.Verbs.{key_text};

use crate::shorts::Shorts;
use rx_graph::Resource;
use rx_pieces::{LABEL, Pieces, push, push_between, push_label, push_lang, push_text};
use rx_ports::Sink;
use rx_shapes::is_type;
use rx_terms::{Blank, Iri, Lang, Literal, LiteralKind, Term};

/// The room for a label.
const ROOM: [u8; LABEL] = [b' '; LABEL];

/// Adds an IRI.
pub(crate) fn push_iri<S: Sink>(out: &mut Pieces, sink: &mut S, shorts: &Shorts, iri: &Iri)
    ensures { Pushes S.held S.faults out.old sink.old out.new sink.new (short_iri shorts.now iri.now) }
{
    match shorts.short(iri) {
        None => push_between(out, sink, "<", iri, ">"),
        Some((name, local)) => {
            push(out, sink, name);
            push(out, sink, ":");
            out.add(sink, local);
        }
    }
}

/// Adds a subject.
pub fn push_resource<S: Sink>(out: &mut Pieces, sink: &mut S, shorts: &Shorts, resource: Resource)
    ensures { Pushes S.held S.faults out.old sink.old out.new sink.new (resource_text shorts.now (resource_seen resource.entry)) }
{
    match resource {
        Resource::Iri(iri) => push_iri(out, sink, shorts, iri),
        Resource::Blank(blank) => push_blank(out, sink, blank),
    }
}

fn push_blank<S: Sink>(out: &mut Pieces, sink: &mut S, blank: Blank)
    ensures { Pushes S.held S.faults out.old sink.old out.new sink.new (blank_text blank.0) }
{
    let mut text = ROOM;
    push_label(out, sink, blank, &mut text);
}

/// Adds the predicate that is the key of a group.
pub fn push_key<S: Sink>(out: &mut Pieces, sink: &mut S, shorts: &Shorts, key: Resource)
    ensures { Pushes S.held S.faults out.old sink.old out.new sink.new (key_text shorts.now (resource_seen key.entry)) }
{
    match key {
        Resource::Iri(iri) => push_verb(out, sink, shorts, iri),
        Resource::Blank(blank) => push_blank(out, sink, blank),
    }
}

fn push_verb<S: Sink>(out: &mut Pieces, sink: &mut S, shorts: &Shorts, predicate: &Iri)
    ensures { Pushes S.held S.faults out.old sink.old out.new sink.new (short_predicate shorts.now predicate.now) }
{
    if is_type(predicate) {
        return push(out, sink, "a");
    }
    push_iri(out, sink, shorts, predicate);
}

/// Adds an object.
pub fn push_object<S: Sink>(out: &mut Pieces, sink: &mut S, shorts: &Shorts, object: &Term)
    ensures { Pushes S.held S.faults out.old sink.old out.new sink.new (object_text shorts.now (term_seen object.now)) }
{
    match object {
        Term::Iri(iri) => push_iri(out, sink, shorts, iri),
        Term::Blank(blank) => push_blank(out, sink, *blank),
        Term::Literal(literal) => push_literal(out, sink, shorts, literal),
    }
}

/// Adds a literal: its text in quotation marks, and its language tag or datatype.
pub fn push_literal<S: Sink>(out: &mut Pieces, sink: &mut S, shorts: &Shorts, literal: &Literal)
    ensures { Pushes S.held S.faults out.old sink.old out.new sink.new
        (string_text literal.now.lexical ++ kind_suffix shorts.now (kind_seen literal.now.kind)) }
{
    push_text(out, sink, "\"", &literal.lexical);
    push(out, sink, "\"");
    push_suffix(out, sink, shorts, &literal.kind);
}

fn push_suffix<S: Sink>(out: &mut Pieces, sink: &mut S, shorts: &Shorts, kind: &LiteralKind)
    ensures { Pushes S.held S.faults out.old sink.old out.new sink.new (kind_suffix shorts.now (kind_seen kind.now)) }
{
    match kind {
        LiteralKind::Plain => {}
        LiteralKind::Tagged(tag) => push_tag(out, sink, tag),
        LiteralKind::Typed(datatype) => push_datatype(out, sink, shorts, datatype),
    }
}

fn push_tag<S: Sink>(out: &mut Pieces, sink: &mut S, tag: &Lang)
    ensures { Pushes S.held S.faults out.old sink.old out.new sink.new (codes "@" ++ tag.now) }
{
    push(out, sink, "@");
    push_lang(out, sink, tag);
}

fn push_datatype<S: Sink>(out: &mut Pieces, sink: &mut S, shorts: &Shorts, datatype: &Iri)
    ensures { Pushes S.held S.faults out.old sink.old out.new sink.new (codes "^^" ++ short_iri shorts.now datatype.now) }
{
    push(out, sink, "^^");
    push_iri(out, sink, shorts, datatype);
}
