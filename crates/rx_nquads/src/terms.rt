//! How terms are written. Each is written with what stands beside it in a line, so that few pieces are added. The small
//! functions are marked to be built into the loop over the lines, since each runs for every line.
ghost use Rattle.std.specs.Prelude.{◌<◌, ◌^◌, ◌++◌, codes};
ghost use Rattle.rx_model.specs.Seen.{kind_seen, node_seen, term_seen};
ghost use Rattle.rx_nquads.specs.Writing.{node_text, literal_end, term_text};
ghost use Rattle.rx_pieces.specs.Writing.{blank_text};
ghost use Rattle.rx_pieces.specs.Writable.{Pushes, WritableTag, WritableIri, WritableNode, WritableKind, WritableTerm};

use rx_pieces::{LABEL, Pieces, push, push_between, push_label, push_lang, push_text};
use rx_ports::Sink;
use rx_terms::{Blank, Iri, Lang, Literal, LiteralKind, Node, Term};

/// The room for a label that is a subject, and what stands behind it.
const SUBJECT: [u8; LABEL + 2] = *b"                        <";

/// The room for a label that is an object, and the space behind it.
const OBJECT: [u8; LABEL + 1] = [b' '; LABEL + 1];

/// Adds the subject of a line, the space behind it, and the bracket before the predicate.
#[inline(always)]
pub(crate) fn push_subject<S: Sink>(out: &mut Pieces, sink: &mut S, subject: &Node)
    ensures adds { Pushes S.held S.faults out.old sink.old out.new sink.new (node_text (node_seen subject.now) ++ codes " <") }
    ensures writable { WritableNode (node_seen subject.now) }
{
    match subject {
        Node::Iri(iri) => push_between(out, sink, "<", iri, "> <"),
        Node::Blank(blank) => {
            let mut text = SUBJECT;
            push_label(out, sink, *blank, &mut text)
        }
    }
}

/// Adds what ends a literal: the quotation mark behind its text, what it has beside the text, and a space.
#[inline(always)]
fn push_kind<S: Sink>(out: &mut Pieces, sink: &mut S, kind: &LiteralKind)
    ensures adds { Pushes S.held S.faults out.old sink.old out.new sink.new (literal_end (kind_seen kind.now)) }
    ensures writable { WritableKind (kind_seen kind.now) }
{
    match kind {
        LiteralKind::Plain => push(out, sink, "\" "),
        LiteralKind::Tagged(tag) => push_tag(out, sink, tag),
        LiteralKind::Typed(datatype) => push_datatype(out, sink, datatype),
    }
}

fn push_tag<S: Sink>(out: &mut Pieces, sink: &mut S, tag: &Lang)
    ensures adds { Pushes S.held S.faults out.old sink.old out.new sink.new (literal_end (kind_seen (LiteralKind.Tagged tag.now))) }
    ensures writable { WritableTag tag.now }
{
    push(out, sink, "\"@");
    push_lang(out, sink, tag);
    push(out, sink, " ");
}

fn push_datatype<S: Sink>(out: &mut Pieces, sink: &mut S, datatype: &Iri)
    ensures adds { Pushes S.held S.faults out.old sink.old out.new sink.new (literal_end (kind_seen (LiteralKind.Typed datatype.now))) }
    ensures writable { WritableIri datatype.now }
{
    push_between(out, sink, "\"^^<", datatype, "> ");
}

/// Adds a literal, and what stands before it behind the predicate.
#[inline(always)]
fn push_literal<S: Sink>(out: &mut Pieces, sink: &mut S, literal: &Literal)
    ensures adds { Pushes S.held S.faults out.old sink.old out.new sink.new (codes "> " ++ (term_text (term_seen (Term.Literal literal.now)) ++ codes " ")) }
    ensures writable { WritableTerm (term_seen (Term.Literal literal.now)) }
{
    push_text(out, sink, "> \"", &literal.lexical);
    push_kind(out, sink, &literal.kind);
}

/// Adds a blank node, and what stands before it behind the predicate.
#[inline(always)]
fn push_blank<S: Sink>(out: &mut Pieces, sink: &mut S, blank: Blank)
    ensures adds { Pushes S.held S.faults out.old sink.old out.new sink.new (codes "> " ++ (blank_text blank.0 ++ codes " ")) }
    ensures writable { blank.0 < 2 ^ 64 }
{
    push(out, sink, "> ");
    let mut text = OBJECT;
    push_label(out, sink, blank, &mut text);
}

/// Adds the object of a line with a space behind it, and before it the bracket behind the predicate and a space.
#[inline(always)]
pub(crate) fn push_object<S: Sink>(out: &mut Pieces, sink: &mut S, object: &Term)
    ensures adds { Pushes S.held S.faults out.old sink.old out.new sink.new (codes "> " ++ (term_text (term_seen object.now) ++ codes " ")) }
    ensures writable { WritableTerm (term_seen object.now) }
{
    match object {
        Term::Iri(iri) => push_between(out, sink, "> <", iri, "> "),
        Term::Blank(blank) => push_blank(out, sink, *blank),
        Term::Literal(literal) => push_literal(out, sink, literal),
    }
}
