//! Texts, IRIs and language tags as they stand. The small functions are marked to be built into the loops of the writers,
//! since each runs for every triple.
ghost use Rattle.std.specs.Prelude.{◌++◌};
ghost use Rattle.std.specs.Str.{chars};
ghost use Rattle.rx_pieces.specs.Writable.{Pushes, WritableIri, WritableTag};

use crate::pieces::Pieces;
use rx_ports::Sink;
use rx_terms::{Iri, Lang};

/// Adds the characters of a text.
#[inline(always)]
pub fn push<S: Sink>(out: &mut Pieces, sink: &mut S, text: &str)
    ensures { Pushes S.held S.faults out.old sink.old out.new sink.new (chars text.now) }
{
    out.add(sink, text.as_bytes());
}

/// Adds the characters of an IRI without the brackets around it.
#[inline(always)]
pub fn push_iri<S: Sink>(out: &mut Pieces, sink: &mut S, iri: &Iri)
    ensures adds { Pushes S.held S.faults out.old sink.old out.new sink.new iri.now }
    ensures writable { WritableIri iri.now }
{
    push(out, sink, iri.as_str());
}

/// Adds an IRI between two words, which have its brackets and what stands beside them.
#[inline(always)]
pub fn push_between<S: Sink>(out: &mut Pieces, sink: &mut S, front: &str, iri: &Iri, behind: &str)
    ensures adds { Pushes S.held S.faults out.old sink.old out.new sink.new (chars front.now ++ (iri.now ++ chars behind.now)) }
    ensures writable { WritableIri iri.now }
{
    push(out, sink, front);
    push_iri(out, sink, iri);
    push(out, sink, behind);
}

/// Adds the characters of a language tag without the `@` before it.
#[inline(always)]
pub fn push_lang<S: Sink>(out: &mut Pieces, sink: &mut S, tag: &Lang)
    ensures adds { Pushes S.held S.faults out.old sink.old out.new sink.new tag.now }
    ensures writable { WritableTag tag.now }
{
    push(out, sink, tag.as_str());
}
