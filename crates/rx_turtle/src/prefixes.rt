//! The prefixes of a text, a line each.
ghost use Rattle.std.specs.Prelude.{◌≡◌, [], flat_map, length, if◌then◌else◌};
ghost use Rattle.rx_terms.specs.Common.{list_any, chars};
ghost use Rattle.rx_notation.specs.Layout.{prefix_text, prefixes_text};
ghost use Rattle.rx_pieces.specs.Writable.{Pushes};
ghost use Rattle.rx_turtle.specs.Uses.{chosen};

use crate::shorts::Shorts;
use rx_pieces::{Pieces, push};
use rx_ports::Sink;

/// Adds a line for each prefix that has a mark, and an empty line behind the last one.
pub fn push_prefixes<S: Sink>(out: &mut Pieces, sink: &mut S, shorts: &Shorts, marks: &[bool])
    requires { length marks.now ≡ length shorts.now }
    ensures { Pushes S.held S.faults out.old sink.old out.new sink.new (prefixes_text (chosen marks.now shorts.now)) }
{
    push_prefix_lines(out, sink, shorts, marks);
    if has_mark(marks) {
        push(out, sink, "\n");
    }
}

fn has_mark(marks: &[bool]) -> bool
    ensures { result ≡ list_any (λ mark. mark) marks.now }
{
    marks.iter().any(|mark| *mark)
}

fn push_prefix_lines<S: Sink>(out: &mut Pieces, sink: &mut S, shorts: &Shorts, marks: &[bool])
    requires { length marks.now ≡ length shorts.now }
    ensures { Pushes S.held S.faults out.old sink.old out.new sink.new (flat_map prefix_text (chosen marks.now shorts.now)) }
{
    for i in 0..marks.len() {
        let (name, iri) = shorts.at(i);
        push_marked(out, sink, marks[i], name, iri);
    }
}

/// Adds the line of a prefix, where it has a mark.
fn push_marked<S: Sink>(out: &mut Pieces, sink: &mut S, mark: bool, name: &str, iri: &str)
    ensures { Pushes S.held S.faults out.old sink.old out.new sink.new (if mark then prefix_text (chars name.now, chars iri.now) else []) }
{
    if mark {
        push_prefix(out, sink, name, iri);
    }
}

fn push_prefix<S: Sink>(out: &mut Pieces, sink: &mut S, name: &str, iri: &str)
    ensures { Pushes S.held S.faults out.old sink.old out.new sink.new (prefix_text (chars name.now, chars iri.now)) }
{
    push(out, sink, "@prefix ");
    push(out, sink, name);
    push(out, sink, ": <");
    push(out, sink, iri);
    push(out, sink, "> .\n");
}
