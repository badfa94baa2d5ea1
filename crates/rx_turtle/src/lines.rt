//! Statements, one after another.
ghost use Rattle.std.specs.Prelude.{◌≡◌, ◌==◌, ◌+◌, ◌<◌, ◌≤◌, [], drop, length, if◌then◌else◌};
ghost use Rattle.std.specs.Str.{chars};
ghost use Rattle.rx_graph.specs.Resources.{resource_seen};
ghost use Rattle.rx_pieces.specs.Writable.{Pushes};
ghost use Rattle.rx_turtle.specs.declared.keys.By.TheVariants as by;
ghost use Rattle.rx_turtle.specs.Runs.{runs, said_in};
ghost use Rattle.rx_turtle.specs.Written.{objects_text, group_text, lines_text, first_line, said_text, statements_text, first_statement, later, planned_text};
ghost use Rattle.rx_turtle.specs.Groups.{lent_triples};

use crate::cuts::cut;
use crate::keys::By;
use crate::plan::Plan;
use crate::prefixes::push_prefixes;
use crate::shorts::Shorts;
use crate::terms::{push_key, push_object, push_resource};
use rx_graph::Resource;
use rx_pieces::{Pieces, push};
use rx_ports::Sink;
use rx_terms::Triple;

/// Adds the whole text.
pub(crate) fn push_plan<S: Sink>(out: &mut Pieces, sink: &mut S, plan: &Plan)
    requires { length plan.now.marks.items ≡ length plan.now.shorts }
    ensures { Pushes S.held S.faults out.old sink.old out.new sink.new (planned_text plan.now) }
{
    push_prefixes(out, sink, &plan.shorts, &plan.marks);
    push_statements(out, sink, &plan.shorts, &plan.triples);
}

/// Adds a statement for each subject. The triples of a subject stand side by side, and of these those of a predicate. Once
/// the sink has failed, the rest isn't made.
fn push_statements<S: Sink>(out: &mut Pieces, sink: &mut S, shorts: &Shorts, triples: &[&Triple])
    ensures { Pushes S.held S.faults out.old sink.old out.new sink.new (statements_text shorts.now (runs by.Subject (lent_triples triples.now))) }
{
    let mut at = 0;
    while at < triples.len() {
        if out.has_failed() {
            return;
        }
        at = push_next_statement(out, sink, shorts, triples, at);
    }
}

/// Adds the statement that begins with the triple at this place. Gives the place behind it.
fn push_next_statement<S: Sink>(
    out: &mut Pieces,
    sink: &mut S,
    shorts: &Shorts,
    triples: &[&Triple],
    at: usize,
) -> usize
    requires { at < length triples.now }
    ensures text { Pushes S.held S.faults out.old sink.old out.new sink.new
        (first_statement shorts.now (runs by.Subject (drop at (lent_triples triples.now)))) }
    ensures next { runs by.Subject (drop result (lent_triples triples.now)) ≡ later (runs by.Subject (drop at (lent_triples triples.now))) }
    ensures more { at < result }
    ensures within { result ≤ length triples.now }
{
    let (_before, rest) = triples.split_at(at);
    let Some(part) = cut(rest, By::Subject) else {
        return triples.len();
    };
    push_statement(out, sink, shorts, part.key, part.triples);
    place_before(triples, part.rest)
}

fn push_statement<S: Sink>(
    out: &mut Pieces,
    sink: &mut S,
    shorts: &Shorts,
    subject: Resource,
    triples: &[&Triple],
)
    ensures { Pushes S.held S.faults out.old sink.old out.new sink.new
        (said_text shorts.now (said_in (resource_seen subject.entry, lent_triples triples.now))) }
{
    push_resource(out, sink, shorts, subject);
    push(out, sink, " ");
    push_lines(out, sink, shorts, triples);
    push(out, sink, " .\n");
}

/// Adds a subject's predicates with their objects.
fn push_lines<S: Sink>(out: &mut Pieces, sink: &mut S, shorts: &Shorts, triples: &[&Triple])
    ensures { Pushes S.held S.faults out.old sink.old out.new sink.new (lines_text shorts.now (runs by.Predicate (lent_triples triples.now))) }
{
    let mut at = 0;
    while at < triples.len() {
        push_unless_first(out, sink, at, " ;\n    ");
        at = push_next_line(out, sink, shorts, triples, at);
    }
}

/// Adds the predicate of the triple at this place, with its objects. Gives the place behind them.
fn push_next_line<S: Sink>(
    out: &mut Pieces,
    sink: &mut S,
    shorts: &Shorts,
    triples: &[&Triple],
    at: usize,
) -> usize
    requires { at < length triples.now }
    ensures text { Pushes S.held S.faults out.old sink.old out.new sink.new (first_line shorts.now (runs by.Predicate (drop at (lent_triples triples.now)))) }
    ensures next { runs by.Predicate (drop result (lent_triples triples.now)) ≡ later (runs by.Predicate (drop at (lent_triples triples.now))) }
    ensures more { at < result }
    ensures within { result ≤ length triples.now }
{
    let (_before, rest) = triples.split_at(at);
    let Some(part) = cut(rest, By::Predicate) else {
        return triples.len();
    };
    push_group(out, sink, shorts, part.key, part.triples);
    place_before(triples, part.rest)
}

/// The place in a list at which so many triples are left.
fn place_before(triples: &[&Triple], rest: &[&Triple]) -> usize
    requires { length rest.now ≤ length triples.now }
    ensures { result + length rest.now ≡ length triples.now }
{
    triples.len() - rest.len()
}

/// Adds the words, but before the first of some things.
fn push_unless_first<S: Sink>(out: &mut Pieces, sink: &mut S, place: usize, words: &str)
    ensures { Pushes S.held S.faults out.old sink.old out.new sink.new (if place == 0 then [] else chars words.now) }
{
    if place > 0 {
        push(out, sink, words);
    }
}

/// Adds a predicate, and the objects of its triples.
fn push_group<S: Sink>(
    out: &mut Pieces,
    sink: &mut S,
    shorts: &Shorts,
    predicate: Resource,
    triples: &[&Triple],
)
    ensures { Pushes S.held S.faults out.old sink.old out.new sink.new (group_text shorts.now (resource_seen predicate.entry, lent_triples triples.now)) }
{
    push_key(out, sink, shorts, predicate);
    push(out, sink, " ");
    push_objects(out, sink, shorts, triples);
}

fn push_objects<S: Sink>(out: &mut Pieces, sink: &mut S, shorts: &Shorts, triples: &[&Triple])
    ensures { Pushes S.held S.faults out.old sink.old out.new sink.new (objects_text shorts.now (lent_triples triples.now)) }
{
    for i in 0..triples.len() {
        push_unless_first(out, sink, i, " , ");
        push_object(out, sink, shorts, &triples[i].object);
    }
}
