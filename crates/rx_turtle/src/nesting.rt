//! The tokens of a graph in which blank nodes are written where they are used, as far as their shapes allow.
ghost use Rattle.std.specs.Prelude.{◌≡◌, [], IfOk, OnOk};
ghost use Rattle.rx_graph.specs.Resources.{resource_seen};
ghost use Rattle.rx_shapes.specs.Table.{shape_in};
ghost use Rattle.rx_notation.specs.Nesting.{is_top, is_top_by};
ghost use Rattle.rx_turtle.specs.Groups.{grouped, lent_triples};
ghost use Rattle.rx_turtle.specs.declared.keys.By.TheVariants as by;
ghost use Rattle.rx_turtle.specs.Due.{source_triples, IsSource, AreCells, Comes, AddsStatement, AreGraphTokens, IsSubject};

use crate::due::push_statement;
use crate::groups::Groups;
use crate::keys::By;
use crate::lent::borrowed;
use crate::source::Source;
use crate::stack::Stack;
use crate::starts::start;
use crate::tokens::Token;
use rx_graph::Resource;
use rx_shapes::{Shape, Shapes};
use rx_terms::{NoMemory, Triple};

/// The tokens of the graph's statements. Time and memory are those of the graph's length.
pub fn tokens_of<'a>(source: &Source<'a>) -> Result<Vec<Token<'a>>, NoMemory>
    requires { IsSource source.now }
    ensures { IfOk result (λ tokens. AreGraphTokens source.now tokens.items) }
{
    let triples = borrowed(source.alloc, source.graph)?;
    let subjects = Groups::of(source.alloc, &triples, By::Subject)?;
    Ok(tokens_about(source, &subjects)?)
}

/// The tokens of the statements about the subjects, which are those of the graph with their triples.
fn tokens_about<'a>(source: &Source<'a>, subjects: &Groups<'a>) -> Result<Vec<Token<'a>>, NoMemory>
    requires source { IsSource source.now }
    requires subjects { subjects.now ≡ grouped by.Subject (source_triples source.now) }
    ensures { IfOk result (λ tokens. AreGraphTokens source.now tokens.items) }
{
    let mut stack = Stack::new(source.alloc);
    let mut tokens = Vec::with_capacity(source.alloc, source.graph.len())?;
    for i in 0..subjects.len() {
        let (subject, triples) = subjects.at(i);
        state(source, subject, triples, &mut stack, &mut tokens)?;
    }
    Ok(tokens)
}

/// Adds the tokens of the subject's statement, where it has one.
fn state<'a>(
    source: &Source<'a>,
    subject: Resource<'a>,
    triples: &[&'a Triple],
    stack: &mut Stack<'a>,
    tokens: &mut Vec<Token<'a>>,
) -> Result<(), NoMemory>
    requires source { IsSource source.now }
    requires subject { IsSubject (source_triples source.now) (resource_seen subject) (lent_triples triples.now) }
    requires stack { stack.old ≡ [] }
    ensures says { OnOk result (AddsStatement source.now (resource_seen subject.entry) tokens.old.items tokens.new.items) }
    ensures stack { OnOk result (stack.new ≡ []) }
{
    if !is_top(source.shapes, subject) {
        return Ok(());
    }
    push_statement(source.alloc, stack, subject, triples)?;
    run(source, stack, tokens)?;
    Ok(())
}

fn is_top(shapes: &Shapes, subject: Resource) -> bool
    ensures { result ≡ is_top (shape_in shapes.now) (resource_seen subject.entry) }
{
    match subject {
        Resource::Iri(_iri) => true,
        Resource::Blank(blank) => is_labelled(shapes.shape(blank)),
    }
}

fn is_labelled(shape: Shape) -> bool
    ensures { result ≡ is_top_by shape }
{
    match shape {
        Shape::Labelled => true,
        Shape::Inside => false,
        Shape::Cell => false,
    }
}

/// Gives the tokens of all that is due.
fn run<'a>(
    source: &Source<'a>,
    stack: &mut Stack<'a>,
    tokens: &mut Vec<Token<'a>>,
) -> Result<(), NoMemory>
    requires source { IsSource source.now }
    requires cells { AreCells (source_triples source.now) stack.old }
    ensures comes { OnOk result (Comes source.now stack.old tokens.old.items tokens.new.items) }
    ensures stack { OnOk result (stack.new ≡ []) }
{
    while let Some(task) = stack.pop() {
        let token = start(source, stack, task)?;
        tokens.push(token)?;
    }
    Ok(())
}
