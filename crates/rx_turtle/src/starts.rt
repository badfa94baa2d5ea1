//! The first token of a task, and what is due after it.
ghost use Rattle.std.specs.Prelude.{◌≡◌, [], ◌∷◌, IfOk};
ghost use Rattle.rx_model.specs.Seen.{term_seen};
ghost use Rattle.rx_turtle.specs.Runs.{runs};
ghost use Rattle.rx_turtle.specs.declared.keys.By.TheVariants as by;
ghost use Rattle.rx_model.specs.Terms as model;
ghost use Rattle.rx_shapes.specs.declared.shapes.Shape.TheVariants as shape;
ghost use Rattle.rx_turtle.specs.Said.{said_of};
ghost use Rattle.rx_turtle.specs.Tokens.{token_seen};
ghost use Rattle.rx_turtle.specs.Due.{BeginsDue, task_seen, Say, After, bracket_due, iri_due, node_due, term_due, opened, source_triples, shapes_of, IsSource};
ghost use Rattle.rx_turtle.specs.Groups.{lent_triples};

use crate::cells::push_cell;
use crate::due::push_lines;
use crate::said::said_of;
use crate::source::Source;
use crate::stack::{Stack, Task};
use crate::tokens::{Token, Words};
use rx_graph::Resource;
use rx_shapes::{Shape, is_nil};
use rx_terms::{Blank, Iri, NoMemory, Node, Term, Triple};

/// Gives the first token of a task, and puts the rest of it on the stack.
pub(crate) fn start<'a>(
    source: &Source<'a>,
    stack: &mut Stack<'a>,
    task: Task<'a>,
) -> Result<Token<'a>, NoMemory>
    requires { IsSource source.now }
    ensures { IfOk result (BeginsDue (opened (source_triples source.now) (shapes_of source.now) (task_seen task.entry)) stack.old stack.new) }
{
    match task {
        Task::Say(token) => Ok(token),
        Task::Object(term) => start_term(source, stack, term),
        Task::After(cell) => start_after(source, stack, cell),
    }
}

fn start_term<'a>(
    source: &Source<'a>,
    stack: &mut Stack<'a>,
    term: &'a Term,
) -> Result<Token<'a>, NoMemory>
    requires { IsSource source.now }
    ensures { IfOk result (BeginsDue (term_due (source_triples source.now) (shapes_of source.now) (term_seen term.now)) stack.old stack.new) }
{
    match term {
        Term::Iri(iri) => Ok(iri_token(iri)),
        Term::Blank(blank) => start_node(source, stack, *blank, shape_of(source, *blank)),
        Term::Literal(literal) => Ok(Token::Quoted(literal)),
    }
}

/// An IRI as an object: rdf:nil is the list of nothing.
fn iri_token<'a>(iri: &'a Iri) -> Token<'a>
    ensures { Say (token_seen result) ∷ [] ≡ iri_due iri.now }
{
    if is_nil(iri) {
        return Token::Fixed(Words::Nil);
    }
    Token::IriOrLabel(Resource::Iri(iri))
}

fn shape_of(source: &Source, blank: Blank) -> Shape
    ensures { result ≡ shapes_of source.now blank.0 }
{
    source.shapes.shape(blank)
}

/// A blank node as an object, of this shape.
fn start_node<'a>(
    source: &Source<'a>,
    stack: &mut Stack<'a>,
    blank: Blank,
    shape: Shape,
) -> Result<Token<'a>, NoMemory>
    requires { IsSource source.now }
    ensures { IfOk result (BeginsDue (node_due (source_triples source.now) shape blank.0) stack.old stack.new) }
{
    match shape {
        Shape::Labelled => Ok(Token::IriOrLabel(Resource::Blank(blank))),
        Shape::Inside => start_inside(source, stack, blank),
        Shape::Cell => start_list(source, stack, blank),
    }
}

fn start_inside<'a>(
    source: &Source<'a>,
    stack: &mut Stack<'a>,
    blank: Blank,
) -> Result<Token<'a>, NoMemory>
    requires { IsSource source.now }
    ensures { IfOk result (BeginsDue (bracket_due (said_of (source_triples source.now) (model.Blank blank.0))) stack.old stack.new) }
{
    let said = said_of(
        source.alloc,
        source.graph,
        source.shapes,
        &Node::Blank(blank),
    )?;
    let token = start_brackets(stack, &said)?;
    Ok(token)
}

/// A node of which this is said, in brackets.
fn start_brackets<'a>(stack: &mut Stack<'a>, said: &[&'a Triple]) -> Result<Token<'a>, NoMemory>
    ensures { IfOk result (BeginsDue (bracket_due (runs by.Predicate (lent_triples said.now))) stack.old stack.new) }
{
    if said.is_empty() {
        return Ok(Token::Fixed(Words::Empty));
    }
    stack.say(Words::Close)?;
    push_lines(stack, said, Words::InsideGap)?;
    Ok(Token::Fixed(Words::Open))
}

/// A list that begins with the cell.
fn start_list<'a>(
    source: &Source<'a>,
    stack: &mut Stack<'a>,
    cell: Blank,
) -> Result<Token<'a>, NoMemory>
    requires { IsSource source.now }
    ensures { IfOk result (BeginsDue (node_due (source_triples source.now) shape.Cell cell.0) stack.old stack.new) }
{
    stack.say(Words::CloseList)?;
    push_cell(source, stack, cell)?;
    Ok(Token::Fixed(Words::OpenList))
}

/// What comes after an item: this cell.
fn start_after<'a>(
    source: &Source<'a>,
    stack: &mut Stack<'a>,
    cell: Blank,
) -> Result<Token<'a>, NoMemory>
    requires { IsSource source.now }
    ensures { IfOk result (BeginsDue (opened (source_triples source.now) (shapes_of source.now) (After cell.0)) stack.old stack.new) }
{
    push_cell(source, stack, cell)?;
    Ok(Token::Fixed(Words::Space))
}
