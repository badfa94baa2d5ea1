//! The cells of a collection.
ghost use Rattle.std.specs.Prelude.{◌≡◌, ◌++◌, OnOk, option_map};
ghost use Rattle.rx_model.specs.Seen.{term_seen};
ghost use Rattle.rx_turtle.specs.Due.{item_due, rest_due, cell_due, source_triples, IsSource};

use crate::source::Source;
use crate::stack::{Stack, Task};
use crate::tokens::Words;
use rx_shapes::{CellPart, object_of};
use rx_terms::{Blank, NoMemory, Node, Term};

/// A cell: its item, and what comes after it.
pub(crate) fn push_cell<'a>(
    source: &Source<'a>,
    stack: &mut Stack<'a>,
    cell: Blank,
) -> Result<(), NoMemory>
    requires { IsSource source.now }
    ensures { OnOk result (stack.new ≡ cell_due (source_triples source.now) cell.0 ++ stack.old) }
{
    let node = Node::Blank(cell);
    let places = source.shapes.places(&node);
    push_rest(stack, object_of(source.graph, places, CellPart::Rest))?;
    push_item(stack, object_of(source.graph, places, CellPart::Item))?;
    Ok(())
}

fn push_rest<'a>(stack: &mut Stack<'a>, rest: Option<&'a Term>) -> Result<(), NoMemory>
    ensures { OnOk result (stack.new ≡ rest_due (option_map (λ o. term_seen o.now) rest.entry) ++ stack.old) }
{
    match rest {
        None => Ok(()),
        Some(Term::Blank(cell)) => stack.push(Task::After(*cell)),
        Some(Term::Iri(_iri)) => Ok(()),
        Some(Term::Literal(_literal)) => Ok(()),
    }
}

fn push_item<'a>(stack: &mut Stack<'a>, item: Option<&'a Term>) -> Result<(), NoMemory>
    ensures { OnOk result (stack.new ≡ item_due (option_map (λ o. term_seen o.now) item.entry) ++ stack.old) }
{
    match item {
        None => stack.say(Words::Empty),
        Some(term) => stack.push(Task::Object(term)),
    }
}
