//! What is said of a node, as tasks. What comes last is put on the stack first.
ghost use Rattle.std.specs.Prelude.{◌≡◌, ◌+◌, ◌-◌, ◌<◌, ◌++◌, length, OnOk, Some, slice_get};
ghost use Rattle.rx_model.specs.Seen.{triple_seen};
ghost use Rattle.rx_graph.specs.Resources.{resource_seen};
ghost use Rattle.rx_turtle.specs.Groups.{grouped, lent_triples};
ghost use Rattle.rx_turtle.specs.Runs.{runs};
ghost use Rattle.rx_turtle.specs.declared.keys.By.TheVariants as by;
ghost use Rattle.rx_turtle.specs.Due.{lines_due, statement_due, verb_due, behind_due, next_due, first_due};

use crate::arranging::by_predicate;
use crate::stack::{Stack, Task};
use crate::tokens::{Token, Words};
use rx_graph::Resource;
use rx_terms::{NoMemory, Triple};
use std::alloc::Global;

/// A subject, and what its triples say of it.
pub(crate) fn push_statement<'a>(
    alloc: Global,
    stack: &mut Stack<'a>,
    subject: Resource<'a>,
    triples: &[&'a Triple],
) -> Result<(), NoMemory>
    ensures { OnOk result (stack.new ≡ statement_due (resource_seen subject.entry) (grouped by.Predicate (lent_triples triples.now)) ++ stack.old) }
{
    let said = by_predicate(alloc, triples)?;
    push_said(stack, subject, &said)?;
    Ok(())
}

fn push_said<'a>(
    stack: &mut Stack<'a>,
    subject: Resource<'a>,
    said: &[&'a Triple],
) -> Result<(), NoMemory>
    ensures { OnOk result (stack.new ≡ statement_due (resource_seen subject.entry) (runs by.Predicate (lent_triples said.now)) ++ stack.old) }
{
    stack.say(Words::End)?;
    push_lines(stack, said, Words::LineGap)?;
    stack.say(Words::Space)?;
    stack.push(Task::Say(Token::IriOrLabel(subject)))?;
    Ok(())
}

/// Predicates with their objects, and these words between them. Triples of one predicate stand side by side.
pub(crate) fn push_lines<'a>(
    stack: &mut Stack<'a>,
    said: &[&'a Triple],
    gap: Words,
) -> Result<(), NoMemory>
    ensures { OnOk result (stack.new ≡ lines_due gap (runs by.Predicate (lent_triples said.now)) ++ stack.old) }
{
    for i in (0..count_before(said)).rev() {
        push_next(stack, said, i, gap)?;
    }
    push_first(stack, said)?;
    Ok(())
}

/// How many triples have another behind them.
fn count_before(said: &[&Triple]) -> usize
    ensures { result ≡ length said.now - 1 }
{
    said.len().saturating_sub(1)
}

/// The object of the triple behind the one at this place, and what stands before it.
fn push_next<'a>(
    stack: &mut Stack<'a>,
    said: &[&'a Triple],
    place: usize,
    gap: Words,
) -> Result<(), NoMemory>
    requires { place + 1 < length said.now }
    ensures { OnOk result (stack.new ≡ next_due gap place (lent_triples said.now) ++ stack.old) }
{
    push_behind(stack, one_at(said, place), one_at(said, place + 1), gap)
}

fn one_at<'a>(said: &[&'a Triple], place: usize) -> &'a Triple
    requires { place < length said.now }
    ensures { slice_get (lent_triples said.now) place ≡ Some (triple_seen result.now) }
{
    said[place]
}

fn push_behind<'a>(
    stack: &mut Stack<'a>,
    before: &Triple,
    triple: &'a Triple,
    gap: Words,
) -> Result<(), NoMemory>
    ensures { OnOk result (stack.new ≡ behind_due gap (triple_seen before.now) (triple_seen triple.now) ++ stack.old) }
{
    stack.push(Task::Object(&triple.object))?;
    if before.predicate == triple.predicate {
        return stack.say(Words::Comma);
    }
    push_verb(stack, triple)?;
    stack.say(gap)
}

fn push_verb<'a>(stack: &mut Stack<'a>, triple: &'a Triple) -> Result<(), NoMemory>
    ensures { OnOk result (stack.new ≡ verb_due (triple_seen triple.now) ++ stack.old) }
{
    stack.say(Words::Space)?;
    stack.push(Task::Say(Token::Verb(Resource::Iri(&triple.predicate))))
}

/// The predicate and object of the first triple.
fn push_first<'a>(stack: &mut Stack<'a>, said: &[&'a Triple]) -> Result<(), NoMemory>
    ensures { OnOk result (stack.new ≡ first_due (lent_triples said.now) ++ stack.old) }
{
    if said.is_empty() {
        return Ok(());
    }
    let triple = said[0];
    stack.push(Task::Object(&triple.object))?;
    push_verb(stack, triple)
}
