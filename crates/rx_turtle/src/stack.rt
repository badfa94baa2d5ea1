//! What is due: a stack of tasks, so that nodes may nest as deep as they like.
ghost use Rattle.std.specs.Prelude.{◌≡◌, ◌==◌, [], ◌∷◌, ◌++◌, OnOk, MatchOption, if◌then◌else◌};
ghost use Rattle.rx_turtle.specs.Tokens.{Fixed};
ghost use Rattle.rx_turtle.specs.Due.{task_seen, Say};

use crate::tokens::{Token, Words};
use rx_terms::{Blank, NoMemory, Term};
use std::alloc::Global;
use std::marker::Model;

/// What is still to be written: a token, an object, or what comes after an item of a collection, which is this cell.
#[derive(Clone, Copy)]
pub(crate) enum Task<'a> {
    Say(Token<'a>),
    Object(&'a Term),
    After(Blank),
}

/// Tasks, of which the last one is due first. A contract sees what is due, the first one first.
#[derive(Drop)]
pub(crate) struct Stack<'a> {
    tasks: Vec<Task<'a>>,
}

impl<'a> Model for Stack<'a> {
    ghost use Rattle.std.specs.Prelude.{List};
    ghost use Rattle.rx_turtle.specs.Due.{Due, due_on};

    ghost Value = { List Due };

    ghost view = { λ stack. due_on stack.tasks.items };
}

impl<'a> Stack<'a> {
    /// Nothing is due.
    pub(crate) fn new(alloc: Global) -> Stack<'a>
        ensures { result ≡ [] }
    {
        Stack {
            tasks: Vec::new(alloc),
        }
    }

    /// Adds a task that comes before all others.
    pub(crate) fn push(&mut self, task: Task<'a>) -> Result<(), NoMemory>
        ensures { OnOk result (self.new ≡ task_seen task.entry ∷ self.old) }
    {
        self.tasks.push(task)?;
        Ok(())
    }

    /// Adds words that come before all else.
    pub(crate) fn say(&mut self, words: Words) -> Result<(), NoMemory>
        ensures { OnOk result (self.new ≡ Say (Fixed words) ∷ self.old) }
    {
        self.push(Task::Say(Token::Fixed(words)))
    }

    /// The same, but before the first of some things.
    pub(crate) fn say_unless_first(&mut self, place: usize, words: Words) -> Result<(), NoMemory>
        ensures { OnOk result (self.new ≡ (if place == 0 then [] else Say (Fixed words) ∷ []) ++ self.old) }
    {
        if place == 0 {
            return Ok(());
        }
        self.say(words)
    }

    /// Takes the task that is due first.
    pub(crate) fn pop(&mut self) -> Option<Task<'a>>
        ensures { MatchOption result ((self.old ≡ []) × (self.new ≡ [])) (λ task. self.old ≡ task_seen task ∷ self.new) }
    {
        if self.tasks.as_slice().is_empty() {
            return None;
        }
        self.tasks.pop()
    }
}
