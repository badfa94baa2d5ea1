//! What an element hands on to its children (RDFa Core 1.1, section 7.5).
ghost use Rattle.std.specs.Prelude.{◌≡◌, [], IfOk};

use rx_lists::Owner;
use rx_terms::{Iri, NoMemory, Node};
use std::alloc::Global;
use std::marker::Model;
use std::rc::Rc;

/// A triple that waits for the subject of an element further down (RDFa Core 1.1, section 7.5, step 10), by its
/// predicate.
#[derive(Debug, Drop)]
pub enum IncompleteTriple {
    /// From the parent subject to the subject that is to come.
    Forward(Iri),
    /// From the subject that is to come to the parent subject.
    Reverse(Iri),
    /// The subject that is to come is an item of the owner's list.
    InList(Owner, Iri),
}

/// The triples that wait, shared by those who hand them on. Where none waits, as is so at most elements, no memory is
/// taken. A contract sees the list.
#[derive(Drop)]
pub struct Hangings {
    list: Option<Rc<Vec<IncompleteTriple>>>,
}

impl Model for Hangings {
    ghost use Rattle.std.specs.Prelude.{List, option_map};
    ghost use Rattle.rx_rdfa.specs.Inherited.{listed};
    ghost use Rattle.rx_eval.specs.declared.contexts.IncompleteTriple.{IncompleteTriple};

    ghost Value = { List IncompleteTriple };

    ghost view = { λ h. listed (option_map (λ shared. shared.value.items) h.list) };
}

impl Hangings {
    /// The list where nothing waits.
    pub fn none() -> Hangings
        ensures { result ≡ [] }
    {
        Hangings { list: None }
    }

    /// The list, to be shared.
    pub fn of(alloc: Global, list: Vec<IncompleteTriple>) -> Result<Hangings, NoMemory>
        ensures { IfOk result (λ hangings. hangings ≡ list.items) }
    {
        if list.is_empty() {
            return Ok(Hangings { list: None });
        }
        let list = Rc::new(alloc, list)?;
        Ok(Hangings { list: Some(list) })
    }

    /// The same list for one more.
    pub fn share(&self) -> Result<Hangings, NoMemory>
        ensures { IfOk result (λ hangings. hangings ≡ self.now) }
    {
        match &self.list {
            Some(list) => Ok(Hangings {
                list: Some(list.clone()?),
            }),
            None => Ok(Hangings { list: None }),
        }
    }

    /// The triples that wait, in order.
    pub fn as_slice(&self) -> &[IncompleteTriple]
        ensures { result.now ≡ self.now }
    {
        match &self.list {
            Some(list) => list.as_ref().as_slice(),
            None => &[],
        }
    }
}

/// What the children of an element inherit, the evaluation context (RDFa Core 1.1, section 7.5): parent subject, parent
/// object, the triples that wait, and the owner of lists.
#[derive(Drop)]
pub struct EvaluationContext {
    pub subject: Node,
    pub object: Node,
    pub hanging: Hangings,
    pub owner: Owner,
}

impl EvaluationContext {
    /// The same context for one more, where an element is skipped.
    pub fn share(&self) -> Result<EvaluationContext, NoMemory>
        ensures { IfOk result (λ context. context ≡ self.now) }
    {
        Ok(EvaluationContext {
            subject: self.subject.try_clone()?,
            object: self.object.try_clone()?,
            hanging: self.hanging.share()?,
            owner: self.owner,
        })
    }
}
