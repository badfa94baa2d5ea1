//! The numbering of the blank nodes of several pages.
ghost use Rattle.std.specs.Prelude.{◌≡◌, ◌<◌, ◌+◌, [], IfOk, IsTrue, OnOk, length, nat_eq};
ghost use Rattle.rx_model.specs.Common.{with_one, with_all, blank_of_node, blank_of_term, blanks_of, place_in, rename_node, rename_term, rename, node_seen, term_seen, triple_seen};
ghost use Rattle.rx_many.specs.Numbering.{blank_numbers, number_at};

use rx_terms::{Blank, NoMemory, Node, Term, Triple};
use rx_unique::Unique;
use std::alloc::Global;
use std::marker::Model;
use std::mem;

/// The blank nodes of the page that is being written, in order of first occurrence. The number of each is its place, behind
/// the blank nodes of all pages before. A contract sees how many these have, and the list.
///
/// A page's graph mostly has the blank nodes 0, 1, 2 and so on in this order, and such ones aren't looked up.
#[derive(Drop)]
pub(crate) struct Blanks {
    before: u64,
    // the first ones of the page are 0, 1, 2 and so on up to this one
    next: u64,
    // those behind them
    others: Unique<Blank>,
}

impl Model for Blanks {
    ghost use Rattle.std.specs.Prelude.{◌++◌};
    ghost use Rattle.rx_graph.specs.Numbering.{numbers_to};
    ghost use Rattle.rx_many.specs.Numbering.{BlankNumbers, blank_numbers};

    ghost Value = { BlankNumbers };

    ghost view = { λ blanks. record { before = blanks.before; here = numbers_to blanks.next ++ blank_numbers blanks.others } };
}

impl Blanks {
    pub(crate) fn new(alloc: Global) -> Blanks
        ensures before { result.before ≡ 0 }
        ensures here { result.here ≡ [] }
    {
        Blanks {
            before: 0,
            next: 0,
            others: Unique::new(alloc),
        }
    }

    /// Goes on to the next page. So many blank nodes that 64 bits can't number them have no room in any memory.
    pub(crate) fn turn(&mut self, alloc: Global) -> Result<(), NoMemory>
        ensures before { OnOk result (self.new.before ≡ self.old.before + length self.old.here) }
        ensures here { OnOk result (self.new.here ≡ []) }
    {
        let Some(here) = self.next.checked_add(self.others.len() as u64) else {
            return Err(NoMemory);
        };
        let Some(before) = self.before.checked_add(here) else {
            return Err(NoMemory);
        };
        self.before = before;
        self.next = 0;
        drop(mem::replace(&mut self.others, Unique::new(alloc)));
        Ok(())
    }

    /// The triple of the page, with their numbers in place of its blank nodes. Those that are new come after those that were
    /// seen.
    pub(crate) fn numbered(&mut self, triple: &Triple) -> Result<Triple, NoMemory>
        ensures before { OnOk result (self.new.before ≡ self.old.before) }
        ensures known { OnOk result (self.new.here ≡ with_all nat_eq self.old.here (blanks_of (triple_seen triple.now))) }
        ensures renamed { IfOk result (λ numbered. triple_seen numbered ≡ rename (number_at self.new) (triple_seen triple.now)) }
    {
        let subject = self.numbered_node(&triple.subject)?;
        let object = self.numbered_term(&triple.object)?;
        let predicate = triple.predicate.try_clone()?;
        Ok(Triple {
            subject,
            predicate,
            object,
        })
    }

    fn numbered_node(&mut self, node: &Node) -> Result<Node, NoMemory>
        ensures before { OnOk result (self.new.before ≡ self.old.before) }
        ensures known { OnOk result (self.new.here ≡ with_all nat_eq self.old.here (blank_of_node (node_seen node.now))) }
        ensures renamed { IfOk result (λ named. node_seen named ≡ rename_node (number_at self.new) (node_seen node.now)) }
    {
        match node {
            Node::Iri(iri) => Ok(Node::Iri(iri.try_clone()?)),
            Node::Blank(blank) => Ok(Node::Blank(self.number(*blank)?)),
        }
    }

    fn numbered_term(&mut self, term: &Term) -> Result<Term, NoMemory>
        ensures before { OnOk result (self.new.before ≡ self.old.before) }
        ensures known { OnOk result (self.new.here ≡ with_all nat_eq self.old.here (blank_of_term (term_seen term.now))) }
        ensures renamed { IfOk result (λ named. term_seen named ≡ rename_term (number_at self.new) (term_seen term.now)) }
    {
        match term {
            Term::Iri(iri) => Ok(Term::Iri(iri.try_clone()?)),
            Term::Blank(blank) => Ok(Term::Blank(self.number(*blank)?)),
            Term::Literal(literal) => Ok(Term::Literal(literal.try_clone()?)),
        }
    }

    fn number(&mut self, blank: Blank) -> Result<Blank, NoMemory>
        ensures before { OnOk result (self.new.before ≡ self.old.before) }
        ensures known { OnOk result (self.new.here ≡ with_one nat_eq self.old.here blank.0) }
        ensures number { IfOk result (λ number. number.0 ≡ number_at self.new blank.0) }
    {
        let place = self.place(blank)?;
        let Some(number) = self.before.checked_add(place) else {
            return Err(NoMemory);
        };
        Ok(Blank(number))
    }

    /// The place of the blank node among those of the page.
    fn place(&mut self, blank: Blank) -> Result<u64, NoMemory>
        ensures before { OnOk result (self.new.before ≡ self.old.before) }
        ensures known { OnOk result (self.new.here ≡ with_one nat_eq self.old.here blank.0) }
        ensures place { IfOk result (λ place. place ≡ place_in nat_eq self.new.here blank.0) }
    {
        if blank.0 < self.next {
            return Ok(blank.0);
        }
        if is_next(blank, self.next, &self.others) {
            self.next += 1;
            return Ok(blank.0);
        }
        Ok(place_behind(self.next, &mut self.others, blank)?)
    }
}

/// Whether the blank node has this number, and no other one stands behind those with the numbers before it.
fn is_next(blank: Blank, next: u64, others: &Unique<Blank>) -> bool
    ensures next { IsTrue result → blank.0 ≡ next }
    ensures none { IsTrue result → length others.now ≡ 0 }
    ensures room { IsTrue result → next < 18446744073709551615 }
{
    blank.0 == next && others.len() == 0 && next < u64::MAX
}

/// The place of the blank node among the others, of which the first one has the place `next`.
fn place_behind(next: u64, others: &mut Unique<Blank>, blank: Blank) -> Result<u64, NoMemory>
    ensures known { OnOk result (blank_numbers others.new ≡ with_one nat_eq (blank_numbers others.old) blank.0) }
    ensures place { IfOk result (λ place. place ≡ next + place_in nat_eq (blank_numbers others.new) blank.0) }
{
    let (place, _is_new) = others.insert_full(blank)?;
    let Some(behind) = next.checked_add(place as u64) else {
        return Err(NoMemory);
    };
    Ok(behind)
}
