//! The lists of all owners that aren't finished.
ghost use Rattle.std.specs.Prelude.{◌≡◌, slice_get, ◌-◌, ◌+◌, ◌<◌, ◌^◌, [], ◌∷◌, ◌++◌, length, true, not, OnOk, OnErr, IfOk, IsTrue, ◌↔◌, Some, None, slice_set};
ghost use Rattle.rx_rdfa.specs.Common.{triples_seen, put};
ghost use Rattle.rx_lists.specs.Cells.{finished_cells, items_seen, size};
ghost use Rattle.rx_lists.specs.Owners.{is_finished, forgotten, owned, changed, lists_of, open_at, trimmed_tail, with_term};
ghost use Rattle.rx_lists.specs.SlotIds.{slot_in};

use crate::cell_iris::CellIris;
use crate::owner_lists::OwnerLists;
use rx_terms::{Iri, NoMemory, Node, Term, TripleList};
use std::alloc::Global;
use std::marker::Model;

/// Who owns lists, by number.
#[derive(Clone, Copy, Debug, PartialEq, Eq)]
pub struct Owner(pub usize);

/// A reserved place in a list: the owner, and the places of the list among the owner's and of the slot in the list.
#[derive(Clone, Copy, Debug, PartialEq, Eq)]
pub struct SlotId {
    pub owner: Owner,
    pub list: usize,
    pub place: usize,
}

/// The triples of an owner's lists, and the number after that of the last cell.
#[derive(Debug, Drop)]
pub struct Finished {
    pub triples: TripleList,
    pub next_blank: u64,
}

/// The owners of lists that aren't finished, each with its lists and their slots. A contract sees them by their numbers.
/// An owner that is finished keeps no memory.
#[derive(Drop)]
pub struct Lists {
    alloc: Global,
    iris: CellIris,
    owners: Vec<Option<OwnerLists>>,
}

impl Model for Lists {
    ghost use Rattle.std.specs.Prelude.{List, Option};
    ghost use Rattle.rx_lists.specs.Owners.{Owned};

    ghost Value = { List (Option Owned) };

    ghost view = { λ lists. lists.owners.items };
}

impl Lists {
    /// No owner.
    pub fn new(alloc: Global) -> Result<Lists, NoMemory>
        ensures { IfOk result (λ lists. lists ≡ []) }
    {
        let iris = CellIris::new(alloc)?;
        Ok(Lists {
            alloc,
            iris,
            owners: Vec::new(alloc),
        })
    }

    /// A new owner without lists, whose lists will have the subject.
    pub fn start(&mut self, subject: Node) -> Result<Owner, NoMemory>
        ensures ok { OnOk result (self.new ≡ self.old ++ Some (owned subject []) ∷ []) }
        ensures owner { IfOk result (λ owner. owner.0 ≡ length self.old) }
        ensures err { OnErr result (self.new ≡ self.old) }
    {
        let number = self.owners.len();
        let owner = OwnerLists::new(self.alloc, subject);
        // Not by `?`: with its conversion of the error this isn't compiled into the caller.
        let Ok(()) = self.owners.push(Some(owner)) else {
            return Err(NoMemory);
        };
        Ok(Owner(number))
    }

    /// Makes the owner's list of the predicate where it isn't there. Nothing is done for an owner that is finished.
    pub fn touch(&mut self, owner: Owner, predicate: &Iri) -> Result<(), NoMemory>
        ensures ok { OnOk result (self.new ≡ changed (put predicate.now None) self.old owner.0) }
        ensures err { OnErr result (self.new ≡ self.old) }
    {
        if owner.0 >= self.owners.len() {
            return Ok(());
        }
        match &mut self.owners[owner.0] {
            Some(lists) => lists.touch(predicate),
            None => Ok(()),
        }
    }

    /// Reserves the next place of the owner's list of the predicate, which is made where it isn't there. An owner that
    /// is finished has no place to reserve.
    pub fn slot(&mut self, owner: Owner, predicate: &Iri) -> Result<SlotId, NoMemory>
        ensures ok { OnOk result (self.new ≡ changed (put predicate.now (Some None)) self.old owner.0) }
        ensures slot { IfOk result (λ slot. slot ≡ slot_in owner predicate.now (lists_of (open_at self.old owner.0))) }
        ensures err { OnErr result (self.new ≡ self.old) }
    {
        if owner.0 >= self.owners.len() {
            return Ok(no_slot(owner));
        }
        match &mut self.owners[owner.0] {
            Some(lists) => {
                let (list, place) = lists.slot(predicate)?;
                Ok(SlotId { owner, list, place })
            }
            None => Ok(no_slot(owner)),
        }
    }

    /// Puts the term into a slot. Nothing is done for a slot that isn't there.
    pub fn fill(&mut self, slot: SlotId, value: Term)
        ensures { self.new ≡ changed (with_term slot.list slot.place value) self.old slot.owner.0 }
    {
        if slot.owner.0 >= self.owners.len() {
            return;
        }
        match &mut self.owners[slot.owner.0] {
            Some(lists) => lists.fill(slot.list, slot.place, value),
            None => {}
        }
    }

    /// Whether the numbers from `next_blank` on suffice for the cells of the owner's lists, one for each slot.
    pub fn fits(&self, owner: Owner, next_blank: u64) -> bool
        ensures { IsTrue result ↔ (next_blank + size (lists_of (open_at self.now owner.0)) < 2 ^ 64) }
    {
        if owner.0 >= self.owners.len() {
            return true;
        }
        match &self.owners[owner.0] {
            Some(lists) => lists.fits(next_blank),
            None => true,
        }
    }

    /// The triples of the owner's lists: of each its head and its cells (RDF Schema 1.1, section 5.2), numbered in the
    /// order of the slots from `next_blank` on. A slot that is still empty has no cell. The owner is forgotten.
    pub fn finish(&mut self, owner: Owner, next_blank: u64) -> Result<Finished, NoMemory>
        requires { next_blank + size (lists_of (open_at self.old owner.0)) < 2 ^ 64 }
        ensures ok { OnOk result (self.new ≡ forgotten self.old owner.0) }
        ensures triples { IfOk result (λ f. triples_seen f.triples ≡ finished_cells next_blank (open_at self.old owner.0)) }
        ensures next { IfOk result (λ f. f.next_blank ≡ next_blank + size (items_seen (lists_of (open_at self.old owner.0)))) }
        ensures err { OnErr result (self.new ≡ self.old) }
    {
        let finished = self.finished(owner, next_blank)?;
        drop_owner(&mut self.owners, owner.0);
        trim(&mut self.owners);
        Ok(finished)
    }

    /// Whether no finished owner is the last: then it is known which number the next one gets.
    pub fn ends_open(&self) -> bool
        ensures open { result ≡ not (is_finished (slice_get self.now (length self.now - 1))) }
        ensures trimmed { result ≡ true → trimmed_tail self.now ≡ self.now }
    {
        !is_last_finished(&self.owners)
    }

    fn finished(&self, owner: Owner, next_blank: u64) -> Result<Finished, NoMemory>
        requires { next_blank + size (lists_of (open_at self.now owner.0)) < 2 ^ 64 }
        ensures triples { IfOk result (λ f. triples_seen f.triples ≡ finished_cells next_blank (open_at self.now owner.0)) }
        ensures next { IfOk result (λ f. f.next_blank ≡ next_blank + size (items_seen (lists_of (open_at self.now owner.0)))) }
    {
        if owner.0 >= self.owners.len() {
            return Ok(nothing(self.alloc, next_blank));
        }
        match &self.owners[owner.0] {
            Some(lists) => lists.finished(self.alloc, &self.iris, next_blank),
            None => Ok(nothing(self.alloc, next_blank)),
        }
    }
}

/// The place of a finished owner's slot, which is none.
fn no_slot(owner: Owner) -> SlotId
    ensures { result ≡ record { owner = owner; list = 0; place = 0 } }
{
    SlotId {
        owner,
        list: 0,
        place: 0,
    }
}

fn nothing(alloc: Global, next_blank: u64) -> Finished
    ensures triples { result.triples ≡ [] }
    ensures next { result.next_blank ≡ next_blank }
{
    Finished {
        triples: TripleList::new(alloc),
        next_blank,
    }
}

/// Drops an owner. It is mostly the last one, which is dropped where it lies, with no empty one written over it.
fn drop_owner(owners: &mut Vec<Option<OwnerLists>>, number: usize)
    ensures { trimmed_tail owners.new.items ≡ trimmed_tail (slice_set owners.old.items number None) }
{
    if number >= owners.len() {
        return;
    }
    if number + 1 == owners.len() {
        owners.truncate(number);
        return;
    }
    owners[number] = None;
}

/// Drops the finished owners at the end.
fn trim(owners: &mut Vec<Option<OwnerLists>>)
    ensures { owners.new.items ≡ trimmed_tail owners.old.items }
{
    while is_last_finished(owners) {
        owners.pop();
    }
}

fn is_last_finished(owners: &Vec<Option<OwnerLists>>) -> bool
    ensures { result ≡ is_finished (slice_get owners.now.items (length owners.now.items - 1)) }
{
    match owners.last() {
        Some(owner) => owner.is_none(),
        None => false,
    }
}
