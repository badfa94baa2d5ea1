//! The lists of one owner.
ghost use Rattle.std.specs.Prelude.{◌≡◌, ◌+◌, ◌^◌, slice_index_or, ◌∷◌, ◌++◌, ◌<◌, [], OnOk, OnErr, IfOk, IsTrue, ◌↔◌, Some, None, slice_get, length};
ghost use Rattle.rx_rdfa.specs.Common.{put, node_seen, triples_seen};
ghost use Rattle.rx_lists.specs.Cells.{cells_of, items_seen, size};
ghost use Rattle.rx_lists.specs.Rows.{FoundAt, first_slots};
ghost use Rattle.rx_lists.specs.Owners.{owned, with_slot, list_predicates, with_lists, with_term, place_of, slots_of, slots_at};

use crate::cell_iris::CellIris;
use crate::cells::push_list;
use crate::lists::Finished;
use crate::slot_rows::SlotRows;
use rx_terms::{Iri, NoMemory, Node, Term, TripleList};
use rx_unique::Unique;
use std::alloc::Global;
use std::marker::Model;

/// The lists of one owner, in order of their first slot or touch.
#[derive(Drop)]
pub(crate) struct OwnerLists {
    subject: Node,
    predicates: Unique<Iri>,
    slots: SlotRows,
}

impl Model for OwnerLists {
    ghost use Rattle.std.specs.Prelude.{◌≡◌, ◌+◌, ◌^◌, slice_index_or, length};
    ghost use Rattle.rx_lists.specs.Owners.{Owned};

    ghost Value = { Owned };

    ghost use Rattle.rx_lists.specs.Rows.{predicate_rows};

    ghost view = { λ owner. record { subject = owner.subject; lists = predicate_rows owner.predicates owner.slots } };

    ghost invariant = { λ owner. length owner.predicates ≡ length owner.slots };
}

impl OwnerLists {
    pub(crate) fn new(alloc: Global, subject: Node) -> OwnerLists
        ensures { result ≡ record { subject = subject; lists = [] } }
    {
        OwnerLists {
            subject,
            predicates: Unique::new(alloc),
            slots: SlotRows::new(alloc),
        }
    }

    /// Makes the predicate's list where it isn't there.
    pub(crate) fn touch(&mut self, predicate: &Iri) -> Result<(), NoMemory>
        ensures ok { OnOk result (self.new ≡ with_lists (put predicate.now None) self.old) }
        ensures err { OnErr result (self.new ≡ self.old) }
    {
        match self.find(predicate) {
            Some(_list) => Ok(()),
            None => self.add(predicate, false),
        }
    }

    /// Reserves the next slot of the predicate's list, which is made where it isn't there, and gives the places of the
    /// list and of the slot.
    pub(crate) fn slot(&mut self, predicate: &Iri) -> Result<(usize, usize), NoMemory>
        ensures ok { OnOk result (self.new ≡ with_lists (put predicate.now (Some None)) self.old) }
        ensures list { IfOk result (λ at. at.0 ≡ place_of predicate.now self.old.lists) }
        ensures place { IfOk result (λ at. at.1 ≡ length (slots_of predicate.now self.old.lists)) }
        ensures err { OnErr result (self.new ≡ self.old) }
    {
        match self.find(predicate) {
            Some(list) => {
                let place = self.row(list).len();
                self.grow(list)?;
                Ok((list, place))
            }
            None => {
                let list = self.len();
                self.add(predicate, true)?;
                Ok((list, 0))
            }
        }
    }

    /// Puts the term into the slot, if it is there.
    pub(crate) fn fill(&mut self, list: usize, place: usize, term: Term)
        ensures { self.new ≡ with_lists (with_term list place term) self.old }
    {
        self.slots.set(list, place, term);
    }

    /// Whether the numbers from `next_blank` on suffice for the cells, one for each slot.
    pub(crate) fn fits(&self, next_blank: u64) -> bool
        ensures { IsTrue result ↔ (next_blank + size self.now.lists < 2 ^ 64) }
    {
        let mut left = u64::MAX - next_blank;
        for list in 0..self.len() {
            let slots = self.row(list).len() as u64;
            if left < slots {
                return false;
            }
            left -= slots;
        }
        true
    }

    /// The triples of all lists, their cells numbered from `next_blank` on, and the number after the last cell's.
    pub(crate) fn finished(
        &self,
        alloc: Global,
        iris: &CellIris,
        next_blank: u64,
    ) -> Result<Finished, NoMemory>
        requires { next_blank + size self.now.lists < 2 ^ 64 }
        ensures triples { IfOk result (λ f. triples_seen f.triples ≡ cells_of next_blank (node_seen self.now.subject) (items_seen self.now.lists)) }
        ensures next { IfOk result (λ f. f.next_blank ≡ next_blank + size (items_seen self.now.lists)) }
    {
        let mut triples = TripleList::new(alloc);
        let mut next = next_blank;
        for list in 0..self.len() {
            let slots = self.row(list);
            let predicate = self.predicate(list);
            next = push_list(iris, &mut triples, &self.subject, predicate, slots, next)?;
        }
        Ok(Finished {
            triples,
            next_blank: next,
        })
    }

    /// The predicate of the list at a place.
    fn predicate(&self, list: usize) -> &Iri
        requires { list < length self.now.lists }
        ensures { result.now ≡ (slice_index_or self.now.lists list ([], [])).0 }
    {
        self.predicates.at(list)
    }

    /// How many lists there are.
    pub(crate) fn len(&self) -> usize
        ensures { result ≡ length self.now.lists }
    {
        self.slots.len()
    }

    /// The slots of the list at a place.
    pub(crate) fn row(&self, list: usize) -> &[Option<Term>]
        requires { list < length self.now.lists }
        ensures { result.now ≡ slots_at self.now.lists list }
    {
        self.slots.row(list)
    }

    /// Adds an empty slot at the end of the list at a place.
    fn grow(&mut self, list: usize) -> Result<(), NoMemory>
        requires { list < length self.old.lists }
        ensures ok { OnOk result (self.new ≡ with_lists (with_slot list) self.old) }
        ensures err { OnErr result (self.new ≡ self.old) }
    {
        self.slots.grow(list)
    }

    /// The place of the predicate's list.
    fn find(&self, predicate: &Iri) -> Option<usize>
        ensures { FoundAt predicate.now (list_predicates self.now.lists) result }
    {
        self.predicates.get_index_of(predicate)
    }

    /// Adds the list of a predicate that has none, with one empty slot or with none.
    fn add(&mut self, predicate: &Iri, with_slot: bool) -> Result<(), NoMemory>
        requires { FoundAt predicate.now (list_predicates self.old.lists) None }
        ensures ok { OnOk result (self.new ≡ owned self.old.subject (self.old.lists ++ (predicate.now, first_slots with_slot) ∷ [])) }
        ensures err { OnErr result (self.new ≡ self.old) }
    {
        let key = predicate.try_clone()?;
        add_row(&mut self.predicates, &mut self.slots, key, with_slot)
    }
}

/// Adds a new key and its row at the ends, or neither.
fn add_row(
    keys: &mut Unique<Iri>,
    rows: &mut SlotRows,
    key: Iri,
    with_slot: bool,
) -> Result<(), NoMemory>
    requires { FoundAt key keys.old None }
    ensures keys { OnOk result (keys.new ≡ keys.old ++ key ∷ []) }
    ensures rows { OnOk result (rows.new ≡ rows.old ++ first_slots with_slot ∷ []) }
    ensures same_keys { OnErr result (keys.new ≡ keys.old) }
    ensures same_rows { OnErr result (rows.new ≡ rows.old) }
{
    rows.add(with_slot)?;
    let Ok(_is_new) = keys.insert(key) else {
        rows.pop();
        return Err(NoMemory);
    };
    Ok(())
}
