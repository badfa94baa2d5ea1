//! Triples in groups.
ghost use Rattle.std.specs.Prelude.{◌≡◌, ◌<◌, [], ◌∷◌, ◌++◌, true, length, map, nat_eq, IfOk, OnOk, Some, slice_get};
ghost use Rattle.rx_model.specs.Common.{with_one, same_node, triple_seen};
ghost use Rattle.rx_graph.specs.Resources.{resource_seen, number_in, AreDistinct};
ghost use Rattle.rx_turtle.specs.Groups.{Keyed, group_keys, grouped, put_in, taken_in, lent_triples};

use crate::hints::Hints;
use crate::keys::{By, are_same, key_of};
use rx_graph::{Nodes, Resource};
use rx_terms::{NoMemory, Triple};
use std::alloc::Global;
use std::marker::Model;

/// Triples that have one subject or one predicate, and which.
#[derive(Drop)]
struct Group<'a> {
    key: Resource<'a>,
    triples: Vec<&'a Triple>,
}

/// Groups in order of first occurrence. A contract sees the list, each group with its key.
#[derive(Drop)]
pub struct Groups<'a> {
    groups: Vec<Group<'a>>,
}

impl<'a> Model for Groups<'a> {
    ghost use Rattle.std.specs.Prelude.{List, map};
    ghost use Rattle.rx_turtle.specs.Groups.{Keyed, group_seen};

    ghost Value = { List Keyed };

    ghost view = { λ groups. map group_seen groups.groups.items };
}

impl<'a> Groups<'a> {
    /// The groups of the triples. The time is that of their number.
    pub fn of(alloc: Global, triples: &[&'a Triple], by: By) -> Result<Groups<'a>, NoMemory>
        ensures { IfOk result (λ groups. groups ≡ grouped by (lent_triples triples.now)) }
    {
        let mut groups = Groups::none(alloc);
        let mut keys = Nodes::new(alloc);
        let mut hints = Hints::new(alloc, triples.len(), by)?;
        for i in 0..triples.len() {
            let triple = triples[i];
            let key = key_of(triple, by);
            let place = groups.take(alloc, &mut keys, triple, by, hints.place(key))?;
            hints.keep(key, place);
        }
        Ok(groups)
    }

    fn none(alloc: Global) -> Groups<'a>
        ensures { result ≡ [] }
    {
        Groups {
            groups: Vec::new(alloc),
        }
    }

    /// Adds the triple to the group of its key, which is made where there is none, and gives that group's place. Where that
    /// is the place of the hint, the key isn't looked up.
    fn take(
        &mut self,
        alloc: Global,
        keys: &mut Nodes<'a>,
        triple: &'a Triple,
        by: By,
        hint: usize,
    ) -> Result<usize, NoMemory>
        requires keys { keys.old ≡ group_keys self.old }
        requires once { AreDistinct (group_keys self.old) }
        ensures taken { OnOk result (self.new ≡ taken_in by self.old (triple_seen triple.now)) }
        ensures keys { OnOk result (keys.new ≡ group_keys self.new) }
    {
        let key = key_of(triple, by);
        if self.is_at(hint, key) {
            self.put_within(hint, triple)?;
            return Ok(hint);
        }
        match keys.number(key) {
            Some(place) => self.take_known(triple, place),
            None => self.take_new(alloc, keys, key, triple),
        }
    }

    fn take_known(&mut self, triple: &'a Triple, place: usize) -> Result<usize, NoMemory>
        ensures { OnOk result (self.new ≡ put_in self.old place (triple_seen triple.now)) }
    {
        self.put_within(place, triple)?;
        Ok(place)
    }

    fn take_new(
        &mut self,
        alloc: Global,
        keys: &mut Nodes<'a>,
        key: Resource<'a>,
        triple: &'a Triple,
    ) -> Result<usize, NoMemory>
        ensures taken { OnOk result (self.new ≡ self.old ++ (resource_seen key.entry, triple_seen triple.now ∷ []) ∷ []) }
        ensures keys { OnOk result (keys.new ≡ with_one (same_node nat_eq) keys.old (resource_seen key.entry)) }
    {
        let place = self.len();
        keys.add(key)?;
        self.add(alloc, key)?;
        self.put_within(place, triple)?;
        Ok(place)
    }

    /// Whether the group at this place has the key.
    fn is_at(&self, place: usize, key: Resource) -> bool
        ensures { result ≡ true → AreDistinct (group_keys self.now) → number_in (group_keys self.now) (resource_seen key.entry) ≡ Some place }
    {
        if place >= self.len() {
            return false;
        }
        self.has_key(place, key)
    }

    /// Whether the group has this key.
    fn has_key(&self, place: usize, key: Resource) -> bool
        requires { place < length self.now }
        ensures { (found : Keyed) → slice_get self.now place ≡ Some found → result ≡ same_node nat_eq found.0 (resource_seen key.entry) }
    {
        let (found, _triples) = self.at(place);
        are_same(found, key)
    }

    /// Adds a group of no triples.
    fn add(&mut self, alloc: Global, key: Resource<'a>) -> Result<(), NoMemory>
        ensures { OnOk result (self.new ≡ self.old ++ (resource_seen key.entry, []) ∷ []) }
    {
        let group = Group {
            key,
            triples: Vec::new(alloc),
        };
        self.groups.push(group)?;
        Ok(())
    }

    fn put_within(&mut self, place: usize, triple: &'a Triple) -> Result<(), NoMemory>
        ensures { OnOk result (self.new ≡ put_in self.old place (triple_seen triple.now)) }
    {
        if place >= self.len() {
            return Ok(());
        }
        self.put(place, triple)
    }

    fn put(&mut self, place: usize, triple: &'a Triple) -> Result<(), NoMemory>
        requires { place < length self.old }
        ensures { OnOk result (self.new ≡ put_in self.old place (triple_seen triple.now)) }
    {
        if self.groups[place].triples.push(triple).is_err() {
            return Err(NoMemory);
        }
        Ok(())
    }

    /// How many groups there are.
    pub fn len(&self) -> usize
        ensures { result ≡ length self.now }
    {
        self.groups.as_slice().len()
    }

    /// The key of a group, and its triples.
    pub fn at(&self, place: usize) -> (Resource<'a>, &[&'a Triple])
        requires { place < length self.now }
        ensures { slice_get self.now place ≡ Some (resource_seen result.0, lent_triples result.1.now) }
    {
        let group = &self.groups[place];
        (group.key, group.triples.as_slice())
    }
}
