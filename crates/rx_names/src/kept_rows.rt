//! The declarations of the open elements.
ghost use Rattle.std.specs.Prelude.{◌≡◌, [], ◌++◌, length, take, map, true, OnOk, OnErr, IfSome};
ghost use Rattle.rx_terms.specs.Common.{list_all, chars, has_scheme, lowered, seen_slice};
ghost use Rattle.rx_names.specs.Rows.{is_sound, last_of, prefix_in, vocabulary_in, language_in, flattened};
ghost use Rattle.rx_names.specs.Numbers.{row_number};

use crate::numbers::{LANGUAGE, VOCABULARY, number_of};
use crate::rows::{Declaration, Rows};
use rx_terms::NoMemory;
use rx_unique::Places;
use std::alloc::Global;
use std::marker::Model;

/// So many rows are gone through faster than a number is found.
const FEW: usize = 16;

/// The declarations of the open elements, in their order. None is looked up by going through many others. A contract sees the
/// list.
#[derive(Debug, Drop)]
pub(crate) struct KeptRows {
    rows: Vec<Declaration>,
    // of each row its number, so that a look-up goes to the rows of one number alone
    places: Places,
}

impl Model for KeptRows {
    ghost use Rattle.std.specs.Prelude.{List};
    ghost use Rattle.rx_names.specs.declared.rows.Declaration.{Declaration};
    ghost use Rattle.rx_names.specs.Numbers.{AreNumbered};

    ghost Value = { List Declaration };

    ghost view = { λ kept. kept.rows.items };

    ghost invariant = { λ kept. AreNumbered kept.rows.items kept.places };
}

impl KeptRows {
    pub(crate) fn new(alloc: Global) -> KeptRows
        ensures empty { result ≡ [] }
    {
        KeptRows {
            rows: Vec::new(alloc),
            places: Places::new(alloc),
        }
    }

    /// Adds the rows at the end.
    pub(crate) fn append(&mut self, added: Rows) -> Result<(), NoMemory>
        ensures ok { OnOk result (self.new ≡ self.old ++ added) }
        ensures err { OnErr result (self.new ≡ self.old) }
    {
        let mut rows = added.into_list();
        // most tags declare nothing
        if rows.is_empty() {
            return Ok(());
        }
        let count = self.places.len();
        push_numbers(&mut self.places, rows.as_slice())?;
        if self.rows.append(&mut rows).is_err() {
            self.places.truncate(count);
            return Err(NoMemory);
        }
        Ok(())
    }

    pub(crate) fn len(&self) -> usize
        ensures length { result ≡ length self.now }
    {
        self.rows.len()
    }

    /// What the last declaration of the prefix says.
    pub(crate) fn prefix(&self, name: &str) -> Option<&str>
        ensures last { seen_slice result ≡ last_of (prefix_in (lowered (chars name.now))) self.now }
        ensures scheme { IfSome result (λ iri. has_scheme (chars iri.now) ≡ true) }
    {
        if self.rows.len() <= FEW {
            return self.prefix_among_few(name);
        }
        self.prefix_by_number(name)
    }

    fn prefix_among_few(&self, name: &str) -> Option<&str>
        ensures last { seen_slice result ≡ last_of (prefix_in (lowered (chars name.now))) self.now }
        ensures scheme { IfSome result (λ iri. has_scheme (chars iri.now) ≡ true) }
    {
        for i in (0..self.rows.len()).rev() {
            if let Some(iri) = self.rows[i].prefix(name) {
                return Some(iri);
            }
        }
        None
    }

    fn prefix_by_number(&self, name: &str) -> Option<&str>
        ensures last { seen_slice result ≡ last_of (prefix_in (lowered (chars name.now))) self.now }
        ensures scheme { IfSome result (λ iri. has_scheme (chars iri.now) ≡ true) }
    {
        let mut next = self.places.last(number_of(name));
        while let Some(place) = next {
            if let Some(iri) = self.rows[place].prefix(name) {
                return Some(iri);
            }
            next = self.places.earlier(place);
        }
        None
    }

    /// The default vocabulary by the last declaration of one.
    pub(crate) fn vocabulary(&self) -> Option<&str>
        ensures last { seen_slice result ≡ flattened (last_of vocabulary_in self.now) }
    {
        let mut next = self.places.last(VOCABULARY);
        while let Some(place) = next {
            if let Some(vocabulary) = self.rows[place].vocabulary() {
                return vocabulary;
            }
            next = self.places.earlier(place);
        }
        None
    }

    /// The language by the last declaration of one.
    pub(crate) fn language(&self) -> Option<&str>
        ensures last { seen_slice result ≡ flattened (last_of language_in self.now) }
    {
        let mut next = self.places.last(LANGUAGE);
        while let Some(place) = next {
            if let Some(language) = self.rows[place].language() {
                return language;
            }
            next = self.places.earlier(place);
        }
        None
    }

    /// Drops all but the first rows.
    pub(crate) fn truncate(&mut self, count: usize)
        ensures front { self.new ≡ take count self.old }
    {
        if self.rows.len() <= count {
            return;
        }
        self.rows.truncate(count);
        self.places.truncate(count);
    }
}

/// Adds the numbers of the rows, or none of them.
fn push_numbers(places: &mut Places, rows: &[Declaration]) -> Result<(), NoMemory>
    requires { list_all is_sound rows.now ≡ true }
    ensures ok { OnOk result (places.new ≡ places.old ++ map row_number rows.now) }
    ensures err { OnErr result (places.new ≡ places.old) }
{
    let count = places.len();
    for row in rows {
        if places.push(row.number()).is_err() {
            places.truncate(count);
            return Err(NoMemory);
        }
    }
    Ok(())
}
