//! The tables of a context file.
ghost use Rattle.std.specs.Prelude.{◌≡◌, ◌<◌, length, true, IfOk, IfSome, Some, slice_get};
ghost use Rattle.rx_rdfa.specs.Common.{chars, IsIri, has_scheme, lowered, seen_slice, table_value, term};
ghost use Rattle.rx_names.specs.Tables.{rise};

use crate::tables::Table;
use rx_terms::NoMemory;
use std::alloc::Global;
use std::marker::Model;

/// The tables of a context file: prefixes in lower case, and terms, each with its IRI. A contract sees both in byte order.
#[derive(Debug, Drop)]
pub(crate) struct FileTables {
    prefixes: Table,
    terms: Table,
    /// The terms in lower case, each with the IRI of the first that it is in lower case.
    lowered_terms: Table,
}

impl Model for FileTables {
    ghost use Rattle.std.specs.Prelude.{◌≡◌};
    ghost use Rattle.rx_rdfa.specs.Names.{Context as Names};
    ghost use Rattle.rx_names.specs.Tables.{folded};

    ghost Value = { Names };

    ghost view = { λ tables. record { prefixes = tables.prefixes; terms = tables.terms } };

    ghost invariant = { λ tables. tables.lowered_terms ≡ folded tables.terms };
}

impl FileTables {
    /// These two, with what a look-up of terms needs beside them.
    pub(crate) fn of(alloc: Global, prefixes: Table, terms: Table) -> Result<FileTables, NoMemory>
        ensures { IfOk result (λ tables. tables ≡ record { prefixes = prefixes; terms = terms }) }
    {
        let lowered_terms = terms.folded(alloc)?;
        Ok(FileTables {
            prefixes,
            terms,
            lowered_terms,
        })
    }

    /// Equal tables, which share their IRIs with these.
    pub(crate) fn try_clone(&self, alloc: Global) -> Result<FileTables, NoMemory>
        ensures { IfOk result (λ copy. copy ≡ self.now) }
    {
        Ok(FileTables {
            prefixes: self.prefixes.try_clone(alloc)?,
            terms: self.terms.try_clone(alloc)?,
            lowered_terms: self.lowered_terms.try_clone(alloc)?,
        })
    }

    /// How many prefixes there are.
    pub(crate) fn prefix_count(&self) -> usize
        ensures count { result ≡ length self.now.prefixes }
        ensures in_order { rise self.now.prefixes ≡ true }
    {
        self.prefixes.len()
    }

    /// A prefix and its IRI, by the prefix's place in byte order.
    pub(crate) fn prefix_at(&self, i: usize) -> (&str, &str)
        requires { i < length self.now.prefixes }
        ensures row { slice_get self.now.prefixes i ≡ Some (chars result.0.now, chars result.1.now) }
        ensures iri { IsIri (chars result.1.now) }
    {
        self.prefixes.at(i)
    }

    /// The IRI of the prefix, which is compared in lower case.
    pub(crate) fn prefix(&self, name: &str) -> Option<&str>
        ensures value { seen_slice result ≡ table_value (lowered (chars name.now)) self.now.prefixes }
        ensures scheme { IfSome result (λ iri. has_scheme (chars iri.now) ≡ true) }
    {
        self.prefixes.find_lowered(name)
    }

    /// The IRI of the term, or else of the first in byte order that is the term in lower case.
    pub(crate) fn term(&self, name: &str) -> Option<&str>
        ensures value { seen_slice result ≡ term self.now (chars name.now) }
        ensures scheme { IfSome result (λ iri. has_scheme (chars iri.now) ≡ true) }
    {
        match self.terms.find(name) {
            Some(iri) => Some(iri),
            None => self.lowered_terms.find_lowered(name),
        }
    }
}
