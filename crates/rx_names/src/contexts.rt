//! The context that a page starts from.
ghost use Rattle.std.specs.Prelude.{◌≡◌, ◌<◌, length, true, IfOk, IfSome, Some, slice_get};
ghost use Rattle.rx_rdfa.specs.Common.{chars, IsIri, has_scheme, lowered, seen_slice, table_value, term};
ghost use Rattle.rx_rdfa.specs.Standard as the;
ghost use Rattle.rx_names.specs.Tables.{rise};

use crate::file_tables::FileTables;
use crate::standard;
use crate::tables::Table;
use rx_terms::NoMemory;
use std::alloc::Global;
use std::marker::Model;

/// The initial context (RDFa Core 1.1, section 9): prefixes in lower case, and terms, each with its IRI. A contract sees
/// both tables in byte order.
#[derive(Debug, Drop)]
pub struct Context {
    tables: Tables,
}

/// Where a context's tables stand.
#[derive(Debug, Drop)]
pub(crate) enum Tables {
    /// In the program, as those of the standard context, which take no memory.
    Standard,
    /// In memory, as those of a context file.
    File(FileTables),
}

impl Model for Context {
    ghost use Rattle.rx_rdfa.specs.Names.{Context as Names};
    ghost use Rattle.rx_names.specs.Contexts.{tables_seen};

    ghost Value = { Names };

    ghost view = { λ context. tables_seen context.tables };
}

impl Context {
    /// The standard context: prefixes that are in wide use, and the terms `describedby`, `license` and `role`. It takes no
    /// memory.
    pub fn standard(_alloc: Global) -> Result<Context, NoMemory>
        ensures { IfOk result (λ context. context ≡ the.standard) }
    {
        Ok(Context {
            tables: Tables::Standard,
        })
    }

    /// The context of these tables.
    pub(crate) fn of(alloc: Global, prefixes: Table, terms: Table) -> Result<Context, NoMemory>
        ensures { IfOk result (λ context. context ≡ record { prefixes = prefixes; terms = terms }) }
    {
        let tables = FileTables::of(alloc, prefixes, terms)?;
        Ok(Context {
            tables: Tables::File(tables),
        })
    }

    /// An equal context, which shares its IRIs with this one.
    pub fn try_clone(&self, alloc: Global) -> Result<Context, NoMemory>
        ensures { IfOk result (λ copy. copy ≡ self.now) }
    {
        let tables = match &self.tables {
            Tables::Standard => Tables::Standard,
            Tables::File(tables) => Tables::File(tables.try_clone(alloc)?),
        };
        Ok(Context { tables })
    }

    /// How many prefixes there are.
    pub fn prefix_count(&self) -> usize
        ensures count { result ≡ length self.now.prefixes }
        ensures in_order { rise self.now.prefixes ≡ true }
    {
        match &self.tables {
            Tables::Standard => standard::prefix_count(),
            Tables::File(tables) => tables.prefix_count(),
        }
    }

    /// A prefix and its IRI, by the prefix's place in byte order.
    pub fn prefix_at(&self, i: usize) -> (&str, &str)
        requires { i < length self.now.prefixes }
        ensures row { slice_get self.now.prefixes i ≡ Some (chars result.0.now, chars result.1.now) }
        ensures iri { IsIri (chars result.1.now) }
    {
        match &self.tables {
            Tables::Standard => standard::prefix_at(i),
            Tables::File(tables) => tables.prefix_at(i),
        }
    }

    /// The IRI of the prefix, which is compared in lower case.
    pub(crate) fn prefix(&self, name: &str) -> Option<&str>
        ensures value { seen_slice result ≡ table_value (lowered (chars name.now)) self.now.prefixes }
        ensures scheme { IfSome result (λ iri. has_scheme (chars iri.now) ≡ true) }
    {
        match &self.tables {
            Tables::Standard => standard::prefix(name),
            Tables::File(tables) => tables.prefix(name),
        }
    }

    /// The IRI of the term, or else of the first in byte order that is the term in lower case.
    pub(crate) fn term(&self, name: &str) -> Option<&str>
        ensures value { seen_slice result ≡ term self.now (chars name.now) }
        ensures scheme { IfSome result (λ iri. has_scheme (chars iri.now) ≡ true) }
    {
        match &self.tables {
            Tables::Standard => standard::term(name),
            Tables::File(tables) => tables.term(name),
        }
    }
}
