//! Tables from names to IRIs.
ghost use Rattle.std.specs.Prelude.{◌≡◌, ◌<◌, [], length, true, OnOk, OnErr, IfOk, IfSome, MatchOption, Some, slice_get, is_some, unwrap_or};
ghost use Rattle.rx_rdfa.specs.Common.{slice_cmp, nat_cmp, chars, IsIri, has_scheme, Chars, lowered, seen_slice, table_value};
ghost use Rattle.rx_names.specs.Tables.{byte_order, rise, row_put, folded, IsThere, IsGap};

use rx_terms::{Iri, NoMemory, Text};
use rx_words::lower;
use std::alloc::Global;
use std::cmp::Ordering;
use std::marker::Model;

/// A name and the IRI that it stands for.
#[derive(Debug, Drop)]
pub struct Mapping {
    name: Text,
    iri: Iri,
}

/// A table in byte order of the names, each of which stands there once. A contract sees the list.
#[derive(Debug, Drop)]
pub(crate) struct Table {
    rows: Vec<Mapping>,
}

impl Model for Table {
    ghost use Rattle.std.specs.Prelude.{◌≡◌, true, map};
    ghost use Rattle.rx_rdfa.specs.Names.{Table as Names};
    ghost use Rattle.rx_names.specs.Tables.{rise};

    ghost Value = { Names };

    ghost view = { λ table. map (λ row. (row.name, row.iri)) table.rows.items };

    ghost invariant = { λ table. rise (map (λ row. (row.name, row.iri)) table.rows.items) ≡ true };
}

impl Table {
    pub(crate) fn new(alloc: Global) -> Table
        ensures empty { result ≡ [] }
    {
        Table {
            rows: Vec::new(alloc),
        }
    }

    pub(crate) fn len(&self) -> usize
        ensures length { result ≡ length self.now }
        ensures in_order { rise self.now ≡ true }
    {
        self.rows.len()
    }

    /// The row at a place, from 0.
    pub(crate) fn at(&self, i: usize) -> (&str, &str)
        requires { i < length self.now }
        ensures row { slice_get self.now i ≡ Some (chars result.0.now, chars result.1.now) }
        ensures iri { IsIri (chars result.1.now) }
    {
        let row = &self.rows[i];
        (row.name.as_str(), row.iri.as_str())
    }

    /// Puts a row in its place, and answers whether that was done: where the name stands there already, nothing changes.
    pub(crate) fn insert(&mut self, name: Text, iri: Iri) -> Result<bool, NoMemory>
        ensures added { IfOk result (λ added. added ≡ is_some (row_put (name, iri) self.old)) }
        ensures ok { OnOk result (self.new ≡ unwrap_or (row_put (name, iri) self.old) self.old) }
        ensures err { OnErr result (self.new ≡ self.old) }
    {
        let Some(gap) = self.gap(name.as_str()) else {
            return Ok(false);
        };
        if self.rows.insert(gap, Mapping { name, iri }).is_err() {
            return Err(NoMemory);
        }
        Ok(true)
    }

    /// An equal table, which shares its IRIs with this one.
    pub(crate) fn try_clone(&self, alloc: Global) -> Result<Table, NoMemory>
        ensures { IfOk result (λ copy. copy ≡ self.now) }
    {
        let rows = copied(alloc, self.rows.as_slice())?;
        Ok(Table { rows })
    }

    /// The table in lower case, each name with the IRI of the first that it is in lower case.
    pub(crate) fn folded(&self, alloc: Global) -> Result<Table, NoMemory>
        ensures { IfOk result (λ table. table ≡ folded self.now) }
    {
        let mut table = Table::new(alloc);
        for row in &self.rows {
            let name = lower(alloc, row.name.as_str())?;
            let iri = row.iri.try_clone()?;
            table.insert(name, iri)?;
        }
        Ok(table)
    }

    /// Where the name would stand, or `None` exactly where it stands there already.
    fn gap(&self, name: &str) -> Option<usize>
        ensures { MatchOption result (IsThere (chars name.now) self.now) (IsGap (chars name.now) self.now) }
    {
        match self
            .rows
            .binary_search_by(|row| compare(row.name.as_str(), name))
        {
            Ok(_at) => None,
            Err(gap) => Some(gap),
        }
    }

    /// The IRI of the name.
    pub(crate) fn find(&self, name: &str) -> Option<&str>
        ensures value { seen_slice result ≡ table_value (chars name.now) self.now }
        ensures scheme { IfSome result (λ iri. has_scheme (chars iri.now) ≡ true) }
    {
        match self
            .rows
            .binary_search_by(|row| compare(row.name.as_str(), name))
        {
            Ok(at) => Some(self.rows[at].iri.as_str()),
            Err(_gap) => None,
        }
    }

    /// The IRI of the name in lower case.
    pub(crate) fn find_lowered(&self, name: &str) -> Option<&str>
        ensures value { seen_slice result ≡ table_value (lowered (chars name.now)) self.now }
        ensures scheme { IfSome result (λ iri. has_scheme (chars iri.now) ≡ true) }
    {
        match self
            .rows
            .binary_search_by(|row| compare_lowered(row.name.as_str(), name))
        {
            Ok(at) => Some(self.rows[at].iri.as_str()),
            Err(_gap) => None,
        }
    }
}

/// The rows once more, which share their IRIs with these.
fn copied(alloc: Global, rows: &[Mapping]) -> Result<Vec<Mapping>, NoMemory>
    ensures { IfOk result (λ copy. copy.items ≡ rows.now) }
{
    let mut copy = Vec::new(alloc);
    for row in rows {
        let name = row.name.try_clone()?;
        let iri = row.iri.try_clone()?;
        copy.push(Mapping { name, iri })?;
    }
    Ok(copy)
}

/// How the text stands to the name, in byte order.
fn compare(text: &str, name: &str) -> Ordering
    ensures { result ≡ slice_cmp nat_cmp text.now name.now }
{
    text.cmp(name)
}

/// How the text stands to the name in lower case, in byte order.
pub(crate) fn compare_lowered(text: &str, name: &str) -> Ordering
    ensures { result ≡ byte_order (chars text.now) (lowered (chars name.now)) }
{
    text.bytes()
        .cmp(name.bytes().map(|b| b.to_ascii_lowercase()))
}
