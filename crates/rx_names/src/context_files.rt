//! Context files.
ghost use Rattle.std.specs.Prelude.{◌≡◌, ◌||◌, codes, bytes_eq, [], Some, None, option_map, option_and_then, if◌then◌else◌};
ghost use Rattle.rx_terms.specs.Common.{chars, lowered, is_iri};
ghost use Rattle.serde_json.specs.View.{view, members_view};
ghost use Rattle.rx_names.specs.ContextFiles.{prefix_row, term_row, mapping_row, data_text, table_on, mapping_table, are_known, context_of_data, context_of};
ghost use Rattle.rx_names.specs.FileErrors.{FileGives};

use crate::contexts::Context;
use crate::tables::Table;
use crate::words::{is_low_line, is_nc_name, is_term};
use rx_terms::{Iri, IriError, NoMemory, Text};
use rx_words::lower;
use serde_json::{Map, Value};
use std::alloc::Global;
use thiserror::Error;

/// Why a file gives no context.
#[derive(Clone, Copy, Debug, PartialEq, Eq, Error)]
pub enum ContextError {
    /// The file isn't JSON text of the form that a context has.
    #[error("this is no context file")]
    BadContext,
    /// There was no memory.
    #[error("there was no memory")]
    NoMemory,
}

impl From<NoMemory> for ContextError {
    ghost use Rattle.rx_names.specs.declared.context_files.ContextError.{ContextError};

    ghost from_gives = { λ _ error. error ≡ ContextError.NoMemory };

    fn from(_error: NoMemory) -> ContextError {
        ContextError::NoMemory
    }
}

impl From<IriError> for ContextError {
    ghost use Rattle.rx_names.specs.FileErrors.{of_iri};

    ghost from_gives = { λ from error. error ≡ of_iri from };

    fn from(error: IriError) -> ContextError {
        match error {
            IriError::NoScheme => ContextError::BadContext,
            IriError::Forbidden => ContextError::BadContext,
            IriError::NoMemory => ContextError::NoMemory,
        }
    }
}

/// What the names of a table are.
#[derive(Clone, Copy)]
pub(crate) enum MappingKind {
    Prefix,
    Term,
}

impl Context {
    /// The context of a file: JSON text that is an object with no members but `prefixes` and `terms`, each of which may be
    /// left out and is an object of texts. Prefixes, in lower case, are distinct NCNames other than `_`, terms are terms, and
    /// each text is an IRI. `BadContext` comes exactly where the file has another form.
    pub fn of_json(alloc: Global, bytes: &[u8]) -> Result<Context, ContextError>
        ensures { FileGives result (context_of bytes.now) }
    {
        match Value::from_slice(alloc, bytes) {
            Ok(value) => Context::of_value(alloc, &value),
            Err(error) => {
                if error.is_memory() {
                    return Err(ContextError::NoMemory);
                }
                Err(ContextError::BadContext)
            }
        }
    }

    fn of_value(alloc: Global, value: &Value) -> Result<Context, ContextError>
        ensures { FileGives result (context_of_data (view value.now)) }
    {
        let Some(members) = value.as_object() else {
            return Err(ContextError::BadContext);
        };
        if !are_known(members) {
            return Err(ContextError::BadContext);
        }
        let prefixes = table_of(alloc, MappingKind::Prefix, value.get("prefixes"))?;
        let terms = table_of(alloc, MappingKind::Term, value.get("terms"))?;
        Ok(Context::of(alloc, prefixes, terms)?)
    }
}

/// Whether no member has another name than `prefixes` or `terms`.
fn are_known(members: &Map<String, Value>) -> bool
    ensures { result ≡ are_known (members_view members.now.entries) }
{
    for (name, _value) in members.iter() {
        if !is_known(name.as_str()) {
            return false;
        }
    }
    true
}

fn is_known(name: &str) -> bool
    ensures { result ≡ (bytes_eq name.now (codes "prefixes") || bytes_eq name.now (codes "terms")) }
{
    name == "prefixes" || name == "terms"
}

/// The table that the value is, which is empty where there is none.
fn table_of(alloc: Global, kind: MappingKind, value: Option<&Value>) -> Result<Table, ContextError>
    ensures { FileGives result (mapping_table kind (option_map (λ value. view value.now) value.entry)) }
{
    let Some(value) = value else {
        return Ok(Table::new(alloc));
    };
    let Some(members) = value.as_object() else {
        return Err(ContextError::BadContext);
    };
    table_of_members(alloc, kind, members)
}

fn table_of_members(
    alloc: Global,
    kind: MappingKind,
    members: &Map<String, Value>,
) -> Result<Table, ContextError>
    ensures { FileGives result (table_on kind [] (members_view members.now.entries)) }
{
    let mut table = Table::new(alloc);
    for (name, value) in members.iter() {
        let (name, iri) = row_of(alloc, kind, name.as_str(), value)?;
        let is_new = table.insert(name, iri)?;
        if !is_new {
            return Err(ContextError::BadContext);
        }
    }
    Ok(table)
}

/// The row of a member.
fn row_of(
    alloc: Global,
    kind: MappingKind,
    name: &str,
    value: &Value,
) -> Result<(Text, Iri), ContextError>
    ensures { FileGives result (option_and_then (mapping_row kind (chars name.now)) (data_text (view value.now))) }
{
    let Some(iri) = value.as_str() else {
        return Err(ContextError::BadContext);
    };
    match kind {
        MappingKind::Prefix => prefix_row(alloc, name, iri),
        MappingKind::Term => term_row(alloc, name, iri),
    }
}

fn prefix_row(alloc: Global, name: &str, iri: &str) -> Result<(Text, Iri), ContextError>
    ensures { FileGives result (prefix_row (lowered (chars name.now)) (chars iri.now)) }
{
    let name = lower(alloc, name)?;
    if !is_nc_name(name.as_str()) {
        return Err(ContextError::BadContext);
    }
    if is_low_line(name.as_str()) {
        return Err(ContextError::BadContext);
    }
    with_iri(alloc, name, iri)
}

fn term_row(alloc: Global, name: &str, iri: &str) -> Result<(Text, Iri), ContextError>
    ensures { FileGives result (term_row (chars name.now) (chars iri.now)) }
{
    if !is_term(name) {
        return Err(ContextError::BadContext);
    }
    let name = Text::of(alloc, name)?;
    with_iri(alloc, name, iri)
}

/// The name with the text, where that is an IRI.
fn with_iri(alloc: Global, name: Text, iri: &str) -> Result<(Text, Iri), ContextError>
    ensures { FileGives result (if is_iri (chars iri.now) then Some (name, chars iri.now) else None) }
{
    let iri = Iri::of(alloc, iri)?;
    Ok((name, iri))
}
