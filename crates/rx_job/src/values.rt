//! The values of options.
ghost use Rattle.std.specs.Prelude.{◌≡◌, MatchResult, IfOk};
ghost use Rattle.rx_job.specs.Words.{syntax_of};
ghost use Rattle.rx_job.specs.Jobs.{text_in, FailsGraph, FailsIri, IsGraphName, IsIriOf};

use crate::errors::JobError;
use crate::formats::{Format, names_graphs};
use crate::words::is_word;
use rx_chars::Syntax;
use rx_terms::{Iri, IriError, NoMemory, Text};
use std::alloc::Global;

/// The text that is lent, as one of its own.
pub(crate) fn copied(text: Option<&Text>) -> Result<Option<Text>, NoMemory>
    ensures { IfOk result (λ copy. copy ≡ text_in text.entry) }
{
    match text {
        None => Ok(None),
        Some(text) => Ok(Some(text.try_clone()?)),
    }
}

/// The syntax of this name, which is HTML where none is given.
pub(crate) fn syntax_of(name: Option<&Text>) -> Option<Syntax>
    ensures { result ≡ syntax_of (text_in name.entry) }
{
    let Some(name) = name else {
        return Some(Syntax::Html);
    };
    if is_word(name, "html") {
        return Some(Syntax::Html);
    }
    if is_word(name, "xhtml") {
        return Some(Syntax::Xhtml);
    }
    None
}

/// The name of the graph, where one is given. Usage comes exactly where the format can't say it, or it is no IRI.
pub(crate) fn graph_of(
    alloc: Global,
    format: Format,
    name: Option<&Text>,
) -> Result<Option<Iri>, JobError>
    ensures { MatchResult result (IsGraphName format (text_in name.entry)) (FailsGraph format (text_in name.entry)) }
{
    let Some(name) = name else {
        return Ok(None);
    };
    if !names_graphs(format) {
        return Err(JobError::Usage);
    }
    let graph = iri_of(alloc, name)?;
    Ok(Some(graph))
}

/// The IRI that the text is. Usage comes exactly where it is none.
pub(crate) fn iri_of(alloc: Global, text: &Text) -> Result<Iri, JobError>
    ensures { MatchResult result (IsIriOf text.now) (FailsIri text.now) }
{
    match Iri::of(alloc, text.as_str()) {
        Ok(iri) => Ok(iri),
        Err(IriError::NoMemory) => Err(JobError::NoMemory),
        Err(_) => Err(JobError::Usage),
    }
}
