//! Numbers and bytes from outside, as what they stand for.
ghost use Rattle.std.specs.Prelude.{◌≡◌, MatchResult, Some, false};
ghost use Rattle.rx_session.specs.Requests.{first_in, numbered_syntax, output_in, iri_in, graph_in, bytes_in, FailsOpen, ContextFileGives};
ghost use Rattle.rx_session.specs.Wants.{may_name_graph};

use crate::errors::OpenError;
use crate::outputs::Output;
use rx_chars::Syntax;
use rx_job::{Format, names_graphs};
use rx_names::{Context, ContextError};
use rx_terms::{Iri, IriError};
use std::alloc::Global;

/// The largest number of a first blank node, so that what is added to it stays within 64 bits.
const LARGEST_FIRST: u64 = 0x8000_0000_0000_0000;

/// The number of the first blank node, where it isn't too large.
pub(crate) fn first_of(number: u64) -> Option<u64>
    ensures { result ≡ first_in number }
{
    if number > LARGEST_FIRST {
        return None;
    }
    Some(number)
}

/// The syntax of this number.
pub(crate) fn syntax_of(number: u32) -> Option<Syntax>
    ensures { result ≡ numbered_syntax number }
{
    match number {
        0 => Some(Syntax::Html),
        1 => Some(Syntax::Xhtml),
        _ => None,
    }
}

/// How triples are handed over, by the number of a format, or by 4 quad by quad.
pub(crate) fn output_of(number: u32) -> Option<Output>
    ensures { result ≡ output_in number }
{
    match number {
        0 => Some(Output::Text(Format::Nquads)),
        1 => Some(Output::Text(Format::Turtle)),
        2 => Some(Output::Text(Format::Nested)),
        3 => Some(Output::Text(Format::Jsonld)),
        4 => Some(Output::Quads),
        _ => None,
    }
}

/// The IRI that the bytes are. Usage comes exactly where they are none.
pub(crate) fn iri_of(alloc: Global, bytes: &[u8]) -> Result<Iri, OpenError>
    ensures { MatchResult result (λ iri. iri_in bytes.now ≡ Some iri) (FailsOpen (iri_in bytes.now)) }
{
    let Ok(text) = str::from_utf8(bytes) else {
        return Err(OpenError::Usage);
    };
    match Iri::of(alloc, text) {
        Ok(iri) => Ok(iri),
        Err(IriError::NoMemory) => Err(OpenError::NoMemory),
        Err(IriError::NoScheme) => Err(OpenError::Usage),
        Err(IriError::Forbidden) => Err(OpenError::Usage),
    }
}

/// The name of the graph, where one is given. Usage comes exactly where it can't be said, or it is no IRI.
pub(crate) fn graph_of(
    alloc: Global,
    output: Output,
    name: Option<&[u8]>,
) -> Result<Option<Iri>, OpenError>
    ensures { MatchResult result (λ graph. graph_in output (bytes_in name.entry) ≡ Some graph) (FailsOpen (graph_in output (bytes_in name.entry))) }
{
    let Some(name) = name else {
        return Ok(None);
    };
    if !may_be_named(output) {
        return Err(OpenError::Usage);
    }
    match iri_of(alloc, name) {
        Ok(graph) => Ok(Some(graph)),
        Err(error) => Err(error),
    }
}

/// Whether the graph of what is handed over may have a name.
fn may_be_named(output: Output) -> bool
    ensures { result ≡ may_name_graph output }
{
    match output {
        Output::Text(format) => names_graphs(format),
        Output::Quads => true,
    }
}

/// The context that holds: that of the file, where its bytes are given, else the standard one.
pub(crate) fn context_of(alloc: Global, file: Option<&[u8]>) -> Result<Context, OpenError>
    ensures { ContextFileGives (bytes_in file.entry) result }
{
    let Some(file) = file else {
        return Ok(Context::standard(alloc)?);
    };
    match rx_page::context_of(alloc, file) {
        Ok(context) => Ok(context),
        Err(ContextError::BadContext) => Err(OpenError::BadContext),
        Err(ContextError::NoMemory) => Err(OpenError::NoMemory),
    }
}
