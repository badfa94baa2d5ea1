//! Opening a session by numbers and bytes, as they come from outside.
ghost use Rattle.std.specs.Prelude.{None};
ghost use Rattle.rx_session.specs.Requests.{SessionOpenGives, bytes_in, extraction_in, items_wanted, check_in};

use crate::errors::OpenError;
use crate::sessions::{Extraction, Session};
use crate::values::{context_of, first_of, graph_of, iri_of, output_of, syntax_of};
use std::alloc::Global;

/// A session for the triples of a page of this address: syntax 0 is HTML and 1 XHTML; format 0 N-Quads, 1 Turtle, 2 Turtle
/// with blank nodes and lists where they are used, 3 JSON-LD, and 4 no text, but quads that are shown one at a time. Blank
/// nodes are numbered from `first` on. The graph has a name or none, and the context is that of a file of these bytes, or
/// the standard one.
pub fn open_extraction(
    alloc: Global,
    syntax: u32,
    format: u32,
    first: u64,
    address: &[u8],
    graph: Option<&[u8]>,
    context: Option<&[u8]>,
) -> Result<Session, OpenError>
    ensures { SessionOpenGives (extraction_in syntax format first address.now (bytes_in graph.entry)) (bytes_in context.entry) result }
{
    let Some(first) = first_of(first) else {
        return Err(OpenError::Usage);
    };
    let Some(syntax) = syntax_of(syntax) else {
        return Err(OpenError::Usage);
    };
    let Some(output) = output_of(format) else {
        return Err(OpenError::Usage);
    };
    let address = match iri_of(alloc, address) {
        Ok(address) => address,
        Err(error) => return Err(error),
    };
    let graph = match graph_of(alloc, output, graph) {
        Ok(graph) => graph,
        Err(error) => {
            drop(address);
            return Err(error);
        }
    };
    let extraction = Extraction {
        syntax,
        output,
        graph,
        address,
        first,
    };
    let context = match context_of(alloc, context) {
        Ok(context) => context,
        Err(error) => {
            drop(extraction);
            return Err(error);
        }
    };
    Ok(Session::extract(alloc, extraction, context)?)
}

/// A session for the items of a page of this address, by the number of its syntax.
pub fn open_items(alloc: Global, syntax: u32, address: &[u8]) -> Result<Session, OpenError>
    ensures { SessionOpenGives (items_wanted syntax address.now) None result }
{
    let Some(syntax) = syntax_of(syntax) else {
        return Err(OpenError::Usage);
    };
    let address = match iri_of(alloc, address) {
        Ok(address) => address,
        Err(error) => return Err(error),
    };
    Ok(Session::items(alloc, syntax, address)?)
}

/// A session for the faults of a page, by the number of its syntax, under the context of a file of these bytes or the
/// standard one.
pub fn open_check(alloc: Global, syntax: u32, context: Option<&[u8]>) -> Result<Session, OpenError>
    ensures { SessionOpenGives (check_in syntax) (bytes_in context.entry) result }
{
    let Some(syntax) = syntax_of(syntax) else {
        return Err(OpenError::Usage);
    };
    let context = match context_of(alloc, context) {
        Ok(context) => context,
        Err(error) => return Err(error),
    };
    Ok(Session::check(alloc, syntax, context)?)
}
