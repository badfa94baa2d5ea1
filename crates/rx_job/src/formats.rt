//! The forms in which triples are written.
ghost use Rattle.std.specs.Prelude.{◌≡◌};
ghost use Rattle.rx_job.specs.Words.{format_of, names_graphs};
ghost use Rattle.rx_job.specs.Jobs.{text_in};

use crate::words::is_word;
use rx_terms::Text;

/// A form in which triples are written.
#[derive(Clone, Copy, Debug)]
pub enum Format {
    /// RDF 1.1 N-Quads.
    Nquads,
    /// RDF 1.1 Turtle, each subject by itself.
    Turtle,
    /// RDF 1.1 Turtle, with blank nodes and lists where they are used.
    Nested,
    /// JSON-LD 1.1, expanded and flattened.
    Jsonld,
}

/// The format of this name, which is N-Quads where none is given.
pub(crate) fn format_of(name: Option<&Text>) -> Option<Format>
    ensures { result ≡ format_of (text_in name.entry) }
{
    let Some(name) = name else {
        return Some(Format::Nquads);
    };
    if is_word(name, "nquads") {
        return Some(Format::Nquads);
    }
    if is_word(name, "turtle") {
        return Some(Format::Turtle);
    }
    if is_word(name, "nested") {
        return Some(Format::Nested);
    }
    if is_word(name, "jsonld") {
        return Some(Format::Jsonld);
    }
    None
}

/// Whether a text in the format can name the graph in which its triples stand.
pub fn names_graphs(format: Format) -> bool
    ensures { result ≡ names_graphs format }
{
    match format {
        Format::Nquads => true,
        Format::Turtle => false,
        Format::Nested => false,
        Format::Jsonld => false,
    }
}
