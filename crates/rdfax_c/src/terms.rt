//! Terms as C sees them.
ghost use Rattle.std.specs.Prelude.{◌≡◌};
ghost use Rattle.rdfax_c.specs.Lent.{bytes_lent, kind_code, term_lent, quad_lent};

use rx_session::{ShownQuad, ShownTerm, TermKind};

/// Bytes that a page keeps until the next call with it.
#[repr(C)]
#[derive(Clone, Copy)]
pub struct Bytes {
    pub at: *const u8,
    pub length: usize,
}

/// A term.
#[repr(C)]
#[derive(Clone, Copy)]
pub struct LentTerm {
    /// 0 is nothing, 1 an IRI, 2 a blank node, 3 a literal.
    pub kind: u32,
    /// An IRI, a blank node's label without `_:`, or a literal's text.
    pub text: Bytes,
    /// The language tag of a literal that has one.
    pub language: Bytes,
    /// The datatype of a literal that has one other than xsd:string, and no language tag.
    pub datatype: Bytes,
}

/// The terms of a quad.
#[repr(C)]
#[derive(Clone, Copy)]
pub struct Terms {
    pub subject: LentTerm,
    pub predicate: LentTerm,
    pub object: LentTerm,
    pub graph: LentTerm,
}

/// The terms of a quad by the places of their bytes.
pub(crate) fn quad_lent(quad: &ShownQuad) -> Terms
    ensures { result ≡ quad_lent quad.now }
{
    Terms {
        subject: term_lent(&quad.subject),
        predicate: term_lent(&quad.predicate),
        object: term_lent(&quad.object),
        graph: term_lent(&quad.graph),
    }
}

fn term_lent(term: &ShownTerm) -> LentTerm
    ensures { result ≡ term_lent term.now }
{
    LentTerm {
        kind: kind_code(term.kind),
        text: bytes_lent(&term.text),
        language: bytes_lent(&term.language),
        datatype: bytes_lent(&term.datatype),
    }
}

fn bytes_lent(bytes: &Vec<u8>) -> Bytes
    ensures { result ≡ bytes_lent bytes.now }
{
    Bytes {
        at: bytes.as_ptr(),
        length: bytes.len(),
    }
}

/// The number of what a term is.
fn kind_code(kind: TermKind) -> u32
    ensures { result ≡ kind_code kind }
{
    match kind {
        TermKind::Nothing => 0,
        TermKind::Iri => 1,
        TermKind::Blank => 2,
        TermKind::Literal => 3,
    }
}
