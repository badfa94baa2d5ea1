//! The terms of a quad as bytes.
ghost use Rattle.std.specs.Prelude.{◌≡◌, ◌++◌, IfOk, OnOk, codes, string_bytes};
ghost use Rattle.rx_model.specs.Common.{decimal, kind_seen, node_seen, term_seen, triple_seen};
ghost use Rattle.rx_nquads.specs.Graphs.{lent_name};
ghost use Rattle.rx_nquads.specs.Quads.{proper_kind, proper_term, quad_of};
ghost use Rattle.rx_quads.specs.Shown.{plain_bytes, iri_bytes, label_bytes, node_bytes, datatype_bytes, literal_bytes, term_bytes, graph_node, graph_name_bytes, quad_bytes, shown_term, shown_quad};

use rx_terms::{Iri, Literal, LiteralKind, NoMemory, Node, Term, Triple};
use std::alloc::Global;

/// What a term is.
#[derive(Clone, Copy, Debug, PartialEq, Eq)]
pub enum TermKind {
    /// There is none: the name of the default graph.
    Nothing,
    Iri,
    Blank,
    Literal,
}

/// A term as bytes.
#[derive(Drop)]
pub struct ShownTerm {
    pub kind: TermKind,
    /// An IRI, a blank node's label without `_:`, or a literal's text, in UTF-8.
    pub text: Vec<u8>,
    /// The language tag of a literal that has one.
    pub language: Vec<u8>,
    /// The datatype of a literal that has one other than xsd:string, and no language tag.
    pub datatype: Vec<u8>,
}

/// The terms of a quad as bytes.
#[derive(Drop)]
pub struct ShownQuad {
    pub subject: ShownTerm,
    pub predicate: ShownTerm,
    pub object: ShownTerm,
    pub graph: ShownTerm,
}

const XSD_STRING: &str = "http://www.w3.org/2001/XMLSchema#string";

impl ShownQuad {
    /// No term.
    pub(crate) fn none(alloc: Global) -> ShownQuad {
        ShownQuad {
            subject: ShownTerm::none(alloc),
            predicate: ShownTerm::none(alloc),
            object: ShownTerm::none(alloc),
            graph: ShownTerm::none(alloc),
        }
    }

    /// Puts the terms of the triple, in the graph of this name, in the place of those that were there.
    pub(crate) fn put(
        &mut self,
        alloc: Global,
        triple: &Triple,
        name: Option<&Iri>,
    ) -> Result<(), NoMemory>
        ensures { OnOk result (shown_quad self.new ≡ quad_bytes (quad_of (lent_name name.entry) (triple_seen triple.now))) }
    {
        self.subject.put_node(alloc, &triple.subject)?;
        self.predicate.put_iri(&triple.predicate)?;
        self.object.put_term(alloc, &triple.object)?;
        self.graph.put_name(name)?;
        Ok(())
    }
}

impl ShownTerm {
    fn none(alloc: Global) -> ShownTerm {
        ShownTerm {
            kind: TermKind::Nothing,
            text: Vec::new(alloc),
            language: Vec::new(alloc),
            datatype: Vec::new(alloc),
        }
    }

    fn put_name(&mut self, name: Option<&Iri>) -> Result<(), NoMemory>
        ensures { OnOk result (shown_term self.new ≡ graph_name_bytes (graph_node (lent_name name.entry))) }
    {
        match name {
            None => self.put(TermKind::Nothing, b""),
            Some(iri) => self.put_iri(iri),
        }
    }

    fn put_node(&mut self, alloc: Global, node: &Node) -> Result<(), NoMemory>
        ensures { OnOk result (shown_term self.new ≡ node_bytes (node_seen node.now)) }
    {
        match node {
            Node::Iri(iri) => self.put_iri(iri),
            Node::Blank(blank) => self.put_blank(alloc, blank.0),
        }
    }

    fn put_term(&mut self, alloc: Global, term: &Term) -> Result<(), NoMemory>
        ensures { OnOk result (shown_term self.new ≡ term_bytes (proper_term (term_seen term.now))) }
    {
        match term {
            Term::Iri(iri) => self.put_iri(iri),
            Term::Blank(blank) => self.put_blank(alloc, blank.0),
            Term::Literal(literal) => self.put_literal(literal),
        }
    }

    fn put_iri(&mut self, iri: &Iri) -> Result<(), NoMemory>
        ensures { OnOk result (shown_term self.new ≡ iri_bytes iri.now) }
    {
        self.put(TermKind::Iri, iri.as_str().as_bytes())
    }

    fn put_blank(&mut self, alloc: Global, number: u64) -> Result<(), NoMemory>
        ensures { OnOk result (shown_term self.new ≡ label_bytes number) }
    {
        let label = label_of(alloc, number)?;
        let done = self.put(TermKind::Blank, label.as_bytes());
        drop(label);
        done
    }

    fn put_literal(&mut self, literal: &Literal) -> Result<(), NoMemory>
        ensures { OnOk result (shown_term self.new ≡ literal_bytes literal.now.lexical (proper_kind (kind_seen literal.now.kind))) }
    {
        self.put(TermKind::Literal, literal.lexical.as_str().as_bytes())?;
        match &literal.kind {
            LiteralKind::Plain => Ok(()),
            LiteralKind::Tagged(lang) => refill(&mut self.language, lang.as_str().as_bytes()),
            LiteralKind::Typed(datatype) => refill(&mut self.datatype, bytes_of_datatype(datatype)),
        }
    }

    /// A term of this kind and text, with nothing beside it.
    fn put(&mut self, kind: TermKind, text: &[u8]) -> Result<(), NoMemory>
        ensures { OnOk result (shown_term self.new ≡ plain_bytes kind text.now) }
    {
        self.kind = kind;
        self.language.clear();
        self.datatype.clear();
        refill(&mut self.text, text)
    }
}

/// The datatype's bytes, and none where it is xsd:string.
fn bytes_of_datatype(datatype: &Iri) -> &[u8]
    ensures { result.now ≡ datatype_bytes datatype.now }
{
    if datatype.as_str() == XSD_STRING {
        return &[];
    }
    datatype.as_str().as_bytes()
}

/// The label of a blank node without `_:`.
fn label_of(alloc: Global, number: u64) -> Result<String, NoMemory>
    ensures { IfOk result (λ label. string_bytes label ≡ codes "b" ++ decimal number) }
{
    Ok(format!(in alloc; "b{number}")?)
}

/// Puts the bytes in the place of those that were there.
fn refill(room: &mut Vec<u8>, bytes: &[u8]) -> Result<(), NoMemory>
    ensures { OnOk result (room.new.items ≡ bytes.now) }
{
    room.clear();
    room.extend_from_slice(bytes)?;
    Ok(())
}
