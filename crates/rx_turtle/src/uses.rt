//! Which prefixes a text uses.
ghost use Rattle.std.specs.Prelude.{◌≡◌, ◌∷◌, [], flat_map, slice_set, true, IfOk, OnOk, OnErr};
ghost use Rattle.rx_model.specs.Seen.{kind_seen, node_seen, term_seen, triple_seen, triples_seen};
ghost use Rattle.rx_pieces.specs.Writable.{IsWritable};
ghost use Rattle.rx_notation.specs.Short.{names_rise};
ghost use Rattle.rx_notation.specs.Layout.{iris_of, iris_of_kind, iris_of_node, iris_of_predicate, iris_of_term};
ghost use Rattle.rx_turtle.specs.Uses.{marked, marked_all, unmarked, used_marks};

use crate::shorts::Shorts;
use rx_graph::Graph;
use rx_pieces::is_writable;
use rx_shapes::is_type;
use rx_terms::{Iri, LiteralKind, NoMemory, Node, Term, Triple};
use std::alloc::Global;

/// For each prefix whether the text of the graph uses it. The graph's IRIs are known then.
pub fn used_marks<'a>(
    alloc: Global,
    graph: &'a Graph,
    shorts: &mut Shorts<'a>,
) -> Result<Vec<bool>, NoMemory>
    ensures marks { IfOk result (λ marks. marks.items ≡ used_marks shorts.old (triples_seen graph.now)) }
    ensures writable { IfOk result (λ marks. IsWritable (triples_seen graph.now)) }
    ensures in_order { IfOk result (λ marks. names_rise shorts.old ≡ true) }
    ensures same { shorts.new ≡ shorts.old }
{
    let mut marks = unmarked(alloc, shorts)?;
    mark_all(&mut marks, graph, shorts)?;
    Ok(marks)
}

/// No mark, for each prefix.
pub fn unmarked(alloc: Global, shorts: &Shorts) -> Result<Vec<bool>, NoMemory>
    ensures marks { IfOk result (λ marks. marks.items ≡ unmarked shorts.now) }
    ensures in_order { IfOk result (λ marks. names_rise shorts.now ≡ true) }
{
    let mut marks = Vec::with_capacity(alloc, shorts.len())?;
    for _ in 0..shorts.len() {
        marks.push(false)?;
    }
    Ok(marks)
}

fn mark_all<'a>(
    marks: &mut [bool],
    graph: &'a Graph,
    shorts: &mut Shorts<'a>,
) -> Result<(), NoMemory>
    ensures marks { OnOk result (marks.new ≡ marked_all shorts.old marks.old (flat_map iris_of (triples_seen graph.now))) }
    ensures writable { OnOk result (IsWritable (triples_seen graph.now)) }
    ensures same { shorts.new ≡ shorts.old }
{
    for i in 0..graph.len() {
        let triple = graph.at(i);
        mark_triple(marks, triple, shorts)?;
        is_writable(triple);
    }
    Ok(())
}

fn mark_triple<'a>(
    marks: &mut [bool],
    triple: &'a Triple,
    shorts: &mut Shorts<'a>,
) -> Result<(), NoMemory>
    ensures marks { OnOk result (marks.new ≡ marked_all shorts.old marks.old (iris_of (triple_seen triple.now))) }
    ensures same { shorts.new ≡ shorts.old }
{
    mark_node(marks, &triple.subject, shorts)?;
    mark_predicate(marks, &triple.predicate, shorts)?;
    mark_term(marks, &triple.object, shorts)
}

fn mark_node<'a>(
    marks: &mut [bool],
    node: &'a Node,
    shorts: &mut Shorts<'a>,
) -> Result<(), NoMemory>
    ensures marks { OnOk result (marks.new ≡ marked_all shorts.old marks.old (iris_of_node (node_seen node.now))) }
    ensures same { shorts.new ≡ shorts.old }
{
    match node {
        Node::Iri(iri) => mark_iri(marks, iri, shorts),
        Node::Blank(_blank) => Ok(()),
    }
}

/// Marks the prefix of a predicate, unless it is written `a`.
pub fn mark_predicate<'a>(
    marks: &mut [bool],
    predicate: &'a Iri,
    shorts: &mut Shorts<'a>,
) -> Result<(), NoMemory>
    ensures marks { OnOk result (marks.new ≡ marked_all shorts.old marks.old (iris_of_predicate predicate.now)) }
    ensures stays { OnErr result (marks.new ≡ marks.old) }
    ensures same { shorts.new ≡ shorts.old }
{
    if is_type(predicate) {
        return Ok(());
    }
    mark_iri(marks, predicate, shorts)
}

fn mark_term<'a>(
    marks: &mut [bool],
    term: &'a Term,
    shorts: &mut Shorts<'a>,
) -> Result<(), NoMemory>
    ensures marks { OnOk result (marks.new ≡ marked_all shorts.old marks.old (iris_of_term (term_seen term.now))) }
    ensures same { shorts.new ≡ shorts.old }
{
    match term {
        Term::Iri(iri) => mark_iri(marks, iri, shorts),
        Term::Blank(_blank) => Ok(()),
        Term::Literal(literal) => mark_kind(marks, &literal.kind, shorts),
    }
}

/// Marks the prefix of a literal's datatype, where it is written.
pub fn mark_kind<'a>(
    marks: &mut [bool],
    kind: &'a LiteralKind,
    shorts: &mut Shorts<'a>,
) -> Result<(), NoMemory>
    ensures marks { OnOk result (marks.new ≡ marked_all shorts.old marks.old (iris_of_kind (kind_seen kind.now))) }
    ensures stays { OnErr result (marks.new ≡ marks.old) }
    ensures same { shorts.new ≡ shorts.old }
{
    match kind {
        LiteralKind::Plain => Ok(()),
        LiteralKind::Tagged(_tag) => Ok(()),
        LiteralKind::Typed(datatype) => mark_iri(marks, datatype, shorts),
    }
}

/// Marks the prefix that makes the IRI's short form, where there is one. The IRI is known then.
pub fn mark_iri<'a>(
    marks: &mut [bool],
    iri: &'a Iri,
    shorts: &mut Shorts<'a>,
) -> Result<(), NoMemory>
    ensures marks { OnOk result (marks.new ≡ marked_all shorts.old marks.old (iri.now ∷ [])) }
    ensures stays { OnErr result (marks.new ≡ marks.old) }
    ensures same { shorts.new ≡ shorts.old }
{
    let place = shorts.learn(iri)?;
    mark(marks, place);
    Ok(())
}

fn mark(marks: &mut [bool], place: Option<usize>)
    ensures { marks.new ≡ marked marks.old place }
{
    match place {
        Some(place) => mark_within(marks, place),
        None => {}
    }
}

fn mark_within(marks: &mut [bool], place: usize)
    ensures { marks.new ≡ slice_set marks.old place true }
{
    if place >= marks.len() {
        return;
    }
    marks[place] = true;
}
