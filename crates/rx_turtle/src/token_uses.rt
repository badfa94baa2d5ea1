//! Which prefixes the tokens of a text use.
ghost use Rattle.std.specs.Prelude.{◌≡◌, [], ◌∷◌, true, IfOk, OnOk, nat_eq};
ghost use Rattle.rx_model.specs.Common.{triples_seen, distinct, same_triple};
ghost use Rattle.rx_graph.specs.Resources.{resource_seen};
ghost use Rattle.rx_pieces.specs.Writable.{WritableNode, IsWritable};
ghost use Rattle.rx_notation.specs.Layout.{iris_of_node};
ghost use Rattle.rx_notation.specs.Short.{names_rise};
ghost use Rattle.rx_turtle.specs.Nested.{iris_of_tokens, AreWritable};
ghost use Rattle.rx_turtle.specs.Tokens.{token_seen, iris_of_shown, WritableShown};
ghost use Rattle.rx_turtle.specs.Uses.{marked_all, unmarked};
ghost use Rattle.rx_turtle.specs.Verbs.{iris_of_verb};

use crate::shorts::Shorts;
use crate::tokens::Token;
use crate::uses::{mark_iri, mark_kind, mark_predicate, unmarked};
use rx_graph::{Graph, Resource};
use rx_pieces::{is_writable, is_writable_blank, is_writable_iri, is_writable_literal};
use rx_terms::NoMemory;
use std::alloc::Global;

/// For each prefix whether the tokens use it. Their IRIs are known then.
pub(crate) fn token_marks<'a>(
    alloc: Global,
    tokens: &[Token<'a>],
    shorts: &mut Shorts<'a>,
) -> Result<Vec<bool>, NoMemory>
    ensures marks { IfOk result (λ marks. marks.items ≡ marked_all shorts.old (unmarked shorts.old) (iris_of_tokens tokens.now)) }
    ensures writable { IfOk result (λ marks. AreWritable tokens.now) }
    ensures in_order { IfOk result (λ marks. names_rise shorts.old ≡ true) }
    ensures same { shorts.new ≡ shorts.old }
{
    let mut marks = unmarked(alloc, shorts)?;
    mark_tokens(&mut marks, tokens, shorts)?;
    Ok(marks)
}

fn mark_tokens<'a>(
    marks: &mut [bool],
    tokens: &[Token<'a>],
    shorts: &mut Shorts<'a>,
) -> Result<(), NoMemory>
    ensures marks { OnOk result (marks.new ≡ marked_all shorts.old marks.old (iris_of_tokens tokens.now)) }
    ensures writable { OnOk result (AreWritable tokens.now) }
    ensures same { shorts.new ≡ shorts.old }
{
    for i in 0..tokens.len() {
        let token = tokens[i];
        mark_token(marks, token, shorts)?;
        is_writable_token(token);
    }
    Ok(())
}

fn mark_token<'a>(
    marks: &mut [bool],
    token: Token<'a>,
    shorts: &mut Shorts<'a>,
) -> Result<(), NoMemory>
    ensures marks { OnOk result (marks.new ≡ marked_all shorts.old marks.old (iris_of_shown (token_seen token.entry))) }
    ensures same { shorts.new ≡ shorts.old }
{
    match token {
        Token::Fixed(_words) => Ok(()),
        Token::IriOrLabel(resource) => mark_noun(marks, resource, shorts),
        Token::Verb(resource) => mark_verb(marks, resource, shorts),
        Token::Quoted(literal) => mark_kind(marks, &literal.kind, shorts),
    }
}

fn mark_noun<'a>(
    marks: &mut [bool],
    resource: Resource<'a>,
    shorts: &mut Shorts<'a>,
) -> Result<(), NoMemory>
    ensures marks { OnOk result (marks.new ≡ marked_all shorts.old marks.old (iris_of_node (resource_seen resource.entry))) }
    ensures same { shorts.new ≡ shorts.old }
{
    match resource {
        Resource::Iri(iri) => mark_iri(marks, iri, shorts),
        Resource::Blank(_blank) => Ok(()),
    }
}

fn mark_verb<'a>(
    marks: &mut [bool],
    resource: Resource<'a>,
    shorts: &mut Shorts<'a>,
) -> Result<(), NoMemory>
    ensures marks { OnOk result (marks.new ≡ marked_all shorts.old marks.old (iris_of_verb (resource_seen resource.entry))) }
    ensures same { shorts.new ≡ shorts.old }
{
    match resource {
        Resource::Iri(iri) => mark_predicate(marks, iri, shorts),
        Resource::Blank(_blank) => Ok(()),
    }
}

/// What every graph is: its triples can be written, and each stands once.
pub(crate) fn is_graph(graph: &Graph)
    ensures writable { IsWritable (triples_seen graph.now) }
    ensures once { distinct (same_triple nat_eq) (triples_seen graph.now) ≡ triples_seen graph.now }
{
    for i in 0..graph.len() {
        is_writable(graph.at(i));
    }
}

/// What the parts of a token are.
#[inline(always)]
fn is_writable_token(token: Token)
    ensures { WritableShown (token_seen token.entry) }
{
    match token {
        Token::Fixed(_words) => {}
        Token::IriOrLabel(resource) => is_writable_resource(resource),
        Token::Verb(resource) => is_writable_resource(resource),
        Token::Quoted(literal) => is_writable_literal(literal),
    }
}

/// The same of a resource.
#[inline(always)]
fn is_writable_resource(resource: Resource)
    ensures { WritableNode (resource_seen resource.entry) }
{
    match resource {
        Resource::Iri(iri) => is_writable_iri(iri),
        Resource::Blank(blank) => is_writable_blank(blank),
    }
}
