//! The value of `property` (RDFa Core 1.1, section 7.5, step 11; HTML+RDFa 1.1, section 3.1).
ghost use Rattle.std.specs.Prelude.{◌≡◌, IfOk, option_map, option_copied, is_some};
ghost use Rattle.rx_rdfa.specs.Common.{chars, node_seen, term_seen, resource_attribute, resource_named, datatype_literal, plain_literal, time_literal, is_time};
ghost use Rattle.rx_curie.specs.Seen.{datatype_seen, facts_seen, ref_seen, element_seen};
ghost use Rattle.rx_eval.specs.ElementResources.{found_seen};
ghost use Rattle.rx_eval.specs.Moment.{labelled};
ghost use Rattle.rx_eval.specs.TextRules.{IsTextRule, text_rule, text_literal, resource_term, resource_value, term_of, value_by, given_literal};

use crate::iris::time_datatype;
use crate::labels::Labels;
use crate::places::named;
use crate::resources::{ElementResources, has_link, linked_ref};
use rx_curie::{Datatype, ElementKind, Facts};
use rx_refs::Base;
use rx_terms::{Iri, Lang, Literal, LiteralKind, NoMemory, Node, Term, Text};
use rx_values::pattern;
use std::alloc::Global;

/// How an element's text is its value.
#[derive(Debug, Drop)]
pub enum TextRule {
    /// As a plain literal, in the language where there is one.
    Plain(Option<Lang>),
    /// As a literal of the datatype.
    Typed(Iri),
    /// As a literal of the datatype whose form the text has, else as a plain one.
    Time(Option<Lang>),
}

/// The node as a term.
pub fn node_term(node: &Node) -> Result<Term, NoMemory>
    ensures code { IfOk result (λ term. term ≡ term_of node.now) }
    ensures seen { IfOk result (λ term. term_seen term ≡ resource_term (node_seen node.now)) }
{
    match node {
        Node::Iri(iri) => Ok(Term::Iri(iri.try_clone()?)),
        Node::Blank(blank) => Ok(Term::Blank(*blank)),
    }
}

/// The node itself as a term.
pub(crate) fn into_term(node: Node) -> Term
    ensures { term_seen result ≡ resource_term (node_seen node) }
{
    match node {
        Node::Iri(iri) => Term::Iri(iri),
        Node::Blank(blank) => Term::Blank(blank),
    }
}

/// A literal without datatype, in the language where there is one.
fn plain_literal(lang: &Option<Lang>, lexical: Text) -> Result<Term, NoMemory>
    ensures { IfOk result (λ term. term_seen term ≡ plain_literal lang.now lexical) }
{
    let kind = match lang {
        Some(lang) => LiteralKind::Tagged(lang.try_clone()?),
        None => LiteralKind::Plain,
    };
    Ok(Term::Literal(Literal { lexical, kind }))
}

fn typed_literal(lexical: Text, datatype: &Iri) -> Result<Term, NoMemory>
    ensures { IfOk result (λ term. term_seen term ≡ datatype_literal lexical datatype.now) }
{
    Ok(Term::Literal(Literal::typed(lexical, datatype.try_clone()?)))
}

/// A literal of the datatype whose form the text has, else a plain one.
fn time_literal(alloc: Global, lang: &Option<Lang>, lexical: Text) -> Result<Term, NoMemory>
    ensures { IfOk result (λ term. term_seen term ≡ time_literal lang.now lexical) }
{
    match pattern(lexical.as_str()) {
        Some(kind) => {
            let datatype = time_datatype(alloc, kind)?;
            let kind = LiteralKind::Typed(datatype);
            Ok(Term::Literal(Literal { lexical, kind }))
        }
        None => plain_literal(lang, lexical),
    }
}

impl TextRule {
    /// How the text of an element is its value, where it is that.
    pub fn of(facts: &Facts) -> Result<TextRule, NoMemory>
        ensures { IfOk result (IsTextRule (facts_seen facts.now)) }
    {
        text_rule(facts)
    }

    /// The value that the text is.
    pub fn value(&self, alloc: Global, text: &str) -> Result<Term, NoMemory>
        ensures { IfOk result (λ term. term_seen term ≡ text_literal self.now (chars text.now)) }
    {
        let lexical = Text::of(alloc, text)?;
        match self {
            TextRule::Plain(lang) => plain_literal(lang, lexical),
            TextRule::Typed(datatype) => typed_literal(lexical, datatype),
            TextRule::Time(lang) => time_literal(alloc, lang, lexical),
        }
    }
}

/// How the text of an element is its value: the same, as the first of the rules that applies.
fn text_rule(facts: &Facts) -> Result<TextRule, NoMemory>
    ensures { IfOk result (λ rule. rule ≡ text_rule (facts_seen facts.now)) }
{
    match &facts.datatype {
        Some(Datatype::Is(datatype)) => Ok(TextRule::Typed(datatype.try_clone()?)),
        Some(Datatype::Empty) => Ok(TextRule::Plain(clone_lang(&facts.lang)?)),
        None => match facts.element {
            ElementKind::Time => Ok(TextRule::Time(clone_lang(&facts.lang)?)),
            _ => Ok(TextRule::Plain(clone_lang(&facts.lang)?)),
        },
    }
}

fn clone_lang(lang: &Option<Lang>) -> Result<Option<Lang>, NoMemory>
    ensures { IfOk result (λ copy. copy ≡ lang.now) }
{
    match lang {
        Some(lang) => Ok(Some(lang.try_clone()?)),
        None => Ok(None),
    }
}

/// The value by `datatype`, where it isn't the element's text.
fn value_of_datatype(facts: &Facts, datatype: &Datatype) -> Result<Option<Term>, NoMemory>
    ensures { IfOk result (λ term. option_map term_seen term ≡ given_literal (datatype_seen datatype.now) (facts_seen facts.now)) }
{
    let text = match &facts.content {
        Some(content) => content,
        None => match &facts.datetime {
            Some(datetime) => datetime,
            None => return Ok(None),
        },
    };
    let lexical = text.try_clone()?;
    match datatype {
        Datatype::Is(datatype) => Ok(Some(typed_literal(lexical, datatype)?)),
        Datatype::Empty => Ok(Some(plain_literal(&facts.lang, lexical)?)),
    }
}

/// The value of an element's property, and None where that is the element's text.
pub(crate) fn value_now(
    alloc: Global,
    base: &Base,
    labels: &Labels,
    facts: &Facts,
    found: &ElementResources,
) -> Result<Option<Term>, NoMemory>
    ensures { IfOk result (λ term. option_map term_seen term ≡ value_by (labelled labels.now) base.now (facts_seen facts.now) (found_seen found.now)) }
{
    if let Some(datatype) = &facts.datatype {
        return value_of_datatype(facts, datatype);
    }
    if let Some(content) = &facts.content {
        return Ok(Some(plain_literal(&facts.lang, content.try_clone()?)?));
    }
    if let Some(datetime) = &facts.datetime {
        return Ok(Some(time_literal(alloc, &facts.lang, datetime.try_clone()?)?));
    }
    if facts.element == ElementKind::Time {
        return Ok(None);
    }
    value_of_resource(alloc, base, labels, facts, found)
}

/// The resource that is the value, if any.
fn value_of_resource(
    alloc: Global,
    base: &Base,
    labels: &Labels,
    facts: &Facts,
    found: &ElementResources,
) -> Result<Option<Term>, NoMemory>
    ensures { IfOk result (λ term. option_map term_seen term ≡ resource_value (labelled labels.now) base.now (facts_seen facts.now) (found_seen found.now)) }
{
    if !has_link(facts) {
        if let Some(linked) = linked_ref(facts) {
            let node = named(alloc, base, labels, linked)?;
            return Ok(Some(into_term(node)));
        }
    }
    if facts.types.is_none() || facts.about.is_some() {
        return Ok(None);
    }
    match &found.typed {
        Some(typed) => Ok(Some(node_term(typed)?)),
        None => Ok(None),
    }
}
