//! The triples of an element's start, in the order of the steps.
ghost use Rattle.std.specs.Prelude.{◌≡◌, ◌∷◌, [], OnOk, IfOk, option_map};
ghost use Rattle.rx_rdfa.specs.Common.{node_seen, term_seen, listed, resources, start_of};
ghost use Rattle.rx_curie.specs.Seen.{facts_seen, ref_seen, refs_seen};
ghost use Rattle.rx_eval.specs.ElementResources.{found_seen};
ghost use Rattle.rx_eval.specs.TextRules.{resource_term};
ghost use Rattle.rx_lists.specs.Appends.{Appends};
ghost use Rattle.rx_eval.specs.Places.{naming, ruled};
ghost use Rattle.rx_eval.specs.Starts.{vocabulary_by, types_of, properties_of, links_of, values_of, found_by, start_here, value_here, typing_triple};

use crate::iris::OwnIris;
use crate::places::{Surroundings, named};
use crate::resources::ElementResources;
use crate::triples::{push_completed, push_each};
use crate::values::{into_term, node_term, value_now};
use rx_curie::{Facts, Ref, TypeList};
use rx_refs::Base;
use rx_terms::{Iri, Iris, NoMemory, Node, Term, Triple, TripleList};

/// What the start of an element finds: its resources, and the value of its property where that isn't its text.
#[derive(Drop)]
pub struct Started {
    pub found: ElementResources,
    pub value: Option<Term>,
}

/// Adds the vocabulary that the element uses.
fn push_vocabulary(
    out: &mut TripleList,
    iris: &OwnIris,
    base: &Base,
    vocab: &Option<Iri>,
) -> Result<(), NoMemory>
    ensures { OnOk result (Appends out.old out.new (vocabulary_by base.now vocab.now)) }
{
    match vocab {
        Some(vocab) => out.push(Triple {
            subject: Node::Iri(base.iri().try_clone()?),
            predicate: iris.uses_vocabulary().try_clone()?,
            object: Term::Iri(vocab.try_clone()?),
        }),
        None => Ok(()),
    }
}

/// Adds the subject's triples with the object, one for each predicate of an attribute, if it is there.
fn push_all(
    out: &mut TripleList,
    subject: &Node,
    predicates: &Option<Iris>,
    object: &Term,
) -> Result<(), NoMemory>
    ensures { OnOk result (Appends out.old out.new (properties_of (node_seen subject.now) predicates.now (term_seen object.now))) }
{
    match predicates {
        Some(predicates) => push_each(out, subject, predicates, object.try_clone()?),
        None => Ok(()),
    }
}

/// The same where the object is a node.
fn push_all_linked(
    out: &mut TripleList,
    subject: &Node,
    predicates: &Option<Iris>,
    object: &Node,
) -> Result<(), NoMemory>
    ensures { OnOk result (Appends out.old out.new (properties_of (node_seen subject.now) predicates.now (resource_term (node_seen object.now)))) }
{
    match predicates {
        Some(predicates) => push_each(out, subject, predicates, node_term(object)?),
        None => Ok(()),
    }
}

/// Adds the links of an element with an object: those of `rel` where they are no lists, and those of `rev`.
fn push_links(
    out: &mut TripleList,
    facts: &Facts,
    subject: &Node,
    object: &Node,
) -> Result<(), NoMemory>
    ensures { OnOk result (Appends out.old out.new (links_of (facts_seen facts.now) (node_seen subject.now) (node_seen object.now))) }
{
    if !facts.inlist {
        push_all_linked(out, subject, &facts.rel, object)?;
    }
    push_all_linked(out, object, &facts.rev, subject)
}

/// Adds the properties with a value, where they are no lists.
fn push_properties(
    out: &mut TripleList,
    facts: &Facts,
    subject: &Node,
    value: &Option<Term>,
) -> Result<(), NoMemory>
    ensures { OnOk result (Appends out.old out.new (values_of (facts_seen facts.now) (node_seen subject.now) (option_map term_seen value.now))) }
{
    if facts.inlist {
        return Ok(());
    }
    match value {
        Some(value) => push_all(out, subject, &facts.property, value),
        None => Ok(()),
    }
}

impl<'a> Surroundings<'a> {
    /// The start of the element: finds its resources and its value, and adds its triples. After want of memory some may
    /// have been added.
    pub fn start(
        &self,
        facts: &Facts,
        iris: &OwnIris,
        out: &mut TripleList,
    ) -> Result<Started, NoMemory>
        ensures triples { OnOk result (Appends out.old out.new (ruled start_of self.now (facts_seen facts.now))) }
        ensures found { IfOk result (λ started. found_seen started.found ≡ ruled resources self.now (facts_seen facts.now)) }
        ensures value { IfOk result (λ started. option_map term_seen started.value ≡ value_here self.now (facts_seen facts.now) (found_seen started.found)) }
    {
        let found = self.find(facts)?;
        let value = self.value(facts, &found)?;
        self.push_start(out, iris, facts, &found, &value)?;
        Ok(Started { found, value })
    }

    /// The value of the element's property. None is there without `property`, where nobody asks for it, and where the
    /// value is the element's text.
    fn value(&self, facts: &Facts, found: &ElementResources) -> Result<Option<Term>, NoMemory>
        ensures { IfOk result (λ value. option_map term_seen value ≡ value_here self.now (facts_seen facts.now) (found_seen found.now)) }
    {
        if facts.property.is_none() {
            return Ok(None);
        }
        value_now(self.alloc, self.base, self.labels, facts, found)
    }

    /// Adds the triples of the element's start, with its resources and its value.
    fn push_start(
        &self,
        out: &mut TripleList,
        iris: &OwnIris,
        facts: &Facts,
        found: &ElementResources,
        value: &Option<Term>,
    ) -> Result<(), NoMemory>
        ensures { OnOk result (Appends out.old out.new (start_here self.now (facts_seen facts.now) (found_seen found.now) (option_map term_seen value.now))) }
    {
        push_vocabulary(out, iris, self.base, &facts.vocab)?;
        if found.skipped {
            return Ok(());
        }
        let subject = &found.subject;
        self.push_found(out, iris, facts, found)?;
        push_properties(out, facts, subject, value)?;
        let waiting = self.around.hanging.as_slice();
        push_completed(out, waiting, &self.around.subject, subject)
    }

    /// Adds the types and the links of the element.
    fn push_found(
        &self,
        out: &mut TripleList,
        iris: &OwnIris,
        facts: &Facts,
        found: &ElementResources,
    ) -> Result<(), NoMemory>
        ensures { OnOk result (Appends out.old out.new (found_by (naming self.now) self.now.base.now (facts_seen facts.now) (found_seen found.now))) }
    {
        if let Some(typed) = &found.typed {
            self.push_all_types(out, iris, typed, &facts.types)?;
        }
        match &found.object {
            Some(object) => push_links(out, facts, &found.subject, object),
            None => Ok(()),
        }
    }

    fn push_all_types(
        &self,
        out: &mut TripleList,
        iris: &OwnIris,
        typed: &Node,
        types: &Option<TypeList>,
    ) -> Result<(), NoMemory>
        ensures { OnOk result (Appends out.old out.new
            (types_of (naming self.now) self.now.base.now (node_seen typed.now) (listed (option_map refs_seen types.now)))) }
    {
        match types {
            Some(types) => self.push_types(out, iris, typed, types),
            None => Ok(()),
        }
    }

    /// Adds the types of a node.
    fn push_types(
        &self,
        out: &mut TripleList,
        iris: &OwnIris,
        typed: &Node,
        types: &TypeList,
    ) -> Result<(), NoMemory>
        ensures { OnOk result (Appends out.old out.new (types_of (naming self.now) self.now.base.now (node_seen typed.now) (refs_seen types.now))) }
    {
        for i in 0..types.len() {
            self.push_type(out, iris, typed, types.at(i))?;
        }
        Ok(())
    }

    /// Adds one type of a node.
    fn push_type(
        &self,
        out: &mut TripleList,
        iris: &OwnIris,
        typed: &Node,
        name: &Ref,
    ) -> Result<(), NoMemory>
        ensures { OnOk result (Appends out.old out.new (typing_triple self.now (node_seen typed.now) (ref_seen name.now) ∷ [])) }
    {
        let node = named(self.alloc, self.base, self.labels, name)?;
        out.push(Triple {
            subject: typed.try_clone()?,
            predicate: iris.rdf_type().try_clone()?,
            object: into_term(node),
        })
    }
}
