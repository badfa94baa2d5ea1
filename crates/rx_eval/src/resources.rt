//! The resources of one element (RDFa Core 1.1, section 7.5, steps 5 and 6; HTML+RDFa 1.1, section 3.1).
ghost use Rattle.std.specs.Prelude.{◌≡◌, ◌&&◌, IfOk, option_map, option_copied};
ghost use Rattle.rx_rdfa.specs.Common.{node_seen, has_link, is_plain_property, resource_named, linked_resource, default_subject, of_link, of_property, of_no_link, resources, is_root_child, is_head_or_body};
ghost use Rattle.rx_curie.specs.Seen.{ref_seen, facts_seen};
ghost use Rattle.rx_eval.specs.ElementResources.{claims_nothing, names_nothing, says_nothing, linked_ref, fresh_node, page_node, property_type, found_seen};
ghost use Rattle.rx_eval.specs.Places.{path_at, naming, ruled};
ghost use Rattle.rx_eval.specs.Referring.{says_no_more, only_reference};

use crate::places::{Level, Surroundings, named};
use rx_curie::{ElementKind, Facts, Ref};
use rx_terms::{Blank, NoMemory, Node, Text};

/// The resources of an element; a skipped one has them for nothing.
#[derive(Drop)]
pub struct ElementResources {
    /// The new subject.
    pub subject: Node,
    /// The typed resource.
    pub typed: Option<Node>,
    /// The current object resource.
    pub object: Option<Node>,
    /// Whether nothing is said of the element, which then hands on what it inherits.
    pub skipped: bool,
}

/// The node again, if there is one.
pub fn clone_option(node: &Option<Node>) -> Result<Option<Node>, NoMemory>
    ensures { IfOk result (λ copy. copy ≡ node.now) }
{
    match node {
        Some(node) => Ok(Some(node.try_clone()?)),
        None => Ok(None),
    }
}

/// Whether there is `rel` or `rev`.
pub(crate) fn has_link(facts: &Facts) -> bool
    ensures { result ≡ has_link (facts_seen facts.now) }
{
    facts.rel.is_some() || facts.rev.is_some()
}

/// Whether there is `property`, and neither `content` nor `datatype`.
fn is_plain_property(facts: &Facts) -> bool
    ensures { result ≡ is_plain_property (facts_seen facts.now) }
{
    facts.property.is_some() && facts.content.is_none() && facts.datatype.is_none()
}

/// Whether no attribute names a resource.
#[inline(always)]
fn names_nothing(facts: &Facts) -> bool
    ensures { result ≡ names_nothing (facts_seen facts.now) }
{
    facts.about.is_none() && facts.resource.is_none() && facts.href.is_none() && facts.src.is_none()
}

/// Whether no attribute has predicates, types or a vocabulary.
#[inline(always)]
fn claims_nothing(facts: &Facts) -> bool
    ensures { result ≡ claims_nothing (facts_seen facts.now) }
{
    facts.rel.is_none()
        && facts.rev.is_none()
        && facts.property.is_none()
        && facts.types.is_none()
        && facts.vocab.is_none()
}

/// Whether an element with these facts says nothing. Below the root such a one is skipped, adds no triple and has no label.
#[inline(always)]
pub fn says_nothing(facts: &Facts) -> bool
    ensures { result ≡ says_nothing (facts_seen facts.now) }
{
    claims_nothing(facts) && names_nothing(facts)
}

/// Whether an element with these facts says nothing, but for what `href` refers to.
#[inline(always)]
fn says_no_more(facts: &Facts) -> bool
    ensures { result ≡ says_no_more (facts_seen facts.now) }
{
    claims_nothing(facts)
        && facts.about.is_none()
        && facts.resource.is_none()
        && facts.src.is_none()
}

/// The reference of `href`, where an element with these facts says nothing else.
#[inline(always)]
pub(crate) fn only_reference(facts: &Facts) -> Option<&Text>
    ensures { option_copied result ≡ only_reference (facts_seen facts.now) }
{
    if !says_no_more(facts) {
        return None;
    }
    match &facts.href {
        Some(Ref::Relative(reference)) => Some(reference),
        Some(_other) => None,
        None => None,
    }
}

/// The first present of `resource`, `href` and `src`.
pub(crate) fn linked_ref(facts: &Facts) -> Option<&Ref>
    ensures { option_map ref_seen (option_copied result) ≡ linked_ref (facts_seen facts.now) }
{
    match &facts.resource {
        Some(resource) => Some(resource),
        None => match &facts.href {
            Some(href) => Some(href),
            None => facts.src.as_ref(),
        },
    }
}

impl<'a> Surroundings<'a> {
    /// The resource that is named.
    fn named(&self, name: &Ref) -> Result<Node, NoMemory>
        ensures { IfOk result (λ node. node_seen node ≡ resource_named (naming self.now) self.now.base.now (ref_seen name.now)) }
    {
        named(self.alloc, self.base, self.labels, name)
    }

    /// The element's new node.
    pub fn fresh(&self) -> Node
        ensures { node_seen result ≡ fresh_node self.now }
    {
        Node::Blank(Blank(self.fresh))
    }

    /// The resource of the first present of `resource`, `href` and `src`.
    fn linked(&self, facts: &Facts) -> Result<Option<Node>, NoMemory>
        ensures { IfOk result (λ node. option_map node_seen node ≡ ruled linked_resource self.now (facts_seen facts.now)) }
    {
        match linked_ref(facts) {
            Some(name) => Ok(Some(self.named(name)?)),
            None => Ok(None),
        }
    }

    /// The subject of an element with a link or a plain property.
    fn default_subject(&self, facts: &Facts) -> Result<Node, NoMemory>
        ensures { IfOk result (λ node. node_seen node ≡ ruled default_subject self.now (facts_seen facts.now)) }
    {
        if let Some(about) = &facts.about {
            return self.named(about);
        }
        if self.level == Level::Root {
            return self.page();
        }
        self.around.object.try_clone()
    }

    /// The base as a node.
    fn page(&self) -> Result<Node, NoMemory>
        ensures { IfOk result (λ node. node_seen node ≡ page_node self.now.base.now) }
    {
        Ok(Node::Iri(self.base.iri().try_clone()?))
    }

    /// Whether it is the head or the body of the page.
    fn is_head_or_body(&self, facts: &Facts) -> bool
        ensures { result ≡ (is_root_child (path_at self.now.level) && is_head_or_body (facts_seen facts.now).kind) }
    {
        self.level == Level::RootChild
            && matches!(facts.element, ElementKind::Head | ElementKind::Body)
    }

    /// The resources of an element with `rel` or `rev`.
    fn of_link(&self, facts: &Facts) -> Result<ElementResources, NoMemory>
        ensures { IfOk result (λ found. found_seen found ≡ ruled of_link self.now (facts_seen facts.now)) }
    {
        let subject = self.default_subject(facts)?;
        let object = self.link_object(facts)?;
        let typed = if facts.types.is_none() {
            None
        } else if facts.about.is_some() {
            Some(subject.try_clone()?)
        } else {
            clone_option(&object)?
        };
        Ok(ElementResources {
            subject,
            typed,
            object,
            skipped: false,
        })
    }

    /// The object of an element with `rel` or `rev`.
    fn link_object(&self, facts: &Facts) -> Result<Option<Node>, NoMemory>
        ensures { IfOk result (λ object. option_map node_seen object ≡ (ruled of_link self.now (facts_seen facts.now)).object) }
    {
        let linked = self.linked(facts)?;
        if linked.is_some() || facts.types.is_none() || facts.about.is_some() {
            return Ok(linked);
        }
        Ok(Some(self.fresh()))
    }

    /// The resources of an element with `property` and neither `content` nor `datatype`.
    fn of_property(&self, facts: &Facts) -> Result<ElementResources, NoMemory>
        ensures { IfOk result (λ found. found_seen found ≡ ruled of_property self.now (facts_seen facts.now)) }
    {
        let subject = self.default_subject(facts)?;
        if facts.types.is_none() {
            return Ok(ElementResources {
                subject,
                typed: None,
                object: None,
                skipped: false,
            });
        }
        let typed = self.property_type(facts)?;
        Ok(ElementResources {
            subject,
            typed: Some(typed.try_clone()?),
            object: Some(typed),
            skipped: false,
        })
    }

    /// The typed resource of an element with `property`.
    fn property_type(&self, facts: &Facts) -> Result<Node, NoMemory>
        ensures { IfOk result (λ typed. node_seen typed ≡ ruled property_type self.now (facts_seen facts.now)) }
    {
        if let Some(about) = &facts.about {
            return self.named(about);
        }
        if self.level == Level::Root {
            return self.page();
        }
        if let Some(linked) = linked_ref(facts) {
            return self.named(linked);
        }
        if self.is_head_or_body(facts) {
            return self.around.object.try_clone();
        }
        Ok(self.fresh())
    }

    /// The subject of an element with neither `rel` nor `rev`.
    fn no_link_subject(&self, facts: &Facts) -> Result<Node, NoMemory>
        ensures { IfOk result (λ subject. node_seen subject ≡ (ruled of_no_link self.now (facts_seen facts.now)).subject) }
    {
        if let Some(about) = &facts.about {
            return self.named(about);
        }
        if let Some(linked) = linked_ref(facts) {
            return self.named(linked);
        }
        if self.level == Level::Root {
            return self.page();
        }
        if self.is_head_or_body(facts) || facts.types.is_none() {
            return self.around.object.try_clone();
        }
        Ok(self.fresh())
    }

    /// The resources of an element with neither `rel` nor `rev`, and no plain property.
    fn of_no_link(&self, facts: &Facts) -> Result<ElementResources, NoMemory>
        ensures { IfOk result (λ found. found_seen found ≡ ruled of_no_link self.now (facts_seen facts.now)) }
    {
        let subject = self.no_link_subject(facts)?;
        let typed = if facts.types.is_some() {
            Some(subject.try_clone()?)
        } else {
            None
        };
        Ok(ElementResources {
            subject,
            typed,
            object: None,
            skipped: self.is_skipped(facts),
        })
    }

    /// Whether nothing is said of the element, and it isn't the root.
    fn is_skipped(&self, facts: &Facts) -> bool
        ensures { result ≡ (ruled of_no_link self.now (facts_seen facts.now)).skipped }
    {
        if facts.property.is_some() || facts.about.is_some() || linked_ref(facts).is_some() {
            return false;
        }
        self.level != Level::Root && facts.types.is_none()
    }

    /// The resources of the element.
    #[tactic(auto, unfolding(rx_rdfa::specs::Resources::resources))]
    pub(crate) fn find(&self, facts: &Facts) -> Result<ElementResources, NoMemory>
        ensures { IfOk result (λ found. found_seen found ≡ ruled resources self.now (facts_seen facts.now)) }
    {
        if has_link(facts) {
            return self.of_link(facts);
        }
        if is_plain_property(facts) {
            return self.of_property(facts);
        }
        self.of_no_link(facts)
    }
}
