//! What a start tag says to RDFa.
ghost use Rattle.std.specs.Prelude.{◌≡◌};
ghost use Rattle.std.specs.Str.{chars};
ghost use Rattle.rx_rdfa.specs.Facts as the;
ghost use Rattle.rx_curie.specs.Seen.{element_seen};

use crate::literals::{is_word, own_vocabulary, put_datatype, put_language, put_vocabulary};
use crate::makers::IriMaker;
use crate::nodes::TypeList;
use crate::predicates::{put_link, put_properties};
use crate::refs::Ref;
use crate::refusals::refusal_by;
use crate::resources::{put_reference, put_resource, put_text};
use crate::types::put_types;
use rx_grammar::Kind;
use rx_names::{Attributes, NamesView};
use rx_tags::Tag;
use rx_terms::{Iri, Iris, Lang, NoMemory, Text};
use std::mem;

/// The elements of which the rules speak by name (HTML+RDFa 1.1, section 3.1).
#[derive(Clone, Copy, Debug, PartialEq, Eq)]
pub enum ElementKind {
    /// `head`.
    Head,
    /// `body`.
    Body,
    /// `time`.
    Time,
    /// Any other element.
    Other,
}

/// What the attribute `datatype` says.
#[derive(Debug, Drop, PartialEq, Eq)]
pub enum Datatype {
    /// It is empty, or can't be read, or is rdf:langString: the literal is plain.
    Empty,
    /// The datatype.
    Is(Iri),
}

/// What a start tag says under the names in force (RDFa Core 1.1, sections 5 and 7.4). An attribute is `Some` exactly
/// where it counts as present.
#[derive(Debug, Drop)]
pub struct Facts {
    /// Which of the elements it is that the rules name.
    pub element: ElementKind,
    /// The resource of `about`.
    pub about: Option<Ref>,
    /// The resource of `resource`.
    pub resource: Option<Ref>,
    /// The reference of `href`.
    pub href: Option<Ref>,
    /// The reference of `src`.
    pub src: Option<Ref>,
    /// The predicates of `rel`.
    pub rel: Option<Iris>,
    /// The predicates of `rev`.
    pub rev: Option<Iris>,
    /// The predicates of `property`.
    pub property: Option<Iris>,
    /// The types of `typeof`.
    pub types: Option<TypeList>,
    /// The text of `content`.
    pub content: Option<Text>,
    /// The text of `datetime`.
    pub datetime: Option<Text>,
    /// The datatype of `datatype`.
    pub datatype: Option<Datatype>,
    /// Whether there is `inlist`.
    pub inlist: bool,
    /// The vocabulary that the tag itself declares, where that isn't empty.
    pub vocab: Option<Iri>,
    /// The current language, whichever element declares it.
    pub lang: Option<Lang>,
}

/// Why a start tag has no facts.
#[derive(Clone, Copy, Debug, PartialEq, Eq)]
pub enum FactsError {
    /// The page is refused for what the tag means: `RelativeVocab`, `XmlLiteral` or `HtmlLiteral`.
    Meaning(Kind),
    /// There was no memory.
    NoMemory,
}

impl From<NoMemory> for FactsError {
    ghost use Rattle.rx_curie.specs.declared.facts.FactsError.{FactsError};

    ghost from_gives = { λ _ error. error ≡ FactsError.NoMemory };

    fn from(_error: NoMemory) -> FactsError {
        FactsError::NoMemory
    }
}

impl Facts {
    ghost use Rattle.std.specs.Prelude.{◌≡◌, false, true, IfErr, IsErrOf, OnErr, OnOk};
    ghost use Rattle.rx_rdfa.specs.Refusals.{is_relative};
    ghost use Rattle.rx_rdfa.specs.Facts as the;
    ghost use Rattle.rx_tags.specs.Seen.{tag_seen};
    ghost use Rattle.rx_rdfa.specs.Pages.{token_tag};
    ghost use Rattle.rx_rdfa.specs.Pages.{token_tag};
    ghost use Rattle.rx_tags.specs.Seen.{tag_seen};
    ghost use Rattle.rx_names.specs.Lines.{vocabulary_of};
    ghost use Rattle.rx_names.specs.Views.{names_seen, Along};
    ghost use Rattle.rx_curie.specs.Given.{own_vocabulary, no_facts, is_silent, refers_to_nothing, GivesFacts, GivesIn, IsRefused, is_for_meaning, OnFacts};
    ghost use Rattle.rx_curie.specs.Seen.{facts_seen};

    /// What the tag says under these names, which have its own declarations already. The first refusal that holds is
    /// answered: `RelativeVocab` where the tag declares a vocabulary without a scheme, `XmlLiteral` where it has `property`
    /// and a datatype that reads as rdf:XMLLiteral, `HtmlLiteral` where that is rdf:HTML. Where an element around declares
    /// the vocabulary in force, and that has no scheme, the answer is `RelativeVocab` too.
    pub fn of(
        maker: &mut IriMaker,
        tag: &Tag<'_>,
        names: &NamesView<'_>,
    ) -> Result<Facts, FactsError>
        ensures line { OnFacts names.now (token_tag (tag_seen tag.now)) (GivesFacts result) }
        ensures relative { is_relative (vocabulary_of (names_seen names.now)) ≡ true
            → IsErrOf result (FactsError.Meaning Kind.RelativeVocab) }
        ensures absolute { OnOk result (is_relative (vocabulary_of (names_seen names.now)) ≡ false) }
        ensures kinds { IfErr result (λ why. is_for_meaning why ≡ true) }
    {
        let mut facts = Facts::none();
        match facts.renew(maker, tag, names) {
            Ok(()) => Ok(facts),
            Err(error) => {
                drop(facts);
                Err(error)
            }
        }
    }

    /// What a tag without attributes says, whose element the rules don't name and which is in no language: the facts into
    /// which a first tag is read.
    pub fn none() -> Facts
        ensures { facts_seen result ≡ no_facts }
    {
        Facts {
            element: ElementKind::Other,
            about: None,
            resource: None,
            href: None,
            src: None,
            rel: None,
            rev: None,
            property: None,
            types: None,
            content: None,
            datetime: None,
            datatype: None,
            inlist: false,
            vocab: None,
            lang: None,
        }
    }

    /// Reads what the tag says into these facts, in place of what they were, and answers as [`Facts::of`] does. So a page's
    /// tags are read into one value, which isn't moved. After want of memory the facts are [`Facts::none`].
    fn renew(
        &mut self,
        maker: &mut IriMaker,
        tag: &Tag<'_>,
        names: &NamesView<'_>,
    ) -> Result<(), FactsError>
        ensures line { OnFacts names.now (token_tag (tag_seen tag.now)) (GivesIn result self.new) }
        ensures relative { is_relative (vocabulary_of (names_seen names.now)) ≡ true
            → IsErrOf result (FactsError.Meaning Kind.RelativeVocab) }
        ensures absolute { OnOk result (is_relative (vocabulary_of (names_seen names.now)) ≡ false) }
        ensures kinds { IfErr result (λ why. is_for_meaning why ≡ true) }
        ensures refused { IsRefused result → self.new ≡ self.old }
    {
        let attributes = Attributes::of(tag);
        if let Some(kind) = refusal_by(&attributes, names) {
            return Err(FactsError::Meaning(kind));
        }
        self.read(maker, &attributes, names)?;
        Ok(())
    }

    /// Reads what the tag with these attributes says into these facts, in place of what they were, where neither the tag nor
    /// an element around declares a vocabulary without a scheme. After want of memory the facts are [`Facts::none`].
    pub fn read(
        &mut self,
        maker: &mut IriMaker,
        tag: &Attributes<'_>,
        names: &NamesView<'_>,
    ) -> Result<(), NoMemory>
        requires own { is_relative (own_vocabulary tag.now) ≡ false }
        requires vocabulary { is_relative (vocabulary_of (names_seen names.now)) ≡ false }
        ensures ok { OnOk result (Along names.now (λ context line. facts_seen self.new ≡ the.facts_of context line tag.now)) }
        ensures err { OnErr result (facts_seen self.new ≡ no_facts) }
    {
        if let Err(error) = self.read_attributes(maker, tag, names) {
            drop(mem::replace(self, Facts::none()));
            return Err(error);
        }
        Ok(())
    }

    fn read_attributes(
        &mut self,
        maker: &mut IriMaker,
        tag: &Attributes<'_>,
        names: &NamesView<'_>,
    ) -> Result<(), NoMemory>
        requires own { is_relative (own_vocabulary tag.now) ≡ false }
        requires vocabulary { is_relative (vocabulary_of (names_seen names.now)) ≡ false }
        ensures { OnOk result (Along names.now (λ context line. facts_seen self.new ≡ the.facts_of context line tag.now)) }
    {
        if !tag.may_say() && self.is_silent() {
            // Nothing but the language may be another one.
            self.element = kind_of(tag.name());
            return put_language(&mut self.lang, maker.alloc, names);
        }
        self.read_all(maker, tag, names)
    }

    /// Whether no attribute says anything here.
    #[inline(always)]
    fn is_silent(&self) -> bool
        ensures { result ≡ is_silent (facts_seen self.now) }
    {
        self.refers_to_nothing()
            && self.content.is_none()
            && self.datetime.is_none()
            && self.datatype.is_none()
            && !self.inlist
            && self.vocab.is_none()
    }

    /// Whether neither a resource nor a predicate is said.
    #[inline(always)]
    fn refers_to_nothing(&self) -> bool
        ensures { result ≡ refers_to_nothing (facts_seen self.now) }
    {
        self.about.is_none()
            && self.resource.is_none()
            && self.href.is_none()
            && self.src.is_none()
            && self.rel.is_none()
            && self.rev.is_none()
            && self.property.is_none()
            && self.types.is_none()
    }

    /// The same, where the tag may say something, or the facts do.
    #[inline(always)]
    fn read_all(
        &mut self,
        maker: &mut IriMaker,
        tag: &Attributes<'_>,
        names: &NamesView<'_>,
    ) -> Result<(), NoMemory>
        requires own { is_relative (own_vocabulary tag.now) ≡ false }
        requires vocabulary { is_relative (vocabulary_of (names_seen names.now)) ≡ false }
        ensures { OnOk result (Along names.now (λ context line. facts_seen self.new ≡ the.facts_of context line tag.now)) }
    {
        let property = tag.value("property");
        let beside = property.is_some();
        self.element = kind_of(tag.name());
        put_resource(&mut self.about, maker, names, tag.value("about"))?;
        put_resource(&mut self.resource, maker, names, tag.value("resource"))?;
        put_reference(&mut self.href, maker.alloc, tag.value("href"))?;
        put_reference(&mut self.src, maker.alloc, tag.value("src"))?;
        put_link(&mut self.rel, maker, names, tag.value("rel"), beside)?;
        put_link(&mut self.rev, maker, names, tag.value("rev"), beside)?;
        put_properties(&mut self.property, maker, names, property)?;
        put_types(&mut self.types, maker, names, tag.value("typeof"))?;
        put_text(&mut self.content, maker.alloc, tag.value("content"))?;
        put_text(&mut self.datetime, maker.alloc, tag.value("datetime"))?;
        put_datatype(&mut self.datatype, maker, names, tag.value("datatype"))?;
        self.inlist = tag.value("inlist").is_some();
        put_vocabulary(&mut self.vocab, maker, own_vocabulary(tag))?;
        put_language(&mut self.lang, maker.alloc, names)?;
        Ok(())
    }
}

/// Which of the elements it is that the rules name.
fn kind_of(name: &str) -> ElementKind
    ensures { element_seen result ≡ the.kind_of (chars name.now) }
{
    if is_word(name, "head") {
        return ElementKind::Head;
    }
    if is_word(name, "body") {
        return ElementKind::Body;
    }
    if is_word(name, "time") {
        return ElementKind::Time;
    }
    ElementKind::Other
}
