//! The names in force along the open elements.
ghost use Rattle.std.specs.Prelude.{◌≡◌, ◌<◌, ◌≤◌, [], ◌∷◌, ◌++◌, List, length, true, OnOk, OnErr, IfOk, IfSome};
ghost use Rattle.rx_rdfa.specs.Common.{chars, has_scheme, lowered, seen_slice, prefix, vocab, language, term};
ghost use Rattle.rx_rdfa.specs.Tree.{ElementTag as StartTag};
ghost use Rattle.rx_tags.specs.Seen.{tag_seen};
ghost use Rattle.rx_rdfa.specs.Pages.{token_tag};
ghost use Rattle.rx_names.specs.Lines.{no_tags, tag_pushed, popped, NamesStand, kept_prefix, vocabulary_of, kept_language, declared_along};
ghost use Rattle.rx_names.specs.Views.{names_seen, Along};

use crate::attributes::Attributes;
use crate::contexts::Context;
use crate::declarations::push_declarations;
use crate::kept_rows::KeptRows;
use crate::rows::Rows;
use rx_tags::Tag;
use rx_terms::NoMemory;
use std::alloc::Global;
use std::marker::Model;

/// The names in force at the innermost of the open elements. Each declaration is kept once, and goes with its element. A
/// contract sees the context, the declarations, and for each element how many stood below it.
#[derive(Debug, Drop)]
pub struct Names {
    alloc: Global,
    context: Context,
    rows: KeptRows,
    marks: Vec<usize>,
}

impl Model for Names {
    ghost use Rattle.rx_names.specs.Lines.{KeptNames};

    ghost Value = { KeptNames };

    ghost view = { λ names. record { context = names.context; rows = names.rows; marks = names.marks.items } };
}

impl Names {
    /// The names of the context alone, with room for so many levels of elements.
    pub fn new(alloc: Global, context: Context, levels: u32) -> Result<Names, NoMemory>
        ensures none { IfOk result (λ names. names ≡ no_tags context) }
        ensures line { IfOk result (λ names. NamesStand names []) }
    {
        Ok(Names {
            alloc,
            context,
            rows: KeptRows::new(alloc),
            marks: Vec::with_capacity(alloc, levels as usize)?,
        })
    }

    /// Adds the declarations of the start tag of an element inside the others.
    pub fn push(&mut self, tag: &Tag<'_>) -> Result<(), NoMemory>
        ensures ok { OnOk result (self.new ≡ tag_pushed self.old (token_tag (tag_seen tag.now))) }
        ensures line { OnOk result ((line : List StartTag) → NamesStand self.old line → NamesStand self.new (token_tag (tag_seen tag.now) ∷ line)) }
        ensures err { OnErr result (self.new ≡ self.old) }
    {
        self.push_of(&Attributes::of(tag))
    }

    /// The same by the tag's attributes. Most tags declare nothing, and then nothing is gone over.
    #[inline]
    pub fn push_of(&mut self, attributes: &Attributes<'_>) -> Result<(), NoMemory>
        ensures ok { OnOk result (self.new ≡ tag_pushed self.old attributes.now) }
        ensures line { OnOk result ((line : List StartTag) → NamesStand self.old line → NamesStand self.new (attributes.now ∷ line)) }
        ensures err { OnErr result (self.new ≡ self.old) }
    {
        if attributes.may_declare() {
            return self.push_declared(attributes);
        }
        self.push_none()
    }

    /// The same of a tag that declares nothing.
    #[inline(always)]
    fn push_none(&mut self) -> Result<(), NoMemory>
        ensures ok { OnOk result (self.new ≡ record { context = self.old.context; rows = self.old.rows; marks = self.old.marks ++ length self.old.rows ∷ [] }) }
        ensures err { OnErr result (self.new ≡ self.old) }
    {
        self.marks.push(self.rows.len())?;
        Ok(())
    }

    /// The same of a tag that declares something, or may do so.
    #[inline(never)]
    fn push_declared(&mut self, attributes: &Attributes<'_>) -> Result<(), NoMemory>
        ensures ok { OnOk result (self.new ≡ tag_pushed self.old attributes.now) }
        ensures line { OnOk result ((line : List StartTag) → NamesStand self.old line → NamesStand self.new (attributes.now ∷ line)) }
        ensures err { OnErr result (self.new ≡ self.old) }
    {
        let mut added = Rows::new(self.alloc);
        push_declarations(self.alloc, &mut added, attributes)?;
        self.marks.reserve(1)?;
        let mark = self.rows.len();
        self.rows.append(added)?;
        self.marks.push(mark)?;
        Ok(())
    }

    /// Drops the declarations of the innermost element.
    pub fn pop(&mut self)
        requires { 0 < length self.old.marks }
        ensures popped { self.new ≡ popped self.old }
        ensures line { (tag : StartTag) (line : List StartTag) → NamesStand self.old (tag ∷ line) → NamesStand self.new line }
    {
        if let Some(mark) = self.marks.pop() {
            self.rows.truncate(mark);
        }
    }

    /// How many declarations are kept.
    pub fn rows(&self) -> usize
        ensures count { result ≡ length self.now.rows }
        ensures bound { (line : List StartTag) → NamesStand self.now line → result ≤ declared_along line }
    {
        self.rows.len()
    }

    /// The names at the innermost element.
    pub fn view(&self) -> NamesView<'_>
        ensures same { names_seen result ≡ self.now }
    {
        NamesView { names: self }
    }

    fn prefix(&self, name: &str) -> Option<&str>
        ensures value { seen_slice result ≡ kept_prefix self.now (lowered (chars name.now)) }
        ensures scheme { IfSome result (λ iri. has_scheme (chars iri.now) ≡ true) }
    {
        match self.rows.prefix(name) {
            Some(iri) => Some(iri),
            None => self.context.prefix(name),
        }
    }

    fn vocab(&self) -> Option<&str>
        ensures value { seen_slice result ≡ vocabulary_of self.now }
    {
        self.rows.vocabulary()
    }

    fn lang(&self) -> Option<&str>
        ensures value { seen_slice result ≡ kept_language self.now }
    {
        self.rows.language()
    }

    fn term(&self, name: &str) -> Option<&str>
        ensures value { seen_slice result ≡ term self.now.context (chars name.now) }
        ensures scheme { IfSome result (λ iri. has_scheme (chars iri.now) ≡ true) }
    {
        self.context.term(name)
    }
}

/// The names in force at an element, lent. No call takes memory.
#[derive(Clone, Copy)]
pub struct NamesView<'a> {
    names: &'a Names,
}

impl<'a> NamesView<'a> {
    /// The IRI of the prefix, which is compared in lower case: what the nearest element that declares it says last, else what
    /// the context says (RDFa Core 1.1, section 7.5, step 3).
    pub fn prefix(&self, name: &str) -> Option<&'a str>
        ensures kept { seen_slice result ≡ kept_prefix (names_seen self.now) (lowered (chars name.now)) }
        ensures line { Along self.now (λ context line. seen_slice result ≡ prefix context line (lowered (chars name.now))) }
        ensures scheme { IfSome result (λ iri. has_scheme (chars iri.now) ≡ true) }
    {
        let names = self.names;
        names.prefix(name)
    }

    /// The default vocabulary: that of the nearest element with `vocab`, none where that is empty (RDFa Core 1.1, section
    /// 7.5, step 2).
    pub fn vocab(&self) -> Option<&'a str>
        ensures kept { seen_slice result ≡ vocabulary_of (names_seen self.now) }
        ensures line { Along self.now (λ context line. seen_slice result ≡ vocab line) }
    {
        let names = self.names;
        names.vocab()
    }

    /// The language: that of the nearest element with `xml:lang` or `lang`, none where that is no language tag (RDFa Core
    /// 1.1, section 7.5, step 4).
    pub fn lang(&self) -> Option<&'a str>
        ensures kept { seen_slice result ≡ kept_language (names_seen self.now) }
        ensures line { Along self.now (λ context line. seen_slice result ≡ language line) }
    {
        let names = self.names;
        names.lang()
    }

    /// The context's IRI for the term, or else for the first in byte order that is the same in lower case (RDFa Core 1.1,
    /// section 7.4.3).
    pub fn term(&self, name: &str) -> Option<&'a str>
        ensures kept { seen_slice result ≡ term (names_seen self.now).context (chars name.now) }
        ensures scheme { IfSome result (λ iri. has_scheme (chars iri.now) ≡ true) }
    {
        let names = self.names;
        names.term(name)
    }
}
