//! Attributes by their names.
ghost use Rattle.std.specs.Prelude.{◌≡◌, ◌||◌, [], None, true, false, codes, get_or};
ghost use Rattle.rx_rdfa.specs.Common.{list_all, chars, is_ascii, attribute, seen_slice, begins_with};
ghost use Rattle.rx_names.specs.Marks.{mark_bit, name_mark, has_mark};
ghost use Rattle.rx_names.specs.Rows.{declared_rows};
ghost use Rattle.rx_names.specs.Silence.{IsSilent};
ghost use Rattle.rx_tags.specs.Seen.{tag_seen};
ghost use Rattle.rx_rdfa.specs.Pages.{token_tag};

use rx_tags::Tag;
use rx_words::behind;
use std::marker::Model;

/// The value of the tag's first attribute of that name, which is ASCII.
pub fn attribute<'a>(tag: &Tag<'a>, name: &str) -> Option<&'a str>
    requires { list_all is_ascii name.now ≡ true }
    ensures { seen_slice result ≡ attribute (token_tag (tag_seen tag.now)) name.now }
{
    tag.attr(name)
}

/// A tag's attributes, for looking up many names. Most of the names that are looked up aren't there, and nearly all of these
/// are told without going over the attributes. It is made once a tag. A contract sees the tag.
#[derive(Drop)]
pub struct Attributes<'a> {
    tag: Tag<'a>,
    /// The marks of the names that are there.
    marks: u64,
    /// Whether there is an attribute `xmlns:NAME`.
    namespaces: bool,
}

impl<'a> Model for Attributes<'a> {
    ghost use Rattle.rx_rdfa.specs.Tree.{ElementTag};
    ghost use Rattle.rx_names.specs.Marks.{AreMarked};
    ghost use Rattle.rx_rdfa.specs.Pages.{token_tag};
    ghost use Rattle.rx_tags.specs.Seen.{tag_seen};

    ghost Value = { ElementTag };

    ghost view = { λ those. token_tag (tag_seen those.tag) };

    ghost invariant = { λ those. AreMarked those.marks those.namespaces (token_tag (tag_seen those.tag)).attributes };
}

impl<'a> Attributes<'a> {
    /// The attributes of the tag.
    pub fn of(tag: &Tag<'a>) -> Attributes<'a>
        ensures { result ≡ token_tag (tag_seen tag.now) }
    {
        let mut marks = 0;
        let mut namespaces = false;
        for i in 0..tag.count() {
            let (name, _value) = tag.attr_at(i);
            marks |= mark_of(name);
            namespaces = has_namespace(namespaces, name);
        }
        Attributes {
            tag: *tag,
            marks,
            namespaces,
        }
    }

    /// The tag's name, in HTML in lower case.
    pub fn name(&self) -> &'a str
        ensures { chars result.now ≡ self.now.name }
    {
        self.tag.name()
    }

    /// Whether the tag may declare names. Of nearly all tags that declare none that is told by the marks alone.
    pub(crate) fn may_declare(&self) -> bool
        ensures { result ≡ false → declared_rows self.now ≡ [] }
    {
        let prefix = self.may_have("prefix");
        let vocab = self.may_have("vocab");
        let xml_lang = self.may_have("xml:lang");
        let lang = self.may_have("lang");
        is_any(self.namespaces, prefix, vocab, xml_lang, lang)
    }

    /// Whether the tag may have an attribute that RDFa reads, but for those that declare a prefix or a language. Of nearly all
    /// tags that have none that is told by the marks alone.
    pub fn may_say(&self) -> bool
        ensures { result ≡ false → IsSilent self.now }
    {
        let about = self.may_have("about");
        let resource = self.may_have("resource");
        let href = self.may_have("href");
        let src = self.may_have("src");
        let rel = self.may_have("rel");
        let rev = self.may_have("rev");
        let property = self.may_have("property");
        let types = self.may_have("typeof");
        let content = self.may_have("content");
        let datetime = self.may_have("datetime");
        let datatype = self.may_have("datatype");
        let inlist = self.may_have("inlist");
        let vocab = self.may_have("vocab");
        let resources = is_any(about, resource, href, src, vocab);
        let predicates = is_any(rel, rev, property, types, inlist);
        let values = is_any(content, datetime, datatype, false, false);
        is_any(resources, predicates, values, false, false)
    }

    /// Whether there may be an attribute of that name, which is ASCII.
    fn may_have(&self, name: &str) -> bool
        requires { list_all is_ascii name.now ≡ true }
        ensures { result ≡ false → attribute self.now name.now ≡ None }
    {
        has_mark(self.marks, name)
    }

    /// The tag itself.
    pub(crate) fn tag(&self) -> &Tag<'a>
        ensures { token_tag (tag_seen result.now) ≡ self.now }
    {
        &self.tag
    }

    /// The value of the first attribute of that name, which is ASCII.
    pub fn value(&self, name: &str) -> Option<&'a str>
        requires { list_all is_ascii name.now ≡ true }
        ensures { seen_slice result ≡ attribute self.now name.now }
    {
        if !self.may_have(name) {
            return None;
        }
        attribute(&self.tag, name)
    }
}

/// Whether one of these is so.
fn is_any(a: bool, b: bool, c: bool, d: bool, e: bool) -> bool
    ensures { result ≡ (a || b || c || d || e) }
{
    a || b || c || d || e
}

/// Whether an attribute `xmlns:NAME` was there before, or the name is that of one.
fn has_namespace(before: bool, name: &str) -> bool
    ensures { result ≡ (before || begins_with (codes "xmlns:") (chars name.now)) }
{
    before || is_namespace(name)
}

fn is_namespace(name: &str) -> bool
    ensures { result ≡ begins_with (codes "xmlns:") (chars name.now) }
{
    behind(name, "xmlns:").is_some()
}

/// The mark of a name: one of 64 bits, by its length and its first byte. The names that RDFa reads have few marks in common,
/// and none with `class`, `id`, `name`, `style` and `title`, which most tags have.
fn mark_of(name: &str) -> u64
    ensures bytes { result ≡ mark_bit name.now }
    ensures characters { result ≡ name_mark (chars name.now) }
{
    1 << ((u64::from(first_byte(name)) + name.len() as u64 % 64 * 37) % 64)
}

fn first_byte(name: &str) -> u8
    ensures { result ≡ get_or name.now 0 0 }
{
    match name.as_bytes().first() {
        Some(byte) => *byte,
        None => 0,
    }
}

/// Whether the name's mark is among the marks.
fn has_mark(marks: u64, name: &str) -> bool
    ensures { result ≡ has_mark marks (chars name.now) }
{
    let mark = mark_of(name);
    marks & mark == mark
}
