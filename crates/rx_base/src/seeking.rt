//! The seeking of a page's base.
//!
//! HTML's `base` is looked for in the root's first child alone, where that is a `head` (our own rule), so that the base is
//! known as early as can be: at the first `base` with `href`, at the end of that head, at the start of another first child,
//! or at the root's end.
ghost use Rattle.std.specs.Prelude.{◌≡◌, true, None, bytes_eq, if◌then◌else◌};
ghost use Rattle.rx_terms.specs.Common.{list_all, chars, is_ascii, seen_slice};
ghost use Rattle.rx_base.specs.Seekings.{known, base_href, seek_begun, seek_finished, first_child, base_child};
ghost use Rattle.rx_rdfa.specs.Tree.{attribute as attribute_of};
ghost use Rattle.rx_tags.specs.Seen.{tag_seen};
ghost use Rattle.rx_rdfa.specs.Pages.{token_tag};
ghost use Rattle.rx_base.specs.Sought.{sought_seen, clue_seen};

use rx_tags::Tag;

/// What is looked for.
#[derive(Clone, Copy, Debug, PartialEq, Eq)]
pub enum Sought {
    /// The root's first child.
    FirstChild,
    /// A child of the head that is a `base` with `href`.
    BaseChild,
}

/// What is looked for next, or what the base is known by: such a `href`, or that there is none.
#[derive(Clone, Copy)]
pub enum BaseSearchStep<'a> {
    Seeks(Sought),
    Known(Option<&'a str>),
}

impl Sought {
    /// An element begins where so many are open.
    pub fn begun<'a>(self, count: usize, tag: &Tag<'a>) -> BaseSearchStep<'a>
        ensures { clue_seen result ≡ seek_begun count (sought_seen self) (token_tag (tag_seen tag.now)) }
    {
        match self {
            Sought::FirstChild => first_begun(count, tag),
            Sought::BaseChild => child_begun(count, tag),
        }
    }

    /// Whether nothing is left to look for when the innermost of so many elements ends.
    pub fn ends(self, count: usize) -> bool
        ensures { seek_finished count (sought_seen self) ≡ (if result then known None else sought_seen self) }
    {
        match self {
            Sought::FirstChild => count == 1,
            Sought::BaseChild => count == 2,
        }
    }
}

fn first_begun<'a>(count: usize, tag: &Tag<'a>) -> BaseSearchStep<'a>
    ensures { clue_seen result ≡ seek_begun count first_child (token_tag (tag_seen tag.now)) }
{
    if count != 1 {
        return BaseSearchStep::Seeks(Sought::FirstChild);
    }
    if is_named(tag, "head") {
        return BaseSearchStep::Seeks(Sought::BaseChild);
    }
    BaseSearchStep::Known(None)
}

fn child_begun<'a>(count: usize, tag: &Tag<'a>) -> BaseSearchStep<'a>
    ensures { clue_seen result ≡ seek_begun count base_child (token_tag (tag_seen tag.now)) }
{
    if count != 2 {
        return BaseSearchStep::Seeks(Sought::BaseChild);
    }
    match base_href(tag) {
        Some(href) => BaseSearchStep::Known(Some(href)),
        None => BaseSearchStep::Seeks(Sought::BaseChild),
    }
}

/// The href of an element that is a `base`.
fn base_href<'a>(tag: &Tag<'a>) -> Option<&'a str>
    ensures { seen_slice result ≡ base_href (token_tag (tag_seen tag.now)) }
{
    if !is_named(tag, "base") {
        return None;
    }
    attribute(tag, "href")
}

/// Whether the element has this name, which is ASCII.
fn is_named(tag: &Tag<'_>, name: &str) -> bool
    requires { list_all is_ascii name.now ≡ true }
    ensures { result ≡ bytes_eq (token_tag (tag_seen tag.now)).name name.now }
{
    is_word(tag.name(), name)
}

/// Whether the text is this word, which is ASCII.
fn is_word(text: &str, word: &str) -> bool
    requires { list_all is_ascii word.now ≡ true }
    ensures { result ≡ bytes_eq (chars text.now) word.now }
{
    text == word
}

/// The value of the tag's first attribute of that name, which is ASCII.
fn attribute<'a>(tag: &Tag<'a>, name: &str) -> Option<&'a str>
    requires { list_all is_ascii name.now ≡ true }
    ensures { seen_slice result ≡ attribute_of (token_tag (tag_seen tag.now)) name.now }
{
    tag.attr(name)
}
