//! A place of a page: what may stand there, and what it makes of a tag.
ghost use Rattle.std.specs.Prelude.{◌≡◌, ◌||◌, ◌&&◌, false, option_map};
ghost use Rattle.std.specs.Str.{chars};
ghost use Rattle.rx_grammar.specs.Contents as contents;
ghost use Rattle.rx_tags.specs.Seen.{tag_seen};
ghost use Rattle.rx_nest.specs.Levels.{row_at};
ghost use Rattle.rx_nest.specs.Rows.{row_seen};

use crate::element_names;
use crate::tables::OmittedEnd;
use rx_chars::Syntax;
use rx_grammar::Content;
use rx_tags::Tag;
use std::marker::Model;

/// A content, and in foreign content whether its outer root is an svg.
#[derive(Clone, Copy)]
pub(crate) struct Place {
    content: Content,
    in_svg: bool,
}

impl Model for Place {
    ghost use Rattle.rx_grammar.specs.Contents.{Place as ThePlace};

    ghost Value = { ThePlace };

    ghost view = { λ place. record { content = place.content; in_svg = place.in_svg } };

    ghost inverse = { λ value. record { content = value.content; in_svg = value.in_svg } };
}

impl Place {
    pub(crate) fn of(content: Content) -> Place
        ensures { result ≡ record { content = content; in_svg = false } }
    {
        Place {
            content,
            in_svg: false,
        }
    }

    pub(crate) fn foreign(in_svg: bool) -> Place
        ensures { result ≡ contents.in_foreign in_svg }
    {
        Place {
            content: Content::Foreign,
            in_svg,
        }
    }

    pub(crate) fn content(self) -> Content
        ensures { result ≡ self.content }
    {
        self.content
    }

    pub(crate) fn is_html(self) -> bool
        ensures { result ≡ contents.is_html self.content }
    {
        matches!(self.content, Content::Html)
    }

    fn is_foreign(self) -> bool
        ensures { result ≡ contents.is_foreign self.content }
    {
        matches!(self.content, Content::Foreign)
    }

    /// What may stand inside an element of this name whose start tag stands here.
    pub(crate) fn inside(self, syntax: Syntax, name: &str) -> Place
        ensures { result ≡ contents.place_inside syntax self (chars name.now) }
    {
        match syntax {
            Syntax::Xhtml => Place::of(Content::Strict),
            Syntax::Html if self.is_foreign() => self.inside_foreign(name),
            Syntax::Html => element_names::inside_html(name),
        }
    }

    fn inside_foreign(self, name: &str) -> Place
        ensures { result ≡ contents.inside_foreign self.in_svg (chars name.now) }
    {
        if self.in_svg && element_names::holds_html_in_svg(name) {
            Place::of(Content::Html)
        } else {
            Place::foreign(self.in_svg)
        }
    }

    /// Whether the element is its start tag alone.
    pub(crate) fn is_alone(self, syntax: Syntax, tag: &Tag<'_>) -> bool
        ensures { result ≡ contents.is_alone syntax self (tag_seen tag.now) }
    {
        match syntax {
            Syntax::Xhtml => tag.slash(),
            Syntax::Html if self.is_foreign() => tag.slash(),
            Syntax::Html => is_alone_in_html(tag),
        }
    }

    /// Whether `/>` closes nothing here.
    pub(crate) fn is_self_closed(self, syntax: Syntax, tag: &Tag<'_>) -> bool
        ensures { result ≡ contents.is_self_closed syntax self (tag_seen tag.now) }
    {
        match syntax {
            Syntax::Xhtml => false,
            Syntax::Html => {
                !self.is_foreign()
                    && tag.slash()
                    && !element_names::is_void(tag.name())
                    && !element_names::is_foreign_root(tag.name())
            }
        }
    }

    /// Whether no end tag would close the element.
    pub(crate) fn is_plaintext(self, syntax: Syntax, tag: &Tag<'_>) -> bool
        ensures { result ≡ contents.is_plaintext syntax self (tag_seen tag.now) }
    {
        match syntax {
            Syntax::Xhtml => false,
            Syntax::Html => self.is_html() && element_names::is_plaintext(tag.name()),
        }
    }

    /// Whether what the element holds is no part of the page's tree.
    pub(crate) fn hides(self, tag: &Tag<'_>) -> bool
        ensures { result ≡ contents.hides self (tag_seen tag.now) }
    {
        !self.is_foreign() && element_names::is_template(tag.name())
    }

    /// Whether a line feed directly after the start tag is dropped.
    pub(crate) fn drops_line_feed(self, tag: &Tag<'_>) -> bool
        ensures { result ≡ contents.drops_line_feed self (tag_seen tag.now) }
    {
        self.is_html() && element_names::drops(tag.name())
    }

    /// The row of an element of this name whose start tag stands here, where its end tag may be omitted.
    pub(crate) fn row_of(self, name: &str) -> Option<OmittedEnd>
        ensures { option_map row_seen result ≡ row_at self (chars name.now) }
    {
        if self.is_html() {
            element_names::row_of(name)
        } else {
            None
        }
    }
}

fn is_alone_in_html(tag: &Tag<'_>) -> bool
    ensures { result ≡ (contents.is_void (tag_seen tag.now).name || ((tag_seen tag.now).slash && contents.is_foreign_root (tag_seen tag.now).name)) }
{
    element_names::is_void(tag.name())
        || (tag.slash() && element_names::is_foreign_root(tag.name()))
}
