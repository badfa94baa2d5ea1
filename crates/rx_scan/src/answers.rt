//! What a step answers.
use rx_tags::Tag;

/// What the last byte or the last step told.
#[derive(Clone, Copy, Debug, PartialEq, Eq)]
pub(crate) enum TokenKind {
    /// No token but text, if any.
    Nothing,
    /// A token that says nothing.
    Skipped,
    /// Text.
    Text,
    /// The text of a CDATA section.
    Section,
    /// The document type.
    Doctype,
    /// A tag.
    Tag,
}

/// A token of a page, or that there is none yet.
#[derive(Clone, Copy)]
pub enum Token<'a> {
    /// The whole piece was taken, and no token is complete.
    More,
    /// A start tag.
    Start(Tag<'a>),
    /// An end tag.
    End(Tag<'a>),
    /// Some text. It is never empty; where a run of text is cut isn't fixed.
    Text(&'a str),
    /// The document type.
    Doctype,
    /// A comment, an instruction, the byte order mark, a line feed that is dropped or an empty CDATA section.
    Skipped,
}
