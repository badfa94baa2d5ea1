/// What may stand at a place of a page, and how it is read.
#[derive(Clone, Copy, Debug, PartialEq, Eq)]
pub enum Content {
    /// Before the root and after it.
    Outside,
    /// In an element of HTML.
    Html,
    /// In an element of SVG or MathML.
    Foreign,
    /// In an element of XHTML.
    Strict,
    /// Raw text: no tag but its own end tag, no reference.
    Raw(RawName),
    /// Escapable raw text: no tag but its own end tag.
    Rcdata(RawName),
}

/// The elements with raw text (HTML, 13.1.2), iframe, noembed, noframes and xmp among them.
#[derive(Clone, Copy, Debug, PartialEq, Eq)]
pub enum RawName {
    Script,
    Style,
    Iframe,
    Noembed,
    Noframes,
    Xmp,
    Title,
    Textarea,
}
