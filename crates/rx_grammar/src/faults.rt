/// The kinds of refusal of a page.
#[derive(Clone, Copy, Debug, PartialEq, Eq)]
pub enum Kind {
    /// The bytes are no UTF-8.
    NotUtf8,
    /// U+0000 stands literally.
    Nul,
    /// A character that can't stand in a tag there, or that begins none.
    BadTag,
    /// An end tag of another name than the open element's.
    Mismatch,
    /// An end tag where no element is open.
    NothingOpen,
    /// `/>` on an element that has to be closed by an end tag.
    SelfClosed,
    /// A named reference that isn't in the table.
    UnknownReference,
    /// A numeric reference to 0, to a surrogate, or past U+10FFFF.
    BadReference,
    /// An element at a level below the deepest one.
    TooDeep,
    /// A tag with more bytes than the limit.
    TagTooLong,
    /// Text or a start tag outside the root.
    Outside,
    /// The first start tag isn't `html`.
    RootNotHtml,
    /// A document type that isn't HTML's, or that is misplaced.
    BadDoctype,
    /// The page ends too early.
    Unended,
    /// A name twice among the attributes of one tag of XHTML.
    RepeatedAttribute,
    /// A character that XML doesn't allow in text or in a value.
    StrictText,
    /// A `plaintext` element.
    Plaintext,
    /// A page with more bytes than the limit.
    PageTooLong,
    /// A `vocab` without a scheme.
    RelativeVocab,
    /// A property with the datatype rdf:XMLLiteral.
    XmlLiteral,
    /// A property with the datatype rdf:HTML.
    HtmlLiteral,
    /// An item within itself.
    Cycle,
    /// Items nested beyond the limit.
    ItemsTooNested,
    /// More item objects than the limit.
    ItemsTooMany,
}

/// A fault of a page: its kind and its place, in bytes from the page's first one.
#[derive(Clone, Copy, Debug, PartialEq, Eq)]
pub struct Fault {
    pub kind: Kind,
    /// The first byte of the token that is faulty or unfinished.
    pub token: u64,
    /// The byte that decides the fault.
    pub at: u64,
}
