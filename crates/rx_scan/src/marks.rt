//! What the characters since the last token are the front of.
use rx_grammar::Kind;
use rx_reader::RunPhase;

/// A word with which a declaration begins after `<!`.
#[derive(Clone, Copy, Debug, PartialEq, Eq)]
pub enum Word {
    /// `--`
    Dashes,
    /// `doctype`
    Doctype,
    /// `[CDATA[`
    Section,
}

/// The end of what was read of a comment of HTML.
#[derive(Clone, Copy, Debug, PartialEq, Eq)]
pub enum CommentPhase {
    /// Nothing.
    Start,
    /// A `-` alone.
    StartDash,
    /// None of the others.
    Text,
    /// `-`
    Dash,
    /// `--`
    Dashes,
    /// `--!`
    Bang,
}

/// The end of what was read of a comment of XHTML.
#[derive(Clone, Copy, Debug, PartialEq, Eq)]
pub enum StrictPhase {
    /// No `-`.
    Text,
    /// `-`
    Dash,
    /// `--`
    Dashes,
}

/// What was read of a document type after its first word.
#[derive(Clone, Copy, Debug, PartialEq, Eq)]
pub enum DoctypePhase {
    /// Nothing.
    Keyword,
    /// White space.
    Spaces,
    /// So many characters of the name.
    Name(usize),
    /// The name, and what follows it.
    Passed,
}

/// The brackets at the end of what was read of a CDATA section, which may begin its `]]>`.
#[derive(Clone, Copy, Debug, PartialEq, Eq)]
pub enum Brackets {
    None,
    One,
    Two,
}

/// The characters since the last token.
#[derive(Clone, Copy, Debug, PartialEq, Eq)]
pub enum TokenState {
    /// There are none.
    Nothing,
    /// `<`, where markup may stand.
    LessThan,
    /// `<` and so many characters of `/` and the name of the raw element.
    RawEnd(usize),
    /// A tag.
    Tag,
    /// `&` and what a reference may begin with.
    Run(RunPhase),
    /// `<!`
    Opened,
    /// `<!` and so many characters of a word.
    Opening(Word, usize),
    /// `<!--` in HTML.
    Comment(CommentPhase),
    /// `<!--` in XHTML.
    StrictComment(StrictPhase),
    /// `<?`, or `<!` and no word, in HTML.
    Bogus,
    /// `<?` in XHTML; whether the last character behind it is a `?`.
    Instruction(bool),
    /// `<!doctype`
    Doctype(DoctypePhase),
    /// `<![CDATA[`
    Section(Brackets),
}

/// A token that is whole with a character and of which nothing is kept.
#[derive(Clone, Copy, Debug, PartialEq, Eq)]
pub enum Whole {
    Comment,
    Doctype,
    Section,
}

/// What a character does that stands first.
#[derive(Clone, Copy, Debug, PartialEq, Eq)]
pub enum First {
    /// It is the first one of a longer token.
    Begins(TokenState),
    /// It is a character of text.
    EmitText,
    /// It decides this fault.
    Refuses(Kind),
}

/// What the next character does.
#[derive(Clone, Copy, Debug, PartialEq, Eq)]
pub enum Move {
    /// It is the first one of a token.
    Begins(TokenState),
    /// It belongs to the token, and nothing of it is kept.
    Continue(TokenState),
    /// It belongs to the token, and is kept.
    Keeps(TokenState),
    /// It belongs to the CDATA section, and is kept behind the brackets that turned out to be text.
    KeepsAfter(Brackets),
    /// It belongs to a tag.
    Tags,
    /// It belongs to what may become a tag or stay text, and is kept.
    KeepsTag(usize),
    /// It is a character of text.
    EmitText,
    /// It is the last one of the token.
    Ends(Whole),
    /// It is the `;` of a reference.
    Closes,
    /// The characters before it were text; it is read afresh.
    Reconsume,
    /// It decides this fault.
    Refuses(Kind),
}
