/// Where the reader stands in a tag (HTML, 13.2.5.6 to 13.2.5.40).
#[derive(Clone, Copy, Debug, PartialEq, Eq)]
pub enum TagPhase {
    /// After `<`.
    Start,
    /// In the name of a start tag.
    Name,
    /// Between attributes, after white space.
    Gap,
    /// Between attributes, after `/`.
    Solidus,
    /// In the name of an attribute.
    Key,
    /// After an attribute's name and white space.
    AfterKey,
    /// After `=`.
    BeforeValue,
    /// In a value between `"`.
    DoubleQuoted,
    /// In a value between `'`.
    SingleQuoted,
    /// In a value without quotes.
    Unquoted,
    /// Directly after a quoted value.
    AfterValue,
    /// After `</`.
    EndStart,
    /// In the name of an end tag.
    EndName,
    /// After the name of an end tag and white space.
    EndGap,
    /// After the `>` of a start tag.
    Opened,
    /// After the `/>` of a start tag.
    Emptied,
    /// After the `>` of an end tag.
    Closed,
}

/// What a character of a tag does.
#[derive(Clone, Copy, Debug, PartialEq, Eq)]
pub enum TagAction {
    /// Nothing.
    Skip,
    /// It belongs to the tag's name.
    Name,
    /// It belongs to the name of the attribute that is read.
    Key,
    /// It belongs to the value of the attribute that is read.
    Value,
    /// The attribute that is read is whole.
    Add,
    /// The attribute that is read is whole, and the character begins the next one's name.
    AddKey,
}

/// Where the reader stands in text with references.
#[derive(Clone, Copy, Debug, PartialEq, Eq)]
pub enum RunPhase {
    /// Outside a run that may become a reference.
    Plain,
    /// After `&`.
    Ampersand,
    /// After `&` and the front of a name.
    Named,
    /// After `&#`.
    Hash,
    /// After `&#` and digits.
    Decimal,
    /// After `&#x`.
    Mark,
    /// After `&#x` and hexadecimal digits.
    Hexadecimal,
}

/// What a character does to a run that may become a reference.
#[derive(Clone, Copy, Debug, PartialEq, Eq)]
pub enum RunMove {
    /// It belongs to the run.
    Goes(RunPhase),
    /// It is the `;` of a reference.
    Closes,
    /// The run is no reference.
    Stops,
}
