//! Turtle: the text of a list of triples under a table of prefixes, flat and with blank nodes written where they are used, and
//! what such a text denotes.
//!
//! Definitions are in `specs/`. Each function here is a law about them, and does nothing when it is called.
#![tactic(auto)]

ghost use Rattle.rx_notation.specs.Grammar.{TokensOfOne};
ghost use Rattle.rx_notation.specs.Laws.{LayoutDenotes, RisingContexts};
ghost use Rattle.rx_notation.specs.Meaning.{FlatIsNested, NestedDenotesOne, TurtleDenotesOne};
ghost use Rattle.rx_notation.specs.NestedLaws.{NestedDenotes};
ghost use Rattle.rx_notation.specs.Rows.{NestedRowsHold, RowsHold};
ghost use Rattle.rx_notation.specs.Spelling.{TurtleSpellsOne};
ghost use Rattle.rx_notation.specs.Texts.{TextsHold};

/// The worked examples of the layout hold.
pub fn rows_hold()
    ensures { RowsHold }
{}

/// The worked examples of what texts denote hold.
pub fn texts_hold()
    ensures { TextsHold }
{}

/// A list of tokens is that of at most one document.
pub fn tokens_are_of_one()
    ensures { TokensOfOne }
{}

/// A text spells at most one document.
pub fn a_text_spells_one()
    ensures { TurtleSpellsOne }
{}

/// A text without brackets and parentheses denotes at most one set of triples.
pub fn a_text_denotes_one()
    ensures { TurtleDenotesOne }
{}

/// Two graphs that one text denotes differ in the names of blank nodes alone.
pub fn a_nested_text_denotes_one()
    ensures { NestedDenotesOne }
{}

/// What a text without brackets and parentheses denotes it denotes as one that may have them.
pub fn a_flat_text_is_nested()
    ensures { FlatIsNested }
{}

/// The text of a list denotes the list's set, but that a literal that is typed xsd:string is read as the plain one.
pub fn a_layout_denotes_its_triples()
    ensures { LayoutDenotes }
{}

/// In a context whose names rise in byte order each name stands once, and the prefixes that a text uses are in its order.
pub fn contexts_rise()
    ensures { RisingContexts }
{}

/// The worked examples of the nested layout hold.
pub fn nested_rows_hold()
    ensures { NestedRowsHold }
{}

/// The nested text of a list of triples denotes the list's set up to the names of blank nodes, but that a literal that is
/// typed xsd:string is read as the plain one.
pub fn a_nested_layout_denotes_its_triples()
    ensures { NestedDenotes }
{}
