//! Characters of a page: UTF-8 and newlines a step at a time, and the tables of names and references.
//!
//! [`Utf8`] and [`Newlines`] read a page's bytes as the HTML Standard's input stream (13.2.3), wherever its pieces are
//! cut. [`is_nc_start`], [`is_nc`], [`named`] and [`numeric`] answer by the tables of XML 1.0, HTML 4.01 and the HTML
//! Standard. No call takes memory.
#![tactic(auto)]

ghost use Rattle.rx_chars.specs.Utf8.{AnswersAreExact, RowsBegin, TablesAgree};
ghost use Rattle.rx_chars.specs.Decoding.{DecodingGrows, HeldIsNoText};
ghost use Rattle.rx_chars.specs.Characters.{EntersNormal, NormalGrows, OneReading};

mod named_references;
mod nc_names;
mod newlines;
mod numeric_references;
mod syntax;
mod utf8;

pub use named_references::named;
pub use nc_names::{is_nc, is_nc_start};
pub use newlines::Newlines;
pub use numeric_references::numeric;
pub use syntax::Syntax;
pub use utf8::{Utf8, Utf8Step};

/// A sequence is well formed by the Unicode Standard's tables, and has a scalar value by them, exactly where it is the
/// UTF-8 of that `char`.
pub fn tables_agree()
    ensures { TablesAgree }
{}

/// The rows of the table tell which bytes begin the sequence of some character and are none yet.
pub fn rows_begin()
    ensures { RowsBegin }
{}

/// Of any bytes since the last whole character exactly one answer of [`Utf8::step`] holds.
pub fn answers_are_exact()
    ensures { AnswersAreExact }
{}

/// Text may be decoded a byte at a time: with each answer of [`Utf8::step`] the characters given, and the bytes held of
/// one more, are all the bytes so far; and where a byte is bad, no text begins with these bytes.
pub fn decoding_grows()
    ensures { DecodingGrows }
{}

/// Bytes that end within a character are no text.
pub fn held_is_no_text()
    ensures { HeldIsNoText }
{}

/// A page's bytes have at most one list of characters with their places.
pub fn one_reading()
    ensures { OneReading }
{}

/// The characters of a page are those of its bytes with normalized newlines.
pub fn enters_normal()
    ensures { EntersNormal }
{}

/// Newlines may be normalized a character at a time.
pub fn normal_grows()
    ensures { NormalGrows }
{}
