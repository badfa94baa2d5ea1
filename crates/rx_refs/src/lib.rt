//! References as RFC 3986 has them: their five components, and what a reference means against a base.
//!
//! [`resolve`] gives for every base and every text the IRI of RFC 3986, section 5.2, strict, and refuses nothing: the
//! text is trimmed first, and a character that no IRI may have becomes its escape last. [`Base`] does the same for many
//! references against one base, whose parts it tells once. [`split`] and [`has_scheme`] take no memory.
#![tactic(auto)]

ghost use Rattle.rx_refs.specs.Rules.{DotsByRules};
ghost use Rattle.rx_refs.specs.Laws.{AbsoluteStandsAlone, PartsAreWhole, ResolvedIsIri, ExamplesHold};

mod bases;
mod dots;
mod escapes;
mod parts;
mod plain;
mod recomposition;
mod resolution;
mod slices;
mod targets;

pub use bases::Base;
pub use escapes::{clean, clean_copy, push_clean};
pub use parts::{Parts, split};
pub use resolution::{resolve, without_fragment};
pub use rx_terms::has_scheme;

/// A reference with a scheme is resolved alike against every base.
pub fn absolute_stands_alone()
    ensures { AbsoluteStandsAlone }
{}

/// The components of a text, joined again (RFC 3986, section 5.3), are the text.
pub fn parts_are_whole()
    ensures { PartsAreWhole }
{}

/// The rules of RFC 3986, section 5.2.4, taken as they stand, lead from every path to one end, and it is the path
/// without its dot segments.
pub fn dots_by_rules()
    ensures { DotsByRules }
{}

/// What a reference resolves to has no character that an IRI may not have, and against an IRI it has a scheme.
pub fn resolved_is_iri()
    ensures { ResolvedIsIri }
{}

/// The examples of RFC 3986, section 5.4, and some more.
pub fn examples_hold()
    ensures { ExamplesHold }
{}
