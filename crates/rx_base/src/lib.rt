//! The base of a page (HTML, 4.2.3), which is RDFa's and Microdata's alike: how it is looked for as the page is read.
#![tactic(auto)]

ghost use Rattle.rx_base.specs.KnownBases.{KnowsOverBytes};
ghost use Rattle.rx_base.specs.Moments.{KnowsAtTheFirstMoment};
ghost use Rattle.rx_base.specs.Seekings.{BaseIsFound};

mod bases;
mod seeking;

pub use bases::base;
pub use seeking::{BaseSearchStep, Sought};

/// Of a whole page the base that the rules take is found.
pub fn base_is_found()
    ensures { BaseIsFound }
{}

/// The base is known exactly from the first of four moments on: a base with href begins in the head that is the root's first
/// child, this head ends, another first child begins, or the root ends without one.
pub fn base_is_known_at_the_first_moment()
    ensures { KnowsAtTheFirstMoment }
{}

/// The base is known exactly over the bytes of which a front decides it. In the tree that this front has once it is closed
/// the root's first child has begun and is no head; or it is a head in which a base with href has begun, or one that isn't
/// open any more; or the root has ended. The href is the one that the rules take of that tree.
pub fn base_is_known_over_bytes()
    ensures { KnowsOverBytes }
{}
