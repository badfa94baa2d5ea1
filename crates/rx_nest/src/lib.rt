//! The elements of a page in pieces, and whoever listens to them.
#![tactic(auto)]

ghost use Rattle.rx_nest.specs.Fronts.{ShowsOneElement, TagsLieInTheirBytes};
ghost use Rattle.rx_nest.specs.OpenElements.{HasOpenOfFronts, HasOpenUnderway};
ghost use Rattle.rx_nest.specs.RefusedTags.{RefusedTagsAreLast};
ghost use Rattle.rx_nest.specs.ShownLines.{ShowsOpenOnes, StandsUnderway};

mod element_names;
mod levels;
mod lines;
mod listener;
mod nests;
mod places;
mod readings;
mod reads;
mod tables;
mod tree_tokens;
mod turns;

pub use listener::Listener;
pub use nests::{Event, Nest};
pub use readings::Reading;
pub use rx_grammar::{Content, Fault, Kind, Limits, RawName};
pub use rx_scan::Syntax;
pub use rx_tags::{Stop, Tag};

/// What a nest has shown of a page at any time is the front of one element, with no more open elements than the limit on
/// depth has.
pub fn shows_one_element()
    ensures { ShowsOneElement }
{}

/// The start tags that more bytes show end in these bytes.
pub fn tags_lie_in_their_bytes()
    ensures { TagsLieInTheirBytes }
{}

/// The open elements are those of the front of the page, where nothing is unfinished. So a nest's depth is their number.
pub fn depth_is_of_the_front()
    ensures { HasOpenOfFronts }
{}

/// Where something is unfinished they are those of the front before it.
pub fn depth_is_of_what_is_underway()
    ensures { HasOpenUnderway }
{}

/// Where a start tag is refused for what it means, the bytes through its place are the front of a page with that tag last,
/// and those before its token are one of which no start tag is refused.
pub fn refused_tags_are_last()
    ensures { RefusedTagsAreLast }
{}

/// The elements that were shown to begin, and not to end, are the open ones that the page's tree shows: those that no
/// template hides. And the bytes are underway, so that there is a line of open elements.
pub fn the_signs_lead_to_the_open_elements()
    ensures open { ShowsOpenOnes }
    ensures some { StandsUnderway }
{}
