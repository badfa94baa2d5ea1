//! What is told of a page before its base is known.
use rx_curie::Facts;
use rx_terms::Text;

/// A start tag with what it says, some text, or an end.
#[derive(Debug, Drop)]
pub(crate) enum Call {
    Enter(Facts),
    Text(Text),
    Leave,
}
