//! What has come of the bytes of a piece.
ghost use Rattle.std.specs.Prelude.{◌≡◌};
ghost use Rattle.rx_nest.specs.Nests as nests;

use crate::nests::Event;

/// The whole piece was taken and nothing is due; or so many bytes of it were, none where something was due.
#[derive(Clone, Copy, Debug, PartialEq, Eq)]
pub(crate) enum Turn {
    Done,
    Took(usize),
}

/// Whether the event tells that more bytes are wanted.
pub(crate) fn is_more(event: Event<'_>) -> bool
    ensures { result ≡ nests.is_more event.entry }
{
    match event {
        Event::More => true,
        _ => false,
    }
}
