//! What is read of a page.
use crate::buffers::Buffer;
use crate::pending::Unfinished;
use crate::places::{Position, Setting};
use rx_chars::Utf8;
use std::marker::Model;

/// Reads the bytes of a page one after another.
#[derive(Drop)]
pub(crate) struct Reader {
    pub(crate) setting: Setting,
    pub(crate) place: Position,
    pub(crate) utf8: Utf8,
    pub(crate) pending: Unfinished,
    pub(crate) text: Buffer,
    /// The byte of the last tag's `>`.
    pub(crate) end: u64,
}

impl Model for Reader {
    ghost use Rattle.rx_scan.specs.Scanner.{Reading};

    ghost Value = { Reading };

    ghost view = { λ r. record { setting = r.setting; place = r.place; held = r.utf8; pending = r.pending; text = r.text; end = r.end } };
}
