//! The bytes of a piece, up to the end of a token.
ghost use Rattle.std.specs.Prelude.{◌≡◌, ◌≢◌, ◌+◌, ◌≤◌, ◌⊎◌, [], true, false, IfOk};
ghost use Rattle.rx_pages.specs.PageReader.{Scanning};
ghost use Rattle.rx_tags.specs.TagBufs.{MayStep};
ghost use Rattle.rx_scan.specs.Entries.{IsNoMemory, LiesAt};
ghost use Rattle.rx_scan.specs.Steps.{ReadsAs, Runs, RunsReady, RunsTake, is_quiet, is_tag, is_token, stopped_at};

use crate::answers::TokenKind;
use crate::marks::TokenState;
use crate::readers::Reader;
use rx_tags::Stop;

/// The bytes that the text of one step may have, and the last character's.
pub(crate) const ROOM: usize = 4096;

fn is_token(what: TokenKind) -> bool
    ensures { result ≡ is_token what }
{
    !matches!(what, TokenKind::Nothing | TokenKind::Text)
}

impl Reader {
    /// Whether no token is unfinished.
    pub(crate) fn is_whole(&self) -> bool
        ensures whole { result ≡ true → (self.now.pending.mark ≡ TokenState.Nothing) × (self.now.held ≡ []) }
        ensures part { result ≡ false → self.now.pending.mark ≡ TokenState.Nothing → self.now.held ≢ [] }
    {
        match self.pending.mark() {
            TokenState::Nothing => self.utf8.is_whole(),
            _ => false,
        }
    }

    // Whether text is to be handed out, because a token has begun or the room is used up.
    fn must_show(&self) -> bool
        ensures some { result ≡ true → self.now.text.text ≢ [] }
        ensures apart { result ≡ false → (self.now.text.text ≡ []) ⊎ (self.now.pending.mark ≡ TokenState.Nothing) }
        ensures room { result ≡ false → self.now.text.size + 4 ≤ ROOM }
    {
        if self.text.is_empty() {
            return false;
        }
        self.pending.mark() != TokenState::Nothing || self.text.len() > ROOM - 4
    }

    // Whether text is to be handed out before this byte, with which a tag may begin: then the tag is taken as a whole.
    fn ends_text(&self, byte: u8) -> bool
        ensures { result ≡ true → self.now.text.text ≢ [] }
    {
        byte == b'<' && !self.text.is_empty()
    }

    // What the piece tells at its end.
    fn rest(&self) -> TokenKind
        ensures text { result ≡ TokenKind.Text → self.now.text.text ≢ [] }
        ensures nothing { result ≡ TokenKind.Nothing → self.now.text.text ≡ [] }
        ensures either { is_token result ≡ false }
    {
        if self.text.is_empty() {
            TokenKind::Nothing
        } else {
            TokenKind::Text
        }
    }

    /// Takes bytes of the piece up to the end of a token, or all of them.
    pub(crate) fn run(&mut self, piece: &[u8]) -> Result<(usize, TokenKind), Stop>
        requires may_step { MayStep self.old.pending.tag }
        requires none { self.old.text.text ≡ [] }
        requires size { self.old.text.size ≡ 0 }
        requires room { ROOM ≤ self.old.text.room }
        ensures runs { (s : Scanning) → ReadsAs self.old s → Runs self.old s piece.now result self.new }
        ensures ready { RunsReady result self.new }
        ensures takes { RunsTake piece.now result }
        ensures place { LiesAt result self.new.place.at }
        ensures quiet { self.old.pending.mark ≡ TokenState.Nothing → is_quiet piece.now ≡ true → IsNoMemory result ≡ false }
        ensures quiet_tells { self.old.pending.mark ≡ TokenState.Nothing → is_quiet piece.now ≡ true → IfOk result (λ answer. is_tag answer.1 ≡ false) }
    {
        let whole = self.take_tag(piece);
        if whole > 0 {
            return Ok((whole, TokenKind::Tag));
        }
        let mut taken = self.take_front(piece);
        while taken < piece.len() {
            if self.ends_text(piece[taken]) {
                return Ok((taken, TokenKind::Text));
            }
            match self.read(piece[taken]) {
                Err(stop) => return self.stopped(taken, stop),
                Ok(what) => {
                    taken += 1;
                    if is_token(what) {
                        return Ok((taken, what));
                    }
                }
            }
            if self.must_show() {
                return Ok((taken, TokenKind::Text));
            }
            taken += self.take_front(&piece[taken..]);
        }
        Ok((taken, self.rest()))
    }

    // Text that was read before a fault is handed out first.
    fn stopped(&self, taken: usize, stop: Stop) -> Result<(usize, TokenKind), Stop>
        ensures { result ≡ stopped_at self.now.text.text taken stop }
    {
        match stop {
            Stop::Fault(_) if !self.text.is_empty() => Ok((taken, TokenKind::Text)),
            Stop::Fault(_) | Stop::NoMemory => Err(stop),
        }
    }
}
