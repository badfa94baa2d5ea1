ghost use Rattle.std.specs.Prelude.{◌≡◌, ◌==◌, ℕ, Bool};
ghost use Rattle.rx_chars.specs.Characters.{line_end_given};
ghost use Rattle.rx_terms.specs.Ascii.{carriage_return};

use std::marker::Model;

/// Normalizes newlines a character at a time (Infra Standard, 4.7; HTML Standard, 13.2.3.5): a CR LF pair and a lone CR
/// both become one LF. A contract sees whether the last character was a CR.
#[derive(Drop)]
pub struct Newlines {
    after_return: bool,
}

impl Model for Newlines {
    ghost Value = { Bool };

    ghost view = { λ newlines. newlines.after_return };
}

impl Newlines {
    ghost use Rattle.std.specs.Prelude.{false};

    /// Before the first character of a page.
    pub fn new() -> Newlines
        ensures { result ≡ false }
    {
        Newlines {
            after_return: false,
        }
    }

    /// Takes the next character, and gives what it adds to the normalized ones: an LF for a CR, nothing exactly for an
    /// LF directly after a CR, and else the character itself.
    pub fn step(&mut self, c: char) -> Option<char>
        ensures gives { result ≡ line_end_given self.old c }
        ensures after_return { self.new ≡ (c == carriage_return) }
    {
        let after_return = self.after_return;
        self.after_return = c == '\r';
        match c {
            '\r' => Some('\n'),
            '\n' if after_return => None,
            _ => Some(c),
        }
    }
}
