//! Language tags.
ghost use Rattle.std.specs.Prelude.{◌≡◌, IfOk, MatchOption, false, true, encode_utf8_all};
ghost use Rattle.rx_terms.specs.Common.{chars, is_lang, is_subtag_char};

use crate::texts::{NoMemory, Text};
use std::alloc::Global;
use std::marker::Model;

/// A language tag of the form that N-Quads and Turtle take (LANGTAG): letters, then any number of parts of letters
/// and digits, each after a hyphen. It is kept as it was written. A contract sees it as its characters.
#[derive(Debug, Drop, PartialEq, Eq, Hash)]
pub struct Lang {
    text: Text,
}

impl Model for Lang {
    ghost use Rattle.std.specs.Prelude.{◌≡◌, ℕ, List, true};

    ghost Value = { List ℕ };

    ghost use Rattle.rx_terms.specs.Lang.{is_lang};

    ghost view = { λ lang. lang.text };

    ghost inverse = { λ text. record { text = text } };

    ghost invariant = { λ lang. is_lang lang.text ≡ true };
}

impl Lang {
    /// The tag that the text is, or `None` exactly where it has another form.
    pub fn of(alloc: Global, text: &str) -> Result<Option<Lang>, NoMemory>
        ensures { IfOk result (λ tag. MatchOption tag (is_lang (chars text.now) ≡ false)
            (λ lang. (is_lang (chars text.now) ≡ true) × (lang ≡ chars text.now))) }
    {
        if !is_lang(text) {
            return Ok(None);
        }
        let text = Text::of(alloc, text)?;
        Ok(Some(Lang { text }))
    }

    /// The tag's characters.
    pub fn as_str(&self) -> &str
        ensures characters { chars result.now ≡ self.now }
        ensures bytes { result.now ≡ encode_utf8_all self.now }
        ensures form { is_lang self.now ≡ true }
    {
        self.text.as_str()
    }

    /// The same tag for one more, without a copy.
    pub fn try_clone(&self) -> Result<Lang, NoMemory>
        ensures { IfOk result (λ lang. lang ≡ self.now) }
    {
        Ok(Lang {
            text: self.text.try_clone()?,
        })
    }
}

fn is_lang(text: &str) -> bool
    ensures { result ≡ is_lang (chars text.now) }
{
    let mut first = true;
    let mut is_empty = true;
    for c in text.chars() {
        if c == '-' {
            if is_empty {
                return false;
            }
            first = false;
            is_empty = true;
        } else {
            if !is_subtag_char(first, c) {
                return false;
            }
            is_empty = false;
        }
    }
    !is_empty
}

/// Whether the character may stand in a tag's first part, or in a later one.
fn is_subtag_char(first: bool, c: char) -> bool
    ensures { result ≡ is_subtag_char first c }
{
    c.is_ascii_alphabetic() || (!first && c.is_ascii_digit())
}
