//! The tokens of a text, each once.
ghost use Rattle.std.specs.Prelude.{◌≡◌, ℕ, List, [], ◌∷◌, ◌++◌, ◌||◌, nat_lt, not, true, None, Some, IfOk, OnOk};
ghost use Rattle.rx_grammar.specs.Common.{list_all, chars, Chars, tokens, same};
ghost use Rattle.rx_microdata.specs.Facts.{distinct_tokens};
ghost use Rattle.rx_items.specs.Showing.{ShowsPart};
ghost use Rattle.rx_items.specs.Held.{AreTokens, texts_in};
ghost use Rattle.rx_tags.specs.Repeats.{has_text};

use crate::spans::{Span, text_of};
use rx_terms::{NoMemory, Text};
use rx_values::TextStore;
use rx_words::first_token;
use std::alloc::Global;
use std::collections::BTreeSet;

/// The tokens of an attribute's value, which stands there in what is kept of tags, without those that stood before. There
/// is no list of them where the value is one token, which needs no memory of its own.
pub(crate) fn several_at(
    alloc: Global,
    words: &TextStore,
    span: Span,
) -> Result<Option<Vec<Text>>, NoMemory>
    ensures { (part : Chars) → ShowsPart words.now span part → IfOk result (λ list. AreTokens words.now (Some span) (texts_in list) (distinct_tokens part)) }
{
    if is_single_at(words, span) {
        return Ok(None);
    }
    let list = distinct(alloc, text_of(words, span))?;
    Ok(Some(list))
}

/// Whether an attribute's value, which stands there in what is kept of tags, is one token.
pub(crate) fn is_single_at(words: &TextStore, span: Span) -> bool
    ensures { result ≡ true → (part : Chars) → ShowsPart words.now span part → AreTokens words.now (Some span) None (distinct_tokens part) }
{
    is_token(text_of(words, span))
}

/// Whether the text is a token and nothing else, in which no control character stands.
fn is_token(text: &str) -> bool
    ensures { result ≡ true → tokens (chars text.now) ≡ chars text.now ∷ [] }
{
    if text.is_empty() {
        return false;
    }
    is_unbroken(text)
}

/// Whether each byte is behind the space, and so none is white space. That takes fewer steps to tell than white space, and
/// a loop that never ends early is compiled to one that takes many bytes at a time.
fn is_unbroken(text: &str) -> bool
    ensures { result ≡ list_all (λ b. nat_lt 32 b) text.now }
{
    let mut all = true;
    for byte in text.as_bytes() {
        all &= *byte > b' ';
    }
    all
}

/// The tokens of a text in order, without those that stood before.
fn distinct(alloc: Global, text: &str) -> Result<Vec<Text>, NoMemory>
    ensures { IfOk result (λ list. list.items ≡ distinct_tokens (chars text.now)) }
{
    let mut seen = BTreeSet::new(alloc);
    let mut list = Vec::new(alloc);
    let mut rest = text;
    while let Some((token, behind)) = first_token(rest) {
        rest = behind;
        if !see(&mut seen, token)? {
            continue;
        }
        push_text(alloc, &mut list, token)?;
    }
    Ok(list)
}

/// Adds a token, and tells whether it is new.
fn see<'a>(seen: &mut BTreeSet<&'a str>, token: &'a str) -> Result<bool, NoMemory>
    ensures is_new { IfOk result (λ is_new. is_new ≡ not (has_text seen.old token.now)) }
    ensures added { OnOk result ((text : List ℕ) → has_text seen.new text ≡ (same token.now text || has_text seen.old text)) }
{
    Ok(seen.insert(token)?)
}

/// A text more at the end.
fn push_text(alloc: Global, list: &mut Vec<Text>, text: &str) -> Result<(), NoMemory>
    ensures { OnOk result (list.new.items ≡ list.old.items ++ chars text.now ∷ []) }
{
    let text = Text::of(alloc, text)?;
    list.push(text)?;
    Ok(())
}
