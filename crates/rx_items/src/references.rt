//! The elements to which an item refers.
ghost use Rattle.std.specs.Prelude.{◌≡◌, ◌++◌, [], ℕ, Option, IfOk, OnOk, filter_map, option_to_list, unwrap_or};
ghost use Rattle.rx_terms.specs.Common.{chars, Chars, tokens};
ghost use Rattle.rx_items.specs.Held.{OfWord};
ghost use Rattle.rx_items.specs.Ids.{AreReferred, LooksWhere, OfIds};

use crate::ids::place_under;
use crate::spans::{Span, text_of};
use rx_terms::NoMemory;
use rx_values::TextStore;
use rx_words::first_token;
use std::alloc::Global;
use std::collections::BTreeMap;

/// The places of the first rows with these ids, each once.
pub(crate) fn starts_of(
    alloc: Global,
    words: &TextStore,
    ids: &BTreeMap<&str, usize>,
    references: Option<Span>,
) -> Result<Vec<usize>, NoMemory>
    ensures { (look : Chars → Option ℕ) → LooksWhere references ids.now look → OfWord words.now references (λ word. IfOk result (λ list. AreReferred look (unwrap_or word []) list.items)) }
{
    match references {
        Some(span) => starts_in(alloc, ids, text_of(words, span)),
        None => Ok(Vec::new(alloc)),
    }
}

fn starts_in(alloc: Global, ids: &BTreeMap<&str, usize>, text: &str) -> Result<Vec<usize>, NoMemory>
    ensures { OfIds ids.now (λ look. IfOk result (λ list. AreReferred look (chars text.now) list.items)) }
{
    let mut list = found_in(alloc, ids, text)?;
    list.sort_unstable();
    list.dedup();
    Ok(list)
}

/// The place under each token that has one.
fn found_in(alloc: Global, ids: &BTreeMap<&str, usize>, text: &str) -> Result<Vec<usize>, NoMemory>
    ensures { OfIds ids.now (λ look. IfOk result (λ list. list.items ≡ filter_map look (tokens (chars text.now)))) }
{
    let mut list = Vec::new(alloc);
    let mut rest = text;
    while let Some((token, behind)) = first_token(rest) {
        rest = behind;
        add_found(&mut list, place_under(ids, token))?;
    }
    Ok(list)
}

fn add_found(list: &mut Vec<usize>, place: Option<usize>) -> Result<(), NoMemory>
    ensures { OnOk result (list.new.items ≡ list.old.items ++ option_to_list place) }
{
    let Some(place) = place else {
        return Ok(());
    };
    list.push(place)?;
    Ok(())
}
