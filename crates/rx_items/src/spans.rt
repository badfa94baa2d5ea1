//! Runs of a text that is kept.
ghost use Rattle.std.specs.Prelude.{◌≡◌, ◌++◌, IfOk, OnOk};
ghost use Rattle.rx_terms.specs.Common.{chars, Chars};
ghost use Rattle.rx_values.specs.Marks.{CutAt};
ghost use Rattle.rx_items.specs.Spans.{IsRun, span_of};

use rx_terms::NoMemory;
use rx_values::TextStore;

/// A run of a text, from one byte to another.
#[derive(Clone, Copy)]
pub struct Span {
    pub from: usize,
    pub to: usize,
}

/// Adds the text at the end, and tells where it stands.
pub(crate) fn keep(store: &mut TextStore, text: &str) -> Result<Span, NoMemory>
    ensures text { OnOk result (store.new ≡ store.old ++ chars text.now) }
    ensures span { IfOk result (λ span. span ≡ span_of store.old (chars text.now)) }
{
    let from = store.mark();
    store.push(text)?;
    Ok(Span {
        from,
        to: store.mark(),
    })
}

/// The text of a run.
pub fn text_of(store: &TextStore, span: Span) -> &str
    ensures { (front text rest : Chars) → IsRun store.now span front text rest → chars result.now ≡ text }
{
    front(store.since(span.from), span.to.saturating_sub(span.from))
}

/// The first bytes of a text.
fn front(text: &str, size: usize) -> &str
    ensures { (front rest : Chars) → CutAt (chars text.now) size front rest → chars result.now ≡ front }
{
    match text.split_at_checked(size) {
        Some((front, _rest)) => front,
        None => "",
    }
}
