//! Texts in lower case, as far as A to Z go.
ghost use Rattle.std.specs.Prelude.{◌≡◌, IfOk, bytes_eq};
ghost use Rattle.rx_terms.specs.Common.{chars, lowered};

use rx_terms::{NoMemory, Text};
use std::alloc::Global;

/// The text in lower case.
pub fn lower(alloc: Global, text: &str) -> Result<Text, NoMemory>
    ensures { IfOk result (λ low. low ≡ lowered (chars text.now)) }
{
    let mut low = String::from_str(alloc, text)?;
    low.make_ascii_lowercase();
    Text::of_string(alloc, low)
}

/// Whether the texts are one in lower case.
pub fn is_same_lowered(a: &str, b: &str) -> bool
    ensures { result ≡ bytes_eq (lowered (chars a.now)) (lowered (chars b.now)) }
{
    a.eq_ignore_ascii_case(b)
}
