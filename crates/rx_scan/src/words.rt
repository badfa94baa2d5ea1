//! Words that are looked for.
ghost use Rattle.std.specs.Prelude.{◌≡◌, ◌<◌, length, slice_get, IfSome};

/// The character at a place of a word of ASCII, or none where it is over.
pub(crate) fn char_at(word: &[u8], count: usize) -> Option<char>
    ensures value { result ≡ slice_get word.now count }
    ensures within { IfSome result (λ c. count < length word.now) }
{
    if count < word.len() {
        Some(char::from(word[count]))
    } else {
        None
    }
}
