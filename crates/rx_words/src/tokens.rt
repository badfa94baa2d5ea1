//! The tokens of a text.
ghost use Rattle.std.specs.Prelude.{◌≡◌, ◌<◌, [], ◌∷◌, length, MatchOption, IfSome};
ghost use Rattle.rx_terms.specs.Common.{position, position_or_len, is_ascii_whitespace, chars, tokens};
ghost use Rattle.rx_words.specs.Tokens.{IsFirstToken};

/// The first token and what stands behind it, or `None` exactly where the text has no token: a token is a maximal run
/// without white space (HTML Standard, 2.3.7).
pub fn first_token(text: &str) -> Option<(&str, &str)>
    ensures token { MatchOption result (tokens (chars text.now) ≡ []) (λ cut. tokens (chars text.now) ≡ chars cut.0.now ∷ tokens (chars cut.1.now)) }
    ensures parts { IfSome result (λ cut. IsFirstToken (chars text.now) (chars cut.0.now) (chars cut.1.now)) }
    ensures shorter { IfSome result (λ cut. length cut.1.now < length text.now) }
{
    let text = text.trim_ascii_start();
    if text.is_empty() {
        return None;
    }
    let end = token_end(text);
    Some(text.split_at(end))
}

/// Where the first white space stands, in bytes, or the length of the text.
fn token_end(text: &str) -> usize
    ensures { result ≡ position_or_len is_ascii_whitespace text.now }
{
    first_white(text).unwrap_or(text.len())
}

fn first_white(text: &str) -> Option<usize>
    ensures { result ≡ position is_ascii_whitespace text.now }
{
    text.bytes().position(|b| b.is_ascii_whitespace())
}
