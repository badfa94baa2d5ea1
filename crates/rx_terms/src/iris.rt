//! Internationalized resource identifiers (RFC 3987), as far as N-Quads and Turtle take them.
ghost use Rattle.std.specs.Prelude.{◌≡◌, IfOk, IsErrOf, ◌↔◌, true, false, encode_utf8_all, nat_eq, string_bytes};
ghost use Rattle.rx_terms.specs.Common.{list_all, chars, pointwise, nat_list_eq_equiv, is_scheme_char, is_scheme, begins_with_letter, has_scheme, is_forbidden, has_forbidden, IsIri, number_of};
ghost use Rattle.std.specs.Cmp.{partial_equiv_from_equiv};
ghost use Rattle.std.specs.Hash as fed;
ghost use Rattle.std.specs.Cmp.Rules.{hashing};
ghost use Rattle.std.proofs.Common.{rules};

use crate::texts::NoMemory;
use std::alloc::Global;
use std::hash::{DefaultHasher, Hash, Hasher};
use std::marker::Model;
use std::rc::Rc;
use thiserror::Error;

/// An absolute IRI: a text that begins with a scheme and has none of the characters that N-Quads and Turtle forbid
/// in an IRI. It is shared by those who have it, so that a page's few IRIs are kept once each. A contract sees it as its
/// characters.
#[derive(Debug, Drop)]
pub struct Iri {
    kept: Rc<Kept>,
}

/// What is kept of an IRI.
#[derive(Debug, Drop)]
struct Kept {
    text: String,
    /// The SipHash of the text's UTF-8, by which sets find the IRI.
    number: u64,
}

impl Model for Iri {
    ghost use Rattle.std.specs.Prelude.{◌≡◌, ℕ, List, string_bytes};
    ghost use Rattle.std.specs.Str.{chars};

    ghost Value = { List ℕ };

    ghost use Rattle.rx_terms.specs.Iri.{IsKeptIri};

    ghost view = { λ iri. chars (string_bytes iri.kept.value.text) };

    ghost invariant = { λ iri. IsKeptIri (chars (string_bytes iri.kept.value.text)) iri.kept.value.number };
}

/// Why a text is no IRI.
#[derive(Clone, Copy, Debug, PartialEq, Eq, Error)]
pub enum IriError {
    /// The text doesn't begin with a scheme and `:` (RFC 3986, section 3.1).
    #[error("there is no scheme")]
    NoScheme,
    /// There is a scheme, and a character that no IRI may have.
    #[error("a character is forbidden in an IRI")]
    Forbidden,
    /// There was no memory.
    #[error("there was no memory")]
    NoMemory,
}

impl From<NoMemory> for IriError {
    ghost use Rattle.rx_terms.specs.declared.iris.IriError.{IriError};

    ghost from_gives = { λ _ error. error ≡ IriError.NoMemory };

    fn from(_error: NoMemory) -> IriError {
        IriError::NoMemory
    }
}

impl Iri {
    /// The IRI that the text is.
    pub fn of(alloc: Global, text: &str) -> Result<Iri, IriError>
        ensures ok { IfOk result (λ iri. (iri ≡ chars text.now) × IsIri (chars text.now)) }
        ensures no_scheme { IsErrOf result IriError.NoScheme ↔ (has_scheme (chars text.now) ≡ false) }
        ensures forbidden { IsErrOf result IriError.Forbidden ↔ ((has_scheme (chars text.now) ≡ true) × (has_forbidden (chars text.now) ≡ true)) }
    {
        if !has_scheme(text) {
            return Err(IriError::NoScheme);
        }
        if has_forbidden(text) {
            return Err(IriError::Forbidden);
        }
        Ok(copied(alloc, text)?)
    }

    /// The IRI that a string holds of which this is known, so that its form isn't looked at and its characters aren't copied.
    pub fn of_string(alloc: Global, text: String) -> Result<Iri, NoMemory>
        requires { IsIri (chars (string_bytes text)) }
        ensures { IfOk result (λ iri. iri ≡ chars (string_bytes text)) }
    {
        let number = number_of(text.as_str());
        let kept = Rc::new(alloc, Kept { text, number })?;
        Ok(Iri { kept })
    }

    /// The IRI's characters as UTF-8.
    pub fn as_str(&self) -> &str
        ensures characters { chars result.now ≡ self.now }
        ensures bytes { result.now ≡ encode_utf8_all self.now }
        ensures form { IsIri self.now }
    {
        self.kept.as_ref().text.as_str()
    }

    /// The same IRI for one more, without a copy.
    pub fn try_clone(&self) -> Result<Iri, NoMemory>
        ensures { IfOk result (λ iri. iri ≡ self.now) }
    {
        Ok(Iri {
            kept: self.kept.clone()?,
        })
    }
}

impl PartialEq for Iri {
    ghost eq = { pointwise nat_eq };

    ghost laws = { partial_equiv_from_equiv nat_list_eq_equiv };

    fn eq(&self, other: &Iri) -> bool {
        self.as_str() == other.as_str()
    }
}

impl Eq for Iri {
    ghost laws = { nat_list_eq_equiv };
}

impl Hash for Iri {
    ghost hash_input = { λ iri. fed.u64 (number_of iri) };

    ghost respects_eq = { Prim.search (hashing, rules) };

    fn hash<H: Hasher>(&self, state: &mut H) {
        state.write_u64(self.kept.as_ref().number);
    }
}

/// The IRI that the text is.
fn copied(alloc: Global, text: &str) -> Result<Iri, NoMemory>
    requires { IsIri (chars text.now) }
    ensures { IfOk result (λ iri. iri ≡ chars text.now) }
{
    let text = String::from_str(alloc, text)?;
    Iri::of_string(alloc, text)
}

/// The SipHash of the text's UTF-8.
fn number_of(text: &str) -> u64
    ensures { result ≡ number_of (chars text.now) }
{
    let mut hasher = DefaultHasher::new();
    hasher.write(text.as_bytes());
    hasher.finish()
}

/// Whether the text begins with a scheme and `:` (RFC 3986, section 3.1).
pub fn has_scheme(text: &str) -> bool
    ensures { result ≡ has_scheme (chars text.now) }
{
    match text.split_once(':') {
        Some((scheme, _rest)) => is_scheme(scheme),
        None => false,
    }
}

/// Whether the text is a scheme: a letter, then letters, digits, `+`, `-` and `.` (RFC 3986, section 3.1).
pub fn is_scheme(text: &str) -> bool
    ensures { result ≡ is_scheme (chars text.now) }
{
    begins_with_letter(text) && are_scheme_chars(text)
}

fn are_scheme_chars(text: &str) -> bool
    ensures { result ≡ list_all is_scheme_char (chars text.now) }
{
    text.chars().all(is_scheme_char)
}

fn begins_with_letter(text: &str) -> bool
    ensures { result ≡ begins_with_letter (chars text.now) }
{
    match text.chars().next() {
        Some(first) => first.is_ascii_alphabetic(),
        None => false,
    }
}

fn is_scheme_char(c: char) -> bool
    ensures { result ≡ is_scheme_char c }
{
    c.is_ascii_alphanumeric() || c == '+' || c == '-' || c == '.'
}

fn has_forbidden(text: &str) -> bool
    ensures { result ≡ has_forbidden (chars text.now) }
{
    text.chars().any(is_forbidden)
}

/// Whether no IRI has the character: U+0000 to U+0020, `<`, `>`, `"`, `{`, `}`, `|`, `\`, `^` and the backquote, which
/// N-Quads and Turtle leave out of IRIREF.
pub fn is_forbidden(c: char) -> bool
    ensures { result ≡ is_forbidden c }
{
    c <= ' ' || matches!(c, '<' | '>' | '"' | '{' | '}' | '|' | '\\' | '^' | '`')
}
