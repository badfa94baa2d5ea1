//! The IRIs of terms under a vocabulary, of which a page has few, and most of them many times.
ghost use Rattle.std.specs.Prelude.{◌≡◌, Some, true, false, IfOk, IfSome};
ghost use Rattle.rx_rdfa.specs.Common.{chars, is_relative, is_term, read_term};
ghost use Rattle.rx_names.specs.Lines.{vocabulary_of};
ghost use Rattle.rx_names.specs.Views.{names_seen, Along};
ghost use Rattle.rx_curie.specs.TermIris.{MakesIri};

use crate::comparisons::is_same;
use crate::makers::IriMaker;
use rx_names::NamesView;
use rx_terms::{Iri, NoMemory, Text};
use std::alloc::Global;
use std::marker::Model;

/// The IRI of a term under a vocabulary. Whether the text is a term was found when it was made, and isn't asked again. A
/// contract sees nothing of the value, which only tells of the texts that it is asked for.
#[derive(Drop)]
pub(crate) struct TermIri {
    vocabulary: Text,
    term: Text,
    iri: Iri,
}

impl Model for TermIri {
    ghost use Rattle.rx_curie.specs.TermIris.{IsTermIri};

    ghost Value = { Unit {0} };

    ghost view = { λ one. tt };

    ghost invariant = { λ one. IsTermIri one.vocabulary one.term one.iri };
}

impl TermIri {
    ghost use Rattle.std.specs.Prelude.{IfSome};
    ghost use Rattle.std.specs.Str.{chars};
    ghost use Rattle.rx_curie.specs.TermIris.{IsTermIri};

    /// The IRI of this term under this vocabulary.
    pub(crate) fn of(
        alloc: Global,
        vocabulary: &str,
        term: &str,
        iri: &Iri,
    ) -> Result<TermIri, NoMemory>
        requires { IsTermIri (chars vocabulary.now) (chars term.now) iri.now }
    {
        Ok(TermIri {
            vocabulary: Text::of(alloc, vocabulary)?,
            term: Text::of(alloc, term)?,
            iri: iri.try_clone()?,
        })
    }

    /// Whether the text may be the term, by its length alone.
    fn may_be(&self, text: &str) -> bool {
        self.term.as_str().len() == text.len()
    }

    /// The IRI, if it is that of this text under this vocabulary.
    fn under(&self, vocabulary: &str, text: &str) -> Option<&Iri>
        ensures { IfSome result (λ iri. IsTermIri (chars vocabulary.now) (chars text.now) iri.now) }
    {
        if !is_same(self.term.as_str(), text) {
            return None;
        }
        if !is_same(self.vocabulary.as_str(), vocabulary) {
            return None;
        }
        Some(&self.iri)
    }
}

/// The IRI that the token makes under the names, where it is a term under their vocabulary and was made lately.
pub(crate) fn known_term<'a>(
    maker: &'a IriMaker,
    names: &NamesView<'_>,
    token: &str,
) -> Option<&'a Iri>
    ensures { IfSome result (λ iri. Along names.now (λ context line. MakesIri (read_term context line (chars token.now)) (Some iri.now))) }
{
    let Some(known) = maker.term_at(token) else {
        return None;
    };
    if !known.may_be(token) {
        return None;
    }
    let Some(vocabulary) = names.vocab() else {
        return None;
    };
    known.under(vocabulary, token)
}

/// The IRI that a term makes: under the vocabulary, or by the context.
pub(crate) fn term_iri(
    maker: &mut IriMaker,
    names: &NamesView<'_>,
    token: &str,
) -> Result<Option<Iri>, NoMemory>
    requires term { is_term (chars token.now) ≡ true }
    requires vocabulary { is_relative (vocabulary_of (names_seen names.now)) ≡ false }
    ensures { IfOk result (λ iri. Along names.now (λ context line. MakesIri (read_term context line (chars token.now)) iri)) }
{
    if let Some(vocabulary) = names.vocab() {
        let iri = maker.term(vocabulary, token)?;
        return Ok(Some(iri));
    }
    match names.term(token) {
        Some(iri) => {
            let iri = maker.cleaned(iri)?;
            Ok(Some(iri))
        }
        None => Ok(None),
    }
}
