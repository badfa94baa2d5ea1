//! What a start tag may declare.
ghost use Rattle.std.specs.Prelude.{◌≡◌, [], ◌∷◌, ◌++◌, true, OnOk, OnErr};
ghost use Rattle.std.specs.List.{list_all};
ghost use Rattle.rx_names.specs.Rows.{is_sound};

use crate::numbers::{LANGUAGE, VOCABULARY, number_of};
use rx_terms::{Lang, NoMemory, Text};
use rx_words::is_same_lowered;
use std::alloc::Global;
use std::marker::Model;

/// A declaration of a start tag.
#[derive(Debug, Drop)]
pub enum Declaration {
    /// A prefix in lower case, and the IRI that it stands for.
    Prefix(Text, Text),
    /// The default vocabulary, none where the attribute is empty.
    Vocabulary(Option<Text>),
    /// The language, none where the attribute is no language tag.
    Language(Option<Lang>),
}

/// The declarations of a start tag, in their order. A contract sees the list.
#[derive(Debug, Drop)]
pub(crate) struct Rows {
    rows: Vec<Declaration>,
}

impl Model for Rows {
    ghost use Rattle.std.specs.Prelude.{◌≡◌, List, true};
    ghost use Rattle.std.specs.List.{list_all};
    ghost use Rattle.rx_names.specs.declared.rows.Declaration.{Declaration};
    ghost use Rattle.rx_names.specs.Rows.{is_sound};

    ghost Value = { List Declaration };

    ghost view = { λ rows. rows.rows.items };

    ghost invariant = { λ rows. list_all is_sound rows.rows.items ≡ true };
}

impl Rows {
    pub(crate) fn new(alloc: Global) -> Rows
        ensures empty { result ≡ [] }
    {
        Rows {
            rows: Vec::new(alloc),
        }
    }

    pub(crate) fn push(&mut self, row: Declaration) -> Result<(), NoMemory>
        requires { is_sound row ≡ true }
        ensures ok { OnOk result (self.new ≡ self.old ++ row ∷ []) }
        ensures err { OnErr result (self.new ≡ self.old) }
    {
        self.rows.push(row)?;
        Ok(())
    }

    /// The rows as a list.
    pub(crate) fn into_list(self) -> Vec<Declaration>
        ensures rows { result.items ≡ self }
        ensures sound { list_all is_sound result.items ≡ true }
    {
        let Rows { rows } = self;
        rows
    }
}

impl Declaration {
    ghost use Rattle.std.specs.Prelude.{◌≡◌, true, option_map, IfSome};
    ghost use Rattle.rx_terms.specs.Common.{chars, has_scheme, lowered, seen_slice};
    ghost use Rattle.rx_names.specs.Rows.{is_sound, prefix_in, vocabulary_in, language_in};
    ghost use Rattle.rx_names.specs.Numbers.{row_number};

    /// The number by which the row is found.
    pub(crate) fn number(&self) -> u64
        requires { is_sound self.now ≡ true }
        ensures number { result ≡ row_number self.now }
    {
        match self {
            Declaration::Prefix(key, _iri) => number_of(key.as_str()),
            Declaration::Vocabulary(_vocabulary) => VOCABULARY,
            Declaration::Language(_language) => LANGUAGE,
        }
    }

    /// The IRI of the prefix, where that is what the row declares.
    pub(crate) fn prefix(&self, name: &str) -> Option<&str>
        requires { is_sound self.now ≡ true }
        ensures iri { seen_slice result ≡ prefix_in (lowered (chars name.now)) self.now }
        ensures scheme { IfSome result (λ iri. has_scheme (chars iri.now) ≡ true) }
    {
        match self {
            Declaration::Prefix(key, iri) => {
                if is_same_lowered(key.as_str(), name) {
                    Some(iri.as_str())
                } else {
                    None
                }
            }
            Declaration::Vocabulary(_vocabulary) => None,
            Declaration::Language(_language) => None,
        }
    }

    /// The default vocabulary, where that is what the row declares.
    pub(crate) fn vocabulary(&self) -> Option<Option<&str>>
        ensures value { option_map seen_slice result ≡ vocabulary_in self.now }
    {
        match self {
            Declaration::Prefix(_key, _iri) => None,
            Declaration::Vocabulary(None) => Some(None),
            Declaration::Vocabulary(Some(vocabulary)) => Some(Some(vocabulary.as_str())),
            Declaration::Language(_language) => None,
        }
    }

    /// The language, where that is what the row declares.
    pub(crate) fn language(&self) -> Option<Option<&str>>
        ensures value { option_map seen_slice result ≡ language_in self.now }
    {
        match self {
            Declaration::Prefix(_key, _iri) => None,
            Declaration::Vocabulary(_vocabulary) => None,
            Declaration::Language(None) => Some(None),
            Declaration::Language(Some(language)) => Some(Some(language.as_str())),
        }
    }
}
