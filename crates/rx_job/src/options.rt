//! The options of a command, and their values.
ghost use Rattle.std.specs.Prelude.{◌≡◌, option_map};
ghost use Rattle.rx_job.specs.Jobs.{options_seen, text_in};
ghost use Rattle.rx_job.specs.Options.{option_named, option_put, option_value, with_option};

use crate::words::is_word;
use rx_terms::Text;

/// An option.
#[derive(Clone, Copy, Debug, PartialEq, Eq)]
pub(crate) enum Name {
    Syntax,
    Format,
    Graph,
    Context,
    Base,
}

/// The values of the options that were given.
#[derive(Clone, Copy, Debug)]
pub(crate) struct Options<'a> {
    pub(crate) syntax: Option<&'a Text>,
    pub(crate) format: Option<&'a Text>,
    pub(crate) graph: Option<&'a Text>,
    pub(crate) context: Option<&'a Text>,
    pub(crate) base: Option<&'a Text>,
}

/// The option of this name.
pub(crate) fn named(word: &Text) -> Option<Name>
    ensures { result ≡ option_named word.now }
{
    if is_word(word, "--syntax") {
        return Some(Name::Syntax);
    }
    if is_word(word, "--format") {
        return Some(Name::Format);
    }
    if is_word(word, "--graph") {
        return Some(Name::Graph);
    }
    if is_word(word, "--context") {
        return Some(Name::Context);
    }
    if is_word(word, "--base") {
        return Some(Name::Base);
    }
    None
}

impl<'a> Options<'a> {
    /// These options, and this one besides. None where it was given.
    pub(crate) fn put(self, name: Name, value: &'a Text) -> Option<Options<'a>>
        ensures { option_map options_seen result ≡ option_put name value.now (options_seen self.entry) }
    {
        match self.value(name) {
            Some(_given) => None,
            None => Some(self.with(name, value)),
        }
    }

    /// The value of an option, where it was given.
    fn value(&self, name: Name) -> Option<&'a Text>
        ensures { text_in result ≡ option_value name (options_seen self.now) }
    {
        match name {
            Name::Syntax => self.syntax,
            Name::Format => self.format,
            Name::Graph => self.graph,
            Name::Context => self.context,
            Name::Base => self.base,
        }
    }

    /// These options, and this one besides.
    fn with(self, name: Name, value: &'a Text) -> Options<'a>
        ensures { options_seen result ≡ with_option name value.now (options_seen self.entry) }
    {
        let value = Some(value);
        match name {
            Name::Syntax => Options {
                syntax: value,
                ..self
            },
            Name::Format => Options {
                format: value,
                ..self
            },
            Name::Graph => Options {
                graph: value,
                ..self
            },
            Name::Context => Options {
                context: value,
                ..self
            },
            Name::Base => Options {
                base: value,
                ..self
            },
        }
    }
}
