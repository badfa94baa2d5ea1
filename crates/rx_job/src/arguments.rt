//! The options behind a task, and what stands behind them.
ghost use Rattle.std.specs.Prelude.{◌≡◌, ◌<◌, [], ◌∷◌, MatchOption, length, None, Some};
ghost use Rattle.rx_job.specs.Words.{Given, arguments_given, arguments_with, leading, options_given};
ghost use Rattle.rx_job.specs.Options.{NoOption, word_of};
ghost use Rattle.rx_job.specs.Jobs.{given_seen, OptionsLead};

use crate::options::{Name, Options, named};
use rx_terms::Text;

/// The values of the options at the front of some words, and the words behind them.
#[derive(Clone, Copy, Debug)]
pub(crate) struct Front<'a> {
    pub(crate) options: Options<'a>,
    pub(crate) behind: &'a [Text],
}

/// The values of the options, and the word behind them.
#[derive(Clone, Copy, Debug)]
pub(crate) struct Arguments<'a> {
    pub(crate) options: Options<'a>,
    pub(crate) last: &'a Text,
}

/// Reads the options and the one word behind them. None where there are more words or none, or an option comes twice.
pub(crate) fn arguments_of(words: &[Text]) -> Option<Arguments<'_>>
    ensures { MatchOption result (arguments_given words.now ≡ None) (λ found. arguments_given words.now ≡ Some (given_seen found)) }
{
    let Some(front) = front_of(words) else {
        return None;
    };
    let Some(last) = only(front.behind) else {
        return None;
    };
    Some(Arguments {
        options: front.options,
        last,
    })
}

/// The one word of a list that has no other.
fn only(words: &[Text]) -> Option<&Text>
    ensures { MatchOption result ((options : Given) → arguments_with words.now options ≡ None) (λ last. words.now ≡ last.now ∷ []) }
{
    let [last] = words else {
        return None;
    };
    Some(last)
}

/// Reads the options at the front of the words. None where one comes twice.
pub(crate) fn front_of(words: &[Text]) -> Option<Front<'_>>
    ensures { MatchOption result (options_given (leading words.now) ≡ None) (λ front. OptionsLead words.now front) }
{
    let mut left = words;
    let mut syntax = None;
    let mut format = None;
    let mut graph = None;
    let mut context = None;
    let mut base = None;
    while let Some((name, value, rest)) = next_option(left) {
        let options = Options {
            syntax,
            format,
            graph,
            context,
            base,
        };
        let Some(more) = options.put(name, value) else {
            return None;
        };
        syntax = more.syntax;
        format = more.format;
        graph = more.graph;
        context = more.context;
        base = more.base;
        left = rest;
    }
    let options = Options {
        syntax,
        format,
        graph,
        context,
        base,
    };
    Some(Front {
        options,
        behind: left,
    })
}

/// The option that the words begin with, its value, and the words behind it.
fn next_option(words: &[Text]) -> Option<(Name, &Text, &[Text])>
    ensures { MatchOption result (NoOption words.now) (λ found. words.now ≡ word_of found.0 ∷ (found.1.now ∷ found.2.now)) }
{
    let Some((word, value, rest)) = next_pair(words) else {
        return None;
    };
    let Some(name) = named(word) else {
        return None;
    };
    Some((name, value, rest))
}

/// The first two words and those behind them.
pub(crate) fn next_pair(words: &[Text]) -> Option<(&Text, &Text, &[Text])>
    ensures { MatchOption result (length words.now < 2) (λ pair. words.now ≡ pair.0.now ∷ (pair.1.now ∷ pair.2.now)) }
{
    let [name, value, rest @ ..] = words else {
        return None;
    };
    Some((name, value, rest))
}
