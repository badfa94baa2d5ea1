//! What each character does in a value with references.
ghost use Rattle.std.specs.Prelude.{◌≡◌};
ghost use Rattle.rx_grammar.specs.Tags.{cased_char};
ghost use Rattle.rx_reader.specs.Values as values;
ghost use Rattle.rx_tags.specs.ValueMoves as moves;

use crate::references::run_move;
use rx_chars::Syntax;
use rx_grammar::Kind;
use rx_reader::{RunMove, RunPhase};

/// What a character does to a value.
#[derive(Clone, Copy)]
pub(crate) enum ValueMove {
    /// It is the `&` that begins a run.
    Begins,
    /// It is this character of the value, and a run before it is text.
    Is(char),
    /// It belongs to the run.
    Goes(RunPhase),
    /// It is the `;` of a reference.
    Closes,
    /// It has no place there.
    Bad,
}

/// What the character does after a run or after none.
pub(crate) fn value_move(syntax: Syntax, phase: RunPhase, c: char) -> ValueMove
    ensures { result ≡ moves.value_move syntax phase c }
{
    if phase == RunPhase::Plain {
        return plain_move(syntax, c);
    }
    match run_move(phase, c) {
        RunMove::Goes(next) => ValueMove::Goes(next),
        RunMove::Closes => ValueMove::Closes,
        RunMove::Stops => match syntax {
            Syntax::Html => plain_move(syntax, c),
            Syntax::Xhtml => ValueMove::Bad,
        },
    }
}

fn plain_move(syntax: Syntax, c: char) -> ValueMove
    ensures { result ≡ moves.plain_move syntax c }
{
    match (syntax, c) {
        (_, '&') => ValueMove::Begins,
        (Syntax::Xhtml, '<') => ValueMove::Bad,
        (Syntax::Xhtml, '\t' | '\n') => ValueMove::Is(' '),
        _ => ValueMove::Is(c),
    }
}

/// The fault of a reference that stands for nothing.
pub fn no_meaning(phase: RunPhase) -> Kind
    ensures { result ≡ values.no_meaning phase }
{
    match phase {
        RunPhase::Named => Kind::UnknownReference,
        _ => Kind::BadReference,
    }
}

/// A character of a name, which HTML reads in lower case.
pub fn cased(syntax: Syntax, c: char) -> char
    ensures { result ≡ cased_char syntax c }
{
    match syntax {
        Syntax::Html => c.to_ascii_lowercase(),
        Syntax::Xhtml => c,
    }
}
