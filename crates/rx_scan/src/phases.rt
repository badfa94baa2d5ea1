//! What each character does behind `&`, and how runs begin that may stay text.
ghost use Rattle.std.specs.Prelude.{◌≡◌};
ghost use Rattle.rx_grammar.specs.Spelling as spelling;
ghost use Rattle.rx_reader.specs.Tables as tables;
ghost use Rattle.rx_scan.specs.Marks as marks;
ghost use Rattle.rx_scan.specs.Pending as pending;

use crate::marks::{Move, TokenState};
use rx_grammar::{Content, Kind};
use rx_reader::{RunMove, RunPhase};
use rx_tags::run_move;

/// Where references are read.
pub(crate) fn has_references(inside: Content) -> bool
    ensures { result ≡ spelling.has_references inside }
{
    !matches!(inside, Content::Outside | Content::Raw(_))
}

// XHTML has no `&` that is text.
fn keeps_runs(inside: Content) -> bool
    ensures { result ≡ spelling.keeps_runs inside }
{
    match inside {
        Content::Strict => false,
        _ => has_references(inside),
    }
}

/// Behind `&` and what a reference may begin with.
pub(crate) fn in_run(inside: Content, phase: RunPhase, c: char) -> Move
    ensures { result ≡ marks.after_run inside (tables.run_move phase c) }
{
    match run_move(phase, c) {
        RunMove::Goes(next) => Move::Keeps(TokenState::Run(next)),
        RunMove::Closes => Move::Closes,
        RunMove::Stops if keeps_runs(inside) => Move::Reconsume,
        RunMove::Stops => Move::Refuses(Kind::StrictText),
    }
}

/// The character with which a run begins that may stay text: `&`, or the `<` of an end tag in raw text.
pub fn first_char(mark: TokenState) -> char
    ensures { result ≡ pending.first_char mark }
{
    match mark {
        TokenState::Run(_) => '&',
        _ => '<',
    }
}

/// How far a reference was read, or `Plain` where none is begun.
pub fn phase_of(mark: TokenState) -> RunPhase
    ensures { result ≡ pending.phase_of mark }
{
    match mark {
        TokenState::Run(phase) => phase,
        _ => RunPhase::Plain,
    }
}
