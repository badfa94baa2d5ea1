//! Several pages in one dataset: the context file is read, and then each page in order.
ghost use Rattle.std.specs.Prelude.{◌≡◌, ◌≤◌, ◌++◌, [], ◌∷◌, vec_len, IfOk, OnOk, IsErrOf, Err, is_some, true, encode_utf8_all};
ghost use Rattle.rx_many.specs.Pages.{accepted_page};
ghost use Rattle.rx_ports.specs.Shelves.{WhereKnown};
ghost use Rattle.rx_job.specs.Jobs.{several_seen, page_at};
ghost use Rattle.rx_command.specs.Contexts.{HasWrongContext, TakesContext};
ghost use Rattle.rx_command.specs.Gathering.{AddsPages, GathersPage, GathersPages, TakesGathering, TakesPart, TakesParts};
ghost use Rattle.rx_command.specs.Inputs.{WhereTold};
ghost use Rattle.rx_command.specs.Outcome.{LacksOne, LacksPage};
ghost use Rattle.rx_command.specs.Calls.{FailedOr, FailedOrLacks, Steady};
ghost use Rattle.rx_command.specs.Reading.{IsPiece};
ghost use Rattle.rx_page.specs.Written.{graph_made};

use crate::errors::InputError;
use crate::inputs::read_context;
use crate::pages::{Approach, new_piece, read_page_by};
use rx_job::{Pages, Several};
use rx_many::Many;
use rx_names::Context;
use rx_page::graph_of;
use rx_ports::Shelf;
use rx_terms::{Iri, NoMemory, Text, TripleList};
use rx_walk::{Fault, Syntax};
use std::alloc::Global;

/// What the pages give that are listed. A page that is refused is kept with its fault; one that can't be read ends the
/// job.
pub(crate) fn gather<F: Shelf>(
    alloc: Global,
    shelf: &mut F,
    several: Several<'_>,
) -> Result<Many, InputError>
    ensures ok { IfOk result (λ many. WhereKnown (GathersPages (several_seen several.entry) many) (F.told shelf.old) (F.told shelf.new)) }
    ensures not_refused { (fault : Fault) → result ≡ Err (InputError.Refused fault) → ⊥ }
    ensures takes { WhereKnown (TakesGathering (several_seen several.entry)) (F.told shelf.old) (F.told shelf.new) }
    ensures bad { IsErrOf result InputError.BadContext → WhereTold (HasWrongContext (several_seen several.entry).context) (F.told shelf.old) }
    ensures bad_takes { IsErrOf result InputError.BadContext →
        WhereKnown (TakesContext (several_seen several.entry).context) (F.told shelf.old) (F.told shelf.new) }
    ensures named { IsErrOf result InputError.BadContext → is_some (several_seen several.entry).context ≡ true }
    ensures failed { IsErrOf result InputError.Failed → FailedOr F.told F.faults shelf.old shelf.new (LacksOne (several_seen several.entry)) }
    ensures steady { Steady result (F.faults shelf.old) (F.faults shelf.new) }
{
    let Several {
        syntax,
        context,
        pages,
    } = several;
    let context = match read_context(alloc, shelf, context) {
        Ok(context) => context,
        Err(error) => return Err(error),
    };
    let Ok(mut many) = Many::new(alloc) else {
        drop(context);
        return Err(InputError::NoMemory);
    };
    match gather_pages(alloc, shelf, syntax, &context, pages, &mut many) {
        Ok(()) => {
            drop(context);
            Ok(many)
        }
        Err(error) => {
            drop(context);
            drop(many);
            Err(error)
        }
    }
}

/// Reads the pages one after another, all by one piece, and adds what each gives.
fn gather_pages<F: Shelf>(
    alloc: Global,
    shelf: &mut F,
    syntax: Syntax,
    context: &Context,
    pages: &Pages,
    many: &mut Many,
) -> Result<(), InputError>
    ensures ok { OnOk result (AddsPages context.now syntax pages.now many.old many.new (F.told shelf.old) (F.told shelf.new)) }
    ensures takes { WhereKnown (TakesParts context.now syntax pages.now) (F.told shelf.old) (F.told shelf.new) }
    ensures not_refused { (fault : Fault) → result ≡ Err (InputError.Refused fault) → ⊥ }
    ensures no_context { IsErrOf result InputError.BadContext → ⊥ }
    ensures failed { IsErrOf result InputError.Failed → FailedOr F.told F.faults shelf.old shelf.new (λ told. LacksPage told.files pages.now) }
    ensures steady { Steady result (F.faults shelf.old) (F.faults shelf.new) }
{
    let mut piece = new_piece(alloc)?;
    gather_by(alloc, shelf, syntax, context, pages, &mut piece, many)
}

/// Reads the pages one after another by this piece, and adds what each gives.
fn gather_by<F: Shelf>(
    alloc: Global,
    shelf: &mut F,
    syntax: Syntax,
    context: &Context,
    pages: &Pages,
    piece: &mut Vec<u8>,
    many: &mut Many,
) -> Result<(), InputError>
    requires { IsPiece (vec_len piece.old) }
    ensures ok { OnOk result (AddsPages context.now syntax pages.now many.old many.new (F.told shelf.old) (F.told shelf.new)) }
    ensures takes { WhereKnown (TakesParts context.now syntax pages.now) (F.told shelf.old) (F.told shelf.new) }
    ensures not_refused { (fault : Fault) → result ≡ Err (InputError.Refused fault) → ⊥ }
    ensures no_context { IsErrOf result InputError.BadContext → ⊥ }
    ensures failed { IsErrOf result InputError.Failed → FailedOr F.told F.faults shelf.old shelf.new (λ told. LacksPage told.files pages.now) }
    ensures steady { Steady result (F.faults shelf.old) (F.faults shelf.new) }
{
    for i in 0..pages.len() {
        let (address, page) = pages.at(i);
        match gather_page(alloc, shelf, syntax, context, address, page, piece, many) {
            Ok(()) => {}
            Err(error) => return Err(error),
        }
    }
    Ok(())
}

/// Reads a page, and adds what it gives.
fn gather_page<F: Shelf>(
    alloc: Global,
    shelf: &mut F,
    syntax: Syntax,
    context: &Context,
    address: &Iri,
    page: &Text,
    piece: &mut Vec<u8>,
    many: &mut Many,
) -> Result<(), InputError>
    requires { IsPiece (vec_len piece.old) }
    ensures ok { OnOk result (GathersPage context.now syntax (page_at address.now page.now) many.old many.new (F.told shelf.old) (F.told shelf.new)) }
    ensures takes { WhereKnown (TakesPart context.now syntax (page_at address.now page.now)) (F.told shelf.old) (F.told shelf.new) }
    ensures not_refused { (fault : Fault) → result ≡ Err (InputError.Refused fault) → ⊥ }
    ensures no_context { IsErrOf result InputError.BadContext → ⊥ }
    ensures failed { IsErrOf result InputError.Failed → FailedOrLacks F.told F.faults shelf.old shelf.new (encode_utf8_all page.now) }
    ensures room { IsPiece (vec_len piece.new) }
    ensures later { F.faults shelf.old ≤ F.faults shelf.new }
    ensures steady { Steady result (F.faults shelf.old) (F.faults shelf.new) }
{
    let approach = approach_of(alloc, syntax, context, address)?;
    match read_page_by(alloc, shelf, page.as_str(), approach, piece) {
        Ok(list) => Ok(accept(alloc, address, list, many)?),
        Err(InputError::Refused(fault)) => Ok(many.refuse(address, fault)?),
        Err(InputError::Failed) => Err(InputError::Failed),
        Err(InputError::BadContext) => unreachable!(),
        Err(InputError::NoMemory) => Err(InputError::NoMemory),
    }
}

/// How a page of this address is read, with names of its own.
fn approach_of(
    alloc: Global,
    syntax: Syntax,
    context: &Context,
    address: &Iri,
) -> Result<Approach, NoMemory>
    ensures syntax { IfOk result (λ approach. approach.syntax ≡ syntax) }
    ensures context { IfOk result (λ approach. approach.context ≡ context.now) }
    ensures address { IfOk result (λ approach. approach.address ≡ address.now) }
{
    let context = context.try_clone(alloc)?;
    let Ok(address) = address.try_clone() else {
        drop(context);
        return Err(NoMemory);
    };
    Ok(Approach {
        syntax,
        context,
        address,
    })
}

/// Adds the page of this address, which gives the graph of the triples.
fn accept(alloc: Global, address: &Iri, list: TripleList, many: &mut Many) -> Result<(), NoMemory>
    ensures { OnOk result (many.new ≡ many.old ++ accepted_page address.now (graph_made list) ∷ []) }
{
    let graph = graph_of(alloc, list)?;
    many.add_owned(address, graph)
}
