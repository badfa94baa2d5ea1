//! Doing a job: its context file is read, and then its page.
ghost use Rattle.std.specs.Prelude.{◌≡◌, ◌≤◌, IfOk, IsErrOf, Err, Some, encode_utf8_all, is_some, true, false};
ghost use Rattle.rx_ports.specs.Shelves.{WhereKnown};
ghost use Rattle.rx_job.specs.Words.{checks};
ghost use Rattle.rx_job.specs.Jobs.{page_by, reads_page, has_context, text_in};
ghost use Rattle.rx_command.specs.Files.{TakesOf};
ghost use Rattle.rx_command.specs.Reading.{page_limit};
ghost use Rattle.rx_rdfa.specs.Names.{Context as RulesContext};
ghost use Rattle.rx_page.specs.Settings.{item_way, rdfa_way};
ghost use Rattle.rx_command.specs.Ways.{approach_way, extracts_by, itemizes_by};
ghost use Rattle.rx_command.specs.Contexts.{IsContextFile, ReadsContext, TakesContext, LacksContext, HasWrongContext};
ghost use Rattle.rx_command.specs.Outcome.{IsLacking};
ghost use Rattle.rx_command.specs.Inputs.{JobText, JobRefused, WhereTold};
ghost use Rattle.rx_command.specs.Runs.{TakesFiles, StopsCleanly};
ghost use Rattle.rx_command.specs.Calls.{MovesShelf, GivesText, RefusesBy, RefusesPage, StopsBy, FailedOr, FailedOrLacks, Steady};

use crate::errors::InputError;
use crate::files::{ReadError, read_file};
use crate::pages::{Approach, check_page, read_items, read_page};
use rx_job::{Format, Job};
use rx_names::{Context, ContextError};
use rx_page::{Form, LARGEST_CONTEXT, Outcome, context_of, text_of_items};
use rx_ports::Shelf;
use rx_terms::{Iri, Text};
use rx_walk::{Fault, Stop, Syntax};
use std::alloc::Global;

/// What the job's page gives, which is read after the context file, where one is named.
pub(crate) fn outcome_of_job<F: Shelf>(
    alloc: Global,
    shelf: &mut F,
    job: Job,
) -> Result<Outcome, InputError>
    requires { reads_page job ≡ true }
    ensures ok { MovesShelf result (JobText (page_by job)) (F.told shelf.old) (F.told shelf.new) }
    ensures refused { RefusesBy result (JobRefused (page_by job)) (F.told shelf.old) (F.told shelf.new) }
    ensures takes { WhereKnown (TakesFiles (Some (page_by job))) (F.told shelf.old) (F.told shelf.new) }
    ensures bad { IsErrOf result InputError.BadContext → WhereTold (HasWrongContext (page_by job).context) (F.told shelf.old) }
    ensures bad_takes { IsErrOf result InputError.BadContext → WhereKnown (TakesContext (page_by job).context) (F.told shelf.old) (F.told shelf.new) }
    ensures named { IsErrOf result InputError.BadContext → is_some (page_by job).context ≡ true }
    ensures failed { IsErrOf result InputError.Failed → FailedOr F.told F.faults shelf.old shelf.new (IsLacking (page_by job)) }
    ensures cleanly { IsErrOf result InputError.Failed → WhereKnown (StopsCleanly (Some (page_by job))) (F.told shelf.old) (F.told shelf.new) }
    ensures later { F.faults shelf.old ≤ F.faults shelf.new }
    ensures steady { Steady result (F.faults shelf.old) (F.faults shelf.new) }
{
    let outcome = outcome_by(alloc, shelf, &job);
    drop(job);
    outcome
}

/// The same of a job that is lent.
fn outcome_by<F: Shelf>(alloc: Global, shelf: &mut F, job: &Job) -> Result<Outcome, InputError>
    requires { reads_page job.now ≡ true }
    ensures ok { MovesShelf result (JobText (page_by job.now)) (F.told shelf.old) (F.told shelf.new) }
    ensures refused { RefusesBy result (JobRefused (page_by job.now)) (F.told shelf.old) (F.told shelf.new) }
    ensures takes { WhereKnown (TakesFiles (Some (page_by job.now))) (F.told shelf.old) (F.told shelf.new) }
    ensures bad { IsErrOf result InputError.BadContext → WhereTold (HasWrongContext (page_by job.now).context) (F.told shelf.old) }
    ensures bad_takes { IsErrOf result InputError.BadContext → WhereKnown (TakesContext (page_by job.now).context) (F.told shelf.old) (F.told shelf.new) }
    ensures named { IsErrOf result InputError.BadContext → is_some (page_by job.now).context ≡ true }
    ensures failed { IsErrOf result InputError.Failed → FailedOr F.told F.faults shelf.old shelf.new (IsLacking (page_by job.now)) }
    ensures cleanly { IsErrOf result InputError.Failed → WhereKnown (StopsCleanly (Some (page_by job.now))) (F.told shelf.old) (F.told shelf.new) }
    ensures later { F.faults shelf.old ≤ F.faults shelf.new }
    ensures steady { Steady result (F.faults shelf.old) (F.faults shelf.new) }
{
    match job {
        Job::Items {
            syntax,
            address,
            page,
        } => {
            let address = address.try_clone()?;
            itemize(alloc, shelf, page, *syntax, address)
        }
        _ => outcome_under_context(alloc, shelf, job),
    }
}

/// What the page gives of a job in which a context holds.
fn outcome_under_context<F: Shelf>(
    alloc: Global,
    shelf: &mut F,
    job: &Job,
) -> Result<Outcome, InputError>
    requires { has_context job.now ≡ true }
    ensures ok { MovesShelf result (JobText (page_by job.now)) (F.told shelf.old) (F.told shelf.new) }
    ensures refused { RefusesBy result (JobRefused (page_by job.now)) (F.told shelf.old) (F.told shelf.new) }
    ensures takes { WhereKnown (TakesFiles (Some (page_by job.now))) (F.told shelf.old) (F.told shelf.new) }
    ensures bad { IsErrOf result InputError.BadContext → WhereTold (HasWrongContext (page_by job.now).context) (F.told shelf.old) }
    ensures bad_takes { IsErrOf result InputError.BadContext → WhereKnown (TakesContext (page_by job.now).context) (F.told shelf.old) (F.told shelf.new) }
    ensures named { IsErrOf result InputError.BadContext → is_some (page_by job.now).context ≡ true }
    ensures failed { IsErrOf result InputError.Failed → FailedOr F.told F.faults shelf.old shelf.new (IsLacking (page_by job.now)) }
    ensures cleanly { IsErrOf result InputError.Failed → WhereKnown (StopsCleanly (Some (page_by job.now))) (F.told shelf.old) (F.told shelf.new) }
    ensures later { F.faults shelf.old ≤ F.faults shelf.new }
    ensures steady { Steady result (F.faults shelf.old) (F.faults shelf.new) }
{
    let context = match read_context(alloc, shelf, job.context()) {
        Ok(context) => context,
        Err(error) => return Err(error),
    };
    match job {
        Job::Extract {
            syntax,
            format,
            graph,
            address,
            page,
            ..
        } => {
            let Ok(address) = address.try_clone() else {
                drop(context);
                return Err(InputError::NoMemory);
            };
            let approach = Approach {
                syntax: *syntax,
                context,
                address,
            };
            extract(alloc, shelf, page, approach, *format, graph.as_ref())
        }
        Job::Check { syntax, page, .. } => check(alloc, shelf, page, *syntax, context),
        Job::Items { .. } => unreachable!(),
        Job::Many { .. } => unreachable!(),
        Job::Sample { .. } => unreachable!(),
    }
}

/// The graph of a page's triples, which is written in this format, and has this name, or none.
fn extract<F: Shelf>(
    alloc: Global,
    shelf: &mut F,
    page: &Text,
    approach: Approach,
    format: Format,
    graph: Option<&Iri>,
) -> Result<Outcome, InputError>
    ensures ok { GivesText result (extracts_by approach format graph.entry) approach.context page.now (F.told shelf.old) (F.told shelf.new) }
    ensures refused { RefusesPage result (extracts_by approach format graph.entry) approach.context page.now (F.told shelf.old) (F.told shelf.new) }
    ensures takes { WhereKnown (TakesOf (encode_utf8_all page.now) page_limit) (F.told shelf.old) (F.told shelf.new) }
    ensures context { IsErrOf result InputError.BadContext → ⊥ }
    ensures failed { IsErrOf result InputError.Failed → FailedOrLacks F.told F.faults shelf.old shelf.new (encode_utf8_all page.now) }
    ensures cleanly { StopsBy result (approach_way approach) (encode_utf8_all page.now) (F.told shelf.old) (F.told shelf.new) }
    ensures later { F.faults shelf.old ≤ F.faults shelf.new }
    ensures steady { Steady result (F.faults shelf.old) (F.faults shelf.new) }
{
    let Ok(form) = Form::of(alloc, format, graph, &approach.context) else {
        drop(approach);
        return Err(InputError::NoMemory);
    };
    let list = match read_page(alloc, shelf, page.as_str(), approach) {
        Ok(list) => list,
        Err(error) => {
            drop(form);
            return Err(error);
        }
    };
    Ok(Outcome::of(alloc, list, form)?)
}

/// The text of a page's items.
fn itemize<F: Shelf>(
    alloc: Global,
    shelf: &mut F,
    page: &Text,
    syntax: Syntax,
    address: Iri,
) -> Result<Outcome, InputError>
    ensures ok { (context : RulesContext) → GivesText result (itemizes_by syntax address) context page.now (F.told shelf.old) (F.told shelf.new) }
    ensures refused { (context : RulesContext) → RefusesPage result (itemizes_by syntax address) context page.now (F.told shelf.old) (F.told shelf.new) }
    ensures takes { WhereKnown (TakesOf (encode_utf8_all page.now) page_limit) (F.told shelf.old) (F.told shelf.new) }
    ensures no_context { IsErrOf result InputError.BadContext → ⊥ }
    ensures failed { IsErrOf result InputError.Failed → FailedOrLacks F.told F.faults shelf.old shelf.new (encode_utf8_all page.now) }
    ensures cleanly { StopsBy result (item_way syntax) (encode_utf8_all page.now) (F.told shelf.old) (F.told shelf.new) }
    ensures later { F.faults shelf.old ≤ F.faults shelf.new }
    ensures steady { Steady result (F.faults shelf.old) (F.faults shelf.new) }
{
    let found = match read_items(alloc, shelf, page.as_str(), syntax, address) {
        Ok(found) => found,
        Err(error) => return Err(error),
    };
    match text_of_items(alloc, &found) {
        Ok(text) => {
            drop(found);
            Ok(Outcome::Json(text))
        }
        Err(Stop::Fault(fault)) => {
            drop(found);
            Err(InputError::Refused(fault))
        }
        Err(Stop::NoMemory) => {
            drop(found);
            Err(InputError::NoMemory)
        }
    }
}

/// Reads a page for its faults.
fn check<F: Shelf>(
    alloc: Global,
    shelf: &mut F,
    page: &Text,
    syntax: Syntax,
    context: Context,
) -> Result<Outcome, InputError>
    ensures ok { GivesText result (checks syntax) context page.now (F.told shelf.old) (F.told shelf.new) }
    ensures refused { RefusesPage result (checks syntax) context page.now (F.told shelf.old) (F.told shelf.new) }
    ensures takes { WhereKnown (TakesOf (encode_utf8_all page.now) page_limit) (F.told shelf.old) (F.told shelf.new) }
    ensures no_context { IsErrOf result InputError.BadContext → ⊥ }
    ensures failed { IsErrOf result InputError.Failed → FailedOrLacks F.told F.faults shelf.old shelf.new (encode_utf8_all page.now) }
    ensures cleanly { StopsBy result (rdfa_way syntax context) (encode_utf8_all page.now) (F.told shelf.old) (F.told shelf.new) }
    ensures later { F.faults shelf.old ≤ F.faults shelf.new }
    ensures steady { Steady result (F.faults shelf.old) (F.faults shelf.new) }
{
    match check_page(alloc, shelf, page.as_str(), syntax, context) {
        Ok(()) => Ok(Outcome::Right),
        Err(error) => Err(error),
    }
}

/// The context that holds: that of the file, where one is named, else the standard one.
pub(crate) fn read_context<F: Shelf>(
    alloc: Global,
    shelf: &mut F,
    file: Option<&Text>,
) -> Result<Context, InputError>
    ensures ok { IfOk result (λ context. WhereKnown (ReadsContext (text_in file.entry) context) (F.told shelf.old) (F.told shelf.new)) }
    ensures takes { WhereKnown (TakesContext (text_in file.entry)) (F.told shelf.old) (F.told shelf.new) }
    ensures bad { IsErrOf result InputError.BadContext → WhereTold (HasWrongContext (text_in file.entry)) (F.told shelf.old) }
    ensures named { IsErrOf result InputError.BadContext → is_some (text_in file.entry) ≡ true }
    ensures not_refused { (fault : Fault) → result ≡ Err (InputError.Refused fault) → ⊥ }
    ensures failed { IsErrOf result InputError.Failed → FailedOr F.told F.faults shelf.old shelf.new (LacksContext (text_in file.entry)) }
    ensures later { F.faults shelf.old ≤ F.faults shelf.new }
    ensures steady { Steady result (F.faults shelf.old) (F.faults shelf.new) }
{
    match file {
        None => Ok(Context::standard(alloc)?),
        Some(file) => read_named_context(alloc, shelf, file),
    }
}

fn read_named_context<F: Shelf>(
    alloc: Global,
    shelf: &mut F,
    file: &Text,
) -> Result<Context, InputError>
    ensures ok { IfOk result (λ context. WhereKnown (ReadsContext (Some file.now) context) (F.told shelf.old) (F.told shelf.new)) }
    ensures takes { WhereKnown (TakesContext (Some file.now)) (F.told shelf.old) (F.told shelf.new) }
    ensures bad { IsErrOf result InputError.BadContext → WhereTold (IsContextFile file.now false) (F.told shelf.old) }
    ensures not_refused { (fault : Fault) → result ≡ Err (InputError.Refused fault) → ⊥ }
    ensures failed { IsErrOf result InputError.Failed → FailedOr F.told F.faults shelf.old shelf.new (LacksContext (Some file.now)) }
    ensures later { F.faults shelf.old ≤ F.faults shelf.new }
    ensures steady { Steady result (F.faults shelf.old) (F.faults shelf.new) }
{
    let bytes = match read_file(alloc, shelf, file.as_str(), LARGEST_CONTEXT) {
        Ok(bytes) => bytes,
        Err(ReadError::Failed) => return Err(InputError::Failed),
        Err(ReadError::NoMemory) => return Err(InputError::NoMemory),
    };
    match context_of(alloc, bytes.as_slice()) {
        Ok(context) => Ok(context),
        Err(ContextError::BadContext) => Err(InputError::BadContext),
        Err(ContextError::NoMemory) => Err(InputError::NoMemory),
    }
}
