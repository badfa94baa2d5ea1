//! The top call.
ghost use Rattle.std.specs.Prelude.{◌≡◌, ◌≢◌, ◌≤◌, ℕ, List, None, IfOk, IsErrOf, OnOk, is_some, true, string_bytes};
ghost use Rattle.rx_ports.specs.Counts.{Rose};
ghost use Rattle.rx_ports.specs.Shelves.{WhereKnown, GrowsBy, GrowsByPart, Stays};
ghost use Rattle.rx_job.specs.Jobs.{several_seen};
ghost use Rattle.rx_job.specs.Words.{gathering_asked, job, most_items, page_asked, samples};
ghost use Rattle.rx_command.specs.Contexts.{TakesContext, context_asked};
ghost use Rattle.rx_command.specs.Endings.{RunEnds};
ghost use Rattle.rx_command.specs.Runs.{EndsSo, WhereRefused, WhereSample, ReadCause, TakesToFault, StopsCleanly, GatheringEnds, SampleEnds, Says, SaysNothing, usage_line, context_line, refused_with};
ghost use Rattle.rx_page.specs.Written.{Denoted, output_text};
ghost use Rattle.rx_grammar.specs.Kinds.{refused_line};

use crate::errors::InputError;
use crate::gathering::gather;
use crate::inputs::outcome_of_job;
use crate::samples::sample;
use crate::statuses::Status;
use rx_grammar::name_of;
use rx_job::{Asking, Job, JobError, Several};
use rx_nquads::WriteError;
use rx_page::Outcome;
use rx_ports::{Shelf, Sink, put_all};
use rx_terms::{NoMemory, Text};
use rx_walk::Fault;
use std::alloc::{AllocError, Global};
use std::mem::ManuallyDrop;

const USAGE: &[u8] = b"usage: rdfax extract|items|check|sample\n";

const BAD_CONTEXT: &[u8] = b"refused: context file\n";

/// Does what the words ask for, which are those after the program's name: reads the context file, where one is named,
/// and the page or the pages from the shelf, writes their text to `out`, and says on `err` why there is none.
///
/// What is said of the files' bytes is said of a shelf that tells its files, and what is said of the bytes written of
/// a sink that tells what it holds. What a run meets first decides: the words, then the context file, then the page,
/// or page after page, then writing. Want of memory may come in place of any other answer, at any place before the
/// first byte is written.
pub fn run<F: Shelf, O: Sink, E: Sink>(
    alloc: Global,
    words: &[Text],
    shelf: &mut F,
    out: &mut O,
    err: &mut E,
) -> Status
    // The promise as one statement, for all words, and for all shelves that tell their files. There is one answer that is right
    // for them: a status, a text and a line. The words ask for nothing, or for a sample; or a page has one text for the task,
    // which denotes exactly what the task finds in the page's one tree, or one fault; or several pages have one document; or a
    // file is missing, or the context file is none. The run gives this answer, out having grown by the text, and err by the line,
    // or by a front of it where err failed; or the shelf failed, or out, which has then grown by a proper front of the text; or
    // there was no memory.
    // No more is read than the named files have together, nor more than a piece past the limit of each page and, where a context
    // file is named, one byte past the largest of these; of several pages each that has a fault is read no further than a piece
    // past the byte that decides it. No more files are started than are named. Where a text was written, exactly as many were:
    // none twice, since each had to be read; and a page that alone is asked for was read to its end.
    ensures ends { RunEnds words.now result
        (record {
          told = F.told shelf.old;
          read_faults = F.faults shelf.old;
          held = O.held out.old;
          write_faults = O.faults out.old;
          said = E.held err.old;
          say_faults = E.faults err.old;
        })
        (record {
          told = F.told shelf.new;
          read_faults = F.faults shelf.new;
          held = O.held out.new;
          write_faults = O.faults out.new;
          said = E.held err.new;
          say_faults = E.faults err.new;
        }) }
    // A shelf that failed ends the run, and so does out: where its count of faults isn't what it was, there is no other answer.
    ensures reads_on { result ≢ Status.ReadFault → F.faults shelf.new ≡ F.faults shelf.old }
    ensures writes_on { result ≢ Status.WriteFault → O.faults out.new ≡ O.faults out.old }

    // What a shelf that tells nothing leaves to be said. Usage comes only where the words ask for nothing, and then the shelf is
    // as it was. Where they ask for nothing there is no other answer but want of memory.
    ensures usage { result ≡ Status.Usage → job words.now ≡ None }
    ensures only_usage { job words.now ≡ None → EndsSo result Status.Usage }
    ensures untouched { result ≡ Status.Usage → shelf.new ≡ shelf.old }
    // Refused never comes where several pages are asked for, and BadContext only where the words name a context file.
    ensures refuses_one { WhereRefused result (λ fault. gathering_asked words.now ≡ None) }
    ensures names_context { result ≡ Status.BadContext → is_some (context_asked words.now) ≡ true }
    // ReadFault comes only where the shelf failed, or lacks a file that is wanted, and WriteFault only where out failed.
    ensures read_fault { result ≡ Status.ReadFault → ReadCause words.now (F.told shelf.old) (F.faults shelf.old) (F.faults shelf.new) }
    ensures write_fault { result ≡ Status.WriteFault → Rose (O.faults out.old) (O.faults out.new) }
    // On any other status but Done nothing is written.
    ensures nothing_written { result ≢ Status.Done → result ≢ Status.WriteFault → WhereKnown Stays (O.held out.old) (O.held out.new) }
    // What err is told: one line on Usage, on Refused and on BadContext, or a front of it where err failed. On other
    // statuses it is told nothing, and didn't fail.
    ensures says_usage { result ≡ Status.Usage → Says usage_line (E.held err.old) (E.held err.new) (E.faults err.old) (E.faults err.new) }
    ensures says_refused { WhereRefused result (λ fault. Says (refused_line fault) (E.held err.old) (E.held err.new) (E.faults err.old) (E.faults err.new)) }
    ensures says_context { result ≡ Status.BadContext → Says context_line (E.held err.old) (E.held err.new) (E.faults err.old) (E.faults err.new) }
    ensures says_nothing { result ≢ Status.Usage → result ≢ Status.BadContext → ((fault : Fault) → result ≢ Status.Refused fault) →
        SaysNothing (E.held err.old) (E.held err.new) (E.faults err.old) (E.faults err.new) }
    // A sample leaves the shelf as it was, and ends with its line written, or a front of it where out failed, or in want of memory,
    // whatever the shelf and the sinks tell: no page of a sample is refused.
    ensures sample { WhereSample (job words.now) (λ count. SampleEnds count result (O.held out.old) (O.held out.new) (O.faults out.old) (O.faults out.new)) }
    ensures sample_reads { WhereSample (job words.now) (λ count. shelf.new ≡ shelf.old) }

    // What of a page that alone is asked for is read, where no text was written. One that is refused is read no further than 65,536
    // bytes past the byte that decides the fault, unless that is an item's, which is found once the page has ended. Where the shelf
    // failed, what was read of it holds no fault but that it ends.
    ensures refused_takes { WhereRefused result (λ fault. WhereKnown (TakesToFault (page_asked words.now) fault) (F.told shelf.old) (F.told shelf.new)) }
    ensures cleanly { result ≡ Status.ReadFault → WhereKnown (StopsCleanly (page_asked words.now)) (F.told shelf.old) (F.told shelf.new) }
    // Of a context file that is none no more is read than it has.
    ensures takes_context { result ≡ Status.BadContext → WhereKnown (TakesContext (context_asked words.now)) (F.told shelf.old) (F.told shelf.new) }
{
    let job = match Job::of(alloc, words) {
        Ok(job) => job,
        Err(JobError::Usage) => {
            say(err, USAGE);
            return Status::Usage;
        }
        Err(JobError::NoMemory) => return Status::Memory,
    };
    match job.asking() {
        Asking::Sample(count) => {
            drop(job);
            return run_sample(alloc, count, out);
        }
        Asking::Several(several) => {
            let status = run_several(alloc, shelf, several, out, err);
            drop(job);
            return status;
        }
        Asking::Page => {}
    }
    match outcome_of_job(alloc, shelf, job) {
        Ok(outcome) => match write(alloc, outcome, out) {
            Ok(()) => Status::Done,
            Err(WriteError::Failed) => Status::WriteFault,
            Err(WriteError::NoMemory) => Status::Memory,
        },
        Err(InputError::Failed) => Status::ReadFault,
        Err(InputError::BadContext) => {
            say(err, BAD_CONTEXT);
            Status::BadContext
        }
        Err(InputError::Refused(fault)) => match line_of(alloc, fault) {
            Ok(line) => {
                say(err, line.as_bytes());
                drop(line);
                Status::Refused(fault)
            }
            Err(_no_memory) => Status::Memory,
        },
        Err(InputError::NoMemory) => Status::Memory,
    }
}

/// Writes the outcome's text, and doesn't let go of what it takes.
fn write<O: Sink>(alloc: Global, outcome: Outcome, out: &mut O) -> Result<(), WriteError>
    ensures ok { OnOk result (WhereKnown (GrowsBy (output_text outcome)) (O.held out.old) (O.held out.new)) }
    ensures denoted { OnOk result (Denoted outcome) }
    ensures partly { IsErrOf result WriteError.Failed → WhereKnown (GrowsByPart (output_text outcome)) (O.held out.old) (O.held out.new) }
    ensures cause { IsErrOf result WriteError.Failed → Rose (O.faults out.old) (O.faults out.new) }
    ensures steady { OnOk result (O.faults out.new ≡ O.faults out.old) }
    ensures untouched { IsErrOf result WriteError.NoMemory → out.new ≡ out.old }
{
    let written = outcome.write(alloc, out);
    // The program ends behind this, and what it has goes with it as a whole.
    let _kept = ManuallyDrop::new(outcome);
    written
}

/// Writes the line that is said of the sample page.
fn run_sample<O: Sink>(alloc: Global, count: u32, out: &mut O) -> Status
    requires { count ≤ most_items }
    ensures ends { SampleEnds count result (O.held out.old) (O.held out.new) (O.faults out.old) (O.faults out.new) }
    ensures writes_on { result ≢ Status.WriteFault → O.faults out.new ≡ O.faults out.old }
{
    match sample(alloc, count) {
        Ok(line) => match put_all(out, line.as_slice()) {
            Ok(()) => Status::Done,
            Err(_failed) => Status::WriteFault,
        },
        Err(NoMemory) => Status::Memory,
    }
}

/// Writes the document of several pages, once all of them are read.
fn run_several<F: Shelf, O: Sink, E: Sink>(
    alloc: Global,
    shelf: &mut F,
    several: Several<'_>,
    out: &mut O,
    err: &mut E,
) -> Status
    ensures reads_on { result ≢ Status.ReadFault → F.faults shelf.new ≡ F.faults shelf.old }
    ensures writes_on { result ≢ Status.WriteFault → O.faults out.new ≡ O.faults out.old }
    ensures ends { GatheringEnds (several_seen several.entry) result
        (record {
          told = F.told shelf.old;
          read_faults = F.faults shelf.old;
          held = O.held out.old;
          write_faults = O.faults out.old;
          said = E.held err.old;
          say_faults = E.faults err.old;
        })
        (record {
          told = F.told shelf.new;
          read_faults = F.faults shelf.new;
          held = O.held out.new;
          write_faults = O.faults out.new;
          said = E.held err.new;
          say_faults = E.faults err.new;
        }) }
{
    let many = match gather(alloc, shelf, several) {
        Ok(many) => many,
        Err(InputError::Failed) => return Status::ReadFault,
        Err(InputError::BadContext) => {
            say(err, BAD_CONTEXT);
            return Status::BadContext;
        }
        Err(InputError::Refused(_fault)) => unreachable!(),
        Err(InputError::NoMemory) => return Status::Memory,
    };
    let text = many.text(alloc);
    // As in `write`.
    let _kept = ManuallyDrop::new(many);
    match text {
        Ok(text) => match put_all(out, text.as_slice()) {
            Ok(()) => Status::Done,
            Err(_failed) => Status::WriteFault,
        },
        Err(NoMemory) => Status::Memory,
    }
}

/// What is said of a refusal.
fn line_of(alloc: Global, fault: Fault) -> Result<String, AllocError>
    ensures { IfOk result (λ line. string_bytes line ≡ refused_line fault) }
{
    refusal(alloc, name_of(fault.kind), fault.at, fault.token)
}

fn refusal(alloc: Global, kind: &str, at: u64, token: u64) -> Result<String, AllocError>
    ensures { IfOk result (λ line. string_bytes line ≡ refused_with kind.now at token) }
{
    format!(in alloc; "refused: {kind} at byte {at} in token {token}\n")
}

/// Writes a line to err, whose failure changes nothing.
fn say<E: Sink>(err: &mut E, line: &[u8])
    ensures { Says line.now (E.held err.old) (E.held err.new) (E.faults err.old) (E.faults err.new) }
{
    match put_all(err, line) {
        Ok(()) => {}
        Err(_failed) => {}
    }
}
