//! What the words of the command line ask for.
ghost use Rattle.std.specs.Prelude.{◌≡◌, option_map};
ghost use Rattle.rx_job.specs.Words.{job, reads, gathers, extraction, itemization, checking, sampling, several};
ghost use Rattle.rx_job.specs.Jobs.{page_by, given_seen, text_in, IsJob};

use crate::arguments::{Arguments, arguments_of, front_of};
use crate::errors::JobError;
use crate::formats::{Format, format_of};
use crate::listing::{are_few, pages_of};
use crate::pages::Pages;
use crate::values::{copied, graph_of, iri_of, syntax_of};
use crate::words::{are_names, count_of, is_file_if_any, is_page_name, is_word};
use rx_chars::Syntax;
use rx_terms::{Iri, Text};
use std::alloc::Global;

/// What is asked for.
#[derive(Debug, Drop)]
pub enum Job {
    /// The triples of the page of this name, whose address is given, with the names of a context file or the standard
    /// ones; they are written in this format, and stand in the graph of this name, if any.
    Extract {
        syntax: Syntax,
        format: Format,
        graph: Option<Iri>,
        context: Option<Text>,
        address: Iri,
        page: Text,
    },
    /// The items of the page of this name, in this syntax, whose address is given.
    Items {
        syntax: Syntax,
        address: Iri,
        page: Text,
    },
    /// The faults of the page of this name, in this syntax, with the names of a context file or the standard ones.
    Check {
        syntax: Syntax,
        context: Option<Text>,
        page: Text,
    },
    /// The dataset of the pages, each with its address, in this syntax, with the names of a context file or the standard
    /// ones.
    Many {
        syntax: Syntax,
        context: Option<Text>,
        pages: Pages,
    },
    /// The sample page of so many items, from 1 to 100,000.
    Sample {
        count: u32,
    },
}

impl Job {
    /// The job that the words ask for, which are those after the program's name. Usage comes exactly where they ask
    /// for nothing.
    pub fn of(alloc: Global, words: &[Text]) -> Result<Job, JobError>
        ensures { IsJob (job words.now) result }
    {
        let Some((task, behind)) = words.split_first() else {
            return Err(JobError::Usage);
        };
        if is_word(task, "sample") {
            return Job::sampling(behind);
        }
        if is_word(task, "many") {
            return Job::gathering(alloc, behind);
        }
        let Some(arguments) = arguments_of(behind) else {
            return Err(JobError::Usage);
        };
        if is_word(task, "extract") {
            return Job::extraction(alloc, arguments);
        }
        if is_word(task, "items") {
            return Job::itemization(alloc, arguments);
        }
        if is_word(task, "check") {
            return Job::checking(alloc, arguments);
        }
        Err(JobError::Usage)
    }

    fn extraction(alloc: Global, given: Arguments<'_>) -> Result<Job, JobError>
        ensures { IsJob (option_map reads (extraction (given_seen given.entry))) result }
    {
        let options = given.options;
        let Some(syntax) = syntax_of(options.syntax) else {
            return Err(JobError::Usage);
        };
        let Some(format) = format_of(options.format) else {
            return Err(JobError::Usage);
        };
        let Some(address) = options.base else {
            return Err(JobError::Usage);
        };
        let graph = graph_of(alloc, format, options.graph)?;
        let address = iri_of(alloc, address)?;
        if !are_names(options.context, given.last) {
            return Err(JobError::Usage);
        }
        let context = copied(options.context)?;
        let page = given.last.try_clone()?;
        Ok(Job::Extract {
            syntax,
            format,
            graph,
            context,
            address,
            page,
        })
    }

    fn itemization(alloc: Global, given: Arguments<'_>) -> Result<Job, JobError>
        ensures { IsJob (option_map reads (itemization (given_seen given.entry))) result }
    {
        let options = given.options;
        let Some(syntax) = syntax_of(options.syntax) else {
            return Err(JobError::Usage);
        };
        let None = options.format else {
            return Err(JobError::Usage);
        };
        let None = options.graph else {
            return Err(JobError::Usage);
        };
        let None = options.context else {
            return Err(JobError::Usage);
        };
        let Some(address) = options.base else {
            return Err(JobError::Usage);
        };
        let address = iri_of(alloc, address)?;
        if !is_page_name(given.last.as_str()) {
            return Err(JobError::Usage);
        }
        let page = given.last.try_clone()?;
        Ok(Job::Items {
            syntax,
            address,
            page,
        })
    }

    fn checking(alloc: Global, given: Arguments<'_>) -> Result<Job, JobError>
        ensures { IsJob (option_map reads (checking (given_seen given.entry))) result }
    {
        let options = given.options;
        let Some(syntax) = syntax_of(options.syntax) else {
            return Err(JobError::Usage);
        };
        let None = options.format else {
            return Err(JobError::Usage);
        };
        let None = options.graph else {
            return Err(JobError::Usage);
        };
        let None = options.base else {
            return Err(JobError::Usage);
        };
        if !are_names(options.context, given.last) {
            return Err(JobError::Usage);
        }
        let context = copied(options.context)?;
        let page = given.last.try_clone()?;
        Ok(Job::Check {
            syntax,
            context,
            page,
        })
    }

    fn gathering(alloc: Global, words: &[Text]) -> Result<Job, JobError>
        ensures { IsJob (option_map gathers (several words.now)) result }
    {
        let Some(front) = front_of(words) else {
            return Err(JobError::Usage);
        };
        let given = front.options;
        let Some(syntax) = syntax_of(given.syntax) else {
            return Err(JobError::Usage);
        };
        let None = given.format else {
            return Err(JobError::Usage);
        };
        let None = given.graph else {
            return Err(JobError::Usage);
        };
        let None = given.base else {
            return Err(JobError::Usage);
        };
        if !is_file_if_any(given.context) {
            return Err(JobError::Usage);
        }
        let pages = pages_of(alloc, front.behind)?;
        if !are_few(&pages) {
            drop(pages);
            return Err(JobError::Usage);
        }
        let Ok(context) = copied(given.context) else {
            drop(pages);
            return Err(JobError::NoMemory);
        };
        Ok(Job::Many {
            syntax,
            context,
            pages,
        })
    }

    fn sampling(words: &[Text]) -> Result<Job, JobError>
        ensures { IsJob (sampling words.now) result }
    {
        let [word] = words else {
            return Err(JobError::Usage);
        };
        match count_of(word) {
            Some(count) => Ok(Job::Sample { count }),
            None => Err(JobError::Usage),
        }
    }

    /// The name of the context file, where one is named. A job of items has none, nor has a sample.
    pub fn context(&self) -> Option<&Text>
        ensures { text_in result ≡ (page_by self.now).context }
    {
        match self {
            Job::Extract { context, .. } => context.as_ref(),
            Job::Items { .. } => None,
            Job::Check { context, .. } => context.as_ref(),
            Job::Many { context, .. } => context.as_ref(),
            Job::Sample { .. } => None,
        }
    }
}
