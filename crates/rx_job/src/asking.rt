//! What a job asks for, as its caller goes on with it.
ghost use Rattle.rx_job.specs.Jobs.{AsksFor};

use crate::jobs::Job;
use crate::pages::Pages;
use rx_chars::Syntax;
use rx_terms::Text;

/// Several pages that are asked for together: their syntax, the name of their context file, if any, and each page with its
/// address.
#[derive(Clone, Copy, Debug)]
pub struct Several<'a> {
    pub syntax: Syntax,
    pub context: Option<&'a Text>,
    pub pages: &'a Pages,
}

/// What is asked for.
#[derive(Clone, Copy, Debug)]
pub enum Asking<'a> {
    /// That one page be read.
    Page,
    /// That several pages be read, and their graphs gathered.
    Several(Several<'a>),
    /// A sample page of so many items.
    Sample(u32),
}

impl Job {
    /// Whether the job asks for one page, for several, or for a sample.
    pub fn asking(&self) -> Asking<'_>
        ensures { AsksFor self.now result }
    {
        match self {
            Job::Many {
                syntax,
                context,
                pages,
            } => Asking::Several(Several {
                syntax: *syntax,
                context: context.as_ref(),
                pages,
            }),
            Job::Sample { count } => Asking::Sample(*count),
            _ => Asking::Page,
        }
    }
}
