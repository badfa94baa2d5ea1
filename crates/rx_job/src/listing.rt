//! Pages, as words list them.
ghost use Rattle.std.specs.Prelude.{◌≡◌, MatchResult, Some};
ghost use Rattle.rx_job.specs.Words.{are_few, pages_listed};
ghost use Rattle.rx_job.specs.Jobs.{AddsListed, FailsPage, FailsPages, page_at};

use crate::arguments::next_pair;
use crate::errors::JobError;
use crate::pages::Pages;
use crate::values::iri_of;
use crate::words::is_page_name;
use rx_terms::Text;
use std::alloc::Global;

/// The most pages that are gathered.
const MOST_PAGES: usize = 1_000;

/// Whether the pages are from 1 to 1,000.
pub(crate) fn are_few(pages: &Pages) -> bool
    ensures { result ≡ are_few pages.now }
{
    let count = pages.len();
    1 <= count && count <= MOST_PAGES
}

/// The pages of words that come in pairs, each an address and a page. Usage comes exactly where one is alone, where an
/// address is no IRI, or a page has no name that it may have.
pub(crate) fn pages_of(alloc: Global, words: &[Text]) -> Result<Pages, JobError>
    ensures { MatchResult result (λ pages. pages_listed words.now ≡ Some pages) (FailsPages words.now) }
{
    let mut pages = Pages::new(alloc);
    let mut left = words;
    while let Some((address, page, rest)) = next_pair(left) {
        match add(alloc, &mut pages, address, page) {
            Ok(()) => {}
            Err(error) => {
                drop(pages);
                return Err(error);
            }
        }
        left = rest;
    }
    if !left.is_empty() {
        drop(pages);
        return Err(JobError::Usage);
    }
    Ok(pages)
}

/// Adds a page of this address. Usage comes exactly where that is no IRI, or the page has no name that it may have.
fn add(alloc: Global, pages: &mut Pages, address: &Text, page: &Text) -> Result<(), JobError>
    ensures { MatchResult result (λ _. AddsListed (page_at address.now page.now) pages.old pages.new) (FailsPage (page_at address.now page.now)) }
{
    if !is_page_name(page.as_str()) {
        return Err(JobError::Usage);
    }
    let address = iri_of(alloc, address)?;
    let Ok(page) = page.try_clone() else {
        drop(address);
        return Err(JobError::NoMemory);
    };
    pages.push(address, page)?;
    Ok(())
}
