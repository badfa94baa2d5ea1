//! The calls. Those whose names end with `_given` take no null pointer, and are told whether a name or a file is given: the
//! calls of the header stand above them.
ghost use Rattle.std.specs.Prelude.{◌≡◌, ◌↔◌, ◌≤◌, ◌++◌, None, length, min, take, drop};
ghost use Rattle.rx_session.specs.Requests.{items_wanted, check_in};
ghost use Rattle.rx_session.specs.Sessions.{KeepsQuads, quads_in};
ghost use Rattle.rdfax_c.specs.Calls.{bytes_given, extraction_by, KeepsOpened, OpensPage, FeedsPage, FinishesPage, page_code, page_text, page_nodes, page_quads, page_fault, fault_name, filled, TellsFault, TellsQuad, LendsWhere};

use crate::options::{Options, PageFault, fault_seen, given};
use crate::pages::Page;
use crate::statuses::{DONE, NO_MEMORY, USAGE, answer_code, open_code, state_code};
use crate::terms::{Terms, quad_lent};
use rx_session::{
    OpenError, Session, copy_front, name_of, open_check, open_extraction, open_items,
};
use std::alloc::Global;

/// Opens a page of this address whose triples are wanted. What the page had open before is closed.
#[unsafe(no_mangle)]
pub extern "C" fn rdfax_extract_given(
    alloc: Global,
    options: &Options,
    address: &[u8],
    graph: &[u8],
    has_graph: bool,
    context: &[u8],
    has_context: bool,
    page: &mut Page,
) -> u32
    ensures { OpensPage (extraction_by options.now address.now (bytes_given has_graph graph.now)) (bytes_given has_context context.now) result page.new.handle.session }
{
    let opened = open_extraction(
        alloc,
        options.syntax,
        options.format,
        options.first_node,
        address,
        given(has_graph, graph),
        given(has_context, context),
    );
    keep(alloc, page, opened)
}

/// Opens a page of this address whose items are wanted. What the page had open before is closed.
#[unsafe(no_mangle)]
pub extern "C" fn rdfax_items_given(
    alloc: Global,
    syntax: u32,
    address: &[u8],
    page: &mut Page,
) -> u32
    ensures { OpensPage (items_wanted syntax address.now) None result page.new.handle.session }
{
    let opened = open_items(alloc, syntax, address);
    keep(alloc, page, opened)
}

/// Opens a page whose faults are wanted. What the page had open before is closed.
#[unsafe(no_mangle)]
pub extern "C" fn rdfax_check_given(
    alloc: Global,
    syntax: u32,
    context: &[u8],
    has_context: bool,
    page: &mut Page,
) -> u32
    ensures { OpensPage (check_in syntax) (bytes_given has_context context.now) result page.new.handle.session }
{
    let opened = open_check(alloc, syntax, given(has_context, context));
    keep(alloc, page, opened)
}

/// Keeps what was opened, if anything was, in place of what the page had.
fn keep(alloc: Global, page: &mut Page, opened: Result<Session, OpenError>) -> u32
    ensures { KeepsOpened opened result page.new.handle.session }
{
    let before = page.take(alloc);
    drop(before);
    let session = match opened {
        Ok(session) => session,
        Err(error) => return open_code(error),
    };
    match Box::new(alloc, session) {
        Ok(session) => {
            page.put(session);
            DONE
        }
        Err(refused) => {
            drop(refused);
            NO_MEMORY
        }
    }
}

/// Hands a piece of the page over.
#[unsafe(no_mangle)]
pub extern "C" fn rdfax_feed_given(alloc: Global, page: &mut Page, piece: &[u8]) -> u32
    ensures { FeedsPage piece.now page.old.handle.session result page.new.handle.session }
{
    let Some(mut session) = page.take(alloc) else {
        return USAGE;
    };
    let code = answer_code(session.feed(piece));
    page.put(session);
    code
}

/// The page's end: its text is made, or its quads are there.
#[unsafe(no_mangle)]
pub extern "C" fn rdfax_finish(alloc: Global, page: &mut Page) -> u32
    ensures { FinishesPage page.old.handle.session result page.new.handle.session }
{
    let Some(mut session) = page.take(alloc) else {
        return USAGE;
    };
    let code = answer_code(session.finish(alloc));
    page.put(session);
    code
}

/// Where the page stands.
#[unsafe(no_mangle)]
pub extern "C" fn rdfax_status(alloc: Global, page: &mut Page) -> u32
    ensures code { result ≡ page_code page.old.handle.session }
    ensures kept { page.new.handle.session ≡ page.old.handle.session }
{
    let Some(session) = page.take(alloc) else {
        return USAGE;
    };
    let code = state_code(session.as_ref());
    page.put(session);
    code
}

/// How many bytes the page's text has.
#[unsafe(no_mangle)]
pub extern "C" fn rdfax_text_length(alloc: Global, page: &mut Page) -> usize
    ensures count { result ≡ length (page_text page.old.handle.session) }
    ensures kept { page.new.handle.session ≡ page.old.handle.session }
{
    let Some(session) = page.take(alloc) else {
        return 0;
    };
    let count = session.text().len();
    page.put(session);
    count
}

/// Copies the page's text from this byte on, as far as there is room, and answers how many bytes that are.
#[unsafe(no_mangle)]
pub extern "C" fn rdfax_text_given(
    alloc: Global,
    page: &mut Page,
    from: usize,
    out: &mut [u8],
) -> usize
    ensures count { result ≡ min (length out.old) (length (drop from (page_text page.old.handle.session))) }
    ensures copied { out.new ≡ take result (drop from (page_text page.old.handle.session)) ++ drop result out.old }
    ensures kept { page.new.handle.session ≡ page.old.handle.session }
{
    let Some(session) = page.take(alloc) else {
        return 0;
    };
    let count = session.copy_text(from, out);
    page.put(session);
    count
}

/// Tells the page's fault, if it has one, and answers whether it has.
#[unsafe(no_mangle)]
pub extern "C" fn rdfax_fault(alloc: Global, page: &mut Page, out: &mut PageFault) -> bool
    ensures told { TellsFault (page_fault page.old.handle.session) result out.old out.new }
    ensures kept { page.new.handle.session ≡ page.old.handle.session }
{
    let Some(session) = page.take(alloc) else {
        return false;
    };
    let fault = session.fault();
    page.put(session);
    match fault {
        Some(fault) => {
            *out = fault_seen(fault);
            true
        }
        None => false,
    }
}

/// Copies the name of the kind of the page's fault, as far as there is room, and answers how many bytes the name has.
#[unsafe(no_mangle)]
pub extern "C" fn rdfax_fault_name_given(alloc: Global, page: &mut Page, out: &mut [u8]) -> usize
    ensures count { result ≡ length (fault_name (page_fault page.old.handle.session)) }
    ensures copied { out.new ≡ filled (fault_name (page_fault page.old.handle.session)) out.old }
    ensures kept { page.new.handle.session ≡ page.old.handle.session }
{
    let Some(session) = page.take(alloc) else {
        return 0;
    };
    let fault = session.fault();
    page.put(session);
    match fault {
        Some(fault) => copy_name(name_of(fault.kind).as_bytes(), out),
        None => 0,
    }
}

/// Copies the name as far as there is room, and answers how many bytes it has.
fn copy_name(name: &[u8], out: &mut [u8]) -> usize
    ensures count { result ≡ length name.now }
    ensures copied { out.new ≡ filled name.now out.old }
{
    let _copied = copy_front(name, out);
    name.len()
}

/// How many blank nodes the page's graph has, once an extraction was finished; 0 otherwise.
#[unsafe(no_mangle)]
pub extern "C" fn rdfax_nodes(alloc: Global, page: &mut Page) -> u64
    ensures count { result ≡ page_nodes page.old.handle.session }
    ensures kept { page.new.handle.session ≡ page.old.handle.session }
{
    let Some(session) = page.take(alloc) else {
        return 0;
    };
    let count = session.nodes();
    page.put(session);
    count
}

/// How many quads the page has, once an extraction quad by quad was finished; 0 otherwise.
#[unsafe(no_mangle)]
pub extern "C" fn rdfax_quad_count(alloc: Global, page: &mut Page) -> usize
    ensures count { result ≡ length (page_quads page.old.handle.session) }
    ensures kept { page.new.handle.session ≡ page.old.handle.session }
{
    let Some(session) = page.take(alloc) else {
        return 0;
    };
    let count = session.quad_count();
    page.put(session);
    count
}

/// Lends the terms of the quad of this number, from 0, until the next call with the page. Nothing is told where there is none,
/// or no memory for it.
#[unsafe(no_mangle)]
pub extern "C" fn rdfax_quad(alloc: Global, page: &mut Page, number: usize, out: &mut Terms) -> u32
    ensures usage { (result ≡ 2) ↔ (length (page_quads page.old.handle.session) ≤ number) }
    ensures tells { TellsQuad page.old.handle.session number result page.new.handle.session out.old out.new }
{
    let Some(mut session) = page.take(alloc) else {
        return USAGE;
    };
    let code = lend_quad(alloc, session.as_mut(), number, out);
    page.put(session);
    code
}

/// Shows the quad of this number, and lends its terms.
fn lend_quad(alloc: Global, session: &mut Session, number: usize, out: &mut Terms) -> u32
    ensures usage { (result ≡ 2) ↔ (length (quads_in session.old) ≤ number) }
    ensures keeps { KeepsQuads session.old session.new }
    ensures lends { LendsWhere session.old number result session.new out.old out.new }
{
    if number >= session.quad_count() {
        return USAGE;
    }
    let Ok(is_there) = session.show(alloc, number) else {
        return NO_MEMORY;
    };
    if !is_there {
        return USAGE;
    }
    let Some(quad) = session.shown() else {
        return USAGE;
    };
    *out = quad_lent(quad);
    DONE
}

/// Closes the page. It may be opened again.
#[unsafe(no_mangle)]
pub extern "C" fn rdfax_close(alloc: Global, page: &mut Page)
    ensures { page.new.handle.session ≡ None }
{
    let session = page.take(alloc);
    drop(session);
}
