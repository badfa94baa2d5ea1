//! Each call of a session once where memory is there, of which no contract can speak: a page through each kind of session,
//! in pieces, and what comes of it, which must be what `stdout` has.
#![tactic(auto)]

use rx_session::{
    Fault, OpenError, Session, ShownQuad, ShownTerm, TermKind, name_of, open_check,
    open_extraction, open_items,
};
use std::alloc::Global;
use std::io;
use std::process::ExitCode;

const ADDRESS: &[u8] = b"http://h.example/d";

const PAGE: &[u8] =
    b"<html><body itemscope about='#s'><p property='e:p' itemprop=n>Hi</p></body></html>";

const STRICT_PAGE: &[u8] = b"<html><p about='#s' property='e:p'>Ho</p></html>";

const NODES_PAGE: &[u8] = b"<html><body><p about='_:x' property='e:p' lang=en>Hi</p>\
<p about='_:y' rel='e:q' resource='_:x'></p><p about='#s' property='e:n' datatype='e:d'>1</p></body></html>";

const CYCLE_PAGE: &[u8] = b"<html><div itemscope itemref=x></div>\
<div id=x itemprop=p itemscope itemref=y></div><div id=y itemprop=q itemscope itemref=x></div></html>";

const GRAPH: &[u8] = b"http://h.example/g";

const NAMES: &[u8] = b"{\"prefixes\":{\"e\":\"http://v.example/\"}}";

/// The session after the page, which was handed over in pieces of 7 bytes.
fn read(alloc: Global, session: Session, page: &[u8]) -> Session {
    let mut session = session;
    for piece in page.chunks(7) {
        let _taken = session.feed(piece);
    }
    let _ended = session.finish(alloc);
    session
}

fn print_fault(rt: &HostRuntime, fault: Fault) -> io::Result<()> {
    let kind = name_of(fault.kind);
    let at = fault.at;
    println!(rt; "{kind} at byte {at}")
}

fn print_bytes(rt: &HostRuntime, bytes: &[u8]) -> io::Result<()> {
    match str::from_utf8(bytes) {
        Ok(text) => print!(rt; "{text}"),
        Err(_) => print_none(rt),
    }
}

fn print_none(rt: &HostRuntime) -> io::Result<()> {
    println!(rt; "none")
}

fn print_error(rt: &HostRuntime, error: OpenError) -> io::Result<()> {
    match error {
        OpenError::Usage => println!(rt; "usage"),
        OpenError::BadContext => println!(rt; "bad context"),
        OpenError::NoMemory => println!(rt; "no memory"),
    }
}

fn name_of_kind(kind: TermKind) -> &'static str {
    match kind {
        TermKind::Nothing => "nothing",
        TermKind::Iri => "IRI",
        TermKind::Blank => "blank",
        TermKind::Literal => "literal",
    }
}

/// Prints what a term is, its text, its language tag and its datatype.
fn print_term(rt: &HostRuntime, term: &ShownTerm) -> io::Result<()> {
    let kind = name_of_kind(term.kind);
    print!(rt; "{kind} '")?;
    print_bytes(rt, term.text.as_slice())?;
    print!(rt; "' '")?;
    print_bytes(rt, term.language.as_slice())?;
    print!(rt; "' '")?;
    print_bytes(rt, term.datatype.as_slice())?;
    println!(rt; "'")
}

fn print_terms(rt: &HostRuntime, quad: &ShownQuad) -> io::Result<()> {
    print_term(rt, &quad.subject)?;
    print_term(rt, &quad.predicate)?;
    print_term(rt, &quad.object)?;
    print_term(rt, &quad.graph)
}

fn print_quad(rt: &HostRuntime, session: &mut Session, number: usize) -> io::Result<()> {
    let Ok(is_there) = session.show(rt.alloc(), number) else {
        return print_error(rt, OpenError::NoMemory);
    };
    if !is_there {
        return print_none(rt);
    }
    match session.shown() {
        Some(quad) => print_terms(rt, quad),
        None => print_none(rt),
    }
}

/// Prints each quad, and what stands behind the last.
fn print_quads(rt: &HostRuntime, session: &mut Session) -> io::Result<()> {
    let count = session.quad_count();
    for number in 0..count {
        print_quad(rt, session, number)?;
    }
    print_quad(rt, session, count)
}

fn print_nodes(rt: &HostRuntime, session: &Session) -> io::Result<()> {
    let nodes = session.nodes();
    println!(rt; "{nodes} nodes")
}

/// Prints the text or the fault.
fn print_session(rt: &HostRuntime, session: &Session) -> io::Result<()> {
    match session.fault() {
        Some(fault) => print_fault(rt, fault),
        None => print_bytes(rt, session.text()),
    }
}

/// Hands the page over, and prints what comes of it.
fn tell(rt: &HostRuntime, opened: Result<Session, OpenError>, page: &[u8]) -> io::Result<()> {
    let session = match opened {
        Ok(session) => read(rt.alloc(), session, page),
        Err(error) => return print_error(rt, error),
    };
    let told = print_session(rt, &session);
    drop(session);
    told
}

/// The same, and how many blank nodes there are.
fn tell_nodes(rt: &HostRuntime, opened: Result<Session, OpenError>) -> io::Result<()> {
    let session = match opened {
        Ok(session) => read(rt.alloc(), session, NODES_PAGE),
        Err(error) => return print_error(rt, error),
    };
    let told = print_session(rt, &session);
    let counted = print_nodes(rt, &session);
    drop(session);
    told?;
    counted
}

/// Hands the page over, and prints its quads.
fn tell_quads(rt: &HostRuntime, opened: Result<Session, OpenError>) -> io::Result<()> {
    let mut session = match opened {
        Ok(session) => read(rt.alloc(), session, NODES_PAGE),
        Err(error) => return print_error(rt, error),
    };
    let told = print_quads(rt, &mut session);
    let counted = print_nodes(rt, &session);
    drop(session);
    told?;
    counted
}

fn tell_triples(rt: &HostRuntime) -> io::Result<()> {
    let alloc = rt.alloc();
    for format in 0..6 {
        let opened = open_extraction(alloc, 0, format, 0, ADDRESS, None, Some(NAMES));
        tell(rt, opened, PAGE)?;
    }
    let named = open_extraction(alloc, 1, 0, 0, ADDRESS, Some(GRAPH), Some(NAMES));
    tell(rt, named, STRICT_PAGE)
}

/// The blank nodes of a page are numbered from 5 on.
fn tell_numbered(rt: &HostRuntime) -> io::Result<()> {
    let alloc = rt.alloc();
    for format in 0..4 {
        let opened = open_extraction(alloc, 0, format, 5, ADDRESS, None, Some(NAMES));
        tell_nodes(rt, opened)?;
    }
    let plain = open_extraction(alloc, 0, 4, 0, ADDRESS, None, Some(NAMES));
    tell_quads(rt, plain)?;
    let named = open_extraction(alloc, 0, 4, 5, ADDRESS, Some(GRAPH), Some(NAMES));
    tell_quads(rt, named)
}

fn tell_others(rt: &HostRuntime) -> io::Result<()> {
    let alloc = rt.alloc();
    tell(rt, open_items(alloc, 0, ADDRESS), PAGE)?;
    tell(rt, open_check(alloc, 0, None), PAGE)?;
    tell(rt, open_check(alloc, 0, None), b"<html></p></html>")
}

/// Pages whose fault shows only where they end.
fn tell_ends(rt: &HostRuntime) -> io::Result<()> {
    let alloc = rt.alloc();
    let cut = open_extraction(alloc, 0, 0, 0, ADDRESS, None, None);
    tell(rt, cut, b"<html><p>")?;
    tell(rt, open_items(alloc, 0, ADDRESS), b"<html>")?;
    tell(rt, open_items(alloc, 0, ADDRESS), CYCLE_PAGE)
}

/// What is refused before a page is read: a context, addresses, names of graphs and numbers.
fn tell_refused(rt: &HostRuntime) -> io::Result<()> {
    let alloc = rt.alloc();
    tell(rt, open_check(alloc, 0, Some(b"[]")), PAGE)?;
    tell(rt, open_check(alloc, 2, None), PAGE)?;
    tell(rt, open_items(alloc, 0, b"h.example"), PAGE)?;
    tell(rt, open_items(alloc, 0, b"http://h.example/<"), PAGE)?;
    tell(rt, open_items(alloc, 0, b"http://h.example/\xff"), PAGE)?;
    let turtle = open_extraction(alloc, 0, 1, 0, ADDRESS, Some(GRAPH), None);
    tell(rt, turtle, PAGE)?;
    let nameless = open_extraction(alloc, 0, 0, 0, ADDRESS, Some(b""), None);
    tell(rt, nameless, PAGE)?;
    let largest = open_extraction(alloc, 0, 0, 1 << 63, ADDRESS, None, Some(NAMES));
    tell(rt, largest, NODES_PAGE)?;
    let larger = open_extraction(alloc, 0, 0, (1 << 63) + 1, ADDRESS, None, None);
    tell(rt, larger, PAGE)?;
    let other = open_extraction(alloc, 0, 0, 0, ADDRESS, None, Some(b""));
    tell(rt, other, PAGE)
}

fn tell_all(rt: &HostRuntime) -> io::Result<()> {
    tell_triples(rt)?;
    tell_numbered(rt)?;
    tell_others(rt)?;
    tell_ends(rt)?;
    tell_refused(rt)
}

fn main(rt: HostRuntime) -> ExitCode {
    match tell_all(&rt) {
        Ok(()) => ExitCode::from(0),
        Err(_) => ExitCode::from(1),
    }
}
