//! The elements of a page, told in pieces.
ghost use Rattle.std.specs.Prelude.{◌≡◌, [], true, false, IfOk, length};
ghost use Rattle.rx_nest.specs.TreeTokens.{paid};
ghost use Rattle.rx_nest.specs.Nests as nests;

use crate::lines::OpenElements;
use crate::reads::read;
use crate::tree_tokens::{EventKind, PendingEvents, first_of, next_owed};
use rx_grammar::{Fault, Kind, Limits};
use rx_scan::{Latch, Scan, Syntax, Token};
use rx_tags::{Stop, Tag};
use rx_terms::NoMemory;
use std::alloc::Global;
use std::marker::Model;

/// What comes next in a page's tree, or that there is nothing yet.
#[derive(Clone, Copy)]
pub enum Event<'a> {
    /// The whole piece was taken, no token is complete, and nothing is due.
    More,
    /// An element begins.
    Begin(Tag<'a>),
    /// Some text of the innermost element. It is never empty; where a run of text is cut isn't fixed.
    Text(&'a str),
    /// The innermost element ends.
    Finish,
    /// What the tree doesn't show: a comment, a document type, white space outside the root, and what a template hides.
    Skipped,
}

/// Reads a page's bytes in pieces, and tells its tree: each element that begins, its text and its end, also where the end
/// tag is omitted. A contract sees what it stands for: the scanner, the open elements and what the last tag still tells;
/// and whether a fault or want of memory was answered, which then comes again.
#[derive(Drop)]
pub struct Nest {
    scan: Scan,
    line: OpenElements,
    owed: PendingEvents,
    latch: Latch,
}

impl Model for Nest {
    ghost use Rattle.rx_nest.specs.Nests.{NestReady, Nested};

    ghost Value = { Nested };

    ghost view = { λ n. record { scan = n.scan; line = n.line; owed = n.owed; failed = n.latch.failed; out_of_memory = n.latch.out_of_memory } };

    ghost invariant = { λ n. NestReady n.scan n.line n.owed n.latch.failed n.latch.out_of_memory };
}

impl Nest {
    /// Before the first byte of a page. It takes the memory of all levels.
    pub fn new(alloc: Global, syntax: Syntax, limits: Limits) -> Result<Nest, NoMemory>
        ensures stands { IfOk result (λ n. nests.NestStands syntax limits n [] []) }
        ensures paid { IfOk result (λ n. n.owed ≡ paid) }
    {
        let scan = Scan::new(alloc, syntax, limits)?;
        let line = OpenElements::new(alloc, syntax, limits.depth)?;
        Ok(Nest {
            scan,
            line,
            owed: PendingEvents::NONE,
            latch: Latch::new(),
        })
    }

    /// How many elements are open, those that a template hides included.
    pub fn depth(&self) -> u32
        ensures depth { result ≡ length self.now.line.levels }
    {
        self.line.depth()
    }

    // What is due first, then what the next bytes tell.
    fn advance(&mut self, piece: &[u8]) -> Result<(usize, EventKind), Stop>
        ensures steps { nests.NestAdvances self.old piece.now result self.new }
        ensures keeps { nests.NestKeepsOn self.old piece.now result self.new }
        ensures lends { IfOk result (λ done. nests.DidLends done.1 self.new.scan) }
        ensures quiet { nests.NestIsQuiet self.old piece.now result }
    {
        self.latch.repeat()?;
        if let Some((did, owed)) = next_owed(self.owed) {
            self.owed = owed;
            return Ok((0, did));
        }
        match read(&mut self.scan, &mut self.line, piece) {
            Ok((taken, tree_token)) => {
                let (did, owed) = first_of(tree_token);
                self.owed = owed;
                Ok((taken, did))
            }
            Err(stop) => {
                self.latch.keep(stop);
                Err(stop)
            }
        }
    }

    // The event of what was done.
    fn shown(&self, did: EventKind) -> Event<'_>
        requires { nests.DidLends did self.now.scan }
        ensures { nests.ShowsEvent did self.now.scan result }
    {
        match did {
            EventKind::More => Event::More,
            EventKind::Skipped => Event::Skipped,
            EventKind::Finish => Event::Finish,
            EventKind::Begin => match self.scan.last() {
                Some(tag) => Event::Begin(tag),
                None => unreachable!(),
            },
            EventKind::Text => match self.scan.token() {
                Token::Text(text) => Event::Text(text),
                _ => unreachable!(),
            },
        }
    }
}

impl Nest {
    ghost use Rattle.std.specs.Borrow.{sem};
    ghost use Rattle.std.specs.Io.BufRead.{Rests};
    ghost use Rattle.rx_nest.specs.contracts.nests.Nest.{the_row};

    /// Takes bytes of the piece, and tells how many, and what the page's tree has next: up to the end of a token, or all
    /// of them; or none where the last tag still tells something, as the end of an element whose end tag is omitted.
    ///
    /// `More` comes only where the whole piece was taken and the last tag tells no more. Each other event takes a byte, or
    /// lowers the number of those that the last tag still tells. A fault comes exactly where the page has one in the bytes
    /// so far, and then at each later call; it is the page's fault, whatever follows. After want of memory nothing else is
    /// answered. Text takes none: a piece without `<` and `&` that comes where no token is unfinished never wants memory.
    pub fn step(&mut self, piece: &[u8]) -> Result<(usize, Event<'_>), Stop>
        ensures* after { sem 𝓛 (Rests the_row self.entry (λ new. nests.NestKeepsStop self.old piece.now result new × nests.NestSteps self.old piece.now result new)) }
        ensures quiet { nests.NestIsQuiet self.old piece.now result }
    {
        let (taken, did) = match self.advance(piece) {
            Ok(done) => done,
            Err(stop) => return Err(stop),
        };
        Ok((taken, self.shown(did)))
    }

    /// The page's end. `Unended` comes exactly where the bytes so far are no page and no earlier fault stands in them,
    /// and then at each later call. After `Ok` what was told, with what the last tag still tells, is the page's tree.
    pub fn end(&mut self) -> Result<(), Stop>
        ensures ends { nests.NestEnds self.old result self.new }
        ensures keeps { nests.KeepsEnd self.old result self.new }
    {
        self.latch.repeat()?;
        if let Some(fault) = ending(&mut self.scan, &self.line) {
            self.latch.keep(Stop::Fault(fault));
            return Err(Stop::Fault(fault));
        }
        Ok(())
    }
}

// The fault of the page's end, if it has one.
fn ending(scan: &mut Scan, line: &OpenElements) -> Option<Fault>
    requires { nests.StandsSomewhere scan.old line.now }
    ensures ends { nests.EndsAt scan.old line.now result }
    ensures keeps { nests.IfNoFault result (scan.new ≡ scan.old) }
{
    match scan.end() {
        Err(Stop::Fault(fault)) => Some(fault),
        Err(Stop::NoMemory) => None,
        Ok(()) if line.is_over() => None,
        Ok(()) => {
            let at = scan.place();
            Some(Fault {
                kind: Kind::Unended,
                token: at,
                at,
            })
        }
    }
}
