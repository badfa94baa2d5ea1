//! The sample: a page of many items, made and read piece by piece, and the line that is said of it.
ghost use Rattle.std.specs.Prelude.{◌≡◌, ◌≤◌, ◌<◌, List, ℕ, suc, length, IfOk, OnOk, string_bytes, None, encode_utf8_all};
ghost use Rattle.rx_nquads.specs.Writing.{nquads};
ghost use Rattle.rx_job.specs.Words.{most_items};
ghost use Rattle.rx_command.specs.Samples.{IsSample, item_before, line_with, sample_address};
ghost use Rattle.rx_command.specs.Feeding.{Fed, FedTo, FedWhole, FeedsSample, TakesPiece, larger};
ghost use Rattle.rx_page.specs.Written.{graph_made};

use rx_names::Context;
use rx_nquads::text;
use rx_page::graph_of;
use rx_terms::{Iri, IriError, NoMemory, TripleList};
use rx_walk::{Limits, Stop, Syntax, Walk};
use std::alloc::{AllocError, Global};

const HEAD: &[u8] =
    b"<!DOCTYPE html>\n<html vocab=\"http://schema.org/\">\n<body typeof=\"ItemList\">\n";

const ITEM_BEHIND: &[u8] = b"</span></div>\n";

const TAIL: &[u8] = b"</body>\n</html>\n";

/// A sample page that is fed to a walk: what isn't fed yet, how many bytes were, and the most elements that were open
/// where a piece ended.
#[derive(Drop)]
pub(crate) struct Feeding {
    walk: Walk,
    piece: Vec<u8>,
    size: u64,
    depth: u32,
}

/// The line that is said of the page of so many items, which is read as any other page is. No such page is refused.
pub(crate) fn sample(alloc: Global, count: u32) -> Result<Vec<u8>, NoMemory>
    requires { count ≤ most_items }
    ensures { IfOk result (λ line. IsSample count line.items) }
{
    let mut feeding = Feeding::new(alloc)?;
    match feeding.feed(alloc, count) {
        Ok(()) => {}
        Err(error) => {
            drop(feeding);
            return Err(error);
        }
    }
    let Feeding {
        walk,
        piece,
        size,
        depth,
    } = feeding;
    drop(piece);
    let list = match walk.finish() {
        Ok(list) => list,
        Err(Stop::Fault(_fault)) => unreachable!(),
        Err(Stop::NoMemory) => return Err(NoMemory),
    };
    line_of(alloc, count, size, depth, list)
}

impl Feeding {
    /// Before the first item.
    fn new(alloc: Global) -> Result<Feeding, NoMemory>
        ensures { IfOk result (λ feeding. FedTo 0 feeding) }
    {
        let address = localhost(alloc)?;
        let context = Context::standard(alloc)?;
        let walk = Walk::new(alloc, Syntax::Html, context, address, Limits::standard())?;
        let mut piece = Vec::new(alloc);
        let Ok(()) = piece.extend_from_slice(HEAD) else {
            drop(walk);
            return Err(NoMemory);
        };
        Ok(Feeding {
            walk,
            piece,
            size: 0,
            depth: 0,
        })
    }

    /// Feeds the page of so many items.
    fn feed(&mut self, alloc: Global, count: u32) -> Result<(), NoMemory>
        requires fed { FedTo 0 self.old }
        requires few { count ≤ most_items }
        ensures { OnOk result (FedWhole count self.new) }
    {
        for number in 0..count {
            self.item(alloc, number)?;
        }
        self.piece.extend_from_slice(TAIL)?;
        self.take()
    }

    /// Feeds the page up to the end tag of the item's name, and keeps what is behind in the item.
    fn item(&mut self, alloc: Global, number: u32) -> Result<(), NoMemory>
        requires fed { FedTo number self.old }
        requires few { number < most_items }
        ensures { OnOk result (FedTo (suc number) self.new) }
    {
        let before = item_before(alloc, number)?;
        self.piece.extend_from_slice(before.as_bytes())?;
        self.take()?;
        self.piece.extend_from_slice(ITEM_BEHIND)?;
        Ok(())
    }

    /// Feeds the piece, and counts its bytes and the elements that are open behind it.
    fn take(&mut self) -> Result<(), NoMemory>
        requires { FeedsSample self.old }
        ensures { (bytes : List ℕ) → Fed bytes self.old → OnOk result (TakesPiece bytes self.old self.new) }
    {
        match self.walk.feed(self.piece.as_slice()) {
            Ok(()) => {}
            Err(Stop::Fault(_fault)) => unreachable!(),
            Err(Stop::NoMemory) => return Err(NoMemory),
        }
        self.size += self.piece.len() as u64;
        self.piece.clear();
        self.depth = larger(self.depth, self.walk.depth());
        Ok(())
    }
}

/// The address at which a sample is read.
fn localhost(alloc: Global) -> Result<Iri, NoMemory>
    ensures { IfOk result (λ iri. iri ≡ sample_address) }
{
    match Iri::of(alloc, "http://localhost/") {
        Ok(iri) => Ok(iri),
        Err(IriError::NoMemory) => Err(NoMemory),
        Err(IriError::NoScheme) => unreachable!(),
        Err(IriError::Forbidden) => unreachable!(),
    }
}

fn larger(left: u32, right: u32) -> u32
    ensures { result ≡ larger left right }
{
    if left < right { right } else { left }
}

/// An item before the end tag of its name.
fn item_before(alloc: Global, number: u32) -> Result<String, AllocError>
    ensures { IfOk result (λ text. string_bytes text ≡ item_before number) }
{
    format!(in alloc;
        "<div property=\"itemListElement\" typeof=\"Product\"><span property=\"name\">Item {number}"
    )
}

/// What is said of the page of so many items, of this size and depth, with this list of triples.
fn line_of(
    alloc: Global,
    count: u32,
    size: u64,
    depth: u32,
    list: TripleList,
) -> Result<Vec<u8>, NoMemory>
    ensures { IfOk result (λ line. line.items
        ≡ line_with count size (length (graph_made list)) (length (encode_utf8_all (nquads (graph_made list) None))) depth) }
{
    let graph = graph_of(alloc, list)?;
    let text = text(alloc, &graph, None)?;
    let line = line_with(alloc, count, size, graph.len(), text.len(), depth)?;
    Ok(line.into_bytes())
}

fn line_with(
    alloc: Global,
    count: u32,
    size: u64,
    triples: usize,
    output: usize,
    depth: u32,
) -> Result<String, AllocError>
    ensures { IfOk result (λ line. string_bytes line ≡ line_with count size triples output depth) }
{
    format!(in alloc;
        "sample {count}: {size} bytes, {triples} triples, {output} output bytes, depth {depth}\n"
    )
}
