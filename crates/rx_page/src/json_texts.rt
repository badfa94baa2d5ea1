//! Texts of JSON: of a page's items, and of a graph.
ghost use Rattle.std.specs.Prelude.{◌≡◌, ◌++◌, IfOk, codes};
ghost use Rattle.rx_rdfa.specs.Common.{Chars, Tree, triples_seen};
ghost use Rattle.rx_page.specs.JsonTexts.{AreItems, JsonTextGives};
ghost use Rattle.rx_page.specs.Texts.{as_read, IsJsonldText, JsonDenotes};

use rx_graph::Graph;
use rx_items::Items;
use rx_shapes::Shapes;
use rx_terms::NoMemory;
use rx_walk::Stop;
use std::alloc::Global;

/// The compact JSON of the items, and a line feed; or the fault of one.
pub fn text_of_items(alloc: Global, items: &Items) -> Result<Vec<u8>, Stop>
    ensures { (address : Chars) (tree : Tree) → AreItems address tree items.now → JsonTextGives (λ text. text.items) address tree result }
{
    let text = match items.text(alloc) {
        Ok(text) => text,
        Err(stop) => return Err(stop),
    };
    Ok(ended(text)?)
}

/// The compact JSON of the graph as JSON-LD, and a line feed.
pub(crate) fn text_of_graph(alloc: Global, graph: &Graph) -> Result<Vec<u8>, NoMemory>
    ensures spelled { IfOk result (λ text. IsJsonldText (triples_seen graph.now) text.items) }
    ensures denotes { IfOk result (λ text. JsonDenotes text.items (as_read (triples_seen graph.now))) }
{
    let shapes = Shapes::of(alloc, graph)?;
    let found = rx_jsonld::text(alloc, graph, &shapes);
    drop(shapes);
    Ok(ended(found?)?)
}

/// The text, and a line feed.
fn ended(text: Vec<u8>) -> Result<Vec<u8>, NoMemory>
    ensures { IfOk result (λ line. line.items ≡ text.items ++ codes "\n") }
{
    let mut text = text;
    text.push(b'\n')?;
    Ok(text)
}
