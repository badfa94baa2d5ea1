//! What the next bytes tell the open elements.
ghost use Rattle.std.specs.Prelude.{[]};
ghost use Rattle.rx_nest.specs.Nests as nests;

use crate::lines::OpenElements;
use crate::tree_tokens::TreeToken;
use rx_scan::Scan;
use rx_tags::Stop;

/// Takes bytes of the piece up to the end of a token, or all of them, and tells how many, and what the token says of the
/// tree. After a tag the scanner goes on in the content of the innermost element. Memory is taken by tags alone.
pub(crate) fn read(
    scan: &mut Scan,
    line: &mut OpenElements,
    piece: &[u8],
) -> Result<(usize, TreeToken), Stop>
    requires { nests.StandsSomewhere scan.old line.old }
    ensures reads { nests.NestReads scan.old line.old piece.now result scan.new line.new }
    ensures takes { nests.ReadTakes piece.now result }
    ensures stays { nests.StaysAtFault result line.old line.new }
    ensures quiet { nests.ReadsQuietly scan.old line.old piece.now result }
{
    let (taken, token) = match scan.step(piece) {
        Ok(step) => step,
        Err(stop) => return Err(stop),
    };
    let tree_token = match line.take_token(token) {
        Ok(tree_token) => tree_token,
        Err(stop) => return Err(stop),
    };
    if let TreeToken::Tag(told) = tree_token {
        scan.enter(line.content(), told.drops);
    }
    Ok((taken, tree_token))
}
