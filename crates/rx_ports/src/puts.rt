//! Writing a whole piece.
ghost use Rattle.std.specs.Prelude.{◌≡◌, ◌≤◌, OnOk, OnErr};
ghost use Rattle.rx_ports.specs.Counts.{Rose};
ghost use Rattle.rx_ports.specs.Shelves.{WhereKnown, GrowsBy, GrowsByPart};

use crate::shelf::Failed;
use crate::sink::Sink;

/// Writes the whole piece. Where the sink fails, it holds a proper front of the piece more than before. It takes no
/// memory.
pub fn put_all<S: Sink>(sink: &mut S, piece: &[u8]) -> Result<(), Failed>
    ensures ok { OnOk result (WhereKnown (GrowsBy piece.now) (S.held sink.old) (S.held sink.new)) }
    ensures err { OnErr result (WhereKnown (GrowsByPart piece.now) (S.held sink.old) (S.held sink.new)) }
    ensures later { S.faults sink.old ≤ S.faults sink.new }
    ensures steady { OnOk result (S.faults sink.new ≡ S.faults sink.old) }
    ensures cause { OnErr result (Rose (S.faults sink.old) (S.faults sink.new)) }
{
    let mut at = 0;
    while at < piece.len() {
        match sink.write(&piece[at..]) {
            Ok(count) => at += count,
            Err(failed) => return Err(failed),
        }
    }
    Ok(())
}
