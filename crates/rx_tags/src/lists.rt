//! Attributes of a tag that stand whole at the front of some bytes, a space apart.
ghost use Rattle.std.specs.Prelude.{◌≡◌, ◌<◌, ◌≤◌, [], length};
ghost use Rattle.rx_reader.specs.declared.phases.TagPhase.TheVariants as phase;
ghost use Rattle.rx_tags.specs.Lists.{AddsRow, ClosesAt, MarksList};

use crate::attributes::AttributeSpan;
use crate::fronts::whole_lengths;

// Adds the row of the attribute that stands whole at a place, and tells the place behind it; 0 where there is none, or no
// memory.
#[inline(always)]
fn add_row(rows: &mut Vec<AttributeSpan>, bytes: &[u8], at: usize) -> usize
    requires { at ≤ length bytes.now }
    ensures fits { result ≤ length bytes.now }
    ensures adds { 0 < result → AddsRow bytes.now at rows.old.items result rows.new.items }
{
    let Some((name, value)) = whole_lengths(&bytes[at..]) else {
        return 0;
    };
    let middle = at + name;
    let start = middle + 2;
    let end = start + value;
    let row = AttributeSpan {
        start: at,
        middle,
        value: start,
        end,
    };
    if rows.push(row).is_err() {
        return 0;
    }
    end + 1
}

/// Adds a row for each of the attributes that stand whole at the front, a space apart, with a tag's `>` behind the last one,
/// and tells the place of the `>`. Where there is no such list, or no memory, 0 is told, and some rows may have been added.
#[inline(always)]
pub(crate) fn list_rows(rows: &mut Vec<AttributeSpan>, bytes: &[u8]) -> usize
    requires { rows.old.items ≡ [] }
    ensures closes { 0 < result → ClosesAt bytes.now result }
    ensures lists { 0 < result → MarksList phase.AfterValue bytes.now result rows.new.items }
{
    let mut at = 0;
    while at < bytes.len() {
        let end = add_row(rows, bytes, at);
        if end == 0 {
            return 0;
        }
        if end == bytes.len() {
            return 0;
        }
        if bytes[end] == b'>' {
            return end;
        }
        if bytes[end] != b' ' {
            return 0;
        }
        at = end + 1;
    }
    0
}
