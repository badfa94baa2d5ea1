//! Labels of blank nodes. A label is made from its end, in an array that has what stands behind it.
ghost use Rattle.std.specs.Prelude.{◌≡◌, ◌+◌, ◌≤◌, ◌<◌, ◌^◌, ◌++◌, true, length, drop, codes};
ghost use Rattle.rx_terms.specs.Common.{decimal, list_all, is_ascii};
ghost use Rattle.rx_pieces.specs.Writing.{blank_text};
ghost use Rattle.rx_pieces.specs.Writable.{Pushes};

use crate::pieces::Pieces;
use rx_ports::Sink;
use rx_terms::Blank;

/// The most bytes of a label: `_:b`, and the digits of a number.
pub const LABEL: usize = 23;

/// Adds a label, and what stands at the end of `text`, behind the room for a label.
#[inline(always)]
pub fn push_label<S: Sink>(out: &mut Pieces, sink: &mut S, blank: Blank, text: &mut [u8])
    requires room { 23 ≤ length text.old }
    requires ascii { list_all is_ascii (drop 23 text.old) ≡ true }
    ensures adds { Pushes S.held S.faults out.old sink.old out.new sink.new (blank_text blank.0 ++ drop 23 text.old) }
    ensures writable { blank.0 < 2 ^ 64 }
{
    let start = put_label(blank.0, text);
    out.add(sink, &text[start..]);
}

/// Puts the label of this number at the end of the room for it, and answers where it begins.
#[inline(always)]
fn put_label(number: u64, text: &mut [u8]) -> usize
    requires { 23 ≤ length text.old }
    ensures within { result ≤ 23 }
    ensures written { drop result text.new ≡ codes "_:b" ++ (decimal number ++ drop 23 text.old) }
{
    let start = write_digits(number, text, LABEL);
    text[start - 1] = b'b';
    text[start - 2] = b':';
    text[start - 3] = b'_';
    start - 3
}

/// Puts the digits of the number in decimal before the place `end`, and answers where they begin.
fn write_digits(number: u64, text: &mut [u8], end: usize) -> usize
    requires { (length (decimal number) ≤ end) × (end ≤ length text.old) }
    ensures start { result + length (decimal number) ≡ end }
    ensures written { drop result text.new ≡ decimal number ++ drop end text.old }
{
    let place = end - 1;
    text[place] = b'0' + (number % 10) as u8;
    if number < 10 {
        return place;
    }
    write_digits(number / 10, text, place)
}
