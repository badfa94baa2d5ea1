//! Strings, in which some characters have an escape.
ghost use Rattle.std.specs.Prelude.{◌≡◌, ◌++◌};
ghost use Rattle.rx_terms.specs.Common.{list_any, chars};
ghost use Rattle.rx_pieces.specs.Writing.{is_escaped, escaped_char, escaped_text};
ghost use Rattle.rx_pieces.specs.Writable.{Pushes, WritableText};

use crate::pieces::Pieces;
use crate::terms::push;
use rx_ports::Sink;
use rx_terms::Text;

/// Adds words, and behind them a text with its escapes.
pub fn push_text<S: Sink>(out: &mut Pieces, sink: &mut S, front: &str, text: &Text)
    ensures adds { Pushes S.held S.faults out.old sink.old out.new sink.new (chars front.now ++ escaped_text text.now) }
    ensures writable { WritableText text.now }
{
    push(out, sink, front);
    push_escaped(out, sink, text.as_str());
}

/// Most texts have nothing to escape, and are written at once.
fn push_escaped<S: Sink>(out: &mut Pieces, sink: &mut S, text: &str)
    ensures { Pushes S.held S.faults out.old sink.old out.new sink.new (escaped_text (chars text.now)) }
{
    if has_escaped(text) {
        return push_escaping(out, sink, text);
    }
    push(out, sink, text);
}

fn push_escaping<S: Sink>(out: &mut Pieces, sink: &mut S, text: &str)
    ensures { Pushes S.held S.faults out.old sink.old out.new sink.new (escaped_text (chars text.now)) }
{
    for c in text.chars() {
        push_char(out, sink, c);
    }
}

/// Adds a character of a literal, or its escape.
fn push_char<S: Sink>(out: &mut Pieces, sink: &mut S, c: char)
    ensures { Pushes S.held S.faults out.old sink.old out.new sink.new (escaped_char c) }
{
    match c {
        '"' => out.add(sink, b"\\\""),
        '\\' => out.add(sink, b"\\\\"),
        '\n' => out.add(sink, b"\\n"),
        '\r' => out.add(sink, b"\\r"),
        _ => out.add(sink, c.encode_utf8(&mut [0; 4]).as_bytes()),
    }
}

/// Whether the byte is a character that has an escape of its own. These are ASCII.
fn is_escaped(byte: u8) -> bool
    ensures { result ≡ is_escaped byte }
{
    matches!(byte, b'"' | b'\\' | b'\n' | b'\r')
}

fn has_escaped(text: &str) -> bool
    ensures { result ≡ list_any is_escaped text.now }
{
    text.bytes().any(|byte| is_escaped(byte))
}
