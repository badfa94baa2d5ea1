//! What C says of a page, and what it is told of a fault.
ghost use Rattle.std.specs.Prelude.{◌≡◌};
ghost use Rattle.rx_session.specs.Requests.{bytes_in};
ghost use Rattle.rdfax_c.specs.Calls.{bytes_given, fault_seen};

use rx_session::{Fault, kind_number};

/// How an extraction is asked for.
#[repr(C)]
#[derive(Clone, Copy)]
pub struct Options {
    /// 0 is HTML, 1 XHTML.
    pub syntax: u32,
    /// 0 is N-Quads, 1 Turtle, 2 nested Turtle, 3 JSON-LD, 4 quad by quad.
    pub format: u32,
    /// The number of the first blank node.
    pub first_node: u64,
}

/// A fault of a page.
#[repr(C)]
#[derive(Clone, Copy)]
pub struct PageFault {
    /// The number of its kind, from 1.
    pub kind: u32,
    /// The first byte of the token that is faulty or unfinished.
    pub token: u64,
    /// The byte that decides the fault.
    pub at: u64,
}

/// The bytes, where they are given.
pub(crate) fn given(has: bool, bytes: &[u8]) -> Option<&[u8]>
    ensures { bytes_in result ≡ bytes_given has bytes.now }
{
    if has { Some(bytes) } else { None }
}

/// The fault by numbers.
pub(crate) fn fault_seen(fault: Fault) -> PageFault
    ensures { result ≡ fault_seen fault }
{
    PageFault {
        kind: kind_number(fault.kind),
        token: fault.token,
        at: fault.at,
    }
}
