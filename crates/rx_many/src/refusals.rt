//! Comments on pages that are refused.
ghost use Rattle.std.specs.Prelude.{◌≡◌, ◌<◌, ◌^◌, ◌++◌, IfOk, OnOk, codes, encode_utf8_all, string_bytes};
ghost use Rattle.rx_many.specs.Lines.{comment};
ghost use Rattle.rx_many.specs.Writing.{comment_with, dataset_line};
ghost use Rattle.rx_many.specs.Standing.{WritableComment};

use rx_grammar::{Fault, name_of};
use rx_terms::{Iri, NoMemory};
use std::alloc::{AllocError, Global};

/// The comment on the page of this address, as a line.
pub(crate) fn comment_on(alloc: Global, address: &Iri, fault: Fault) -> Result<String, NoMemory>
    ensures spelled { IfOk result (λ line. string_bytes line ≡ encode_utf8_all (dataset_line (comment address.now fault))) }
    ensures writable { OnOk result (WritableComment address.now fault) }
{
    let line = comment_with(
        alloc,
        name_of(fault.kind),
        fault.at,
        fault.token,
        address.as_str(),
    )?;
    Ok(line)
}

fn comment_with(
    alloc: Global,
    kind: &str,
    at: u64,
    token: u64,
    address: &str,
) -> Result<String, AllocError>
    ensures fits { (at < 2 ^ 64) × (token < 2 ^ 64) }
    ensures spelled { IfOk result (λ line. string_bytes line ≡ comment_with kind.now at token (address.now ++ codes "\n")) }
{
    format!(in alloc; "# refused: {kind} at byte {at} in token {token} of {address}\n")
}
