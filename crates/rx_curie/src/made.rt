//! What readings make: IRIs and resources.
ghost use Rattle.std.specs.Prelude.{◌≡◌, true, IfOk};
ghost use Rattle.rx_rdfa.specs.Facts as the;
ghost use Rattle.rx_curie.specs.Absolute.{is_absolute, reads_as_node};
ghost use Rattle.rx_curie.specs.Nodes.{is_node};
ghost use Rattle.rx_curie.specs.Seen.{reading_seen, ref_seen};

use crate::makers::IriMaker;
use crate::readings::Reading;
use crate::refs::Ref;
use rx_terms::{Iri, NoMemory, Text};

/// The IRI that the reading makes: a blank node and a reference make none.
pub(crate) fn iri_of(maker: &mut IriMaker, reading: Reading<'_>) -> Result<Option<Iri>, NoMemory>
    requires { is_absolute (reading_seen reading) ≡ true }
    ensures { IfOk result (λ iri. iri ≡ the.iri_of (reading_seen reading.entry)) }
{
    match reading {
        Reading::Full(iri) => {
            let iri = maker.cleaned(iri)?;
            Ok(Some(iri))
        }
        Reading::Joined(iri, more) => {
            let iri = maker.joined(iri, more)?;
            Ok(Some(iri))
        }
        Reading::Label(_label) => Ok(None),
        Reading::Reference(_reference) => Ok(None),
    }
}

/// The resource that the reading names.
pub(crate) fn ref_of(maker: &mut IriMaker, reading: Reading<'_>) -> Result<Ref, NoMemory>
    requires { is_absolute (reading_seen reading) ≡ true }
    ensures resource { IfOk result (λ made. ref_seen made ≡ the.ref_of (reading_seen reading.entry)) }
    ensures node { IfOk result (λ made. is_node made ≡ reads_as_node (reading_seen reading.entry)) }
{
    match reading {
        Reading::Full(iri) => {
            let iri = maker.cleaned(iri)?;
            Ok(Ref::Iri(iri))
        }
        Reading::Joined(iri, more) => {
            let iri = maker.joined(iri, more)?;
            Ok(Ref::Iri(iri))
        }
        Reading::Label(label) => {
            let label = Text::of(maker.alloc, label)?;
            Ok(Ref::Label(label))
        }
        Reading::Reference(reference) => {
            let reference = Text::of(maker.alloc, reference)?;
            Ok(Ref::Relative(reference))
        }
    }
}
