//! Numbers by which declarations are found.
ghost use Rattle.std.specs.Prelude.{◌≡◌};
ghost use Rattle.rx_terms.specs.Common.{chars, lowered};
ghost use Rattle.rx_terms.specs.Iri.{number_of};

use std::hash::{DefaultHasher, Hasher};

/// The number of every declaration of a default vocabulary.
pub(crate) const VOCABULARY: u64 = 0;
/// The number of every declaration of a language.
pub(crate) const LANGUAGE: u64 = 1;

/// The number of a prefix: the SipHash of its bytes in lower case. Nobody is known to find many texts that share one.
pub(crate) fn number_of(name: &str) -> u64
    ensures { result ≡ number_of (lowered (chars name.now)) }
{
    let mut hasher = DefaultHasher::new();
    for byte in name.as_bytes() {
        hasher.write_u8(byte.to_ascii_lowercase());
    }
    hasher.finish()
}
