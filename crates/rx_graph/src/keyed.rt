//! Hashers that begin with a key.
ghost use Rattle.std.specs.Prelude.{◌≡◌};
ghost use Rattle.std.specs.Hash.DefaultHasher as sip;

use crate::keys::Key;
use std::hash::{BuildHasher, DefaultHasher, FoldHasher, Hasher};

/// The quick hasher, begun with a key. What is longer than eight bytes goes in by its SipHash, since the quick hasher
/// multiplies longer texts by one another.
#[derive(Clone, Copy)]
pub(crate) struct KeyedHasher {
    quick: FoldHasher,
}

impl Hasher for KeyedHasher {
    ghost use Rattle.std.specs.Prelude.{fold};
    ghost use Rattle.std.specs.Hash.FoldHasher as folding;
    ghost use Rattle.rx_graph.specs.Keyed.{shortened};

    ghost write = { λ s bytes. record { quick = fold folding.write s.quick (shortened bytes) } };

    ghost finish = { λ s. folding.finish s.quick };

    #[inline(always)]
    fn finish(&self) -> u64 {
        self.quick.finish()
    }

    #[inline(always)]
    fn write(&mut self, bytes: &[u8]) {
        if bytes.len() > 8 {
            self.quick.write_u64(hash_of(bytes));
            return;
        }
        self.quick.write(bytes);
    }
}

/// Makes hashers that begin with one key.
#[derive(Clone, Copy)]
pub(crate) struct Keyed {
    first: KeyedHasher,
}

impl Keyed {
    /// Those that begin with this one.
    pub(crate) fn by(key: Key) -> Keyed {
        let mut quick = FoldHasher::default();
        quick.write_u64(key.number());
        Keyed {
            first: KeyedHasher { quick },
        }
    }
}

impl BuildHasher for Keyed {
    type Hasher = KeyedHasher;

    ghost build_hasher = { λ s. s.first };

    fn build_hasher(&self) -> KeyedHasher {
        self.first
    }
}

/// The SipHash of the bytes.
#[inline(never)]
fn hash_of(bytes: &[u8]) -> u64
    ensures { result ≡ sip.finish (sip.write sip.initial bytes.now) }
{
    let mut hasher = DefaultHasher::new();
    hasher.write(bytes);
    hasher.finish()
}
