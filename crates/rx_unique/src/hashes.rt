//! Numbers by which keys are found.
ghost use Rattle.std.specs.Prelude.{◌≡◌};
ghost use Rattle.rx_unique.specs.Hashes.{hash_of, quick_hash_of};

use std::hash::{DefaultHasher, FoldHasher, Hash, Hasher};

/// The SipHash of the key. Equal keys have one. Few keys are asked for it, so it stands out of line.
#[inline(never)]
pub(crate) fn hash_of<K: Hash>(key: &K) -> u64
    ensures { result ≡ hash_of (K.hash_input key.now) }
{
    let mut hasher = DefaultHasher::new();
    key.hash(&mut hasher);
    hasher.finish()
}

/// A quick hash of the key. Equal keys have one, and a page can make it the same for many.
pub(crate) fn quick_hash_of<K: Hash>(key: &K) -> u64
    ensures { result ≡ quick_hash_of (K.hash_input key.now) }
{
    let mut hasher = FoldHasher::default();
    key.hash(&mut hasher);
    hasher.finish()
}
