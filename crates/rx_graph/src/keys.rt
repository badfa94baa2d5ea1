//! A number that hangs on every triple of a list.
use rx_terms::{Literal, LiteralKind, Term, Triple, TripleList};
use std::hash::{FoldHasher, Hash, Hasher};

/// What the triples of a list come to as far as it was walked: the state of SipHash-1-3 with keys 0, which takes a word at a
/// time. It takes the bytes of a text as they are, eight to a word, then their number and the literal's kind; of an IRI a number
/// that is made of the SipHash that it keeps, so two IRIs of one number can be found in 2^32 trials, but not many. So whoever
/// changes a triple gets another number, and can't tell which one before it is done.
#[derive(Clone, Copy)]
pub(crate) struct Key {
    v0: u64,
    v1: u64,
    v2: u64,
    v3: u64,
}

impl Key {
    /// That of no triple.
    pub(crate) fn new() -> Key {
        Key {
            v0: 0x736f_6d65_7073_6575,
            v1: 0x646f_7261_6e64_6f6d,
            v2: 0x6c79_6765_6e65_7261,
            v3: 0x7465_6462_7974_6573,
        }
    }

    /// That of the list.
    pub(crate) fn of(triples: &TripleList) -> Key {
        let mut key = Key::new();
        for i in 0..triples.len() {
            key.take(triples.at(i));
        }
        key
    }

    /// Takes one more triple.
    pub(crate) fn take(&mut self, triple: &Triple) {
        self.take_word(quick_hash_of(&triple.subject));
        self.take_word(quick_hash_of(&triple.predicate));
        self.take_term(&triple.object);
    }

    fn take_term(&mut self, term: &Term) {
        match term {
            Term::Iri(iri) => self.take_word(quick_hash_of(iri)),
            Term::Blank(blank) => self.take_word(quick_hash_of(blank)),
            Term::Literal(literal) => self.take_literal(literal),
        }
    }

    fn take_literal(&mut self, literal: &Literal) {
        let text = literal.lexical.as_str();
        match &literal.kind {
            LiteralKind::Plain => self.take_text(text, 0),
            LiteralKind::Tagged(lang) => {
                self.take_text(text, 1);
                self.take_text(lang.as_str(), 1);
            }
            LiteralKind::Typed(iri) => {
                self.take_text(text, 2);
                self.take_word(quick_hash_of(iri));
            }
        }
    }

    fn take_text(&mut self, text: &str, kind: u64) {
        let bytes = text.as_bytes();
        for eight in bytes.chunks(8) {
            self.take_word(word_of(eight));
        }
        self.take_word((bytes.len() as u64) << 2 | kind);
    }

    fn take_word(&mut self, word: u64) {
        self.v3 ^= word;
        self.round();
        self.v0 ^= word;
    }

    fn round(&mut self) {
        self.v0 = self.v0.wrapping_add(self.v1);
        self.v2 = self.v2.wrapping_add(self.v3);
        self.v1 = self.v1.rotate_left(13) ^ self.v0;
        self.v3 = self.v3.rotate_left(16) ^ self.v2;
        self.v0 = self.v0.rotate_left(32);
        self.v2 = self.v2.wrapping_add(self.v1);
        self.v0 = self.v0.wrapping_add(self.v3);
        self.v1 = self.v1.rotate_left(17) ^ self.v2;
        self.v3 = self.v3.rotate_left(21) ^ self.v0;
        self.v2 = self.v2.rotate_left(32);
    }

    /// The number.
    pub(crate) fn number(&self) -> u64 {
        let mut ended = *self;
        ended.v2 ^= 0xFF;
        ended.round();
        ended.round();
        ended.round();
        ended.v0 ^ ended.v1 ^ ended.v2 ^ ended.v3
    }
}

/// A number for what is hashed in one or two words: an IRI, by the SipHash that it keeps, a blank node, or a node.
fn quick_hash_of<T: Hash>(part: &T) -> u64 {
    let mut hasher = FoldHasher::default();
    part.hash(&mut hasher);
    hasher.finish()
}

/// At most eight bytes as one word.
fn word_of(bytes: &[u8]) -> u64 {
    match bytes {
        [a, b, c, d, e, f, g, h] => u64::from_le_bytes([*a, *b, *c, *d, *e, *f, *g, *h]),
        _ => short_word_of(bytes),
    }
}

fn short_word_of(bytes: &[u8]) -> u64 {
    let mut word = 0;
    for byte in bytes {
        word = word << 8 | *byte as u64;
    }
    word
}
