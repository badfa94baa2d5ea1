//! Bytes of names behind which no prefix's IRI ends.
ghost use Rattle.std.specs.Prelude.{◌≡◌, ◌<◌, ◌-◌, ℕ, true, false, cond, nat_eq, length, get_or};
ghost use Rattle.rx_notation.specs.Short.{is_name_char};

use crate::names::is_name_byte;
use std::marker::Model;

/// For each byte whether it is plain: a character of names, with which no prefix's IRI ends. A contract sees these marks.
#[derive(Drop)]
pub(crate) struct Plain {
    marks: [bool; 256],
}

impl Model for Plain {
    ghost use Rattle.std.specs.Prelude.{◌≡◌, List, Bool, length};

    ghost Value = { List Bool };

    ghost view = { λ plain. plain.marks };

    ghost invariant = { λ plain. length plain.marks ≡ 256 };
}

impl Plain {
    /// The bytes of names, where no prefix is there.
    pub(crate) fn new() -> Plain
        ensures { (byte : ℕ) → get_or result byte false ≡ true → is_name_char byte ≡ true }
    {
        let mut marks = [false; 256];
        for i in 0..256 {
            marks[i] = is_name_byte(i as u8);
        }
        Plain { marks }
    }

    #[inline(always)]
    pub(crate) fn contains(&self, byte: u8) -> bool
        ensures { result ≡ get_or self.now byte false }
    {
        self.marks[usize::from(byte)]
    }

    /// Takes the last byte of a prefix's IRI out.
    pub(crate) fn end_with(&mut self, iri: &[u8])
        ensures ends { 0 < length iri.now → get_or self.new (get_or iri.now (length iri.now - 1) 0) false ≡ false }
        ensures others { (byte : ℕ) → get_or self.new byte false ≡ true → get_or self.old byte false ≡ true }
    {
        if iri.is_empty() {
            return;
        }
        self.take_out(iri[iri.len() - 1]);
    }

    fn take_out(&mut self, byte: u8)
        ensures { (other : ℕ) → get_or self.new other false ≡ cond (nat_eq byte other) false (get_or self.old other false) }
    {
        self.marks[usize::from(byte)] = false;
    }
}
