ghost use Rattle.std.specs.Prelude.{◌≡◌, ◌+◌, ◌-◌, ◌*◌, ◌^◌, ◌<◌, ◌≤◌, ◌++◌, [], ◌∷◌, true};
ghost use Rattle.std.specs.Char.{IsScalar};
ghost use Rattle.rx_chars.specs.Utf8.{Answers, Leaves, answer_of, begins_sequence, is_in, tail};
ghost use Rattle.rx_chars.specs.Held.{held_bytes, sequence_begun, is_none_held, fits_second};

use std::marker::Model;

/// What a byte makes of those before it since the last whole character.
#[derive(Clone, Copy, Debug, Drop, PartialEq, Eq)]
pub enum Utf8Step {
    /// The bytes begin the UTF-8 sequence of a character, and are none yet.
    More,
    /// They are the sequence of this character.
    Char(char),
    /// They begin no well-formed sequence (Unicode Standard, 3.9, Table 3-7).
    Bad,
}

// The bytes since the last whole character, while they begin one.
#[derive(Clone, Copy, Drop)]
enum Held {
    Nothing,
    One(u8),
    Two(u8, u8),
    Three(u8, u8, u8),
    Broken,
}

impl Held {
    ghost use Rattle.std.specs.Prelude.{◌≡◌, ◌++◌, [], ◌∷◌, true};
    ghost use Rattle.rx_chars.specs.Utf8.{answer_of, begins_sequence};
    ghost use Rattle.rx_chars.specs.Held.{held_bytes, sequence_begun};

    // What one more byte makes of these.
    fn answer(self, byte: u8) -> Utf8Step
        requires { sequence_begun self ≡ true }
        ensures { result ≡ answer_of (held_bytes self ++ byte ∷ []) }
    {
        match self {
            Held::Nothing => answer_first(byte),
            Held::One(first) => answer_second(first, byte),
            Held::Two(first, second) => answer_third(first, second, byte),
            Held::Three(first, second, third) => answer_fourth(first, second, third, byte),
            Held::Broken => Utf8Step::Bad,
        }
    }

    // These with one more byte.
    fn with(self, byte: u8) -> Held
        requires { begins_sequence (held_bytes self ++ byte ∷ []) ≡ true }
        ensures bytes { held_bytes result ≡ held_bytes self ++ byte ∷ [] }
        ensures begun { sequence_begun result ≡ true }
    {
        match self {
            Held::Nothing => Held::One(byte),
            Held::One(first) => Held::Two(first, byte),
            Held::Two(first, second) => Held::Three(first, second, byte),
            Held::Three(..) | Held::Broken => Held::Broken,
        }
    }
}

/// Decodes UTF-8 a byte at a time. A contract sees the bytes since the last whole character; of bytes that begin none
/// it sees some that don't either.
#[derive(Drop)]
pub struct Utf8 {
    held: Held,
}

impl Model for Utf8 {
    ghost use Rattle.std.specs.Prelude.{◌≡◌, ℕ, List, true};
    ghost use Rattle.rx_chars.specs.Held.{held_bytes, sequence_begun};

    ghost Value = { List ℕ };

    ghost view = { λ utf8. held_bytes utf8.held };

    ghost invariant = { λ utf8. sequence_begun utf8.held ≡ true };
}

impl Utf8 {
    /// Before the first byte.
    pub fn new() -> Utf8
        ensures { result ≡ [] }
    {
        Utf8 {
            held: Held::Nothing,
        }
    }

    /// Whether no byte is held of a character that isn't whole.
    pub fn is_whole(&self) -> bool
        ensures { result ≡ is_none_held self.now }
    {
        matches!(self.held, Held::Nothing)
    }

    /// What [`Utf8::step`] would answer to the next byte, which isn't taken.
    pub fn peek(&self, byte: u8) -> Utf8Step
        ensures { result ≡ answer_of (self.now ++ byte ∷ []) }
    {
        self.held.answer(byte)
    }

    /// Takes the next byte. `Bad` comes exactly where the bytes since the last whole character, this one included, begin
    /// no well-formed sequence, and so at each later step too; `More` exactly where they begin one and are none yet.
    pub fn step(&mut self, byte: u8) -> Utf8Step
        ensures answers { Answers (self.old ++ byte ∷ []) result }
        ensures leaves { Leaves (self.old ++ byte ∷ []) result self.new }
    {
        let answer = self.held.answer(byte);
        self.held = match answer {
            Utf8Step::More => self.held.with(byte),
            Utf8Step::Char(_) => Held::Nothing,
            Utf8Step::Bad => Held::Broken,
        };
        answer
    }
}

fn answer_first(byte: u8) -> Utf8Step
    ensures { result ≡ answer_of (byte ∷ []) }
{
    match byte {
        0x00..=0x7F => Utf8Step::Char(char::from(byte)),
        0xC2..=0xF4 => Utf8Step::More,
        _ => Utf8Step::Bad,
    }
}

fn answer_second(first: u8, byte: u8) -> Utf8Step
    requires { begins_sequence (first ∷ []) ≡ true }
    ensures { result ≡ answer_of (first ∷ byte ∷ []) }
{
    if !may_stand_second(first, byte) {
        return Utf8Step::Bad;
    }
    if first < 0xE0 {
        character(with_tail(u32::from(first - 0xC0), byte))
    } else {
        Utf8Step::More
    }
}

fn answer_third(first: u8, second: u8, byte: u8) -> Utf8Step
    requires { begins_sequence (first ∷ second ∷ []) ≡ true }
    ensures { result ≡ answer_of (first ∷ second ∷ byte ∷ []) }
{
    if !is_tail(byte) {
        return Utf8Step::Bad;
    }
    if first < 0xF0 {
        let front = with_tail(u32::from(first - 0xE0), second);
        character(with_tail(front, byte))
    } else {
        Utf8Step::More
    }
}

fn answer_fourth(first: u8, second: u8, third: u8, byte: u8) -> Utf8Step
    requires { begins_sequence (first ∷ second ∷ third ∷ []) ≡ true }
    ensures { result ≡ answer_of (first ∷ second ∷ third ∷ byte ∷ []) }
{
    if !is_tail(byte) {
        return Utf8Step::Bad;
    }
    let front = with_tail(with_tail(u32::from(first - 0xF0), second), third);
    character(with_tail(front, byte))
}

fn is_tail(byte: u8) -> bool
    ensures { result ≡ is_in tail byte }
{
    matches!(byte, 0x80..=0xBF)
}

// Table 3-7 narrows the second byte behind four first ones: so no form is overlong, and none is of a surrogate or of a
// number past U+10FFFF.
fn may_stand_second(first: u8, byte: u8) -> bool
    ensures { result ≡ fits_second first byte }
{
    match first {
        0xE0 => matches!(byte, 0xA0..=0xBF),
        0xED => matches!(byte, 0x80..=0x9F),
        0xF0 => matches!(byte, 0x90..=0xBF),
        0xF4 => matches!(byte, 0x80..=0x8F),
        _ => is_tail(byte),
    }
}

// The bits of the front, with the six of a continuation byte behind them.
fn with_tail(front: u32, byte: u8) -> u32
    requires front { front < 2 ^ 16 }
    requires tail { 0x80 ≤ byte }
    ensures { result ≡ front * 64 + (byte - 0x80) }
{
    front * 64 + u32::from(byte - 0x80)
}

fn character(value: u32) -> Utf8Step
    requires { IsScalar value }
    ensures { result ≡ Utf8Step.Char value }
{
    match char::from_u32(value) {
        Some(c) => Utf8Step::Char(c),
        None => Utf8Step::Bad,
    }
}
