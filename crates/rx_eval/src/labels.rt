//! The numbers of authors' blank nodes.
ghost use Rattle.std.specs.Prelude.{◌≡◌, ◌<◌, ◌^◌, ◌+◌, [], ◌∷◌, ◌++◌, length, map, OnOk, OnErr, IfOk, None, unwrap_or, string_bytes};
ghost use Rattle.std.specs.Str.{chars};
ghost use Rattle.rx_eval.specs.Labels.{label_number, Drawn};
ghost use Rattle.rx_eval.specs.Rows.{IsNew};

use rx_terms::{NoMemory, Text};
use rx_unique::Unique;
use std::alloc::Global;
use std::marker::Model;

/// The numbers of the blank nodes that authors name by labels. A contract sees the labels with their numbers.
#[derive(Drop)]
pub struct Labels {
    alloc: Global,
    labels: Unique<String>,
    numbers: Vec<u64>,
}

impl Model for Labels {
    ghost use Rattle.std.specs.Prelude.{◌≡◌, ℕ, List, length, map, string_bytes};
    ghost use Rattle.std.specs.Str.{chars};

    ghost Value = { List (List ℕ × ℕ) };

    ghost use Rattle.rx_eval.specs.Rows.{label_rows};

    ghost view = { λ l. label_rows (map (λ k. chars (string_bytes k)) l.labels) l.numbers.items };

    ghost invariant = { λ l. length l.labels ≡ length l.numbers.items };
}

impl Labels {
    /// No label.
    pub fn new(alloc: Global) -> Result<Labels, NoMemory>
        ensures { IfOk result (λ labels. labels ≡ []) }
    {
        Ok(Labels {
            alloc,
            labels: Unique::new(alloc),
            numbers: Vec::new(alloc),
        })
    }

    /// The number of a label, and None exactly where it has none.
    pub fn number(&self, label: &str) -> Option<u64>
        ensures { result ≡ label_number self.now (chars label.now) }
    {
        match self.labels.get_index_of(label) {
            Some(place) => Some(self.numbers[place]),
            None => None,
        }
    }

    /// The number of a label, and 0 where it has none.
    pub(crate) fn number_or_zero(&self, label: &Text) -> u64
        ensures { result ≡ unwrap_or (label_number self.now label.now) 0 }
    {
        match self.number(label.as_str()) {
            Some(number) => number,
            None => 0,
        }
    }

    /// Gives the label the number.
    fn add(&mut self, label: &Text, number: u64) -> Result<(), NoMemory>
        requires { label_number self.old label.now ≡ None }
        ensures ok { OnOk result (self.new ≡ self.old ++ (label.now, number) ∷ []) }
        ensures err { OnErr result (self.new ≡ self.old) }
    {
        let key = String::from_str(self.alloc, label.as_str())?;
        add_row(&mut self.labels, &mut self.numbers, key, number)
    }

    /// Gives the label the next number where it has none, and answers the number that comes next then. Most elements have
    /// no label, so that this stands apart from their way.
    #[inline(never)]
    pub(crate) fn draw(&mut self, label: &Text, next: u64) -> Result<u64, NoMemory>
        requires { next + 1 < 2 ^ 64 }
        ensures ok { IfOk result (λ after. Drawn self.old next (label.now ∷ []) self.new after) }
        ensures err { OnErr result (self.new ≡ self.old) }
    {
        match self.number(label.as_str()) {
            Some(_number) => Ok(next),
            None => {
                self.add(label, next)?;
                Ok(next + 1)
            }
        }
    }
}

/// Adds a new key and its number at the ends.
fn add_row(
    keys: &mut Unique<String>,
    numbers: &mut Vec<u64>,
    key: String,
    number: u64,
) -> Result<(), NoMemory>
    requires fresh { IsNew (chars (string_bytes key)) (map (λ k. chars (string_bytes k)) keys.old) }
    requires even { length keys.old ≡ length numbers.old.items }
    ensures keys { OnOk result (keys.new ≡ keys.old ++ key ∷ []) }
    ensures numbers { OnOk result (numbers.new.items ≡ numbers.old.items ++ number ∷ []) }
    ensures same_keys { OnErr result (keys.new ≡ keys.old) }
    ensures same_numbers { OnErr result (numbers.new.items ≡ numbers.old.items) }
{
    numbers.reserve(1)?;
    let _is_new = keys.insert(key)?;
    numbers.push(number)?;
    Ok(())
}
