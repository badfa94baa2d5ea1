//! The text and the value of one description.
ghost use Rattle.std.specs.Prelude.{◌≡◌, ◌≤◌, IfOk};
ghost use Rattle.serde_json.specs.Data.{Data, depth};
ghost use Rattle.serde_json.specs.Read.{max_depth};
ghost use Rattle.serde_json.specs.View.{view};
ghost use Rattle.serde_json.specs.Written.{compact_text};
ghost use Rattle.rx_json.specs.Events.{TellsValue};
ghost use Rattle.rx_json.specs.Plain.{IsPlain};

use rx_terms::NoMemory;
use serde::Serialize;
use serde_json::{Value, to_value, to_vec};
use std::alloc::Global;

/// What a serializer is told where there is no memory left.
pub const OUT_OF_MEMORY: &str = "out of memory";

/// The compact text of what is written (RFC 8259), in which no space stands, where that is a value without numbers whose
/// names rise by bytes. Of any other nothing is said. An error of the writer, one that `written` makes among them, is NoMemory.
pub fn text_of<T: Serialize>(alloc: Global, written: &T) -> Result<Vec<u8>, NoMemory>
    ensures { (told : Data) → IsPlain told → TellsValue (T.writes written.now) told → IfOk result (λ text. text.items ≡ compact_text told) }
{
    match to_vec(alloc, written) {
        Ok(text) => Ok(text),
        Err(_error) => Err(NoMemory),
    }
}

/// The value of what is written, where that is a value without numbers whose names rise by bytes, and which nests no deeper
/// than 127 lists and objects. Of any other nothing is said. An error of the writer is NoMemory.
pub fn value_of<T: Serialize>(alloc: Global, written: &T) -> Result<Value, NoMemory>
    ensures { (told : Data) → IsPlain told → depth told ≤ max_depth → TellsValue (T.writes written.now) told → IfOk result (λ value. view value ≡ told) }
{
    match to_value(alloc, written) {
        Ok(value) => Ok(value),
        Err(_error) => Err(NoMemory),
    }
}
