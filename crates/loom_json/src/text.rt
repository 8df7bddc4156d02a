ghost use Rattle.std.specs.Prelude.{◌≡◌, false, Some, None, Err, IfOk};
ghost use Rattle.loom_json.specs.Text.{read_json, line_of};
ghost use Rattle.serde_json.specs.View.{view};
ghost use Rattle.serde_json.specs.Written.{has_float};

use loom_base::{List, NoMemory};
use serde_json::Value;
use std::alloc::Global;

/// Why a text gave no JSON value.
#[derive(Clone, Copy, Debug, Drop, PartialEq, Eq)]
pub enum JsonStop {
    /// The bytes have no JSON reading with arrays and objects nested at most 127 deep.
    NotJson,
    NoMemory,
}

/// The JSON value of a text. `NotJson` comes exactly where the bytes have none (`read_json`).
#[tactic(auto, using(crate::proofs::Read::readings))]
pub fn read_value(alloc: Global, bytes: &[u8]) -> Result<Value, JsonStop>
    ensures ok { IfOk result (λ value. read_json bytes.now ≡ Some (view value)) }
    ensures not_json { result ≡ Err JsonStop.NotJson → read_json bytes.now ≡ None }
{
    match Value::from_slice(alloc, bytes) {
        Ok(value) => Ok(value),
        Err(error) => if error.is_memory() {
            Err(JsonStop::NoMemory)
        } else {
            Err(JsonStop::NotJson)
        },
    }
}

/// The compact text of a value and a newline (`line_of`). No number of the value may be a float.
pub fn line(alloc: Global, value: &Value) -> Result<List<u8>, NoMemory>
    requires { has_float (view value.now) ≡ false }
    ensures { IfOk result (λ text. text ≡ line_of (view value.now)) }
{
    let mut text = value.to_vec(alloc)?;
    text.push(b'\n')?;
    Ok(List::from_vec(text))
}
