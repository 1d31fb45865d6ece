//! Lines that are none of a script.

use crate::keys::Shape;
use crate::object::explain_object;
use crate::texts::explain_text;
use cq_base::{BaseFault, NoMemory};
use cq_json::{ReadFault, read_ask};
use serde_json::{Error, Value};
use std::alloc::Global;

/// Where bytes stop being JSON.
fn explain_no_json(alloc: Global, error: &Error) -> Result<String, NoMemory> {
    if error.is_memory() {
        return Err(NoMemory);
    }
    if error.is_eof() {
        return Ok(format!(in alloc; ": it ends before it is whole, as JSON")?);
    }
    let column = error.column();
    Ok(format!(in alloc; ": it is no JSON, at byte {column}")?)
}

/// What is wrong with the texts of an object's ask, if something is.
fn explain_ask_text(alloc: Global, value: &Value) -> Result<Option<String>, NoMemory> {
    let Some(ask) = value.get("ask") else {
        return Ok(None);
    };
    match read_ask(alloc, ask) {
        Ok(_) => Ok(None),
        Err(ReadFault::Bad) => Ok(None),
        Err(ReadFault::Memory) => Err(NoMemory),
        Err(ReadFault::Text(fault)) => {
            let why = explain_text(alloc, value, &fault)?;
            Ok(Some(why))
        }
    }
}

/// What is wrong with bytes that are no line of these shapes.
pub(crate) fn explain_bad(
    alloc: Global,
    bytes: &[u8],
    shapes: &[Shape],
) -> Result<String, NoMemory> {
    let value = match Value::from_slice(alloc, bytes) {
        Ok(value) => value,
        Err(error) => return explain_no_json(alloc, &error),
    };
    if let Some(wrong) = explain_object(alloc, &value, "op", shapes)? {
        return Ok(wrong);
    }
    match explain_ask_text(alloc, &value)? {
        Some(wrong) => Ok(wrong),
        None => Ok(format!(in alloc; ": it is none of the lines that there are")?),
    }
}

/// What is wrong with bytes of which a text breaks its rule.
pub(crate) fn explain_refused(
    alloc: Global,
    bytes: &[u8],
    fault: &BaseFault,
) -> Result<String, NoMemory> {
    match Value::from_slice(alloc, bytes) {
        Ok(value) => explain_text(alloc, &value, fault),
        Err(error) => explain_no_json(alloc, &error),
    }
}
