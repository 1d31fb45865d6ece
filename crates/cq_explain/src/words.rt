//! Words of sentences.

use cq_base::{NoMemory, Party};
use serde_json::Value;
use std::alloc::Global;

/// So many characters of a value are shown.
const SHOWN: usize = 60;

/// A value as it stands in JSON, or its front.
pub(crate) fn shown(alloc: Global, value: &Value) -> Result<String, NoMemory> {
    let text = value.to_string(alloc)?;
    front_of(alloc, text.as_str())
}

/// A text as it stands in JSON, or its front.
pub(crate) fn shown_text(alloc: Global, text: &str) -> Result<String, NoMemory> {
    let copy = format!(in alloc; "{text}")?;
    shown(alloc, &Value::String(copy))
}

/// A text, or its front where it is long.
fn front_of(alloc: Global, text: &str) -> Result<String, NoMemory> {
    if text.len() <= SHOWN {
        return Ok(format!(in alloc; "{text}")?);
    }
    let mut front = String::new(alloc);
    for letter in text.chars().take(SHOWN) {
        front.push(letter)?;
    }
    Ok(format!(in alloc; "{front}..")?)
}

/// Names with commas between them, and a word before the last one.
pub(crate) fn listed(alloc: Global, names: &[&str], last: &str) -> Result<String, NoMemory> {
    let mut list = String::new(alloc);
    for (place, name) in names.iter().enumerate() {
        if place > 0 {
            list.push_str(if place + 1 == names.len() { last } else { ", " })?;
        }
        list.push_str(name)?;
    }
    Ok(list)
}

/// A party, as a sentence names it.
pub(crate) fn party_name(alloc: Global, party: &Party) -> Result<String, NoMemory> {
    Ok(match party {
        Party::Server(id) => {
            let number = id.get();
            format!(in alloc; "server {number}")?
        }
        Party::Master => format!(in alloc; "the master")?,
        Party::Clients => format!(in alloc; "the clients")?,
    })
}
