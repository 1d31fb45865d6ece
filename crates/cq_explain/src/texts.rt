//! Texts that break their rules.

use crate::words::shown;
use cq_base::{BaseFault, NoMemory};
use serde_json::Value;
use std::alloc::Global;

/// The key of the text at fault.
fn key_of(fault: &BaseFault) -> &'static str {
    match fault {
        BaseFault::BadQueueName => "queue",
        BaseFault::BadGroup => "group",
        BaseFault::BadDedup => "dedup",
        BaseFault::InvalidMessageContents | BaseFault::BodyLength | BaseFault::NoMemory => "body",
    }
}

/// What the rule of the text is.
fn rule_of(fault: &BaseFault) -> &'static str {
    match fault {
        BaseFault::BadQueueName => {
            "is no queue's name: up to 80 letters, digits, - and _, of which the last five are .fifo"
        }
        BaseFault::BadGroup | BaseFault::BadDedup => {
            "is not 1 to 128 letters, digits and punctuation marks of ASCII"
        }
        BaseFault::InvalidMessageContents => "has a character that no message may have",
        BaseFault::BodyLength => "is empty, or has more than 262144 bytes",
        BaseFault::NoMemory => "found no memory",
    }
}

/// What is wrong with a text of an object, or of the ask in it.
pub(crate) fn explain_text(
    alloc: Global,
    value: &Value,
    fault: &BaseFault,
) -> Result<String, NoMemory> {
    let (key, rule) = (key_of(fault), rule_of(fault));
    let holder = value.get("ask").unwrap_or(value);
    match holder.get(key) {
        Some(found) => {
            let found = shown(alloc, found)?;
            Ok(format!(in alloc; ", \"{key}\": {found} {rule}")?)
        }
        None => Ok(format!(in alloc; ": \"{key}\" {rule}")?),
    }
}
