//! What is wrong with an object: its keys, and what stands under them.

use crate::keys::{ASKS, Key, Shape, Wanted};
use crate::words::{listed, shown, shown_text};
use cq_base::{NoMemory, PARTY_LIMIT, Receipt};
use serde_json::{Map, Value};
use std::alloc::Global;

/// The shape of that name.
fn shape_named<'s>(shapes: &'s [Shape], name: &str) -> Option<&'s Shape> {
    shapes.iter().find(|shape| shape.name == name)
}

fn names_of<'s>(alloc: Global, shapes: &'s [Shape]) -> Result<String, NoMemory> {
    let mut names = Vec::new(alloc);
    for shape in shapes {
        names.push(shape.name)?;
    }
    listed(alloc, names.as_slice(), ", ")
}

fn keys_of(alloc: Global, keys: &[Key]) -> Result<String, NoMemory> {
    let mut names = Vec::new(alloc);
    for key in keys {
        names.push(key.name)?;
    }
    listed(alloc, names.as_slice(), " and ")
}

/// What an object of one of these shapes is found to be.
enum Chosen<'s> {
    Shape(&'s Shape),
    /// What is wrong, since it is none.
    Wrong(String),
}

/// What is wrong with a value that has to be an object of one of these shapes, which the text under `first` tells. None: nothing.
pub(crate) fn explain_object(
    alloc: Global,
    value: &Value,
    first: &str,
    shapes: &[Shape],
) -> Result<Option<String>, NoMemory> {
    let shape = match shape_of(alloc, value, first, shapes)? {
        Chosen::Shape(shape) => shape,
        Chosen::Wrong(wrong) => return Ok(Some(wrong)),
    };
    for key in shape.keys {
        let wrong = match value.get(key.name) {
            Some(ask) if key.wanted == Wanted::Ask => explain_ask(alloc, ask)?,
            _ => explain_member(alloc, value, key)?,
        };
        if wrong.is_some() {
            return Ok(wrong);
        }
    }
    Ok(None)
}

/// What is wrong with an ask, in which no other one stands.
fn explain_ask(alloc: Global, value: &Value) -> Result<Option<String>, NoMemory> {
    let shape = match shape_of(alloc, value, "kind", ASKS)? {
        Chosen::Shape(shape) => shape,
        Chosen::Wrong(wrong) => return Ok(Some(wrong)),
    };
    for key in shape.keys {
        let wrong = explain_member(alloc, value, key)?;
        if wrong.is_some() {
            return Ok(wrong);
        }
    }
    Ok(None)
}

/// The shape of an object that has no key but those of the shape.
fn shape_of<'s>(
    alloc: Global,
    value: &Value,
    first: &str,
    shapes: &'s [Shape],
) -> Result<Chosen<'s>, NoMemory> {
    let Some(members) = value.as_object() else {
        let found = shown(alloc, value)?;
        return Ok(Chosen::Wrong(format!(in alloc; ": {found} is no object with \"{first}\"")?));
    };
    let Some(name) = value.get(first) else {
        let names = names_of(alloc, shapes)?;
        return Ok(Chosen::Wrong(format!(in alloc;
            ": \"{first}\" is missing, which is one of {names}"
        )?));
    };
    match name.as_str().and_then(|name| shape_named(shapes, name)) {
        Some(shape) => Ok(match unknown_in(alloc, members, shape)? {
            Some(wrong) => Chosen::Wrong(wrong),
            None => Chosen::Shape(shape),
        }),
        None => {
            let (found, names) = (shown(alloc, name)?, names_of(alloc, shapes)?);
            Ok(Chosen::Wrong(format!(in alloc; ", \"{first}\": {found} is none of {names}")?))
        }
    }
}

/// What is wrong where an object has a key that its shape has not.
fn unknown_in(
    alloc: Global,
    members: &Map<String, Value>,
    shape: &Shape,
) -> Result<Option<String>, NoMemory> {
    let Some(unknown) = unknown_key(members, shape.keys) else {
        return Ok(None);
    };
    let unknown = shown_text(alloc, unknown)?;
    let (name, keys) = (shape.name, keys_of(alloc, shape.keys)?);
    Ok(Some(format!(in alloc; ": {unknown} is no key of {name}, which has {keys}")?))
}

/// A key that isn't one of these.
fn unknown_key<'m>(members: &'m Map<String, Value>, keys: &[Key]) -> Option<&'m str> {
    for name in members.keys() {
        if !is_among(keys, name.as_str()) {
            return Some(name.as_str());
        }
    }
    None
}

fn is_among(keys: &[Key], name: &str) -> bool {
    keys.iter().any(|key| key.name == name)
}

/// What is wrong with what stands under a key.
fn explain_member(alloc: Global, value: &Value, key: &Key) -> Result<Option<String>, NoMemory> {
    let name = key.name;
    let Some(found) = value.get(name) else {
        if key.may_be_missing {
            return Ok(None);
        }
        let right = right_of(alloc, key.wanted)?;
        return Ok(Some(format!(in alloc; ": \"{name}\" is missing, {right}")?));
    };
    if is_right(found, key.wanted) {
        return Ok(None);
    }
    let (found, right) = (shown(alloc, found)?, right_of(alloc, key.wanted)?);
    Ok(Some(format!(in alloc; ", \"{name}\": {found} is not {right}")?))
}

/// Whether a value is what is wanted, an ask apart.
fn is_right(value: &Value, wanted: Wanted) -> bool {
    match wanted {
        Wanted::Name | Wanted::Ask => true,
        Wanted::Server => is_within(value, 1, u64::from(PARTY_LIMIT)),
        Wanted::Party => match value.as_str() {
            Some(name) => name == "master" || name == "clients",
            None => is_within(value, 1, u64::from(PARTY_LIMIT)),
        },
        Wanted::Number { least, most } => is_within(value, least, most),
        Wanted::Text => value.as_str().is_some(),
        Wanted::Truth => value.as_bool().is_some(),
        Wanted::Receipt => match value.as_str() {
            Some(text) => Receipt::read(text.as_bytes()).is_some(),
            None => false,
        },
    }
}

fn is_within(value: &Value, least: u64, most: u64) -> bool {
    match value.as_u64() {
        Some(number) => least <= number && number <= most,
        None => false,
    }
}

/// What would be right.
fn right_of(alloc: Global, wanted: Wanted) -> Result<String, NoMemory> {
    Ok(match wanted {
        Wanted::Name | Wanted::Text => format!(in alloc; "a text")?,
        Wanted::Server => format!(in alloc; "a server's number, from 1 to {PARTY_LIMIT}")?,
        Wanted::Party => format!(in alloc; "a server's number, \"master\" or \"clients\"")?,
        Wanted::Number { least, most } => {
            format!(in alloc; "a whole number from {least} to {most}, in digits alone")?
        }
        Wanted::Truth => format!(in alloc; "true or false")?,
        Wanted::Receipt => {
            format!(in alloc; "a receipt, which is three numbers from 1 on, as \"1-1-1\"")?
        }
        Wanted::Ask => format!(in alloc; "an object with \"kind\"")?,
    })
}
