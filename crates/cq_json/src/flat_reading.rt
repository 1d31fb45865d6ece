//! From a text to a flat object.
ghost use Rattle.std.specs.Prelude.{◌≡◌, Some};
ghost use Rattle.std.specs.Bool.{OnTrue};
ghost use Rattle.cq_json.specs.Fields as spec;
ghost use Rattle.cq_json.specs.Flat.{flat_data, object_data, IsEmpty};

use crate::flat::{Flat, Members};
use crate::flat_text::take_object;
use crate::spares::{SPARES, Spares};
use std::alloc::Global;
use std::array;

/// The memory that reading lines takes, to be kept from line to line: each string grows to the longest text with escapes
/// that it was used for.
#[derive(Drop)]
pub struct LineScratch {
    strings: [String; SPARES],
}

impl LineScratch {
    /// No memory so far.
    pub fn new(alloc: Global) -> LineScratch {
        LineScratch {
            strings: array::from_fn(|_| String::new(alloc)),
        }
    }
}

/// An object that has at most one object in it, which has none.
#[derive(Drop)]
pub struct FlatObject<'a> {
    members: Members<'a>,
    inner: Members<'a>,
}

impl<'a> FlatObject<'a> {
    /// An object with no members.
    pub fn new() -> FlatObject<'a>
        ensures { IsEmpty result }
    {
        FlatObject {
            members: Members::new(),
            inner: Members::new(),
        }
    }

    /// Reads the object that the text is, in one pass over its bytes: O(bytes). It answers false, and has some of the members
    /// then, for an object without members or with more than eight, with other values or names than a flat object has (of a
    /// number also those of 20 digits), or with escapes in a name; for a second object in it, or one in that; for a line feed
    /// between its parts; for any text that is no object; and where there is no memory for the scratch.
    pub fn read(&mut self, text: &'a str, scratch: &'a mut LineScratch) -> bool
        requires { IsEmpty self.old }
        ensures { OnTrue result (spec.json_of text.now ≡ Some (object_data self.new)) }
    {
        let mut spares = Spares::of(&mut scratch.strings);
        take_object(text, &mut self.members, &mut self.inner, &mut spares).is_some()
    }

    /// The same, to be looked at.
    pub fn fields(&self) -> Flat<'_, 'a>
        ensures { flat_data result ≡ object_data self.now }
    {
        Flat {
            members: self.members.as_slice(),
            inner: self.inner.as_slice(),
        }
    }
}
