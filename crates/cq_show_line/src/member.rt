//! Members of an object, each a key and a value that is no object.
ghost use Rattle.std.specs.Prelude.{OnOk};
ghost use Rattle.serde_json.specs.Data.{boolean, number, string, unsigned};
ghost use Rattle.cq_show_line.specs.within.Parts.{SendsMember};
ghost use Rattle.cq_show_line.specs.Lines.{number_or_null};

use cq_base::ServerId;
use serde::Serializer;

/// Writes the key and that number.
pub fn write_number<S: Serializer>(out: &mut S, key: &str, value: u64) -> Result<(), S::Error>
    ensures { OnOk result (SendsMember key.now (number (unsigned value)) (S.written out.old) (S.written out.new)) }
{
    out.key(key)?;
    out.u64(value)
}

/// Writes the key and that text.
pub fn write_text<S: Serializer>(out: &mut S, key: &str, value: &str) -> Result<(), S::Error>
    ensures { OnOk result (SendsMember key.now (string value.now) (S.written out.old) (S.written out.new)) }
{
    out.key(key)?;
    out.str(value)
}

/// Writes the key and whether it is so.
pub fn write_truth<S: Serializer>(out: &mut S, key: &str, value: bool) -> Result<(), S::Error>
    ensures { OnOk result (SendsMember key.now (boolean value) (S.written out.old) (S.written out.new)) }
{
    out.key(key)?;
    out.bool(value)
}

/// Writes the key and the number of that server.
pub fn write_id<S: Serializer>(out: &mut S, key: &str, value: ServerId) -> Result<(), S::Error>
    ensures { OnOk result (SendsMember key.now (number (unsigned value)) (S.written out.old) (S.written out.new)) }
{
    write_number(out, key, u64::from(value.get()))
}

/// Writes the key and the number of that server, or null.
pub fn write_server<S: Serializer>(
    out: &mut S,
    key: &str,
    value: Option<ServerId>,
) -> Result<(), S::Error>
    ensures { OnOk result (SendsMember key.now (number_or_null value) (S.written out.old) (S.written out.new)) }
{
    out.key(key)?;
    match value {
        Some(id) => out.u64(u64::from(id.get())),
        None => out.unit(),
    }
}
