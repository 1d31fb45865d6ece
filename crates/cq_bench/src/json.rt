//! Reads lines of JSON on standard input and writes them again, by `serde_json` alone. What `cq replay` takes for the
//! same lines is measured against this.
use serde_json::Value;
use std::alloc::Global;
use std::io;
use std::io::{BufRead, BufReader, BufWriter, Write};

/// The line again, as `serde_json` writes it. None: it is no JSON, or there was no memory.
fn written_again(alloc: Global, line: &str) -> Option<Vec<u8>> {
    let value = Value::from_slice(alloc, line.as_bytes()).ok()?;
    let mut text = value.to_vec(alloc).ok()?;
    text.push(b'\n').ok()?;
    Some(text)
}

/// Copies all lines.
pub fn copy_lines(rt: &HostRuntime) -> io::Result<()> {
    let mut writer = BufWriter::new(rt.alloc(), io::writer(rt))?;
    for line in BufReader::new(rt.alloc(), rt.reader())?.lines(rt.alloc()) {
        match written_again(rt.alloc(), line?.as_str()) {
            Some(text) => writer.write_all(text.as_slice())?,
            None => return Err(io::Error::other("a line is no JSON, or memory ran out")),
        }
    }
    writer.flush()
}
