//! What the measurements share.
use std::io;
use std::rt::Clock;
use std::time::Instant;

/// The error of that text.
pub fn stop(what: &'static str) -> io::Error {
    io::Error::other(what)
}

/// The nanoseconds since then.
pub fn since(rt: &impl Clock, start: &Instant) -> io::Result<u64> {
    Ok(u64::try_from(start.elapsed(rt)?.as_nanos()).unwrap_or(u64::MAX))
}
