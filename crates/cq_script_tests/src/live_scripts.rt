//! A live script whose reader fails.
use cq_live_script::read_live;
use cq_script::{Checked, ScriptFault};
use std::io;
use std::io::Read;

/// Gives these bytes, and then fails.
#[derive(Drop)]
struct Failing<'a> {
    rest: &'a [u8],
}

impl Read for Failing<'_> {
    fn read(&mut self, buf: &mut [u8]) -> io::Result<usize> {
        if self.rest.is_empty() {
            return Err(io::Error::other("gone"));
        }
        self.rest.read(buf)
    }
}

/// The third line is blank, and the last lacks its line feed.
const STEPS: &str = r#"{"op":"client","client":2,"ask":{"kind":"remove","queue":"q.fifo"}}
{"op":"crash","server":2,"after":5}

{"op":"join","server":4,"after":4611686018427387904}"#;

#[test]
fn a_failed_read_is_no_end(rt: HostRuntime) {
    let rest = STEPS.as_bytes();
    let read = read_live(rt.alloc(), &mut Checked::new(Failing { rest }));
    assert!(rt; read == Err(ScriptFault::ReadFailed));
}
