//! The same text in all chunks that it can come in.
use crate::{Switch, read_chunks};
use cq_lines::{Limits, ScriptFault};
use std::alloc::Global;
use std::test::Fail;

/// A line of four bytes is overlong, and a seventh line is one too many.
const LIMITS: Limits = Limits {
    line_len: 3,
    line_count: 6,
};

/// Whether the text reads so however it is cut into three chunks, of which some are empty.
fn reads_so(alloc: Global, text: &[u8], want: &Result<Vec<Switch>, ScriptFault>) -> bool {
    for from in 0..=text.len() {
        for to in from..=text.len() {
            let chunks = [&text[..from], &text[from..to], &text[to..]];
            if read_chunks(alloc, LIMITS, &chunks) != *want {
                return false;
            }
        }
    }
    true
}

#[test]
fn chunks_do_not_count(rt: HostRuntime) -> Result<(), Fail> {
    let want = vec![in rt.alloc(); Switch::On, Switch::Overlong(3), Switch::Off]?;
    assert!(rt; reads_so(rt.alloc(), b"on\n\noffon\n \t\noff", &Ok(want)));
    Ok(())
}

#[test]
fn faults_are_the_first_ones(rt: HostRuntime) {
    let alloc = rt.alloc();
    let many = Err(ScriptFault::TooManyLines);
    assert!(rt; reads_so(alloc, b"on\n\n\n\n\noff\non", &many));
    let bad = Err(ScriptFault::BadLine(3));
    assert!(rt; reads_so(alloc, b"on\noff\nout\nin", &bad));
    assert!(rt; reads_so(alloc, b"on\n\nof", &bad));
}
