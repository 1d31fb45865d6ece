//! Inputs that come in parts, and readers and writers that give up.

use crate::Numbering;
use cq_frame_loop::{LoopFault, answer_frames};
use cq_lines::Checked;
use std::alloc::{AllocError, Global};
use std::io;
use std::io::{Read, Write};
use std::test::Fail;

/// Gives at most `step` bytes at a time, and fails once it has given `good` bytes.
#[derive(Drop)]
struct Pieces<'a> {
    rest: &'a [u8],
    step: usize,
    good: usize,
}

impl Read for Pieces<'_> {
    fn read(&mut self, buf: &mut [u8]) -> io::Result<usize> {
        if self.good == 0 {
            return Err(io::Error::other("gone"));
        }
        let count = self.step.min(self.good).min(self.rest.len()).min(buf.len());
        let (prefix, later) = self.rest.split_at(count);
        buf[..count].copy_from_slice(prefix);
        self.rest = later;
        self.good -= count;
        Ok(count)
    }
}

/// Takes as many bytes as there is room for, and then fails. It counts in `passed` the bytes that were taken by its last flush.
#[derive(Drop)]
struct Room<'a> {
    taken: &'a mut Vec<u8>,
    passed: &'a mut usize,
    room: usize,
}

impl Write for Room<'_> {
    fn write(&mut self, buf: &[u8]) -> io::Result<usize> {
        let count = self.room.min(buf.len());
        self.taken.extend_from_slice(&buf[..count])?;
        self.room -= count;
        Ok(count)
    }

    fn flush(&mut self) -> io::Result<()> {
        *self.passed = self.taken.len();
        Ok(())
    }
}

/// What came of an input: the answer, what was written, and how much of it was passed on.
#[derive(Drop)]
struct Outcome {
    answer: Result<(), LoopFault>,
    taken: Vec<u8>,
    passed: usize,
}

fn answered(alloc: Global, reader: Pieces<'_>, limit: u8, room: usize) -> Outcome {
    let mut taken = Vec::new(alloc);
    let mut passed = 0;
    let mut handler = Numbering { count: 0, limit };
    let mut source = Checked::new(reader);
    let mut sink = Checked::new(Room {
        taken: &mut taken,
        passed: &mut passed,
        room,
    });
    let answer = answer_frames(alloc, &mut handler, &mut source, &mut sink);
    drop(sink);
    Outcome {
        answer,
        taken,
        passed,
    }
}

/// A frame of two bytes, one of none, one that is too long, of which a byte is there that looks like a frame's, and more of it.
const INPUT: &[u8] = &[2, 0, 0, 0, 7, 8, 0, 0, 0, 0, 1, 0, 64, 0, 1, 0, 0, 0, 9];

const TOLD: &[u8] = &[7, 8, 0, 1, 255, 2];

/// However the input is cut, the same is told.
#[test]
fn pieces_do_not_count(rt: HostRuntime) {
    for step in 1..=INPUT.len() {
        let reader = Pieces {
            rest: INPUT,
            step,
            good: usize::MAX,
        };
        let outcome = answered(rt.alloc(), reader, 9, usize::MAX);
        assert_eq!(rt; outcome.answer, Ok(()), "at {step}");
        assert_eq!(rt; outcome.taken.as_slice(), TOLD, "at {step}");
        assert_eq!(rt; outcome.passed, TOLD.len(), "at {step}");
    }
}

/// A frame of so many bytes, which are all the same.
fn put_frame(alloc: Global, input: &mut Vec<u8>, size: u32, byte: u8) -> Result<(), AllocError> {
    input.extend_from_slice(&size.to_le_bytes())?;
    let bytes = vec![in alloc; byte; size as usize]?;
    input.extend_from_slice(bytes.as_slice())
}

/// The longest frame is answered. One that has a byte more is passed over, and those behind it are answered.
#[test]
fn the_limit_is_a_frame(rt: HostRuntime) -> Result<(), Fail> {
    let mut input = Vec::new(rt.alloc());
    put_frame(rt.alloc(), &mut input, 4_194_304, 4)?;
    put_frame(rt.alloc(), &mut input, 4_194_305, 1)?;
    put_frame(rt.alloc(), &mut input, 3, 5)?;
    put_frame(rt.alloc(), &mut input, 1, 6)?;
    for step in [65_536, usize::MAX] {
        let reader = Pieces {
            rest: input.as_slice(),
            step,
            good: usize::MAX,
        };
        let outcome = answered(rt.alloc(), reader, 9, usize::MAX);
        assert_eq!(rt; outcome.answer, Ok(()));
        assert_eq!(rt; outcome.passed, 4_194_313);
        assert!(rt;
            outcome
                .taken
                .as_slice()
                .ends_with(&[4, 0, 255, 1, 5, 5, 5, 2, 6, 3])
        );
    }
    Ok(())
}

/// Whether the loop ends by that fault, with this written, where the handler answers so many frames, the reader gives so many bytes, and
/// the writer has so much room.
fn ends_so(
    alloc: Global,
    limit: u8,
    good: usize,
    room: usize,
    want: LoopFault,
    told: &[u8],
) -> bool {
    let reader = Pieces {
        rest: INPUT,
        step: 5,
        good,
    };
    let outcome = answered(alloc, reader, limit, room);
    outcome.answer == Err(want) && outcome.taken.as_slice() == told
}

/// What was told before a fault is written.
#[test]
fn faults_come_behind_answers(rt: HostRuntime) {
    let alloc = rt.alloc();
    assert!(rt; ends_so(alloc, 9, 12, 99, LoopFault::ReadFailed, &[7, 8, 0, 1]));
    assert!(rt; ends_so(alloc, 9, 99, 3, LoopFault::WriteFailed, &[7, 8, 0]));
    assert!(rt; ends_so(alloc, 2, 99, 99, LoopFault::Unanswered, &[7, 8, 0, 1]));
}
