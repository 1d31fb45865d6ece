//! Scripts and sessions that come in parts, and readers and writers that give up.

use cq_base::ChainSize;
use cq_script::{Checked, LINE_LIMIT, ScriptFault, Sink, Source, replay, session};
use std::alloc::Global;
use std::cell::Cell;
use std::io;
use std::io::{ErrorKind, Read, Write};
use std::test::Fail;

/// Gives at most `step` bytes at a time. It fails once it has given `good` bytes, and is
/// interrupted before each read that gives some.
#[derive(Drop)]
struct Pieces<'a> {
    rest: &'a [u8],
    step: usize,
    good: usize,
    interrupted: bool,
}

impl<'a> Pieces<'a> {
    fn new(rest: &'a [u8], step: usize) -> Pieces<'a> {
        Pieces {
            rest,
            step,
            good: usize::MAX,
            interrupted: false,
        }
    }
}

impl Read for Pieces<'_> {
    fn read(&mut self, buf: &mut [u8]) -> io::Result<usize> {
        self.interrupted = !self.interrupted;
        if self.interrupted {
            return Err(io::Error::new(ErrorKind::Interrupted, "not yet"));
        }
        if self.good == 0 {
            return Err(io::Error::other("gone"));
        }
        let count = self.step.min(self.good).min(self.rest.len()).min(buf.len());
        let (prefix, later) = self.rest.split_at(count);
        buf[..count].copy_from_slice(prefix);
        self.rest = later;
        self.good -= count;
        Ok(count)
    }
}

/// Takes at most `step` bytes at a time, and no more than `room`. A full one fails, or takes
/// nothing if it is `silent`. It is interrupted before each write and each flush, and counts in `passed` the bytes
/// that were taken by its last flush. Where it is `stuck`, a flush fails.
#[derive(Drop)]
struct Room<'a> {
    taken: &'a mut Vec<u8>,
    passed: &'a mut usize,
    step: usize,
    room: usize,
    silent: bool,
    stuck: bool,
    interrupted: bool,
}

impl<'a> Room<'a> {
    fn new(taken: &'a mut Vec<u8>, passed: &'a mut usize, room: usize) -> Room<'a> {
        Room {
            taken,
            passed,
            step: 2,
            room,
            silent: false,
            stuck: false,
            interrupted: false,
        }
    }

    /// Every other call is interrupted.
    fn interrupt(&mut self) -> io::Result<()> {
        self.interrupted = !self.interrupted;
        if self.interrupted {
            return Err(io::Error::new(ErrorKind::Interrupted, "not yet"));
        }
        Ok(())
    }
}

impl Write for Room<'_> {
    fn write(&mut self, buf: &[u8]) -> io::Result<usize> {
        self.interrupt()?;
        if self.room == 0 && !self.silent {
            return Err(io::Error::other("full"));
        }
        let count = self.step.min(self.room).min(buf.len());
        self.taken.extend_from_slice(&buf[..count])?;
        self.room -= count;
        Ok(count)
    }

    fn flush(&mut self) -> io::Result<()> {
        self.interrupt()?;
        if self.stuck {
            return Err(io::Error::other("stuck"));
        }
        *self.passed = self.taken.len();
        Ok(())
    }
}

/// Replays a script on one server into a writer of so much room, and gives the answer and what was written.
fn replayed(
    alloc: Global,
    reader: Pieces<'_>,
    room: usize,
    silent: bool,
) -> (Result<(), ScriptFault>, Vec<u8>) {
    let mut taken = Vec::new(alloc);
    let mut passed = 0;
    let mut source = Checked::new(reader);
    let mut writer = Room::new(&mut taken, &mut passed, room);
    writer.silent = silent;
    let mut sink = Checked::new(writer);
    let answer = replay(alloc, ChainSize::one(), &mut source, &mut sink);
    (answer, taken)
}

/// A queue is made, a message sent and received, each answer given at once.
pub(crate) const FIRST_PATH: &str =
    r#"{"op":"arrive","at":1,"clock":1000,"client":1,"number":1,"ask":{"kind":"create","queue":"q.fifo","visibility":30}}
{"op":"put","from":1,"to":"clients"}
{"op":"arrive","at":1,"clock":1001,"client":1,"number":2,"ask":{"kind":"send","queue":"q.fifo","group":"a","dedup":"d1","body":"hello"}}
{"op":"put","from":1,"to":"clients"}
{"op":"arrive","at":1,"clock":1002,"client":1,"number":3,"ask":{"kind":"receive","queue":"q.fifo","size":1}}
{"op":"put","from":1,"to":"clients"}
"#;

pub(crate) const FIRST_PATH_TEXT: &str =
    r#"{"client":1,"length":1,"line":2,"number":1,"reply":{"incarnation":1,"kind":"created"}}
{"client":1,"length":2,"line":4,"number":2,"reply":{"kind":"sent","sequence":1}}
{"client":1,"length":3,"line":6,"number":3,"reply":{"kind":"received","messages":[{"body":"hello","group":"a","receipt":"1-1-1"}]}}
"#;

/// The first two lines of the first path, and one that is cut.
const CUT_LINE: &str =
    r#"{"op":"arrive","at":1,"clock":1000,"client":1,"number":1,"ask":{"kind":"create","queue":"q.fifo","visibility":30}}
{"op":"put","from":1,"to":"clients"}
{"op":"put","fro"#;

const CUT_LINE_TEXT: &str =
    r#"{"client":1,"length":1,"line":2,"number":1,"reply":{"incarnation":1,"kind":"created"}}
"#;

/// A receive on a queue that was never made.
const NO_QUEUE: &str =
    r#"{"op":"arrive","at":1,"clock":0,"client":1,"number":1,"ask":{"kind":"receive","queue":"q.fifo"}}
{"op":"put","from":1,"to":"clients"}
"#;

const NO_QUEUE_TEXT: &str =
    r#"{"client":1,"length":1,"line":2,"number":1,"reply":{"code":1,"kind":"refused","name":"QueueDoesNotExist"}}
"#;

/// Another server, no answer that waits, and a group with a space; then two answers in their order, and a body that
/// no message may have.
const REFUSALS: &str =
    r#"{"op":"arrive","at":2,"clock":0,"client":1,"number":1,"ask":{"kind":"create","queue":"q.fifo"}}

{"op":"put","from":1,"to":"clients"}
{"op":"arrive","at":1,"clock":0,"client":1,"number":1,"ask":{"kind":"send","queue":"q.fifo","group":"a b","dedup":"d","body":"x"}}
{"op":"arrive","at":1,"clock":7,"client":4294967295,"number":18446744073709551615,"ask":{"kind":"create","queue":"q.fifo"}}
{"op":"arrive","at":1,"clock":3,"client":0,"number":0,"ask":{"kind":"create","queue":"q.fifo","visibility":31}}
{"op":"put","from":1,"to":"clients"}
{"op":"put","from":1,"to":"clients"}
{"op":"arrive","at":1,"clock":9,"client":1,"number":2,"ask":{"kind":"send","queue":"q.fifo","group":"a","dedup":"d","body":"\u0000"}}
"#;

const REFUSALS_TEXT: &str = r#"{"line":1,"name":"NoSuchServer","refused":31}
{"line":3,"name":"OutboxEmpty","refused":34}
{"line":4,"name":"BadGroup","refused":12}
{"client":4294967295,"length":1,"line":7,"number":18446744073709551615,"reply":{"incarnation":1,"kind":"created"}}
{"client":0,"length":2,"line":8,"number":0,"reply":{"code":2,"kind":"refused","name":"QueueNameExists"}}
{"line":9,"name":"InvalidMessageContents","refused":14}
"#;

#[test]
fn reads_and_writes_in_parts(rt: HostRuntime) {
    let cases = [
        ("", Ok(()), ""),
        ("\n \t\r\n\n", Ok(()), ""),
        (FIRST_PATH, Ok(()), FIRST_PATH_TEXT),
        (FIRST_PATH.trim_end(), Ok(()), FIRST_PATH_TEXT),
        (CUT_LINE, Err(ScriptFault::BadLine(3)), CUT_LINE_TEXT),
        (NO_QUEUE, Ok(()), NO_QUEUE_TEXT),
        (REFUSALS, Ok(()), REFUSALS_TEXT),
    ];
    for (script, answer, text) in cases {
        for step in [1, 2, 7, 8192] {
            let reader = Pieces::new(script.as_bytes(), step);
            let (got, taken) = replayed(rt.alloc(), reader, usize::MAX, false);
            assert_eq!(rt; got, answer, "the answer to {script:?} by {step}");
            assert_eq!(rt;
                taken.as_slice(),
                text.as_bytes(),
                "the text of {script:?} by {step}"
            );
        }
    }
}

/// A read may end at any byte of a script, and at any byte of a session.
#[test]
fn reads_may_end_anywhere(rt: HostRuntime) {
    let one = ChainSize::one();
    for place in 0..=FIRST_PATH.len() {
        let (prefix, later) = FIRST_PATH.as_bytes().split_at(place);
        let mut taken = Vec::new(rt.alloc());
        let mut source = Checked::new(prefix.chain(later));
        let answer = replay(rt.alloc(), one, &mut source, &mut Checked::new(&mut taken));
        assert_eq!(rt; answer, Ok(()), "a script cut at {place}");
        assert_eq!(rt;
            taken.as_slice(),
            FIRST_PATH_TEXT.as_bytes(),
            "a script cut at {place}"
        );
        let mut told = Vec::new(rt.alloc());
        let mut source = Checked::new(prefix.chain(later));
        let answer = session(rt.alloc(), one, &mut source, &mut Checked::new(&mut told));
        assert_eq!(rt; answer, Ok(()), "a session cut at {place}");
        assert_eq!(rt;
            told.as_slice(),
            taken.as_slice(),
            "a session cut at {place}"
        );
    }
}

/// Gives a line at a time, and notes before each read how many bytes the writer had passed on.
#[derive(Drop)]
struct Watcher<'a> {
    rest: &'a [u8],
    passed: &'a Cell<usize>,
    noted: &'a mut Vec<usize>,
}

impl Read for Watcher<'_> {
    fn read(&mut self, buf: &mut [u8]) -> io::Result<usize> {
        self.noted.push(self.passed.get())?;
        let ended = self.rest.iter().position(|byte| *byte == b'\n');
        let count = ended.map_or(0, |place| place + 1).min(buf.len());
        let (prefix, later) = self.rest.split_at(count);
        buf[..count].copy_from_slice(prefix);
        self.rest = later;
        Ok(count)
    }
}

/// Counts the bytes that it was given, and those of them that it was had to pass on.
#[derive(Drop)]
struct Watched<'a> {
    given: usize,
    passed: &'a Cell<usize>,
}

impl Write for Watched<'_> {
    fn write(&mut self, buf: &[u8]) -> io::Result<usize> {
        self.given = self.given.saturating_add(buf.len());
        Ok(buf.len())
    }

    fn flush(&mut self) -> io::Result<()> {
        self.passed.set(self.given);
        Ok(())
    }
}

/// How many bytes had been passed on before each read, where a read brings a line.
fn passed_before_reads(alloc: Global, script: &str, is_session: bool) -> Vec<usize> {
    let passed = Cell::new(0);
    let mut noted = Vec::new(alloc);
    let mut source = Checked::new(Watcher {
        rest: script.as_bytes(),
        passed: &passed,
        noted: &mut noted,
    });
    let mut sink = Checked::new(Watched {
        given: 0,
        passed: &passed,
    });
    let _ = if is_session {
        session(alloc, ChainSize::one(), &mut source, &mut sink)
    } else {
        replay(alloc, ChainSize::one(), &mut source, &mut sink)
    };
    drop(source);
    noted
}

/// When a line is asked for, what comes of all lines before it has been written and passed on.
#[test]
fn answers_before_it_reads_on(rt: HostRuntime) {
    let wants = [0, 0, 87, 87, 168, 168, 300];
    for is_session in [false, true] {
        let noted = passed_before_reads(rt.alloc(), FIRST_PATH, is_session);
        assert_eq!(rt; noted.as_slice(), wants.as_slice());
    }
}

/// Three lines of 37 bytes with their line feeds, each refused in 45 bytes.
const PUTS: &str = r#"{"op":"put","from":1,"to":"clients"}
{"op":"put","from":1,"to":"clients"}
{"op":"put","from":1,"to":"clients"}
"#;

const PUTS_TEXT: &str = r#"{"line":1,"name":"OutboxEmpty","refused":34}
{"line":2,"name":"OutboxEmpty","refused":34}
{"line":3,"name":"OutboxEmpty","refused":34}
"#;

#[test]
fn runs_the_lines_before_a_failed_read(rt: HostRuntime) {
    for (good, lines) in [
        (0, 0),
        (36, 0),
        (37, 1),
        (38, 1),
        (74, 2),
        (110, 2),
        (111, 3),
    ] {
        let mut reader = Pieces::new(PUTS.as_bytes(), 7);
        reader.good = good;
        let (answer, taken) = replayed(rt.alloc(), reader, usize::MAX, false);
        assert_eq!(rt; answer, Err(ScriptFault::ReadFailed), "after {good} bytes");
        assert_eq!(rt;
            taken.as_slice(),
            &PUTS_TEXT.as_bytes()[..45 * lines],
            "after {good} bytes"
        );
    }
}

#[test]
fn writes_the_prefix_that_fits(rt: HostRuntime) -> Result<(), Fail> {
    let mut script = String::from_str(rt.alloc(), PUTS)?;
    script.push_str("x")?;
    for silent in [false, true] {
        for room in [0, 1, 2, 10, 44, 45, 46, 50, 134] {
            let reader = Pieces::new(script.as_bytes(), 7);
            let (answer, taken) = replayed(rt.alloc(), reader, room, silent);
            assert_eq!(rt;
                answer,
                Err(ScriptFault::WriteFailed),
                "with room for {room}"
            );
            assert_eq!(rt;
                taken.as_slice(),
                &PUTS_TEXT.as_bytes()[..room],
                "with room for {room}"
            );
        }
        let reader = Pieces::new(script.as_bytes(), 7);
        let (answer, taken) = replayed(rt.alloc(), reader, 135, silent);
        assert_eq!(rt; answer, Err(ScriptFault::BadLine(4)));
        assert_eq!(rt; taken.as_slice(), PUTS_TEXT.as_bytes());
    }
    Ok(())
}

const GONE_ON: &str = r#"{"line":1,"name":"BadLine","refused":61}
{"line":3,"name":"BadQueueName","refused":11}
{"line":4,"name":"LineTooLong","refused":62}
{"line":5,"name":"BadLine","refused":61}
{"line":6,"name":"OutboxEmpty","refused":34}
"#;

/// A line that is bad, a blank one, one whose queue has no name, one that is too long, another bad one, and one that is
/// refused by the world, without a line feed.
#[test]
fn a_session_goes_on(rt: HostRuntime) -> Result<(), Fail> {
    let long = vec![in rt.alloc(); b' '; LINE_LIMIT + 1]?;
    let mut lines = Vec::new(rt.alloc());
    lines.extend_from_slice(
        b"{\"op\":\"put\"\n\n{\"op\":\"ask\",\"at\":1,\"client\":1,\"tag\":1,\"queue\":\"q\"}\n",
    )?;
    lines.extend_from_slice(long.as_slice())?;
    lines.extend_from_slice(b"\nx\n{\"op\":\"put\",\"from\":1,\"to\":\"clients\"}")?;
    for step in [997, 8192, 65536] {
        let mut taken = Vec::new(rt.alloc());
        let mut source = Checked::new(Pieces::new(lines.as_slice(), step));
        let answer = session(
            rt.alloc(),
            ChainSize::one(),
            &mut source,
            &mut Checked::new(&mut taken),
        );
        assert_eq!(rt; answer, Ok(()));
        assert_eq!(rt; taken.as_slice(), GONE_ON.as_bytes(), "by {step} bytes");
    }
    Ok(())
}

#[test]
fn remembers_failures(rt: HostRuntime) {
    let mut reader = Pieces::new(b"12", 1);
    reader.good = 1;
    let mut source = Checked::new(reader);
    let mut byte = [0];
    assert_eq!(rt; source.read(&mut byte).ok(), Some(1));
    assert!(rt; !source.failed(), "an interrupted read is made again");
    assert_eq!(rt; source.read(&mut byte).ok(), None);
    assert!(rt; source.failed());

    let mut taken = Vec::new(rt.alloc());
    let mut passed = 0;
    let mut writer = Room::new(&mut taken, &mut passed, 0);
    writer.silent = true;
    let mut sink = Checked::new(writer);
    assert_eq!(rt; sink.write(&[]).ok(), Some(0));
    assert!(rt; !sink.failed(), "no bytes are all taken");
    assert_eq!(rt; sink.write(b"1").ok(), Some(0));
    assert!(rt; sink.failed());
}

/// A read, a write and a flush that are interrupted are made again, and a flush reaches the writer within.
#[test]
fn makes_interrupted_calls_again(rt: HostRuntime) {
    let mut source = Checked::new(Pieces::new(b"12", 1));
    let mut byte = [0];
    assert_eq!(rt; source.read(&mut byte).ok(), Some(1));
    assert_eq!(rt; byte, *b"1");
    let mut taken = Vec::new(rt.alloc());
    let mut passed = 0;
    let mut sink = Checked::new(Room::new(&mut taken, &mut passed, 9));
    assert_eq!(rt; sink.write(b"123").ok(), Some(2));
    assert!(rt; sink.flush().is_ok());
    assert!(rt; !sink.failed());
    drop(sink);
    assert_eq!(rt; taken.as_slice(), b"12".as_slice());
    assert_eq!(rt; passed, 2);
}

#[test]
fn flushes_what_it_wrote(rt: HostRuntime) {
    let cases = [
        (FIRST_PATH, Ok(()), FIRST_PATH_TEXT),
        (CUT_LINE, Err(ScriptFault::BadLine(3)), CUT_LINE_TEXT),
    ];
    for (script, want, text) in cases {
        for stuck in [false, true] {
            let mut taken = Vec::new(rt.alloc());
            let mut passed = 0;
            let mut source = Checked::new(Pieces::new(script.as_bytes(), 65536));
            let mut writer = Room::new(&mut taken, &mut passed, usize::MAX);
            writer.stuck = stuck;
            let mut sink = Checked::new(writer);
            let answer = replay(rt.alloc(), ChainSize::one(), &mut source, &mut sink);
            let (wanted, count) = if stuck {
                (Err(ScriptFault::WriteFailed), 0)
            } else {
                (want, text.len())
            };
            assert_eq!(rt; answer, wanted);
            drop(sink);
            assert_eq!(rt; taken.as_slice(), text.as_bytes());
            assert_eq!(rt; passed, count);
        }
    }
}

#[test]
fn faults_have_texts(rt: HostRuntime) -> Result<(), Fail> {
    let cases = [
        (ScriptFault::BadLine(3), "line 3 is not a line of a script"),
        (ScriptFault::LineTooLong(4), "line 4 is too long"),
        (ScriptFault::TooManyLines, "the script has too many lines"),
        (ScriptFault::ReadFailed, "the script could not be read"),
        (ScriptFault::WriteFailed, "the output could not be written"),
        (ScriptFault::NoMemory, "out of memory"),
    ];
    for (fault, text) in cases {
        assert_eq!(rt; fault.to_string(rt.alloc())?.as_str(), text);
    }
    Ok(())
}
