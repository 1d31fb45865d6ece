//! Mistakes, and what is said of them.

use crate::{explain_live, explain_script};
use cq_base::ChainSize;
use cq_lines::Checked;
use std::io;
use std::io::Write;

/// Takes all that is written.
#[derive(Drop)]
struct Taker<'a> {
    taken: &'a mut Vec<u8>,
}

impl Write for Taker<'_> {
    fn write(&mut self, buf: &[u8]) -> io::Result<usize> {
        self.taken.extend_from_slice(buf)?;
        Ok(buf.len())
    }

    fn flush(&mut self) -> io::Result<()> {
        Ok(())
    }
}

/// Ten mistakes in lines, some more, and events that are refused.
const SCRIPT: &str =
    r#"{"op":"arrive","at":1,"clock":1000,"client":1,"number":1,"ask":{"kind":"create","queue":"q.fifo"}}
{"op":"tak","from":1,"to":2}
{"op":"arrive","at":2,"clock":1000,"client":1,"number":1,"ask":{"kind":"create","queue":"q.fifo"}}

{"op":"put","from":1,"to":2
{"op":"put","from":1,"to":clients}
[1, 2]
{"from":1,"to":2}
{"op":"put","from":1}
{"op":"put","from":1,"to":"client"}
{"op":"crash","server":0}
{"op":"crash","server":1,"at":5}
{"op":"arrive","at":1,"clock":-1,"client":1,"number":2,"ask":{"kind":"remove","queue":"q.fifo"}}
{"op":"arrive","at":1,"clock":1,"client":1,"number":2,"ask":{"kind":"fetch","queue":"q.fifo"}}
{"op":"arrive","at":1,"clock":1,"client":1,"number":2,"ask":{"kind":"receive","queue":"q.fifo","size":11}}
{"op":"arrive","at":1,"clock":1,"client":1,"number":2,"ask":{"kind":"delete","queue":"q.fifo","receipt":"1-1"}}
{"op":"arrive","at":1,"clock":1,"client":1,"number":2,"ask":{"kind":"create","queue":"q","content_dedup":1}}
{"op":"arrive","at":1,"clock":1,"client":1,"number":2,"ask":{"kind":"create","queue":"a b.fifo"}}
{"op":"arrive","at":1,"clock":1,"client":1,"number":2,"ask":{"kind":"send","queue":"q.fifo","group":"","body":"b"}}
{"op":"arrive","at":1,"clock":1,"client":1,"number":2,"ask":{"kind":"send","queue":"q.fifo","group":"g","body":""}}
{"op":"put","from":1,"to":2}
{"op":"put","from":1,"to":3}
{"op":"put","from":1,"to":"master"}
{"op":"take","from":"master","to":2}
{"op":"ask","at":1,"client":1,"tag":1,"queue":"q.fifo"}
{"op":"detect","server":2}
{"op":"join","server":2}
{"op":"crash","server":1}
{"op":"crash","server":2}
{"op":"put","from":1,"to":2}
{"op":"detect","server":1}
{"op":"join","server":3}
{"op":"join","server":4}
{"op":"join","server":5,"a\nb":1}"#;

const TOLD: &str = r#"line 2, "op": "tak" is none of arrive, ask, put, take, crash, detect, join
line 3: server 2 is not the head; the chain begins with server 1
line 5: it ends before it is whole, as JSON
line 6: it is no JSON, at byte 27
line 7: [1,2] is no object with "op"
line 8: "op" is missing, which is one of arrive, ask, put, take, crash, detect, join
line 9: "to" is missing, a server's number, "master" or "clients"
line 10, "to": "client" is not a server's number, "master" or "clients"
line 11, "server": 0 is not a server's number, from 1 to 4294967295
line 12: "at" is no key of crash, which has op and server
line 13, "clock": -1 is not a whole number from 0 to 1152921504606846976, in digits alone
line 14, "kind": "fetch" is none of create, remove, send, receive, delete, change
line 15, "size": 11 is not a whole number from 1 to 10, in digits alone
line 16, "receipt": "1-1" is not a receipt, which is three numbers from 1 on, as "1-1-1"
line 17, "content_dedup": 1 is not true or false
line 18, "queue": "a b.fifo" is no queue's name: up to 80 letters, digits, - and _, of which the last five are .fifo
line 19, "group": "" is not 1 to 128 letters, digits and punctuation marks of ASCII
line 20, "body": "" is empty, or has more than 262144 bytes
line 22: there is no server 3
line 23: no message waits at server 1 for the master
line 24: no message is on its way from the master to server 2
line 25: server 1 doesn't act as tail
line 26: server 2 hasn't crashed
line 27: the number of server 2 was used before
line 29: no other full server is left but server 2
line 30: server 1 has crashed
line 33: another server joins, or the master hasn't heard yet that the last one acts
line 34: "a\nb" is no key of join, which has op and server
"#;

#[test]
fn each_mistake_has_its_sentence(rt: HostRuntime) {
    let mut taken = Vec::new(rt.alloc());
    let mut output = Checked::new(Taker { taken: &mut taken });
    let size = ChainSize::new(2).unwrap();
    let told = explain_script(
        rt.alloc(),
        size,
        &mut Checked::new(SCRIPT.as_bytes()),
        &mut output,
    );
    assert!(rt; told == Ok(true));
    assert!(rt; taken.as_slice() == TOLD.as_bytes());
}

#[test]
fn of_a_good_script_nothing_is_told(rt: HostRuntime) {
    let script = "\n{\"op\":\"crash\",\"server\":1}\n \t";
    let mut taken = Vec::new(rt.alloc());
    let mut output = Checked::new(Taker { taken: &mut taken });
    let size = ChainSize::new(2).unwrap();
    let told = explain_script(
        rt.alloc(),
        size,
        &mut Checked::new(script.as_bytes()),
        &mut output,
    );
    assert!(rt; told == Ok(false));
    assert!(rt; taken.as_slice().is_empty());
}

const STEPS: &str = r#"{"op":"client","client":3,"ask":{"kind":"remove","queue":"q.fifo"}}
{"op":"client","client":2,"ask":{"kind":"remove","queue":"q"}}
{"op":"crash","server":2}
{"op":"put","from":1,"to":2}
{"op":"join","server":4,"after":1}"#;

const TOLD_OF_STEPS: &str =
    r#"line 1, "client": 3 is not a whole number from 1 to 2, in digits alone
line 2, "queue": "q" is no queue's name: up to 80 letters, digits, - and _, of which the last five are .fifo
line 3: "after" is missing, a whole number from 0 to 4611686018427387904, in digits alone
line 4, "op": "put" is none of client, crash, join
"#;

#[test]
fn so_has_each_one_of_a_live_script(rt: HostRuntime) {
    let mut taken = Vec::new(rt.alloc());
    let mut output = Checked::new(Taker { taken: &mut taken });
    let told = explain_live(rt.alloc(), &mut Checked::new(STEPS.as_bytes()), &mut output);
    assert!(rt; told == Ok(true));
    assert!(rt; taken.as_slice() == TOLD_OF_STEPS.as_bytes());
}
