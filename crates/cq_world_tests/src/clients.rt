//! Clients, and the answers that close their requests.
use cq_base::{Ask, QueueName, Reply, Request, Seconds};
use cq_chain::{Client, ClientFault};
use std::alloc::Global;
use std::process::Abort;
use std::test::Fail;

// Where a client refuses a call for want of memory, the call is made once more. So under
// `check/refused-allocations`, which refuses each allocation of each test in turn, a test passes, or ends with
// an error where memory for a request or a text was refused; no assertion fails.

/// Client 1 creates `q.fifo` with a visibility timeout of 30 s.
fn create(alloc: Global, number: u64) -> Result<Request, Fail> {
    let queue = QueueName::new(alloc, "q.fifo")?;
    let visibility = Seconds::new(30).ok_or("no timeout")?;
    Ok(Request {
        client: 1,
        number,
        ask: Ask::Create {
            queue,
            visibility,
            content: false,
        },
    })
}

/// It asks, once more where memory is refused.
fn ask(client: &mut Client, what: &Ask) -> Result<Request, ClientFault> {
    let first = client.ask(what);
    if first == Err(ClientFault::NoMemory) {
        return client.ask(what);
    }
    first
}

/// The open request once more, and once more where memory is refused.
fn again(client: &Client) -> Result<Option<Request>, Fail> {
    match client.again() {
        Ok(request) => Ok(request),
        Err(_) => Ok(client.again()?),
    }
}

/// It asks by that request.
fn check_asked(rt: &impl Abort, client: &mut Client, want: &Request) -> Result<(), Fail> {
    let got = ask(client, &want.ask)?;
    assert!(rt; got == *want);
    Ok(())
}

/// It asks under the number that it has to.
fn check_ask(rt: &impl Abort, alloc: Global, client: &mut Client, number: u64) -> Result<(), Fail> {
    let want = create(alloc, number)?;
    check_asked(rt, client, &want)
}

/// That request is the open one.
fn check_open(rt: &impl Abort, client: &Client, want: &Request) -> Result<(), Fail> {
    let got = again(client)?.ok_or("no request is open")?;
    assert!(rt; got == *want);
    Ok(())
}

/// The open request is that of that number.
fn check_again(rt: &impl Abort, alloc: Global, client: &Client, number: u64) -> Result<(), Fail> {
    let want = create(alloc, number)?;
    check_open(rt, client, &want)
}

/// No request is open.
fn check_closed(rt: &impl Abort, client: &Client) -> Result<(), Fail> {
    let got = again(client)?;
    assert!(rt; got.is_none());
    Ok(())
}

fn is_busy(client: &mut Client, what: &Ask) -> bool {
    ask(client, what) == Err(ClientFault::Busy)
}

/// It refuses to ask, since a request is open.
fn check_busy(rt: &impl Abort, alloc: Global, client: &mut Client) -> Result<(), Fail> {
    let other = Ask::Remove {
        queue: QueueName::new(alloc, "r.fifo")?,
    };
    assert!(rt; is_busy(client, &other));
    Ok(())
}

/// Whether an answer of that number and length closes the open request.
fn take(client: &mut Client, number: u64, length: u64) -> bool {
    client.take(number, length, &Reply::Created(1))
}

fn check_one_request_at_a_time(
    rt: &impl Abort,
    alloc: Global,
    client: &mut Client,
) -> Result<(), Fail> {
    check_closed(rt, client)?;
    check_ask(rt, alloc, client, 1)?;
    check_busy(rt, alloc, client)?;
    check_again(rt, alloc, client, 1)?;
    check_again(rt, alloc, client, 1)
}

#[test]
fn one_request_at_a_time(rt: HostRuntime) -> Result<(), Fail> {
    let alloc = rt.alloc();
    let mut client = Client::new(1);
    check_one_request_at_a_time(&rt, alloc, &mut client)
}

fn check_the_first_answer_closes_its_request(
    rt: &impl Abort,
    alloc: Global,
    client: &mut Client,
) -> Result<(), Fail> {
    check_ask(rt, alloc, client, 1)?;
    assert!(rt; !take(client, 2, 5));
    check_again(rt, alloc, client, 1)?;
    assert!(rt; take(client, 1, 5));
    check_closed(rt, client)?;
    assert!(rt; !take(client, 1, 6));
    Ok(())
}

#[test]
fn the_first_answer_closes_its_request(rt: HostRuntime) -> Result<(), Fail> {
    let alloc = rt.alloc();
    let mut client = Client::new(1);
    check_the_first_answer_closes_its_request(&rt, alloc, &mut client)
}
