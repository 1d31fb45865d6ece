//! Requests as lines of a script: each client counts its own, and the clock goes on.
use crate::common::Draws;
use crate::lines::Lines;
use std::alloc::Global;
use std::io;

/// So many clients take turns at random.
const CLIENTS: u64 = 64;

/// What clients have asked so far.
#[derive(Drop)]
pub struct Orders {
    pub draws: Draws,
    /// The clock, in milliseconds.
    clock: u64,
    /// By how many milliseconds at most the clock goes on between two requests.
    pause: u64,
    /// How many requests each client has made.
    made: Vec<u64>,
}

impl Orders {
    pub fn new(alloc: Global, seed: u64, pause: u64) -> io::Result<Orders> {
        let mut made = Vec::new(alloc);
        for _ in 0..CLIENTS {
            made.push(0)?;
        }
        Ok(Orders {
            draws: Draws::new(seed),
            clock: 1_000,
            pause,
            made,
        })
    }

    /// The number of that client's next request.
    fn next_number(&mut self, client: u64) -> u64 {
        match self.made.get_mut(client as usize) {
            Some(number) => {
                *number = number.saturating_add(1);
                *number
            }
            None => 1,
        }
    }

    /// Begins the line of a client's next request to that server, up to its ask.
    fn begin(&mut self, lines: &mut Lines, server: u64) -> io::Result<()> {
        let client = self.draws.below(CLIENTS);
        let number = self.next_number(client);
        let pause = self.draws.below(self.pause);
        self.clock = self.clock.saturating_add(pause);
        lines.text("{\"op\":\"arrive\",\"at\":")?;
        lines.number(server)?;
        lines.text(",\"clock\":")?;
        lines.number(self.clock)?;
        lines.text(",\"client\":")?;
        lines.number(client.saturating_add(1))?;
        lines.text(",\"number\":")?;
        lines.number(number)?;
        lines.text(",\"ask\":{\"kind\":\"")
    }

    /// Begins the line of a request of that kind on a queue.
    fn begin_on(
        &mut self,
        lines: &mut Lines,
        server: u64,
        kind: &str,
        queue: u64,
    ) -> io::Result<()> {
        self.begin(lines, server)?;
        lines.text(kind)?;
        lines.text("\",\"queue\":\"")?;
        write_queue(lines, queue)?;
        lines.text("\"")
    }

    /// The line of a request to make the queue, with a timeout of so many seconds.
    pub fn create(
        &mut self,
        lines: &mut Lines,
        server: u64,
        queue: u64,
        visibility: u64,
    ) -> io::Result<()> {
        self.begin_on(lines, server, "create", queue)?;
        lines.text(",\"visibility\":")?;
        lines.number(visibility)?;
        lines.text("}}\n")
    }

    /// The line of a send up to its body, which stands between quotes. The deduplication id is that number.
    pub fn begin_send(
        &mut self,
        lines: &mut Lines,
        server: u64,
        queue: u64,
        group: u64,
        id: u64,
    ) -> io::Result<()> {
        self.begin_on(lines, server, "send", queue)?;
        lines.text(",\"group\":\"customer-")?;
        lines.number(group)?;
        lines.text("\",\"dedup\":\"order-")?;
        lines.number(id)?;
        lines.text("\",\"body\":\"")
    }

    /// What stands behind the body of a send.
    pub fn end_send(&mut self, lines: &mut Lines) -> io::Result<()> {
        lines.text("\"}}\n")
    }

    /// The line of a receive of up to that many messages.
    pub fn receive(
        &mut self,
        lines: &mut Lines,
        server: u64,
        queue: u64,
        count: u64,
    ) -> io::Result<()> {
        self.begin_on(lines, server, "receive", queue)?;
        lines.text(",\"size\":")?;
        lines.number(count)?;
        lines.text("}}\n")
    }

    /// Writes a receipt of the queue's first incarnation.
    fn receipt(&mut self, lines: &mut Lines, message: u64, handing: u64) -> io::Result<()> {
        lines.text(",\"receipt\":\"1-")?;
        lines.number(message)?;
        lines.text("-")?;
        lines.number(handing)?;
        lines.text("\"")
    }

    /// The line of a delete of a message by the receipt of that handing.
    pub fn delete(
        &mut self,
        lines: &mut Lines,
        server: u64,
        queue: u64,
        message: u64,
        handing: u64,
    ) -> io::Result<()> {
        self.begin_on(lines, server, "delete", queue)?;
        self.receipt(lines, message, handing)?;
        lines.text("}}\n")
    }

    /// The line of another timeout, in seconds, of a message by the receipt of that handing.
    pub fn change(
        &mut self,
        lines: &mut Lines,
        server: u64,
        queue: u64,
        message: u64,
        handing: u64,
        visibility: u64,
    ) -> io::Result<()> {
        self.begin_on(lines, server, "change", queue)?;
        self.receipt(lines, message, handing)?;
        lines.text(",\"visibility\":")?;
        lines.number(visibility)?;
        lines.text("}}\n")
    }

    /// The line of a query that counts the queue's messages.
    pub fn count(&mut self, lines: &mut Lines, server: u64, queue: u64) -> io::Result<()> {
        lines.text("{\"op\":\"ask\",\"at\":")?;
        lines.number(server)?;
        lines.text(",\"client\":1,\"tag\":")?;
        lines.number(self.clock)?;
        lines.text(",\"queue\":\"")?;
        write_queue(lines, queue)?;
        lines.text("\"}\n")
    }
}

/// Writes the name of the queue with that number.
fn write_queue(lines: &mut Lines, queue: u64) -> io::Result<()> {
    lines.text("orders-")?;
    lines.number(queue)?;
    lines.text(".fifo")
}
