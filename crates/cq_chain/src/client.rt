//! A client: one open request at a time, asked again where its answer is missing.
ghost use Rattle.std.specs.Prelude.{◌≡◌, None, IfOk, IfErr};
ghost use Rattle.cq_chain.specs.Clients as clients;
ghost use Rattle.cq_chain.specs.Clients.{StandsFor, first_client, refusal_of_ask, request_of, next_request, asked, open_request, closes, after_answer};
ghost use Rattle.cq_chain.specs.Faults.{IsClientRefusal};

use crate::fault::ClientFault;
use cq_base::{Ask, NoMemory, REQUESTS_LIMIT, Reply, Request};

/// A client of the queues. It asks one thing at a time, each under a number of its own, and once more under the
/// same number where it waits too long, until an answer closes the request. Numbers are a choice of this project:
/// SQS has none. It keeps a copy of what it asks, which shares the texts.
#[derive(Debug)]
pub struct Client {
    id: u32,
    used: u64,
    pending: Option<Ask>,
    length: u64,
}

/// Written out, not derived: CONTRIBUTING.md, "Drop".
impl Drop for Client {
    fn drop(self) {
        let Client {
            id: _,
            used: _,
            pending: _,
            length: _,
        } = self;
    }
}

#[tactic(auto, unfolding(crate::specs::Clients::StandsFor))]
impl Client {
    /// The client of that id, which has asked nothing. It takes no memory: O(1).
    pub fn new(id: u32) -> Client
        ensures { StandsFor result (first_client id) }
    {
        Client {
            id,
            used: 0,
            pending: None,
            length: 0,
        }
    }

    /// The request that it makes of an ask under that number. It shares the texts: O(1).
    fn request(&self, number: u64, ask: &Ask) -> Result<Request, NoMemory>
        ensures { (c : clients.Client) → StandsFor self.now c
            → IfOk result (λ request. request ≡ request_of c number ask.now) }
    {
        Ok(Request {
            client: self.id,
            number,
            ask: ask.try_copy()?,
        })
    }

    /// It asks, under its next number: numbers count from 1. That request is open then, until an answer closes it.
    /// O(1).
    ///
    /// Faults: `Busy` (43) where a request is open, `NumbersSpent` (44) once number 2^62 was used, `NoMemory` (20).
    /// After each of them the client is as it was.
    pub fn ask(&mut self, ask: &Ask) -> Result<Request, ClientFault>
        ensures ok { (c : clients.Client) → StandsFor self.old c → IfOk result (λ request.
            (refusal_of_ask c ≡ None) × (request ≡ next_request c ask.now) × StandsFor self.new (asked c ask.now)) }
        ensures err { (c : clients.Client) → StandsFor self.old c → IfErr result (λ fault.
            IsClientRefusal fault (refusal_of_ask c) × StandsFor self.new c) }
    {
        if self.pending.is_some() {
            return Err(ClientFault::Busy);
        }
        if REQUESTS_LIMIT <= self.used {
            return Err(ClientFault::NumbersSpent);
        }
        let number = self.used + 1;
        let request = self.request(number, ask)?;
        self.pending = Some(ask.try_copy()?);
        self.used = number;
        Ok(request)
    }

    /// The open request once more, for a client that waits too long; none where none is open. O(1).
    pub fn again(&self) -> Result<Option<Request>, NoMemory>
        ensures { (c : clients.Client) → StandsFor self.now c → IfOk result (λ request. request ≡ open_request c) }
    {
        match &self.pending {
            Some(ask) => Ok(Some(self.request(self.used, ask)?)),
            None => Ok(None),
        }
    }

    /// Whether an answer of that number and length closes the open request.
    fn closes(&self, number: u64, length: u64) -> bool
        ensures { (c : clients.Client) → StandsFor self.now c → result ≡ closes c number length }
    {
        self.pending.is_some() && number == self.used && self.length < length
    }

    /// An answer to a request comes: its number, its length and its reply. It closes the open request if it is of
    /// that number, and of a length above that of the last answer that closed one; any other changes nothing. The
    /// reply plays no part in this. It takes no memory: O(1).
    pub fn take(&mut self, number: u64, length: u64, _reply: &Reply) -> bool
        ensures { (c : clients.Client) → StandsFor self.old c
            → (result ≡ closes c number length) × StandsFor self.new (after_answer c number length) }
    {
        if self.closes(number, length) {
            self.pending = None;
            self.length = length;
            true
        } else {
            false
        }
    }
}
