//! Moments, timeouts, sizes and the numbers of servers, each within its limits.
ghost use Rattle.std.specs.Prelude.{◌≡◌, ℕ, ◌<◌, ◌≤◌, ◌↔◌, IsSome, IfSome};
ghost use Rattle.cq_base.specs.declared.limits.TheConstants.{MOMENT_LIMIT, SECONDS_LIMIT, BATCH_LIMIT, CHAIN_LIMIT, PARTY_LIMIT};

use crate::limits::{BATCH_LIMIT, CHAIN_LIMIT, MOMENT_LIMIT, SECONDS_LIMIT};
use std::marker::Model;

/// A moment in milliseconds, at most 2^60.
#[derive(Clone, Copy, Debug, PartialEq, Eq, PartialOrd, Ord)]
pub struct Moment {
    milliseconds: u64,
}

impl Model for Moment {
    ghost Value = { ℕ };

    ghost view = { λ m. m.milliseconds };

    ghost invariant = { λ m. m.milliseconds ≤ MOMENT_LIMIT };

    ghost inverse = { λ n. record { milliseconds = n } };
}

impl Moment {
    /// The moment so many milliseconds after the first; none above 2^60.
    pub fn new(milliseconds: u64) -> Option<Moment>
        ensures valid { IsSome result ↔ (milliseconds ≤ MOMENT_LIMIT) }
        ensures value { IfSome result (λ moment. moment ≡ milliseconds) }
    {
        if milliseconds <= MOMENT_LIMIT {
            Some(Moment { milliseconds })
        } else {
            None
        }
    }

    /// The first moment.
    pub fn zero() -> Moment
        ensures { result ≡ 0 }
    {
        Moment { milliseconds: 0 }
    }

    /// In milliseconds.
    pub fn get(self) -> u64
        ensures value { result ≡ self }
        ensures limit { result ≤ MOMENT_LIMIT }
    {
        self.milliseconds
    }
}

/// A visibility timeout in whole seconds, at most twelve hours (SQS Developer Guide, "Amazon SQS
/// visibility timeout").
#[derive(Clone, Copy, Debug, PartialEq, Eq, PartialOrd, Ord)]
pub struct Seconds {
    seconds: u32,
}

impl Model for Seconds {
    ghost Value = { ℕ };

    ghost view = { λ s. s.seconds };

    ghost invariant = { λ s. s.seconds ≤ SECONDS_LIMIT };

    ghost inverse = { λ n. record { seconds = n } };
}

impl Seconds {
    /// So many seconds; none above 43,200.
    pub fn new(seconds: u32) -> Option<Seconds>
        ensures valid { IsSome result ↔ (seconds ≤ SECONDS_LIMIT) }
        ensures value { IfSome result (λ timeout. timeout ≡ seconds) }
    {
        if seconds <= SECONDS_LIMIT {
            Some(Seconds { seconds })
        } else {
            None
        }
    }

    /// No time at all.
    pub fn zero() -> Seconds
        ensures { result ≡ 0 }
    {
        Seconds { seconds: 0 }
    }

    /// In seconds.
    pub fn get(self) -> u32
        ensures value { result ≡ self }
        ensures limit { result ≤ SECONDS_LIMIT }
    {
        self.seconds
    }
}

/// How many messages a receive asks for, from 1 to 10 (SQS API Reference, "ReceiveMessage",
/// `MaxNumberOfMessages`).
#[derive(Clone, Copy, Debug, PartialEq, Eq, PartialOrd, Ord)]
pub struct BatchSize {
    messages: u8,
}

impl Model for BatchSize {
    ghost Value = { ℕ };

    ghost view = { λ s. s.messages };

    ghost invariant = { λ s. (1 ≤ s.messages) × (s.messages ≤ BATCH_LIMIT) };

    ghost inverse = { λ n. record { messages = n } };
}

impl BatchSize {
    /// So many messages; none for 0 and above 10.
    pub fn new(messages: u8) -> Option<BatchSize>
        ensures valid { IsSome result ↔ ((1 ≤ messages) × (messages ≤ BATCH_LIMIT)) }
        ensures value { IfSome result (λ size. size ≡ messages) }
    {
        if 1 <= messages && messages <= BATCH_LIMIT {
            Some(BatchSize { messages })
        } else {
            None
        }
    }

    pub fn get(self) -> u8
        ensures value { result ≡ self }
        ensures positive { 1 ≤ result }
        ensures limit { result ≤ BATCH_LIMIT }
    {
        self.messages
    }
}

/// How many servers a chain begins with, from 1 to 8.
#[derive(Clone, Copy, Debug, PartialEq, Eq, PartialOrd, Ord)]
pub struct ChainSize {
    servers: u8,
}

impl Model for ChainSize {
    ghost Value = { ℕ };

    ghost view = { λ s. s.servers };

    ghost invariant = { λ s. (1 ≤ s.servers) × (s.servers ≤ CHAIN_LIMIT) };

    ghost inverse = { λ n. record { servers = n } };
}

impl ChainSize {
    /// So many servers; none for 0 and above 8.
    pub fn new(servers: u8) -> Option<ChainSize>
        ensures valid { IsSome result ↔ ((1 ≤ servers) × (servers ≤ CHAIN_LIMIT)) }
        ensures value { IfSome result (λ size. size ≡ servers) }
    {
        if 1 <= servers && servers <= CHAIN_LIMIT {
            Some(ChainSize { servers })
        } else {
            None
        }
    }

    /// One server alone.
    pub fn one() -> ChainSize
        ensures { result ≡ 1 }
    {
        ChainSize { servers: 1 }
    }

    pub fn get(self) -> u8
        ensures value { result ≡ self }
        ensures positive { 1 ≤ result }
        ensures limit { result ≤ CHAIN_LIMIT }
    {
        self.servers
    }
}

/// The number of a server, which is never 0. A number is given to one server only, for good.
#[derive(Clone, Copy, Debug, PartialEq, Eq, PartialOrd, Ord, Hash)]
pub struct ServerId {
    number: u32,
}

impl Model for ServerId {
    ghost Value = { ℕ };

    ghost view = { λ id. id.number };

    ghost invariant = { λ id. (1 ≤ id.number) × (id.number ≤ PARTY_LIMIT) };

    ghost inverse = { λ n. record { number = n } };
}

impl ServerId {
    /// The server of that number; none for 0.
    pub fn new(number: u32) -> Option<ServerId>
        ensures valid { IsSome result ↔ (1 ≤ number) }
        ensures value { IfSome result (λ id. id ≡ number) }
    {
        if 1 <= number {
            Some(ServerId { number })
        } else {
            None
        }
    }

    pub fn get(self) -> u32
        ensures value { result ≡ self }
        ensures positive { 1 ≤ result }
    {
        self.number
    }
}
