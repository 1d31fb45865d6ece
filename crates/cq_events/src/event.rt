//! The events of the world.
ghost use Rattle.std.specs.Prelude.{◌≡◌, IfOk};
ghost use Rattle.cq_events.specs.Owners.{party_of};

use cq_base::{Moment, NoMemory, Party, Query, Request, ServerId};

/// One thing that happens in the world.
#[derive(Debug, PartialEq, Eq)]
pub enum Event {
    /// A client's request reaches a server, at that server's moment.
    Arrive {
        at: ServerId,
        clock: Moment,
        request: Request,
    },
    /// A client's query reaches a server.
    Ask {
        at: ServerId,
        query: Query,
    },
    /// The first message that waits at one party for another is put on its link; to the clients it is given.
    Put {
        from: Party,
        to: Party,
    },
    /// The first message of a link is taken by the party at its end.
    Take {
        from: Party,
        to: Party,
    },
    /// A server crashes: what it has is lost to the chain, and nothing comes to it any more.
    Crash {
        server: ServerId,
    },
    /// The master learns that a server has crashed.
    Detect {
        server: ServerId,
    },
    /// A new server joins the chain, under a number that no server had.
    Join {
        server: ServerId,
    },
}

/// Written out, not derived: CONTRIBUTING.md, "Drop".
impl Drop for Event {
    fn drop(self) {
        match self {
            Event::Arrive {
                at: _,
                clock: _,
                request: _,
            } => (),
            Event::Ask { at: _, query: _ } => (),
            Event::Put { from: _, to: _ } => (),
            Event::Take { from: _, to: _ } => (),
            Event::Crash { server: _ } => (),
            Event::Detect { server: _ } => (),
            Event::Join { server: _ } => (),
        }
    }
}

impl Event {
    /// The party whose event it is: each event is one party's alone, and a message that goes from one party to another
    /// is put by the first and taken by the second.
    pub fn party(&self) -> Party
        ensures { result ≡ party_of self.now }
    {
        match self {
            Event::Arrive { at, .. } => Party::Server(*at),
            Event::Ask { at, .. } => Party::Server(*at),
            Event::Put { from, .. } => *from,
            Event::Take { to, .. } => *to,
            Event::Crash { server } => Party::Server(*server),
            Event::Detect { .. } => Party::Master,
            Event::Join { .. } => Party::Master,
        }
    }

    /// The same event. It shares the texts: O(1).
    pub fn try_copy(&self) -> Result<Event, NoMemory>
        ensures { IfOk result (λ copy. copy ≡ self.now) }
    {
        Ok(match self {
            Event::Arrive { at, clock, request } => Event::Arrive {
                at: *at,
                clock: *clock,
                request: request.try_copy()?,
            },
            Event::Ask { at, query } => Event::Ask {
                at: *at,
                query: query.try_copy()?,
            },
            Event::Put { from, to } => Event::Put {
                from: *from,
                to: *to,
            },
            Event::Take { from, to } => Event::Take {
                from: *from,
                to: *to,
            },
            Event::Crash { server } => Event::Crash { server: *server },
            Event::Detect { server } => Event::Detect { server: *server },
            Event::Join { server } => Event::Join { server: *server },
        })
    }
}
