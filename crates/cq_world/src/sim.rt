//! The world in memory: its parts, single events, and runs.
ghost use Rattle.std.specs.Prelude.{◌≡◌, ◌&&◌, ◌≤◌, ◌<◌, ◌+◌, ◌++◌, ℕ, List, true, false, length, take, slice_get, option_map, Err, Some, IsSome, IfOk, IfNone, OnOk, OnErr};
ghost use Rattle.cq_base.specs.declared.limits.TheConstants.{SLICE_LIMIT};
ghost use Rattle.cq_base.specs.declared.party.Party.TheVariants as parties;
ghost use Rattle.cq_base.specs.Relations.{Among};
ghost use Rattle.cq_chain.specs.Stands.{MasterStandsFor};
ghost use Rattle.cq_chain.specs.declared.fault.WorldFault.TheVariants as faults;
ghost use Rattle.cq_chain.specs.declared.message.Answer.{Answer};
ghost use Rattle.cq_events.specs.Events.{has_party, is_down, refusal_of, after};
ghost use Rattle.cq_world.specs.Laws.{Headline, IsOfTheObject};
ghost use Rattle.cq_events.specs.Runs.{world_after, given_from, refused_from, given_if, numbered};
ghost use Rattle.cq_world.specs.Stands.{StandsFor, Shows, Happens, Gives, IsRefused, IsFound, HasRoomFor, WantsMemory};
ghost use Rattle.cq_events.specs.Worlds.{first_world};
ghost use Rattle.cq_events.specs.declared.event.Event.{Event};
ghost use Rattle.cq_events.specs.declared.event.Event.TheVariants.{Crash};

mod alone;
mod changes;
mod passing;
mod requests;

use crate::links::{LinkKey, Links};
use crate::ran::Ran;
use cq_base::{ChainSize, NoMemory, Party, ServerId};
use cq_chain::{Answer, Master, Server, WorldFault};
use cq_events::Event;
use indexmap::IndexMap;
use std::alloc::Global;

/// The servers of a chain, the links between all parties, and the master. Servers are found by a hash of their
/// numbers, and links by a hash of their two ends. A server that has crashed stays, as it was.
pub struct Sim {
    alloc: Global,
    servers: IndexMap<ServerId, Server>,
    links: Links,
    master: Master,
}

/// Written out, not derived: CONTRIBUTING.md, "Drop".
impl Drop for Sim {
    fn drop(self) {
        let Sim {
            alloc: _,
            servers: _,
            links: _,
            master: _,
        } = self;
    }
}

impl Sim {
    /// So many servers in a line: 1 is the head, and the last one the tail. It keeps the allocator. O(size).
    pub fn new(alloc: Global, size: ChainSize) -> Result<Sim, NoMemory>
        ensures { IfOk result (λ sim. StandsFor sim (first_world size)) }
    {
        let master = Master::new(alloc, size)?;
        let mut servers = IndexMap::new(alloc);
        for before in 0..size.get() {
            match ServerId::new(u32::from(before) + 1) {
                Some(id) => {
                    servers.insert(id, Server::first(alloc, id, size)?)?;
                }
                None => unreachable!(),
            }
        }
        Ok(Sim {
            alloc,
            servers,
            links: Links::new(alloc),
            master,
        })
    }

    /// The server of that number: O(1).
    pub fn server(&self, id: ServerId) -> Option<&Server>
        ensures { Shows self.now (λ w. IsFound w id (option_map (λ s. s.now) result)) }
    {
        self.servers.get(&id)
    }

    /// The master: O(1).
    pub fn master(&self) -> &Master
        ensures { Shows self.now (λ w. MasterStandsFor result.now w.master (w.outbox parties.Master)) }
    {
        &self.master
    }

    /// How many messages from one party wait for the other, and how many stand in the link between them: O(1).
    pub fn waiting(&self, from: Party, to: Party) -> (u64, u64)
        ensures { Shows self.now (λ w. (result.0 ≡ length (w.outbox from to)) × (result.1 ≡ length (w.link from to))) }
    {
        let pair = LinkKey { from, to };
        (self.outbox_count(&pair), self.links.waiting(&pair))
    }

    /// How many messages of a server wait for the party.
    fn server_count(&self, at: ServerId, to: Party) -> u64
        ensures { Shows self.now (λ w. result ≡ length (w.outbox (parties.Server at) to)) }
    {
        match self.servers.get(&at) {
            Some(server) => server.waiting(to),
            None => 0,
        }
    }

    /// How many messages of the master wait for the party.
    fn master_count(&self, to: Party) -> u64
        ensures { Shows self.now (λ w. result ≡ length (w.outbox parties.Master to)) }
    {
        match to {
            Party::Server(id) => self.master.waiting(id),
            _ => 0,
        }
    }

    /// How many messages from one party wait for the other.
    fn outbox_count(&self, pair: &LinkKey) -> u64
        ensures { Shows self.now (λ w. result ≡ length (w.outbox pair.now.from pair.now.to)) }
    {
        match pair.from {
            Party::Server(at) => self.server_count(at, pair.to),
            Party::Master => self.master_count(pair.to),
            Party::Clients => 0,
        }
    }

    /// The party is the master, the clients, or a server that there is.
    fn has_party(&self, party: &Party) -> bool
        ensures { Shows self.now (λ w. result ≡ has_party w party.now) }
    {
        match party {
            Party::Server(id) => self.servers.contains_key(id),
            _ => true,
        }
    }

    /// Both ends of a link are known.
    fn has_parties(&self, pair: &LinkKey) -> bool
        ensures { Shows self.now (λ w. result ≡ (has_party w pair.now.from && has_party w pair.now.to)) }
    {
        self.has_party(&pair.from) && self.has_party(&pair.to)
    }

    /// The party is a server that has crashed.
    fn is_down(&self, party: &Party) -> bool
        ensures { Shows self.now (λ w. has_party w party.now ≡ true → result ≡ is_down w party.now) }
    {
        match party {
            Party::Server(id) => match self.servers.get(id) {
                Some(server) => server.is_down(),
                None => false,
            },
            _ => false,
        }
    }

    /// One event, and the answer that it gives to the clients. A refused event changes nothing, and the refusal is
    /// the first that there is: NoSuchServer (31), ServerDown (32), LinkEmpty (33), OutboxEmpty (34), LastFull (35),
    /// JoinPending (36), IdUsed (37), ChainFull (38), NotDown (39), NotHead (40), HistoryFull (41) or NotTail (42), and
    /// NoMemory (20) only where nothing else refuses. O(1), and what the server or the master takes for it; a crash
    /// takes O(servers).
    pub fn step(&mut self, event: &Event) -> Result<Option<Answer>, WorldFault>
        ensures ok { Gives self.old self.new event.now result }
        ensures err { IsRefused self.old self.new event.now result }
        ensures crash { (id : ℕ) → event.now ≡ Crash id → ¬ (result ≡ Err faults.NoMemory) }
    {
        match event {
            Event::Arrive { at, clock, request } => {
                self.arrive(*at, *clock, request)?;
                Ok(None)
            }
            Event::Ask { at, query } => {
                self.ask(*at, query)?;
                Ok(None)
            }
            Event::Put { from, to } => self.put(&LinkKey {
                from: *from,
                to: *to,
            }),
            Event::Take { from, to } => {
                self.take(&LinkKey {
                    from: *from,
                    to: *to,
                })?;
                Ok(None)
            }
            Event::Crash { server } => {
                self.crash(*server)?;
                Ok(None)
            }
            Event::Detect { server } => {
                self.detect(*server)?;
                Ok(None)
            }
            Event::Join { server } => {
                self.join(*server)?;
                Ok(None)
            }
        }
    }

    /// Whether the event gives what waits for the clients, which isn't refused: O(1).
    fn gives(&self, next: &Event) -> bool
        ensures allowed { Shows self.now (λ w. result ≡ true → refusal_of w next.now ≡ None) }
        ensures silent { Shows self.now (λ w. result ≡ false
            → given_if w next.now (refusal_of w next.now) ≡ None) }
    {
        match next {
            Event::Put { from, to } => match to {
                Party::Clients => self.may_put(&LinkKey {
                    from: *from,
                    to: Party::Clients,
                }),
                _ => false,
            },
            _ => false,
        }
    }

    /// Makes room for the answer that the event gives, if it gives one.
    fn make_room(&self, ran: &mut Ran, event: &Event) -> Result<(), NoMemory>
        ensures done { ran.new.done ≡ ran.old.done }
        ensures given { ran.new.given.items ≡ ran.old.given.items }
        ensures refused { ran.new.refused ≡ ran.old.refused }
        ensures stop { ran.new.stop ≡ ran.old.stop }
        ensures room { Shows self.now (λ w. OnOk result
            (HasRoomFor (given_if w event.now (refusal_of w event.now)) ran.new)) }
        ensures err { Shows self.now (λ w. OnErr result (refusal_of w event.now ≡ None)) }
    {
        if self.gives(event) {
            ran.reserve()
        } else {
            Ok(())
        }
    }

    /// One event of a run, and what came of it. Room for an answer is made before the event that gives it; a refusal
    /// is told also where there is no room for an answer.
    fn run_event(&mut self, ran: &mut Ran, event: &Event) -> Result<(), NoMemory>
        requires { ran.old.done < SLICE_LIMIT }
        ensures ok { Shows self.old (λ w. OnOk result (StandsFor self.new (after w event.now))) }
        ensures done { OnOk result (ran.new.done ≡ ran.old.done + 1) }
        ensures stop { ran.new.stop ≡ ran.old.stop }
        ensures given { Shows self.old (λ w. OnOk result (ran.new.given.items
            ≡ ran.old.given.items ++ numbered (ran.old.done + 1) (given_if w event.now (refusal_of w event.now)))) }
        ensures refused { Shows self.old (λ w. OnOk result (ran.new.refused.items
            ≡ ran.old.refused.items ++ numbered (ran.old.done + 1) (refusal_of w event.now))) }
        ensures err { Shows self.old (λ w. OnErr result (StandsFor self.new w)) }
        ensures same_done { OnErr result (ran.new.done ≡ ran.old.done) }
        ensures same_given { OnErr result (ran.new.given.items ≡ ran.old.given.items) }
        ensures same_refused { OnErr result (ran.new.refused.items ≡ ran.old.refused.items) }
        ensures wants { Shows self.old (λ w. OnErr result (WantsMemory (refusal_of w event.now) ran.new)) }
    {
        self.make_room(ran, event)?;
        match self.step(event) {
            Ok(given) => ran.pass(given),
            Err(fault) => match fault {
                WorldFault::NoMemory => Err(NoMemory),
                _ => ran.refuse(fault),
            },
        }
    }

    /// Runs events one after another. A refused event changes nothing, and the run goes on; at NoMemory it stops, with
    /// what the events before came to. An event at which it stops is one that nothing else refuses, or a refused one for
    /// whose refusal there was no room. O(events), and what the servers take for them.
    ///
    /// From the first world on, with any events before these, the headline holds: every answer is one queue object's
    /// over one growing list of requests.
    pub fn run(&mut self, events: &[Event]) -> Ran
        ensures world { Happens self.old self.new (λ w. world_after w (take result.done events.now)) }
        ensures given { Shows self.old (λ w. result.given.items ≡ given_from 1 w (take result.done events.now)) }
        ensures refused { Shows self.old (λ w. result.refused.items ≡ refused_from 1 w (take result.done events.now)) }
        ensures within { result.done ≤ length events.now }
        ensures whole { IfNone result.stop (result.done ≡ length events.now) }
        ensures early { IsSome result.stop → result.done < length events.now }
        ensures stop { Shows self.old (λ w. IsSome result.stop → (event : Event) → slice_get events.now result.done ≡ Some event
            → WantsMemory (refusal_of (world_after w (take result.done events.now)) event) result) }
        ensures headline { (size : ℕ) (before : List Event) → 1 ≤ size → StandsFor self.old (world_after (first_world size) before)
            → Headline size (before ++ take result.done events.now) }
        ensures answers { (size : ℕ) (before : List Event) → 1 ≤ size → StandsFor self.old (world_after (first_world size) before)
            → (number : ℕ) (answer : Answer) → Among (number, answer) result.given.items
            → IsOfTheObject size (before ++ take result.done events.now) answer }
    {
        let mut ran = Ran::new(self.alloc);
        for event in events {
            if self.run_event(&mut ran, event).is_err() {
                ran.stop = Some(NoMemory);
                return ran;
            }
        }
        ran
    }
}
