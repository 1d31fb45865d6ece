//! A server that runs between the ends of its links.
ghost use Rattle.std.specs.Prelude.{◌≡◌};

use crate::arrivals::{arrive_one, moment_of};
use crate::crashes::{crash, is_due};
use crate::ends::{In, Out, ToClients, party_at};
use crate::first_core::first_core;
use crate::flags::Flags;
use crate::moves::{put_at, take_at};
use crate::server_ends::{ServerEnds, ServerParts};
use crate::to_clients::put_to_one;
use crate::turns::{Gate, Stop, TURNS_LIMIT, Turn, counted};
use crate::waits::Waits;
use cq_base::{ChainSize, NoMemory, Party, Request, ServerId};
use cq_chain::{Message, Server, WorldFault};
use cq_events::Event;
use cq_link::{PutEnd, TakeEnd};
use std::alloc::Global;
use std::marker::Model;
use std::sync::Wait;

/// A server, the ends of its links, that of its inbox, and the trace of what it did. The place of an end is that of the
/// party at the other side of its link: the master at 0, and each server at its number.
pub struct ServerNode<
    'a,
    P: PutEnd<Message> + Drop,
    T: TakeEnd<Message> + Drop,
    I: TakeEnd<Request> + Drop,
> {
    size: ChainSize,
    id: ServerId,
    core: Server,
    outs: Vec<Out<P>>,
    clients: ToClients<P>,
    ins: Vec<In<T>>,
    inbox: I,
    trace: Vec<Event>,
    flags: &'a Flags,
    crash_after: Option<u64>,
    turns: u64,
    starved: bool,
    ended: bool,
}

/// Written out, not derived: CONTRIBUTING.md, "Drop".
impl<'a, P: PutEnd<Message> + Drop, T: TakeEnd<Message> + Drop, I: TakeEnd<Request> + Drop> Drop
    for ServerNode<'a, P, T, I> {
    fn drop(self) {
        let ServerNode {
            size: _,
            id: _,
            core: _,
            outs: _,
            clients: _,
            ins: _,
            inbox: _,
            trace: _,
            flags: _,
            crash_after: _,
            turns: _,
            starved: _,
            ended: _,
        } = self;
    }
}

impl<'a, P: PutEnd<Message> + Drop, T: TakeEnd<Message> + Drop, I: TakeEnd<Request> + Drop> Model
    for ServerNode<'a, P, T, I> {
    ghost use Rattle.std.specs.Prelude.{vec_len, vec_capacity};
    ghost use Rattle.cq_nodes.specs.Nodes.{Held, held, ServerRan, HasRoom, NotesCrash};

    ghost Value = { Held P T I };

    ghost view = { λ n. held n.size n.id n.crash_after n.outs.items n.clients n.ins.items n.inbox n.trace.items n.starved n.turns n.ended };

    ghost invariant = { λ n. ServerRan P.list T.list I.list n.size n.id n.core n.outs.items n.clients n.ins.items n.inbox n.trace.items n.crash_after n.starved
        × HasRoom n.ended (vec_len n.trace) (vec_capacity n.trace)
        × NotesCrash n.id n.trace.items n.starved n.ended };
}

/// Rings the bell of the party at that place.
fn ring_at(flags: &Flags, place: u32) {
    flags.ring(party_at(place));
}

impl<
    'a,
    P: PutEnd<Message> + Drop,
    T: TakeEnd<Message> + Drop,
    I: TakeEnd<Request> + Drop,
> ServerNode<'a, P, T, I> {
    ghost use Rattle.std.specs.Prelude.{◌+◌, ◌≤◌, min, [], ◌∷◌, true, false, IfOk};
    ghost use Rattle.cq_base.specs.declared.limits.TheConstants.{MOMENT_LIMIT};
    ghost use Rattle.cq_base.specs.declared.party.Party.TheVariants as parties;
    ghost use Rattle.cq_events.specs.declared.event.Event.TheVariants as events;
    ghost use Rattle.cq_nodes.specs.Ends.{party_at};
    ghost use Rattle.cq_nodes.specs.Nodes.{KeepsLinks, IsSameTurn, IsSameServer, begun, held_in, Tells};
    ghost use Rattle.cq_nodes.specs.Turns.{is_done, faults_of, noting, take_of, put_of, GrewByEach, GrewByArrival, GrewByWork, HasJustCrashed, HadTurn};

    /// The node of that server in a chain that begins with so many, over ends that nobody used. It is a member of the
    /// chain, or may join later. It is to crash at its first turn with so many entries, if that is said. It keeps the
    /// allocator.
    pub fn new(
        alloc: Global,
        size: ChainSize,
        id: ServerId,
        ends: ServerEnds<P, T, I>,
        crash_after: Option<u64>,
        flags: &'a Flags,
    ) -> Result<ServerNode<'a, P, T, I>, NoMemory>
        requires first { P.list ends.first ≡ [] }
        requires second { P.list ends.second ≡ [] }
        ensures { IfOk result (λ node. node ≡ begun size id crash_after ends) }
    {
        let core = first_core(alloc, size, id)?;
        let mut trace = Vec::new(alloc);
        trace.reserve(1)?;
        let (outs, ins) = ends.links.into_parts();
        Ok(ServerNode {
            size,
            id,
            core,
            outs,
            clients: ToClients {
                first: ends.first,
                second: ends.second,
                kept: None,
            },
            ins,
            inbox: ends.inbox,
            trace,
            flags,
            crash_after,
            turns: 0,
            starved: false,
            ended: false,
        })
    }

    /// Puts the first message for the party at that place on its link. It answers false where there is no message and
    /// no such place, and where the link is full.
    fn put_on<R: Wait>(&mut self, rt: &R, place: u32) -> Result<bool, NoMemory>
        requires up { self.old.ended ≡ false }
        ensures same { KeepsLinks P.link T.link I.link self.old self.new }
        ensures turn { IsSameTurn self.old self.new }
        ensures noted { self.new.trace ≡ noting (is_done result) (events.Put (parties.Server self.old.id) (party_at place)) self.old.trace }
        ensures unread { self.new.unread ≡ self.old.unread }
    {
        self.trace.reserve(2)?;
        let put = put_at(rt, &mut self.core, &mut self.outs, place);
        if put {
            ring_at(self.flags, place);
            self.trace.push_reserved(Event::Put {
                from: Party::Server(self.id),
                to: party_at(place),
            });
            Ok(true)
        } else {
            Ok(false)
        }
    }

    /// The core takes the next message of the party at that place. It answers false where there is no message and no
    /// such place. After a fault the message stays unread.
    fn take_from<R: Wait>(&mut self, rt: &R, place: u32) -> Result<bool, WorldFault>
        requires up { self.old.ended ≡ false }
        ensures same { KeepsLinks P.link T.link I.link self.old self.new }
        ensures turn { IsSameTurn self.old self.new }
        ensures noted { self.new.trace ≡ noting (is_done result) (events.Take (party_at place) (parties.Server self.old.id)) self.old.trace }
        ensures unread { self.new.unread ≤ self.old.unread + faults_of result }
    {
        self.trace.reserve(2)?;
        let taken = take_at(rt, &mut self.core, &mut self.ins, place)?;
        if taken {
            self.trace.push_reserved(Event::Take {
                from: party_at(place),
                to: Party::Server(self.id),
            });
            Ok(true)
        } else {
            Ok(false)
        }
    }

    /// Puts the first message for the clients on the link to the one that it is for. It answers false where there is no
    /// message, and where the link is full.
    fn put_to_clients<R: Wait>(&mut self, rt: &R) -> Result<bool, NoMemory>
        requires up { self.old.ended ≡ false }
        ensures same { KeepsLinks P.link T.link I.link self.old self.new }
        ensures turn { IsSameTurn self.old self.new }
        ensures noted { self.new.trace ≡ noting (is_done result) (events.Put (parties.Server self.old.id) parties.Clients) self.old.trace }
        ensures unread { self.new.unread ≡ self.old.unread }
    {
        self.trace.reserve(2)?;
        let put = put_to_one(rt, &mut self.core, &mut self.clients, self.flags);
        if put {
            self.trace.push_reserved(Event::Put {
                from: Party::Server(self.id),
                to: Party::Clients,
            });
            Ok(true)
        } else {
            Ok(false)
        }
    }

    /// The next request of the inbox arrives at the core, if that is the head; any other core drops it. It answers
    /// whether one arrived. The moment is the number of this turn, up to the limit of moments.
    fn take_request<R: Wait>(&mut self, rt: &R) -> Result<bool, WorldFault>
        requires up { self.old.ended ≡ false }
        ensures same { KeepsLinks P.link T.link I.link self.old self.new }
        ensures turn { IsSameTurn self.old self.new }
        ensures arrived { GrewByArrival self.old.id (min self.old.turns MOMENT_LIMIT) self.old.trace self.new.trace }
        ensures unread { self.new.unread ≡ self.old.unread }
    {
        self.trace.reserve(2)?;
        let clock = moment_of(self.turns);
        match arrive_one(rt, &mut self.core, &mut self.inbox, clock)? {
            Some(request) => {
                self.trace.push_reserved(Event::Arrive {
                    at: self.id,
                    clock,
                    request,
                });
                Ok(true)
            }
            None => Ok(false),
        }
    }

    /// The server crashes if it is to crash at so many entries. It answers whether it did. It takes no memory.
    fn crash_if_due(&mut self) -> bool
        ensures same { KeepsLinks P.link T.link I.link self.old self.new }
        ensures crashed { result ≡ true → HasJustCrashed self.old self.new self.old.trace }
        ensures starved { self.new.starved ≡ self.old.starved }
        ensures turns { self.new.turns ≡ self.old.turns }
        ensures others { result ≡ false → self.new ≡ self.old }
        ensures unread { self.new.unread ≡ self.old.unread }
    {
        if self.ended {
            return false;
        }
        let count = self.core.count();
        if !is_due(self.crash_after, count) {
            return false;
        }
        crash(&mut self.core, self.id, &mut self.trace);
        self.ended = true;
        self.flags.crash(self.id);
        true
    }

    /// The server crashes since it found no memory, if it hasn't crashed. It takes none.
    fn starve(&mut self)
        ensures same { KeepsLinks P.link T.link I.link self.old self.new }
        ensures turns { self.new.turns ≡ self.old.turns }
        ensures crashed { self.old.ended ≡ false → HasJustCrashed self.old self.new self.old.trace }
        ensures starved { self.old.ended ≡ false → self.new.starved ≡ true }
        ensures others { self.old.ended ≡ true → self.new ≡ self.old }
        ensures unread { self.new.unread ≡ self.old.unread }
    {
        let count = self.core.count();
        if self.ended {
            return;
        }
        self.starved = true;
        crash(&mut self.core, self.id, &mut self.trace);
        self.ended = true;
        self.flags.crash(self.id);
    }

    /// One take from each link. It answers whether anything was taken.
    fn take_all<R: Wait>(&mut self, rt: &R) -> Result<bool, WorldFault>
        requires up { self.old.ended ≡ false }
        ensures same { KeepsLinks P.link T.link I.link self.old self.new }
        ensures turn { IsSameTurn self.old self.new }
        ensures taken { GrewByEach (take_of self.old.id) self.old.trace self.new.trace }
        ensures unread { self.new.unread ≤ self.old.unread + faults_of result }
    {
        let mut any = false;
        for place in 0..u32::try_from(self.ins.len()).unwrap_or(u32::MAX) {
            let taken = self.take_from(rt, place)?;
            any = any || taken;
        }
        Ok(any)
    }

    /// One put on each link to a server or to the master. It answers whether anything was put.
    fn put_all<R: Wait>(&mut self, rt: &R) -> Result<bool, NoMemory>
        requires up { self.old.ended ≡ false }
        ensures same { KeepsLinks P.link T.link I.link self.old self.new }
        ensures turn { IsSameTurn self.old self.new }
        ensures put { GrewByEach (put_of self.old.id) self.old.trace self.new.trace }
        ensures unread { self.new.unread ≡ self.old.unread }
    {
        let mut any = false;
        for place in 0..u32::try_from(self.outs.len()).unwrap_or(u32::MAX) {
            let put = self.put_on(rt, place)?;
            any = any || put;
        }
        Ok(any)
    }

    /// One take from each link and from the inbox, then one put on each link. It answers whether anything was done.
    fn work<R: Wait>(&mut self, rt: &R) -> Result<bool, WorldFault>
        requires up { self.old.ended ≡ false }
        ensures same { KeepsLinks P.link T.link I.link self.old self.new }
        ensures turn { IsSameTurn self.old self.new }
        ensures worked { GrewByWork self.old.id (min self.old.turns MOMENT_LIMIT) self.old.trace self.new.trace }
        ensures unread { self.new.unread ≤ self.old.unread + faults_of result }
    {
        let taken = self.take_all(rt)?;
        let arrived = self.take_request(rt)?;
        let put = self.put_all(rt)?;
        let answered = self.put_to_clients(rt)?;
        Ok(taken | arrived | put | answered)
    }

    /// A turn is counted.
    fn count_turn(&mut self)
        ensures { self.new ≡ record self.old { turns = min (self.old.turns + 1) TURNS_LIMIT } }
    {
        self.turns = counted(self.turns);
    }

    /// Whether it has nothing more to do: the server has crashed, both clients have ended, or all nodes are to stop or give
    /// up.
    fn is_over(&self) -> bool
        ensures { self.now.ended ≡ true → result ≡ true }
    {
        self.ended || self.flags.have_ended()
    }

    /// Tells the others that it did nothing in a turn that began after so many crashes, if the server isn't full.
    fn tell_idle(&self, crashes: u64) {
        if !self.core.is_full() {
            self.flags.find_nothing(self.id, crashes);
        }
    }

    /// Whether no full link has handed anything back. O(links).
    fn holds_nothing(&self) -> bool {
        for out in &self.outs {
            if out.kept.is_some() {
                return false;
            }
        }
        self.clients.kept.is_none()
    }

    /// Waits behind that turn, if it is time to.
    fn wait_behind<R: Wait>(&self, rt: &R, waits: &mut Waits, turn: Turn) {
        if waits.are_due(turn) {
            waits.wait(rt, self.holds_nothing());
        }
    }

    /// One turn: the server crashes if it is to, or else takes at most one message from each link and one request from its
    /// inbox, and then puts at most one message on each link. Where it finds no memory it crashes, and has ended. It has
    /// ended, too, once both clients have. It takes what the core takes for each step.
    pub fn turn<R: Wait>(&mut self, rt: &R) -> Turn
        ensures same { IsSameServer P.link T.link I.link self.old self.new }
        ensures turns { self.new.turns ≡ min (self.old.turns + 1) TURNS_LIMIT }
        ensures had { HadTurn self.old self.new }
    {
        self.count_turn();
        if self.is_over() {
            return Turn::Ended;
        }
        if self.crash_if_due() {
            return Turn::Ended;
        }
        let crashes = self.flags.crashes();
        match self.work(rt) {
            Ok(true) => Turn::Worked,
            Ok(false) => {
                self.tell_idle(crashes);
                Turn::Idle
            }
            Err(_fault) => {
                self.starve();
                Turn::Ended
            }
        }
    }

    /// So many turns, each once the gate lets it begin, until the node has ended. After a turn without work it waits for
    /// something to come, for a bounded time.
    pub fn run<R: Wait, G: Gate>(&mut self, rt: &R, turns: u64, gate: &G) -> Stop
        ensures { IsSameServer P.link T.link I.link self.old self.new }
    {
        let mut waits = Waits::of(self.flags, Party::Server(self.id), false);
        for _ in 0..turns {
            if !gate.enter(Party::Server(self.id), self.turns.saturating_add(1)) {
                return Stop::Shut;
            }
            waits.hear();
            match self.turn(rt) {
                Turn::Ended => return Stop::Ended,
                turn => self.wait_behind(rt, &mut waits, turn),
            }
        }
        Stop::Limit
    }

    /// What it did so far, in order: one event for each message that was put or taken, each request that arrived, and its
    /// crash. O(1).
    pub fn trace(&self) -> &[Event]
        ensures { result.now ≡ self.now.trace }
    {
        &self.trace
    }

    /// Whether it found no memory, and so has crashed. O(1).
    pub fn is_starved(&self) -> bool
        ensures { result ≡ self.now.starved }
    {
        self.starved
    }

    /// Its ends and its trace, once it is to do no more. The server is dropped.
    pub fn finish(self) -> ServerParts<P, T, I>
        ensures held { held_in result ≡ self.entry }
        ensures tells { Tells P.list T.list I.list result }
    {
        let ServerNode {
            size,
            id,
            core: _,
            outs,
            clients,
            ins,
            inbox,
            trace,
            flags: _,
            crash_after,
            turns,
            starved,
            ended,
        } = self;
        ServerParts {
            size,
            id,
            outs,
            clients,
            ins,
            inbox,
            trace,
            crash_after,
            starved,
            turns,
            ended,
        }
    }
}
