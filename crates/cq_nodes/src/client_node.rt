//! A client that runs between the ends of its links.
ghost use Rattle.std.specs.Prelude.{◌≡◌, ◌≤◌, length, [], ◌∷◌, ◌++◌, true, false, IfOk, OnOk, OnErr};
ghost use Rattle.std.specs.Option.{IfSome};
ghost use Rattle.cq_base.specs.Relations.{IsPrefix};
ghost use Rattle.cq_nodes.specs.ClientMoves.{IsDueAsk};
ghost use Rattle.cq_nodes.specs.ClientNodes.{AreFresh, ClientDid, KeepsClient, IsSameClient, client_held};
ghost use Rattle.cq_nodes.specs.within.Paces.{due_of, place_behind, pace_after};

use crate::client_moves::{ask_again, ask_next, closing, put_at, take_at};
use crate::flags::Flags;
use crate::turns::{Stop, Turn};
use crate::waits::Waits;
use cq_base::{Ask, NoMemory, Party, Request, ServerId};
use cq_chain::{Answer, Client, ClientFault, Message};
use cq_link::{PutEnd, TakeEnd};
use std::alloc::Global;
use std::marker::Model;
use std::sync::Wait;

/// For so many turns a client waits for an answer, and then asks another server.
const PATIENCE: u64 = 1_000;

/// The ends of a client's links, none of them used yet: for each server, in the order of their numbers, one on which
/// requests are put, and one from which messages are taken.
pub struct ClientLinks<P: PutEnd<Request> + Drop, T: TakeEnd<Message> + Drop> {
    outs: Vec<P>,
    ins: Vec<T>,
}

/// Written out, not derived: CONTRIBUTING.md, "Drop".
impl<P: PutEnd<Request> + Drop, T: TakeEnd<Message> + Drop> Drop for ClientLinks<P, T> {
    fn drop(self) {
        let ClientLinks { outs: _, ins: _ } = self;
    }
}

impl<P: PutEnd<Request> + Drop, T: TakeEnd<Message> + Drop> Model for ClientLinks<P, T> {
    ghost use Rattle.cq_nodes.specs.ClientNodes.{ClientEnds, AreFresh};

    ghost Value = { ClientEnds P T };

    ghost view = { λ links. record { outs = links.outs.items; ins = links.ins.items } };

    ghost invariant = { λ links. AreFresh P.list T.list links.outs.items links.ins.items };
}

impl<P: PutEnd<Request> + Drop, T: TakeEnd<Message> + Drop> ClientLinks<P, T> {
    /// No links yet. It keeps the allocator.
    pub fn new(alloc: Global) -> ClientLinks<P, T>
        ensures outs { result.outs ≡ [] }
        ensures ins { result.ins ≡ [] }
    {
        ClientLinks {
            outs: Vec::new(alloc),
            ins: Vec::new(alloc),
        }
    }

    /// Adds the two ends of the next server. Without memory for them nothing changes, and they are let go.
    pub fn add(&mut self, out: P, end: T) -> Result<(), NoMemory>
        requires nothing_put { P.list out ≡ [] }
        requires nothing_taken { T.list end ≡ [] }
        ensures outs { OnOk result (self.new.outs ≡ self.old.outs ++ out ∷ []) }
        ensures ins { OnOk result (self.new.ins ≡ self.old.ins ++ end ∷ []) }
        ensures err { OnErr result (self.new ≡ self.old) }
    {
        self.outs.reserve(1)?;
        self.ins.reserve(1)?;
        self.outs.push_reserved(out);
        self.ins.push_reserved(end);
        Ok(())
    }

    /// The ends, in order.
    fn into_parts(self) -> (Vec<P>, Vec<T>)
        ensures outs { result.0.items ≡ self.outs }
        ensures ins { result.1.items ≡ self.ins }
        ensures fresh { AreFresh P.list T.list result.0.items result.1.items }
    {
        let ClientLinks { outs, ins } = self;
        (outs, ins)
    }
}

/// What is left of a client that has ended: the ends of its links, in the order of the servers' numbers, and the answers
/// that closed its asks, in order.
#[derive(Drop)]
pub struct ClientLeft<P: Drop, T: Drop> {
    pub outs: Vec<P>,
    pub ins: Vec<T>,
    pub closed: Vec<Answer>,
}

/// What a client is to do about its asks in a turn.
enum Due {
    /// To make the next ask.
    Next,
    /// To make the open request again, at another server.
    Again,
    /// To put what was handed back, if something was.
    Back,
}

/// Where a client puts its requests, and how long the open one has waited.
#[derive(Clone, Copy, Debug)]
struct Pace {
    /// The place of the server that it asks.
    target: usize,
    is_open: bool,
    /// Turns since the open request was made, or made again.
    waited: u64,
}

impl Pace {
    /// What is due in the next turn of a client with so many links.
    fn due(&mut self, links: usize) -> Due
        ensures due { result ≡ due_of self.old }
        ensures pace { self.new ≡ pace_after links self.old }
    {
        if !self.is_open {
            self.is_open = true;
            self.waited = 0;
            return Due::Next;
        }
        if self.waited < PATIENCE - 1 {
            self.waited += 1;
            return Due::Back;
        }
        self.waited = 0;
        self.target = place_behind(self.target, links);
        Due::Again
    }
}

/// Rings the bell of the server at that place, where something was put for it.
fn ring_at(flags: &Flags, place: usize, put: bool) {
    let number = u32::try_from(place.saturating_add(1)).unwrap_or(u32::MAX);
    match ServerId::new(number) {
        Some(id) if put => flags.ring(Party::Server(id)),
        _ => (),
    }
}

/// The place behind that one, of so many: the first behind the last.
fn place_behind(place: usize, links: usize) -> usize
    ensures { result ≡ place_behind links place }
{
    let next = place.saturating_add(1);
    if next < links { next } else { 0 }
}

/// One of the two clients, and the ends of its links. It asks the servers, one ask at a time, each once the one before is
/// answered. Nothing that it does is an event, so it has no trace.
pub struct ClientNode<'a, P: PutEnd<Request> + Drop, T: TakeEnd<Message> + Drop> {
    id: u32,
    core: Client,
    asks: Vec<Ask>,
    outs: Vec<P>,
    ins: Vec<T>,
    handed_back: Option<Request>,
    pace: Pace,
    closed: Vec<Answer>,
    starved: bool,
    flags: &'a Flags,
}

/// Written out, not derived: CONTRIBUTING.md, "Drop".
impl<'a, P: PutEnd<Request> + Drop, T: TakeEnd<Message> + Drop> Drop for ClientNode<'a, P, T> {
    fn drop(self) {
        let ClientNode {
            id: _,
            core: _,
            asks: _,
            outs: _,
            ins: _,
            handed_back: _,
            pace: _,
            closed: _,
            starved: _,
            flags: _,
        } = self;
    }
}

impl<'a, P: PutEnd<Request> + Drop, T: TakeEnd<Message> + Drop> Model for ClientNode<'a, P, T> {
    ghost use Rattle.cq_nodes.specs.ClientNodes.{ClientHeld, client_held, ClientRan};

    ghost Value = { ClientHeld P T };

    ghost view = { λ n. client_held n.id n.asks.items n.outs.items n.ins.items n.closed.items n.starved };

    ghost invariant = { λ n. ClientRan P.list T.list n.core n.handed_back (client_held n.id n.asks.items n.outs.items n.ins.items n.closed.items n.starved) };
}

impl<'a, P: PutEnd<Request> + Drop, T: TakeEnd<Message> + Drop> ClientNode<'a, P, T> {
    /// The node of the client of that id, which is 1 or 2, with what it is to ask. It keeps the allocator.
    pub fn new(
        alloc: Global,
        id: u32,
        asks: Vec<Ask>,
        links: ClientLinks<P, T>,
        flags: &'a Flags,
    ) -> ClientNode<'a, P, T>
        ensures { result ≡ client_held id asks.items links.outs links.ins [] false }
    {
        let (outs, ins) = links.into_parts();
        ClientNode {
            id,
            core: Client::new(id),
            asks,
            outs,
            ins,
            handed_back: None,
            pace: Pace {
                target: 0,
                is_open: false,
                waited: 0,
            },
            closed: Vec::new(alloc),
            starved: false,
            flags,
        }
    }

    /// Takes the next message from the link of that place, and closes the open request if the message is its answer. It
    /// answers false where there is no message.
    fn take_from<R: Wait>(&mut self, rt: &R, place: usize) -> Result<bool, NoMemory>
        ensures same { KeepsClient P.link T.link self.old self.new }
        ensures closed { IsPrefix self.old.closed self.new.closed }
        ensures starved { self.new.starved ≡ self.old.starved }
    {
        self.closed.reserve(1)?;
        let Some(message) = take_at(rt, &mut self.ins, place) else {
            return Ok(false);
        };
        let Some(answer) = closing(&mut self.core, self.id, message) else {
            return Ok(true);
        };
        self.closed.push_reserved(answer);
        self.handed_back = None;
        self.pace.is_open = false;
        Ok(true)
    }

    /// Takes a message from each link where one is. It answers whether there was one.
    fn take_from_each<R: Wait>(&mut self, rt: &R) -> Result<bool, NoMemory>
        ensures same { KeepsClient P.link T.link self.old self.new }
        ensures closed { IsPrefix self.old.closed self.new.closed }
        ensures starved { self.new.starved ≡ self.old.starved }
    {
        let mut taken = false;
        for place in 0..self.ins.len() {
            taken |= self.take_from(rt, place)?;
        }
        Ok(taken)
    }

    /// The request to put in this turn, if there is one.
    fn next_request(&mut self) -> Result<Option<Request>, ClientFault>
        ensures same { self.new ≡ self.old }
        ensures asked { IfOk result (λ request. IfSome request (IsDueAsk self.new.id self.new.asks (length self.new.closed))) }
    {
        match self.pace.due(self.outs.len()) {
            Due::Next => ask_next(&mut self.core, &self.asks, &self.closed),
            Due::Again => Ok(ask_again(&self.core)?),
            Due::Back => Ok(self.handed_back.take()),
        }
    }

    /// Puts a request on the link of the server that it asks. It answers false where the link is full, and keeps the
    /// request.
    fn put<R: Wait>(&mut self, rt: &R, request: Request) -> bool
        requires { IsDueAsk self.old.id self.old.asks (length self.old.closed) request }
        ensures same { KeepsClient P.link T.link self.old self.new }
        ensures closed { self.new.closed ≡ self.old.closed }
        ensures starved { self.new.starved ≡ self.old.starved }
    {
        self.handed_back = put_at(rt, &mut self.outs, self.pace.target, request);
        let put = self.handed_back.is_none();
        ring_at(self.flags, self.pace.target, put);
        put
    }

    /// Puts a request, if it is time to. It answers whether one was put.
    fn put_next<R: Wait>(&mut self, rt: &R) -> Result<bool, ClientFault>
        ensures same { KeepsClient P.link T.link self.old self.new }
        ensures closed { self.new.closed ≡ self.old.closed }
        ensures starved { self.new.starved ≡ self.old.starved }
    {
        match self.next_request()? {
            Some(request) => Ok(self.put(rt, request)),
            None => Ok(false),
        }
    }

    /// Takes from each link, and then puts. It answers whether it did anything.
    fn work<R: Wait>(&mut self, rt: &R) -> Result<bool, ClientFault>
        ensures same { KeepsClient P.link T.link self.old self.new }
        ensures closed { IsPrefix self.old.closed self.new.closed }
        ensures starved { self.new.starved ≡ self.old.starved }
    {
        let taken = self.take_from_each(rt)?;
        let put = self.put_next(rt)?;
        Ok(taken | put)
    }

    /// Whether it is at its end: each ask is closed, memory was wanting, or all nodes are to stop or give up.
    fn is_done(&self) -> bool
        ensures starved { self.now.starved ≡ true → result ≡ true }
        ensures closed { length self.now.asks ≤ length self.now.closed → result ≡ true }
    {
        self.starved || self.asks.len() <= self.closed.len() || self.flags.are_to_end()
    }

    /// Tells the other nodes that it has ended.
    fn end(&self) {
        self.flags.end(self.id == 2);
    }

    /// It ends for want of memory, and tells the other nodes.
    fn starve(&mut self)
        ensures { self.new ≡ record self.old { starved = true } }
    {
        self.starved = true;
        self.end();
    }

    /// Waits behind that turn, if it is time to.
    fn wait_behind<R: Wait>(&self, rt: &R, waits: &mut Waits, turn: Turn) {
        if waits.are_due(turn) {
            waits.wait(rt, self.handed_back.is_none());
        }
    }

    /// A turn: it takes at most one message from each link, and then puts at most one request. It ends once all its asks
    /// are closed, once all nodes are to stop or give up, and where memory is wanting.
    pub fn turn<R: Wait>(&mut self, rt: &R) -> Turn
        ensures { IsSameClient P.link T.link self.old self.new }
    {
        if self.is_done() {
            self.end();
            return Turn::Ended;
        }
        match self.work(rt) {
            Ok(true) => Turn::Worked,
            Ok(false) => Turn::Idle,
            Err(_fault) => {
                self.starve();
                Turn::Ended
            }
        }
    }

    /// So many turns, or fewer if it ends before. It tells the other nodes that it has ended in both cases. After a turn
    /// without work it waits for something to come, for a bounded time.
    pub fn run<R: Wait>(&mut self, rt: &R, turns: u64) -> Stop
        ensures { IsSameClient P.link T.link self.old self.new }
    {
        let mut waits = Waits::of_client(self.flags, self.id == 2);
        for _ in 0..turns {
            waits.hear();
            match self.turn(rt) {
                Turn::Ended => return Stop::Ended,
                turn => self.wait_behind(rt, &mut waits, turn),
            }
        }
        self.end();
        Stop::Limit
    }

    /// Whether it ended for want of memory.
    pub fn is_starved(&self) -> bool
        ensures { result ≡ self.now.starved }
    {
        self.starved
    }

    /// The answers that closed its asks, in order.
    pub fn closed(&self) -> &[Answer]
        ensures { result.now ≡ self.now.closed }
    {
        &self.closed
    }

    /// What is left of it.
    pub fn finish(self) -> ClientLeft<P, T>
        ensures did { ClientDid P.list T.list self.entry }
        ensures outs { result.outs.items ≡ self.entry.outs }
        ensures ins { result.ins.items ≡ self.entry.ins }
        ensures closed { result.closed.items ≡ self.entry.closed }
    {
        let ClientNode {
            id: _,
            core: _,
            asks: _,
            outs,
            ins,
            handed_back: _,
            pace: _,
            closed,
            starved: _,
            flags: _,
        } = self;
        ClientLeft { outs, ins, closed }
    }
}
