//! The master that runs between the ends of its links.
ghost use Rattle.std.specs.Prelude.{◌≡◌, ◌≤◌, ◌+◌, min, [], Some, true, false, IfOk, IfSome, map, slice_get};
ghost use Rattle.cq_base.specs.Relations.{Among};
ghost use Rattle.cq_base.specs.declared.party.Party.TheVariants as parties;
ghost use Rattle.cq_events.specs.declared.event.Event.TheVariants as events;
ghost use Rattle.cq_nodes.specs.Ends.{unread_in};
ghost use Rattle.cq_nodes.specs.MasterNodes.{KeepsNode, IsSameMoment, IsSameNode, MasterLived};
ghost use Rattle.cq_nodes.specs.Turns.{is_done, faults_of, noting, taken_at, detected_at, sent_at, due_of, joined_at, GrewBy, GrewByEach, GrewByOrders};

use crate::ends::{In, Out};
use crate::flags::Flags;
use crate::links::Links;
use crate::master_moves::{detect_one, join_one, put_at, take_at};
use crate::turns::{Gate, Stop, TURNS_LIMIT, Turn, counted};
use crate::waits::Waits;
use cq_base::{ChainSize, NoMemory, Party, ServerId};
use cq_chain::{Master, Message};
use cq_events::Event;
use cq_link::{PutEnd, TakeEnd};
use cq_live_plan::Join;
use std::alloc::Global;
use std::marker::Model;
use std::sync::Wait;

/// The master, the ends of its links, and the trace of what it did. At each place stand the ends of the links to and
/// from the server whose number is one more.
pub struct MasterNode<'a, P: PutEnd<Message> + Drop, T: TakeEnd<Message> + Drop> {
    size: ChainSize,
    joins: Vec<Join>,
    core: Master,
    outs: Vec<Out<P>>,
    ins: Vec<In<T>>,
    trace: Vec<Event>,
    servers: u32,
    turns: u64,
    starved: bool,
    flags: &'a Flags,
}

/// Written out, not derived: CONTRIBUTING.md, "Drop".
impl<'a, P: PutEnd<Message> + Drop, T: TakeEnd<Message> + Drop> Drop for MasterNode<'a, P, T> {
    fn drop(self) {
        let MasterNode {
            size: _,
            joins: _,
            core: _,
            outs: _,
            ins: _,
            trace: _,
            servers: _,
            turns: _,
            starved: _,
            flags: _,
        } = self;
    }
}

/// What is left of the master's node after its last turn: the ends at their places, and what it did, in order.
#[derive(Drop)]
pub struct MasterEnds<P: Drop, T: Drop> {
    pub outs: Vec<Out<P>>,
    pub ins: Vec<In<T>>,
    pub trace: Vec<Event>,
}

impl<'a, P: PutEnd<Message> + Drop, T: TakeEnd<Message> + Drop> Model for MasterNode<'a, P, T> {
    ghost use Rattle.cq_nodes.specs.MasterNodes.{Held, held, MasterRan};

    ghost Value = { Held P T };

    ghost view = { λ n. held n.size n.joins.items n.outs.items n.ins.items n.trace.items n.turns n.starved };

    ghost invariant = { λ n. MasterRan P.list T.list n.size n.joins.items n.core n.outs.items n.ins.items n.trace.items };
}

/// The server of that number, if it has crashed.
fn crashed(flags: &Flags, number: u32) -> Option<ServerId>
    ensures { IfSome result (λ id. id ≡ number) }
{
    match ServerId::new(number) {
        Some(id) if flags.has_crashed(id) => Some(id),
        _ => None,
    }
}

/// The server of a join, if its turn has come.
fn due(join: &Join, turn: u64) -> Option<ServerId>
    ensures { result ≡ due_of turn (Some join.now) }
{
    if join.after <= turn {
        Some(join.server)
    } else {
        None
    }
}

/// The server of the join at that place, if there is one and its turn has come.
fn due_at(joins: &[Join], place: usize, turn: u64) -> Option<ServerId>
    ensures due { result ≡ due_of turn (slice_get joins.now place) }
    ensures named { IfSome result (λ id. Among id (map (λ join. join.server) joins.now)) }
{
    match joins.get(place) {
        Some(join) => due(join, turn),
        None => None,
    }
}

impl<'a, P: PutEnd<Message> + Drop, T: TakeEnd<Message> + Drop> MasterNode<'a, P, T> {
    /// The master of a first chain of so many servers, before its first turn. The links are to and from the servers 1, 2
    /// and so on. It keeps the allocator.
    pub fn new(
        alloc: Global,
        size: ChainSize,
        links: Links<P, T>,
        joins: Vec<Join>,
        flags: &'a Flags,
    ) -> Result<MasterNode<'a, P, T>, NoMemory>
        ensures { IfOk result (λ node. node ≡ record { size = size; joins = joins.items; trace = []; outs = links.outs; ins = links.ins; unread = 0; turns = 0; starved = false }) }
    {
        let core = Master::new(alloc, size)?;
        let servers = u32::try_from(links.len()).unwrap_or(u32::MAX);
        let (outs, ins) = links.into_parts();
        Ok(MasterNode {
            size,
            joins,
            core,
            outs,
            ins,
            trace: Vec::new(alloc),
            servers,
            turns: 0,
            starved: false,
            flags,
        })
    }

    /// What it did so far, in order.
    pub fn trace(&self) -> &[Event]
        ensures { result.now ≡ self.now.trace }
    {
        &self.trace
    }

    /// Whether it has ended for want of memory.
    pub fn is_starved(&self) -> bool
        ensures { result ≡ self.now.starved }
    {
        self.starved
    }

    /// Puts the first message for that server on its link. It answers false where there is no message and no such link,
    /// and where the link is full.
    fn put_on<R: Wait>(&mut self, rt: &R, to: ServerId) -> Result<bool, NoMemory>
        ensures same { KeepsNode P.link T.link self.old self.new }
        ensures moment { IsSameMoment self.old self.new }
        ensures noted { self.new.trace ≡ noting (is_done result) (events.Put parties.Master (parties.Server to)) self.old.trace }
        ensures unread { self.new.unread ≡ self.old.unread }
    {
        self.trace.reserve(1)?;
        let put = put_at(rt, &mut self.core, &mut self.outs, to);
        if put {
            self.flags.ring(Party::Server(to));
            self.trace.push_reserved(Event::Put {
                from: Party::Master,
                to: Party::Server(to),
            });
            Ok(true)
        } else {
            Ok(false)
        }
    }

    /// The core takes the next message of that server. It answers false where there is no message and no such link. One
    /// for which there is no memory stays unread.
    fn take_from<R: Wait>(&mut self, rt: &R, from: ServerId) -> Result<bool, NoMemory>
        ensures same { KeepsNode P.link T.link self.old self.new }
        ensures moment { IsSameMoment self.old self.new }
        ensures noted { self.new.trace ≡ noting (is_done result) (events.Take (parties.Server from) parties.Master) self.old.trace }
        ensures unread { self.new.unread ≤ self.old.unread + faults_of result }
    {
        self.trace.reserve(1)?;
        let taken = take_at(rt, &mut self.core, &mut self.ins, from)?;
        if taken {
            self.trace.push_reserved(Event::Take {
                from: Party::Server(from),
                to: Party::Master,
            });
            Ok(true)
        } else {
            Ok(false)
        }
    }

    /// The core learns that a server has crashed. It answers false where the core refuses.
    fn detect(&mut self, id: ServerId) -> Result<bool, NoMemory>
        ensures same { KeepsNode P.link T.link self.old self.new }
        ensures moment { IsSameMoment self.old self.new }
        ensures noted { self.new.trace ≡ noting (is_done result) (events.Detect id) self.old.trace }
        ensures unread { self.new.unread ≡ self.old.unread }
    {
        self.trace.reserve(1)?;
        let detected = detect_one(&mut self.core, id)?;
        if detected {
            self.trace.push_reserved(Event::Detect { server: id });
            Ok(true)
        } else {
            Ok(false)
        }
    }

    /// The server of the join at that place joins the chain, if its turn has come. It answers false where it hasn't, and
    /// where the core refuses, as it does once the server has joined.
    fn join(&mut self, place: usize) -> Result<bool, NoMemory>
        ensures same { KeepsNode P.link T.link self.old self.new }
        ensures moment { IsSameMoment self.old self.new }
        ensures joined { GrewBy (joined_at self.old.joins self.old.turns place) self.old.trace self.new.trace }
        ensures unread { self.new.unread ≡ self.old.unread }
    {
        self.trace.reserve(1)?;
        match due_at(&self.joins, place, self.turns) {
            Some(id) => {
                let joined = join_one(&mut self.core, id)?;
                if joined {
                    self.trace.push_reserved(Event::Join { server: id });
                    Ok(true)
                } else {
                    Ok(false)
                }
            }
            None => Ok(false),
        }
    }

    /// One put for the server of that number, if there is one.
    fn put_number<R: Wait>(&mut self, rt: &R, number: u32) -> Result<bool, NoMemory>
        ensures same { KeepsNode P.link T.link self.old self.new }
        ensures moment { IsSameMoment self.old self.new }
        ensures noted { self.new.trace ≡ noting (is_done result) (events.Put parties.Master (parties.Server number)) self.old.trace }
        ensures unread { self.new.unread ≡ self.old.unread }
    {
        match ServerId::new(number) {
            Some(id) => self.put_on(rt, id),
            None => Ok(false),
        }
    }

    /// One take from the server of that number, if there is one.
    fn take_number<R: Wait>(&mut self, rt: &R, number: u32) -> Result<bool, NoMemory>
        ensures same { KeepsNode P.link T.link self.old self.new }
        ensures moment { IsSameMoment self.old self.new }
        ensures noted { self.new.trace ≡ noting (is_done result) (events.Take (parties.Server number) parties.Master) self.old.trace }
        ensures unread { self.new.unread ≤ self.old.unread + faults_of result }
    {
        match ServerId::new(number) {
            Some(id) => self.take_from(rt, id),
            None => Ok(false),
        }
    }

    /// The core learns that the server of that number has crashed, if it has.
    fn detect_number(&mut self, number: u32) -> Result<bool, NoMemory>
        ensures same { KeepsNode P.link T.link self.old self.new }
        ensures moment { IsSameMoment self.old self.new }
        ensures noted { self.new.trace ≡ noting (is_done result) (events.Detect number) self.old.trace }
        ensures unread { self.new.unread ≡ self.old.unread }
    {
        match crashed(self.flags, number) {
            Some(id) => self.detect(id),
            None => Ok(false),
        }
    }

    /// One put at each place.
    fn put_all<R: Wait>(&mut self, rt: &R) -> Result<bool, NoMemory>
        ensures same { KeepsNode P.link T.link self.old self.new }
        ensures moment { IsSameMoment self.old self.new }
        ensures put { GrewByEach sent_at self.old.trace self.new.trace }
        ensures unread { self.new.unread ≡ self.old.unread }
    {
        let mut any = false;
        for number in 0..self.servers {
            any |= self.put_number(rt, number + 1)?;
        }
        Ok(any)
    }

    /// One take at each place.
    fn take_all<R: Wait>(&mut self, rt: &R) -> Result<bool, NoMemory>
        ensures same { KeepsNode P.link T.link self.old self.new }
        ensures moment { IsSameMoment self.old self.new }
        ensures taken { GrewByEach taken_at self.old.trace self.new.trace }
        ensures unread { self.new.unread ≤ self.old.unread + faults_of result }
    {
        let mut any = false;
        for number in 0..self.servers {
            any |= self.take_number(rt, number + 1)?;
        }
        Ok(any)
    }

    /// The core learns of each crash that it doesn't know.
    fn detect_all(&mut self) -> Result<bool, NoMemory>
        ensures same { KeepsNode P.link T.link self.old self.new }
        ensures moment { IsSameMoment self.old self.new }
        ensures detected { GrewByEach detected_at self.old.trace self.new.trace }
        ensures unread { self.new.unread ≡ self.old.unread }
    {
        let mut any = false;
        for number in 0..self.servers {
            any |= self.detect_number(number + 1)?;
        }
        Ok(any)
    }

    /// Each join whose turn has come, of those that the core doesn't refuse.
    fn join_all(&mut self) -> Result<bool, NoMemory>
        ensures same { KeepsNode P.link T.link self.old self.new }
        ensures moment { IsSameMoment self.old self.new }
        ensures joined { GrewByEach (joined_at self.old.joins self.old.turns) self.old.trace self.new.trace }
        ensures unread { self.new.unread ≡ self.old.unread }
    {
        let mut any = false;
        for place in 0..self.joins.len() {
            any |= self.join(place)?;
        }
        Ok(any)
    }

    /// The steps of a turn: whether one of them did anything.
    fn work<R: Wait>(&mut self, rt: &R) -> Result<bool, NoMemory>
        ensures same { KeepsNode P.link T.link self.old self.new }
        ensures moment { IsSameMoment self.old self.new }
        ensures worked { GrewByOrders self.old.joins self.old.turns self.old.trace self.new.trace }
        ensures unread { self.new.unread ≤ self.old.unread + faults_of result }
    {
        let taken = self.take_all(rt)?;
        let detected = self.detect_all()?;
        let joined = self.join_all()?;
        let put = self.put_all(rt)?;
        Ok(taken | detected | joined | put)
    }

    /// A turn is counted.
    fn count_turn(&mut self)
        ensures { self.new ≡ record self.old { turns = min (self.old.turns + 1) TURNS_LIMIT } }
    {
        self.turns = counted(self.turns);
    }

    /// Whether it has nothing more to do: it found no memory, both clients have ended, or all nodes are to stop or give up.
    fn is_over(&self) -> bool
        ensures { self.now.starved ≡ true → result ≡ true }
    {
        self.starved || self.flags.have_ended()
    }

    /// It ends for want of memory, and all nodes give up.
    fn starve(&mut self)
        ensures { self.new ≡ record self.old { starved = true } }
    {
        self.starved = true;
        self.flags.give_up();
    }

    /// Whether no full link has handed anything back. O(links).
    fn holds_nothing(&self) -> bool {
        for out in &self.outs {
            if out.kept.is_some() {
                return false;
            }
        }
        true
    }

    /// Waits behind that turn, if it is time to.
    fn wait_behind<R: Wait>(&self, rt: &R, waits: &mut Waits, turn: Turn) {
        if waits.are_due(turn) {
            waits.wait(rt, self.holds_nothing());
        }
    }

    /// One turn: a take from each server, the crashes and joins of which it is time, and a put to each server. It has
    /// ended once both clients have, or for want of memory; then all nodes give up. It takes O(links + joins).
    pub fn turn<R: Wait>(&mut self, rt: &R) -> Turn
        ensures same { IsSameNode P.link T.link self.old self.new }
        ensures turns { self.new.turns ≡ min (self.old.turns + 1) TURNS_LIMIT }
        ensures had { GrewByOrders self.old.joins self.new.turns self.old.trace self.new.trace }
    {
        self.count_turn();
        if self.is_over() {
            return Turn::Ended;
        }
        match self.work(rt) {
            Ok(true) => Turn::Worked,
            Ok(false) => Turn::Idle,
            Err(NoMemory) => {
                self.starve();
                Turn::Ended
            }
        }
    }

    /// So many turns, each once the gate lets it begin, unless it ends before. After a turn without work it waits for
    /// something to come, for a bounded time.
    pub fn run<R: Wait, G: Gate>(&mut self, rt: &R, turns: u64, gate: &G) -> Stop
        ensures { IsSameNode P.link T.link self.old self.new }
    {
        let mut waits = Waits::of(self.flags, Party::Master, !self.joins.is_empty());
        for _ in 0..turns {
            if !gate.enter(Party::Master, self.turns.saturating_add(1)) {
                return Stop::Shut;
            }
            waits.hear();
            match self.turn(rt) {
                Turn::Ended => return Stop::Ended,
                turn => self.wait_behind(rt, &mut waits, turn),
            }
        }
        Stop::Limit
    }

    /// Ends its turns. What its core has not put on a link is dropped.
    pub fn finish(self) -> MasterEnds<P, T>
        ensures trace { result.trace.items ≡ self.entry.trace }
        ensures outs { map (λ out. out.end) result.outs.items ≡ self.entry.outs }
        ensures ins { map (λ end. end.end) result.ins.items ≡ self.entry.ins }
        ensures unread { unread_in result.ins.items ≡ self.entry.unread }
        ensures lived { MasterLived P.list T.list self.entry.size self.entry.joins result.outs.items result.ins.items self.entry.trace }
    {
        let MasterNode {
            size: _,
            joins: _,
            core: _,
            outs,
            ins,
            trace,
            servers: _,
            turns: _,
            starved: _,
            flags: _,
        } = self;
        MasterEnds { outs, ins, trace }
    }
}
