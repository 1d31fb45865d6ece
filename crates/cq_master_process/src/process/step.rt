//! What a command makes the process do by itself, before its turns.
ghost use Rattle.std.specs.Prelude.{◌≡◌, ◌<◌, true, OnOk, OnErr, IfErr};
ghost use Rattle.cq_chain.specs.Masters.{refusal_of_detection, refusal_of_join};
ghost use Rattle.cq_events.specs.Actions.{Detected, Joined};
ghost use Rattle.cq_master_process.specs.Links.{is_open, taken_of};
ghost use Rattle.cq_master_process.specs.Refusing.{Refuses, RefusesFrom, RefusesOrder, RefusesTake};
ghost use Rattle.cq_master_process.specs.Steps.{Does, Forgets, Keeps, Orders, Takes, TakesFrom, TakesMessage, is_in_turn};
ghost use Rattle.cq_process.specs.declared.outgoing.TheConstants.{LINK_LIMIT};

use super::MasterProcess;
use cq_base::{Party, ServerId};
use cq_chain::Message;
use cq_chain_wire::read_message;
use cq_frames::{Command, NO_MEMORY, NOT_HERE, PieceNumber};
use cq_process::TakeFault;

impl MasterProcess {
    /// The core takes a message of that server, for whose number there is room.
    fn take_counted(&mut self, from: ServerId, message: &Message) -> Result<(), u32>
        requires open { is_open self.old.links from ≡ true }
        requires room { taken_of self.old.links from < LINK_LIMIT }
        ensures took { OnOk result (TakesMessage self.old self.new from message.now) }
        ensures refused { IfErr result (λ code. code ≡ NO_MEMORY) }
        ensures same { OnErr result (Keeps self.old self.new) }
    {
        match self.core.take(from, message) {
            Ok(()) => {
                self.links.count_taken(from);
                Ok(())
            }
            Err(_) => Err(NO_MEMORY),
        }
    }

    /// The core takes a message of that server. Where there is no memory it can be given again.
    fn take_message(&mut self, from: ServerId, message: &Message) -> Result<(), u32>
        requires { taken_of self.old.links from < LINK_LIMIT }
        ensures took { OnOk result (TakesMessage self.old self.new from message.now) }
        ensures refused { IfErr result (λ code. code ≡ NO_MEMORY) }
        ensures same { OnErr result (Keeps self.old self.new) }
    {
        match self.links.open(from) {
            Ok(()) => self.take_counted(from, message),
            Err(_) => Err(NO_MEMORY),
        }
    }

    /// The core takes the message that the piece is, which is in its turn.
    fn take_piece(&mut self, from: ServerId, number: PieceNumber, piece: &[u8]) -> Result<(), u32>
        requires in_turn { is_in_turn self.old from number ≡ true }
        requires room { taken_of self.old.links from < LINK_LIMIT }
        ensures took { OnOk result (Takes self.old self.new from number piece.now) }
        ensures refused { IfErr result (λ code. RefusesTake self.old from number piece.now code) }
        ensures same { OnErr result (Keeps self.old self.new) }
    {
        match read_message(self.alloc, piece) {
            Ok(message) => self.take_message(from, &message),
            Err(fault) => Err(u32::from(fault.code())),
        }
    }

    /// The piece of that number comes from that server: the next message, whole.
    fn take(&mut self, from: ServerId, number: PieceNumber, piece: &[u8]) -> Result<(), u32>
        ensures took { OnOk result (Takes self.old self.new from number piece.now) }
        ensures refused { IfErr result (λ code. RefusesTake self.old from number piece.now code) }
        ensures same { OnErr result (Keeps self.old self.new) }
    {
        if !self.is_in_turn(from, number) {
            return Err(u32::from(TakeFault::NotNext.code()));
        }
        self.take_piece(from, number, piece)
    }

    /// The same of any party: no message of another one may come here.
    fn take_from(&mut self, from: &Party, number: PieceNumber, piece: &[u8]) -> Result<(), u32>
        ensures took { OnOk result (TakesFrom self.old self.new from.now number piece.now) }
        ensures refused { IfErr result (λ code. RefusesFrom self.old from.now number piece.now code) }
        ensures same { OnErr result (Keeps self.old self.new) }
    {
        match from {
            Party::Server(id) => self.take(*id, number, piece),
            Party::Master => Err(NOT_HERE),
            Party::Clients => Err(NOT_HERE),
        }
    }

    /// The core learns that a server has crashed, as `Master::detect` says.
    fn detect(&mut self, server: ServerId) -> Result<(), u32>
        ensures done { OnOk result (Orders (Detected server) self.old self.new) }
        ensures refused { IfErr result (λ code. RefusesOrder (refusal_of_detection server) self.old code) }
        ensures same { OnErr result (Keeps self.old self.new) }
    {
        match self.core.detect(server) {
            Ok(()) => Ok(()),
            Err(fault) => Err(u32::from(fault.code())),
        }
    }

    /// A server joins, as `Master::join` says.
    fn join(&mut self, server: ServerId) -> Result<(), u32>
        ensures done { OnOk result (Orders (Joined server) self.old self.new) }
        ensures refused { IfErr result (λ code. RefusesOrder (refusal_of_join server) self.old code) }
        ensures same { OnErr result (Keeps self.old self.new) }
    {
        match self.core.join(server) {
            Ok(()) => Ok(()),
            Err(fault) => Err(u32::from(fault.code())),
        }
    }

    /// That server is gone for good. What waits for it is put and thrown away in its turns. The room for its number is made before,
    /// so these want no memory.
    fn forget(&mut self, server: ServerId) -> Result<(), u32>
        ensures done { OnOk result (Forgets self.old self.new server) }
        ensures refused { IfErr result (λ code. code ≡ NO_MEMORY) }
        ensures same { OnErr result (Keeps self.old self.new) }
    {
        match self.links.open(server) {
            Ok(()) => {
                self.links.note_gone(server);
                Ok(())
            }
            Err(_) => Err(NO_MEMORY),
        }
    }

    /// What the command makes the process do by itself, before its turns; or the number under which it is refused, and then nothing
    /// is changed.
    pub(super) fn step(&mut self, command: &Command) -> Result<(), u32>
        ensures done { OnOk result (Does self.old command.now self.new) }
        ensures refused { IfErr result (λ code. Refuses self.old command.now code) }
        ensures same { OnErr result (Keeps self.old self.new) }
    {
        match command {
            Command::Take {
                from,
                number,
                piece,
            } => self.take_from(from, *number, piece.as_bytes()),
            Command::Detect { server } => self.detect(*server),
            Command::Join { server } => self.join(*server),
            Command::More { to: _ } => Ok(()),
            Command::Gone { server } => self.forget(*server),
            Command::Arrive {
                stream: _,
                clock: _,
                request: _,
            } => Err(NOT_HERE),
            Command::Ask { query: _ } => Err(NOT_HERE),
            Command::Save => Err(NOT_HERE),
            Command::Load { chunk: _ } => Err(NOT_HERE),
        }
    }
}
