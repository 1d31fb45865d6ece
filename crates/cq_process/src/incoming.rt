//! The end of a link from one party: a message is taken once all of its pieces came.
ghost use Rattle.std.specs.Prelude.{◌≡◌, List, Option, true, false, Ok, Err, OnOk, OnErr, IfErr};
ghost use Rattle.cq_base.specs.declared.party.Party as rust_party;
ghost use Rattle.cq_chain.specs.declared.message.Message as rust_message;
ghost use Rattle.cq_chain.specs.Faults.{IsRefusal};
ghost use Rattle.cq_chain.specs.Messages as sent;
ghost use Rattle.cq_chain.specs.Refusals.{refusal_of_taking};
ghost use Rattle.cq_chain.specs.Servers as states;
ghost use Rattle.cq_chain.specs.Stands.{Keeps, Means, StandsFor};
ghost use Rattle.cq_chain_wire.specs.declared.reader.Progress.TheVariants.{More, Whole};
ghost use Rattle.cq_process.specs.declared.incoming.TakeFault.TheVariants.{NotNext};
ghost use Rattle.cq_process.specs.declared.incoming.Taken.TheVariants as what;
ghost use Rattle.cq_process.specs.Faults.{take_code};
ghost use Rattle.cq_process.specs.Taking.{IsLeft, IsReadAs, IsRefusedFor, TakesNext, TakesOne, is_next, nothing, number_after, pieces_after, read_on};
ghost use Rattle.cq_wire.specs.Reading.{Gives};

use crate::outgoing::LINK_LIMIT;
use cq_base::Party;
use cq_chain::{Message, Server, Untaken, WorldFault};
use cq_chain_wire::{MessageReader, Progress};
use cq_frames::PieceNumber;
use cq_wire::ReadFault;
use std::alloc::Global;
use std::mem;
use thiserror::Error;

/// The end of a link from one party. It has the number of the last message that was taken, and of the next one how many pieces were
/// read, and what was read of them.
#[derive(Drop)]
pub struct Incoming {
    alloc: Global,
    taken: u64,
    pieces: u64,
    /// A message that is whole is one that the core didn't take.
    next: Progress,
}

/// What was done with a piece.
#[derive(Clone, Copy, Debug, PartialEq, Eq)]
pub enum Taken {
    /// It was read, and more pieces of its message have to come.
    Piece,
    /// It was the last one, and the core took the message.
    Message,
}

/// Why nothing was taken.
#[derive(Clone, Copy, Debug, PartialEq, Eq, Error)]
pub enum TakeFault {
    #[error("the piece isn't the next one of its link")]
    NotNext,
    /// The bytes are no piece that may come here, or there was no memory to read them. Either way the message begins again.
    #[error("{0}")]
    Unread(ReadFault),
    /// The message is whole, and the core didn't take it.
    #[error("{0}")]
    Refused(WorldFault),
}

impl TakeFault {
    /// The number under which the fault is told. Want of memory for a piece has one of its own (48), since all pieces of its message
    /// have to come again then, and not that piece alone.
    pub fn code(&self) -> u16
        ensures { result ≡ take_code self.now }
    {
        match self {
            TakeFault::NotNext => 45,
            TakeFault::Unread(ReadFault::NoMemory) => 48,
            TakeFault::Unread(ReadFault::Bad(fault)) => fault.code(),
            TakeFault::Refused(fault) => fault.code(),
        }
    }
}

/// Gives the core a message, which comes back where it isn't taken.
fn give(core: &mut Server, from: Party, message: Message) -> Result<(), Untaken>
    ensures ok { (back : rust_party.Party → Option rust_message.Message)
        → OnOk result (TakesOne core.old core.new back from message) }
    ensures err { OnErr result (Keeps core.old core.new) }
    ensures refused { (s : states.Server) (outbox : rust_party.Party → List sent.Message) (m : sent.Message) → StandsFor core.old s outbox
        → Means message m → IfErr result (λ untaken. IsRefusal untaken.fault (refusal_of_taking from m s)) }
    ensures back { IfErr result (λ untaken. untaken.message ≡ message) }
{
    core.take_owned(from, message)
}

/// Whether that is the piece behind so many messages, and so many pieces of the next one.
pub fn is_behind(number: PieceNumber, taken: u64, pieces: u64) -> bool
    ensures { result ≡ is_next number taken pieces }
{
    let PieceNumber { message, index } = number;
    0 < message && message - 1 == taken && index == pieces && index < LINK_LIMIT
}

impl Incoming {
    /// Nothing was taken, and nothing read. It keeps the allocator.
    pub fn new(alloc: Global) -> Incoming
        ensures number { result.taken ≡ 0 }
        ensures pieces { result.pieces ≡ 0 }
        ensures next { result.next ≡ nothing }
    {
        Incoming {
            alloc,
            taken: 0,
            pieces: 0,
            next: Progress::More(MessageReader::new(alloc)),
        }
    }

    /// The number of the last message that was taken, 0 before the first one: O(1).
    pub fn taken(&self) -> u64
        ensures { result ≡ self.now.taken }
    {
        self.taken
    }

    /// Whether that is the next piece: of the message behind the last one that was taken, the one behind those that were read of it.
    /// O(1).
    pub fn is_next(&self, number: PieceNumber) -> bool
        ensures { result ≡ is_next number self.now.taken self.now.pieces }
    {
        is_behind(number, self.taken, self.pieces)
    }

    /// What was read, with the next piece. None of it stays here.
    fn read_on(&mut self, piece: &[u8]) -> Result<Progress, ReadFault>
        ensures read { Gives (λ p. p) result (read_on piece.now self.old.next) }
        ensures number { self.new.taken ≡ self.old.taken }
        ensures pieces { self.new.pieces ≡ self.old.pieces }
        ensures next { self.new.next ≡ nothing }
    {
        let anew = Progress::More(MessageReader::new(self.alloc));
        match mem::replace(&mut self.next, anew) {
            Progress::More(reader) => reader.feed(piece),
            Progress::Whole(message) => Ok(Progress::Whole(message)),
        }
    }

    /// What was read of the next message is let go: it has to be read anew from its first piece.
    pub fn let_go(&mut self)
        ensures number { self.new.taken ≡ self.old.taken }
        ensures pieces { self.new.pieces ≡ 0 }
        ensures next { self.new.next ≡ nothing }
    {
        self.pieces = 0;
        self.next = Progress::More(MessageReader::new(self.alloc));
    }

    /// Takes the piece of that number, and the message with its last piece. The first message has number 1, and its first piece
    /// index 0.
    ///
    /// After `NotNext` nothing is changed. After `Unread` what was read of the message is let go, and the message has to be read
    /// anew from its first piece: of a plain message, which is one piece, that is nothing. After `Refused` the whole message is
    /// kept, and a piece of the same number gives it to the core again, whatever its bytes are.
    ///
    /// O(bytes), expected, and with the last piece what `Server::take_owned` takes.
    pub fn take(
        &mut self,
        core: &mut Server,
        from: Party,
        number: PieceNumber,
        piece: &[u8],
    ) -> Result<Taken, TakeFault>
        ensures out_of_turn { is_next number self.old.taken self.old.pieces ≡ false → result ≡ Err NotNext }
        ensures in_turn { is_next number self.old.taken self.old.pieces ≡ true → result ≡ Err NotNext → ⊥ }
        ensures read { IsReadAs result (read_on piece.now self.old.next) }
        ensures number { self.new.taken ≡ number_after result self.old.taken }
        ensures pieces { self.new.pieces ≡ pieces_after result self.old.pieces }
        ensures left { IsLeft result self.old.next (read_on piece.now self.old.next) self.new.next }
        ensures took { result ≡ Ok what.Message → TakesNext (read_on piece.now self.old.next) core.old core.new from }
        ensures idle { (result ≡ Ok what.Message → ⊥) → Keeps core.old core.new }
        ensures refused { (s : states.Server) (outbox : rust_party.Party → List sent.Message) → StandsFor core.old s outbox
            → IsRefusedFor result from s self.new.next }
    {
        if !self.is_next(number) {
            return Err(TakeFault::NotNext);
        }
        let message = match self.read_on(piece) {
            Ok(Progress::More(reader)) => {
                self.next = Progress::More(reader);
                self.pieces += 1;
                return Ok(Taken::Piece);
            }
            Ok(Progress::Whole(message)) => message,
            Err(fault) => {
                self.let_go();
                return Err(TakeFault::Unread(fault));
            }
        };
        match give(core, from, message) {
            Ok(()) => {
                self.taken += 1;
                self.pieces = 0;
                Ok(Taken::Message)
            }
            Err(untaken) => {
                self.next = Progress::Whole(untaken.message);
                Err(TakeFault::Refused(untaken.fault))
            }
        }
    }
}
