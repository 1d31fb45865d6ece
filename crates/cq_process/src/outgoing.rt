//! The end of a link to one party: a message is put once all of its pieces are written.
ghost use Rattle.std.specs.Prelude.{◌≡◌, ◌+◌, ◌≤◌, ◌<◌, List, [], Option, None, Some, is_some, true, false, Ok, Err, OnOk, OnErr, IfErr};
ghost use Rattle.cq_base.specs.declared.party.Party as rust_party;
ghost use Rattle.cq_chain.specs.declared.message.Message as rust_message;
ghost use Rattle.cq_chain.specs.Messages as sent;
ghost use Rattle.cq_chain.specs.Servers as states;
ghost use Rattle.cq_chain.specs.Stands.{StandsFor};
ghost use Rattle.cq_process.specs.declared.outgoing.TheConstants.{LINK_LIMIT};
ghost use Rattle.cq_process.specs.declared.outgoing.PutFault.TheVariants as faults;
ghost use Rattle.cq_process.specs.declared.outgoing.Written.TheVariants as what;
ghost use Rattle.cq_process.specs.Faults.{put_code};
ghost use Rattle.cq_process.specs.Outgoing.{AreSound, GoesOn, IsFresh, IsSpent};
ghost use Rattle.cq_process.specs.Putting.{Idles, IsNumbered, OnMessage, OnNone, OnPiece, Passes, PutsNext, StandsWith, Throws, WritesLast, WritesOn, WritesSome};

use cq_base::Party;
use cq_chain::{Message, Server};
use cq_chain_wire::{MessageWriter, message_holds};
use cq_frames::PieceNumber;
use std::alloc::Global;
use std::marker::Model;
use thiserror::Error;

/// The largest number of a message on a link, and the most pieces of a message.
pub const LINK_LIMIT: u64 = u64::MAX;

/// The end of a link to one party. It has the number of the last message that was put, and the message that is being written, if
/// there is one, with how many pieces of it were: it left the core's outbox with its first piece, and is put with its last.
#[derive(Drop)]
pub struct Outgoing {
    alloc: Global,
    put: u64,
    pieces: u64,
    held: Option<Message>,
    writer: MessageWriter,
}

impl Model for Outgoing {
    ghost use Rattle.cq_process.specs.Outgoing.{End, GoesOn};

    ghost Value = { End };

    ghost view = { λ o. record { put = o.put; pieces = o.pieces; held = o.held; writer = o.writer } };

    ghost invariant = { λ o. GoesOn o.held o.writer };
}

/// What was written.
#[derive(Clone, Copy, Debug, PartialEq, Eq)]
pub enum Written {
    /// Nothing: no message waits.
    Nothing,
    /// The piece of that number, and more are left of its message.
    Piece { number: PieceNumber },
    /// The piece of that number, the last one of its message, which is put.
    Message { number: PieceNumber },
}

/// Why nothing was written.
#[derive(Clone, Copy, Debug, PartialEq, Eq, Error)]
pub enum PutFault {
    #[error("the link has no number left")]
    NumbersSpent,
    #[error("out of memory")]
    NoMemory,
}

impl PutFault {
    /// The number under which the fault is told.
    pub fn code(&self) -> u16
        ensures { result ≡ put_code self.now }
    {
        match self {
            PutFault::NumbersSpent => 46,
            PutFault::NoMemory => 20,
        }
    }
}

/// The first message that waits for the party leaves the core's outbox.
fn draw(core: &mut Server, to: Party) -> Option<Message>
    ensures passes { (back : rust_party.Party → Option rust_message.Message) → back to ≡ None
        → Passes core.old core.new back to result }
    ensures empty { result ≡ None → (s : states.Server) (outbox : rust_party.Party → List sent.Message) → StandsFor core.old s outbox
        → outbox to ≡ [] }
    ensures sound { AreSound result }
{
    match core.put(to) {
        Some(message) => {
            message_holds(&message);
            Some(message)
        }
        None => None,
    }
}

/// The message that is held, or else the first one that waits for the party, which leaves the core's outbox.
fn first_of(core: &mut Server, to: Party, held: Option<Message>) -> Option<Message>
    requires sound { AreSound held }
    ensures sound { AreSound result }
    ensures passes { (back : rust_party.Party → Option rust_message.Message) → back to ≡ held
        → Passes core.old core.new back to result }
    ensures same { (x : rust_message.Message) → held ≡ Some x → result ≡ Some x }
    ensures none { result ≡ None → held ≡ None }
    ensures empty { result ≡ None → (s : states.Server) (outbox : rust_party.Party → List sent.Message) → StandsFor core.old s outbox
        → outbox to ≡ [] }
{
    match held {
        Some(message) => Some(message),
        None => draw(core, to),
    }
}

impl Outgoing {
    /// Nothing was put. It keeps the allocator.
    pub fn new(alloc: Global) -> Outgoing
        ensures number { result.put ≡ 0 }
        ensures pieces { result.pieces ≡ 0 }
        ensures held { result.held ≡ None }
        ensures begins { IsFresh result.writer }
    {
        Outgoing {
            alloc,
            put: 0,
            pieces: 0,
            held: None,
            writer: MessageWriter::new(alloc),
        }
    }

    /// The number of the last message that was put, 0 before the first one: O(1).
    pub fn last_put(&self) -> u64
        ensures { result ≡ self.now.put }
    {
        self.put
    }

    /// Whether a message is being written: O(1).
    pub fn is_held(&self) -> bool
        ensures { result ≡ is_some self.now.held }
    {
        self.held.is_some()
    }

    /// What holds of each end: a piece is left of the message that is held, whose pieces are read as just it; and where none is held, the
    /// writer is at its start. It does nothing.
    pub fn goes_on(&self)
        ensures { GoesOn self.now.held self.now.writer }
    {
        let _held = &self.held;
    }

    /// Writes the next piece of the message that is held, if one is.
    fn write(&mut self, bytes: &mut Vec<u8>, enough: usize) -> Result<Written, PutFault>
        requires put { self.old.put < LINK_LIMIT }
        requires pieces { self.old.pieces < LINK_LIMIT }
        ensures unspent { result ≡ Err faults.NumbersSpent → ⊥ }
        ensures numbers { IsNumbered result self.old self.new }
        ensures some { OnPiece result (WritesSome self.old self.new bytes.old.items bytes.new.items) }
        ensures last { OnMessage result (WritesLast self.old self.new bytes.old.items bytes.new.items) }
        ensures idle { OnNone result (self.new ≡ self.old) }
        ensures bytes { OnNone result (bytes.new.items ≡ bytes.old.items) }
        ensures nothing { result ≡ Ok what.Nothing → self.old.held ≡ None }
    {
        let message = match &self.held {
            Some(message) => message,
            None => return Ok(Written::Nothing),
        };
        if self.writer.next(message, bytes, enough).is_err() {
            return Err(PutFault::NoMemory);
        }
        let number = PieceNumber {
            message: self.put + 1,
            index: self.pieces,
        };
        if !self.writer.is_done() {
            self.pieces += 1;
            return Ok(Written::Piece { number });
        }
        self.held = None;
        self.writer = MessageWriter::new(self.alloc);
        self.put += 1;
        self.pieces = 0;
        Ok(Written::Message { number })
    }

    /// Writes the next piece of the first message for that party behind the bytes: of the one that is being written, or else of
    /// the first one that waits. A plain message is one piece; one of a snapshot has at most 2.7 MB more than `enough` bytes. The
    /// message is put with its last piece. The party has to be the same at each call.
    ///
    /// After `NoMemory` no piece is written, and the same one is the next; `NumbersSpent` comes behind `LINK_LIMIT` messages, or
    /// `LINK_LIMIT` pieces of one.
    /// O(bytes of the piece), and of a snapshot a search for each message: O(log messages).
    pub fn put_next(
        &mut self,
        core: &mut Server,
        to: Party,
        bytes: &mut Vec<u8>,
        enough: usize,
    ) -> Result<Written, PutFault>
        ensures spent { IsSpent self.old → result ≡ Err faults.NumbersSpent }
        ensures unspent { (IsSpent self.old → ⊥) → result ≡ Err faults.NumbersSpent → ⊥ }
        ensures numbers { IsNumbered result self.old self.new }
        ensures some { OnPiece result (WritesOn core.old core.new to self.old self.new bytes.old.items bytes.new.items) }
        ensures last { OnMessage result (PutsNext core.old core.new to self.old self.new bytes.old.items bytes.new.items) }
        ensures idle { OnNone result (Idles core.old core.new to self.old self.new) }
        ensures bytes { OnNone result (bytes.new.items ≡ bytes.old.items) }
        ensures held { result ≡ Ok what.Nothing → self.old.held ≡ None }
        ensures empty { result ≡ Ok what.Nothing → (s : states.Server) (outbox : rust_party.Party → List sent.Message) → StandsFor core.old s outbox
            → outbox to ≡ [] }
    {
        if self.put == LINK_LIMIT || self.pieces == LINK_LIMIT {
            return Err(PutFault::NumbersSpent);
        }
        self.held = first_of(core, to, self.held.take());
        self.write(bytes, enough)
    }

    /// Whether nothing waits for that party: no message is held, and none waits in the core's outbox.
    fn is_empty(&self, core: &Server, to: Party) -> bool
        ensures held { result ≡ true → self.now.held ≡ None }
        ensures empty { result ≡ true → (s : states.Server) (outbox : rust_party.Party → List sent.Message) → StandsFor core.now s outbox
            → outbox to ≡ [] }
        ensures waits { result ≡ false → (back : rust_party.Party → Option rust_message.Message) (s : states.Server) (outbox : rust_party.Party → List sent.Message)
            → StandsWith core.now back self.now.held to s outbox → outbox to ≡ [] → ⊥ }
    {
        self.held.is_none() && core.waiting(to) == 0
    }

    /// The message that is held is thrown away, if one is, and counts.
    fn throw_held(&mut self)
        requires { self.old.put < LINK_LIMIT }
        ensures some { (x : rust_message.Message) → self.old.held ≡ Some x → self.new.put ≡ self.old.put + 1 }
        ensures none { self.old.held ≡ None → self.new.put ≡ self.old.put }
        ensures few { self.new.put ≤ self.old.put + 1 }
        ensures held { self.new.held ≡ None }
    {
        if self.held.is_none() {
            return;
        }
        self.held = None;
        self.writer = MessageWriter::new(self.alloc);
        self.put += 1;
        self.pieces = 0;
    }

    /// The first message for that party is put and thrown away, if there is one.
    fn throw_first(&mut self, core: &mut Server, to: Party)
        requires { self.old.put < LINK_LIMIT }
        ensures throws { Throws core.old core.new to self.old self.new }
        ensures counts { (back : rust_party.Party → Option rust_message.Message) (s : states.Server) (outbox : rust_party.Party → List sent.Message)
            → StandsWith core.old back self.old.held to s outbox → (outbox to ≡ [] → ⊥) → self.new.put ≡ self.old.put + 1 }
        ensures few { self.new.put ≤ self.old.put + 1 }
    {
        self.held = first_of(core, to, self.held.take());
        self.throw_held();
    }

    /// The same, after a look at whether anything waits: it answers whether nothing does.
    fn throw_next(&mut self, core: &mut Server, to: &Party) -> bool
        requires { self.old.put < LINK_LIMIT }
        ensures throws { Throws core.old core.new to.now self.old self.new }
        ensures counts { result ≡ false → (back : rust_party.Party → Option rust_message.Message) (s : states.Server) (outbox : rust_party.Party → List sent.Message)
            → StandsWith core.old back self.old.held to.now s outbox → self.new.put ≡ self.old.put + 1 }
        ensures few { self.new.put ≤ self.old.put + 1 }
        ensures held { result ≡ true → self.new.held ≡ None }
        ensures empty { result ≡ true → (s : states.Server) (outbox : rust_party.Party → List sent.Message) → StandsFor core.new s outbox
            → outbox to.now ≡ [] }
    {
        let party = *to;
        if self.is_empty(core, party) {
            return true;
        }
        let party = *to;
        self.throw_first(core, party);
        false
    }

    /// All that waits for that party, which is gone, is put and thrown away; so is a message of which some pieces were written. The
    /// party has to be the one of each `put_next`. `NumbersSpent` comes behind `LINK_LIMIT` messages, and then some may wait still.
    /// It takes no memory: O(messages).
    pub fn throw_all(&mut self, core: &mut Server, to: Party) -> Result<(), PutFault>
        ensures throws { Throws core.old core.new to self.old self.new }
        ensures held { OnOk result (self.new.held ≡ None) }
        ensures empty { OnOk result ((s : states.Server) (outbox : rust_party.Party → List sent.Message) → StandsFor core.new s outbox
            → outbox to ≡ []) }
        ensures fault { IfErr result (λ fault. fault ≡ faults.NumbersSpent) }
        ensures spent { (back : rust_party.Party → Option rust_message.Message) (s : states.Server) (outbox : rust_party.Party → List sent.Message)
            → StandsWith core.old back self.old.held to s outbox → OnErr result (LINK_LIMIT ≤ self.new.put) }
    {
        for _ in self.last_put()..LINK_LIMIT {
            if self.throw_next(core, &to) {
                return Ok(());
            }
        }
        Err(PutFault::NumbersSpent)
    }
}
