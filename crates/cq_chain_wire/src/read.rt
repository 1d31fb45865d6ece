//! Whole messages, from all of the bytes.
ghost use Rattle.std.specs.Prelude.{◌≡◌, IfOk, Ok};
ghost use Rattle.cq_chain.specs.declared.message.Message as rust_message;
ghost use Rattle.cq_wire.specs.Layout.{whole};
ghost use Rattle.cq_wire.specs.Reading.{Gives, all_of, whole_at};
ghost use Rattle.cq_chain_wire.specs.Layout.{message};
ghost use Rattle.cq_chain_wire.specs.Limits.{IsMessage};
ghost use Rattle.cq_chain_wire.specs.Reading.{message_at};

use crate::parts::message_of;
use cq_chain::Message;
use cq_wire::{ReadFault, VERSION, WireFault};
use std::alloc::Global;

/// The message that the bytes behind the version are, all of them.
#[tactic(auto, unfolding(cq_wire::specs::Reading::all_of))]
pub fn all_of_message(alloc: Global, bytes: &[u8]) -> Result<Message, ReadFault>
    ensures { Gives (λ x. x) result (all_of message_at bytes.now) }
{
    let (message, rest) = match message_of(alloc, bytes) {
        Ok(read) => read,
        Err(fault) => return Err(fault),
    };
    if !rest.is_empty() {
        return Err(ReadFault::Bad(WireFault::BytesLeft));
    }
    Ok(message)
}

#[tactic(auto, unfolding(cq_wire::specs::Reading::whole_at))]
fn whole_message(alloc: Global, bytes: &[u8]) -> Result<Message, ReadFault>
    ensures { Gives (λ x. x) result (whole_at message_at bytes.now) }
{
    match bytes {
        [] => Err(ReadFault::Bad(WireFault::Truncated)),
        [version, rest @ ..] => {
            if *version == VERSION {
                all_of_message(alloc, rest)
            } else {
                Err(ReadFault::Bad(WireFault::OtherVersion))
            }
        }
    }
}

/// The message that the bytes are, all of them: O(bytes). It takes memory for the texts of an entry or a reply alone. The
/// bytes of a snapshot are refused as `BadTag`.
pub fn read_message(alloc: Global, bytes: &[u8]) -> Result<Message, ReadFault>
    // What is read was written so: no other bytes are read as the same message.
    ensures found { IfOk result (λ x. IsMessage x × (bytes.now ≡ whole message x)) }
    // What was written is read, unless memory runs out.
    ensures only { (x : rust_message.Message) → IsMessage x → bytes.now ≡ whole message x → Gives (λ y. y) result (Ok x) }
    // Which fault it is.
    ensures exact { Gives (λ x. x) result (whole_at message_at bytes.now) }
{
    whole_message(alloc, bytes)
}
