//! A delete of a message.
ghost use Rattle.std.specs.Prelude.{◌≡◌};
ghost use Rattle.cq_base.specs.queue.Effects.{message_at, fits, delete_remaining, delete_sent};
ghost use Rattle.cq_queue.specs.within.Answers.{delete_reply, is_deleting};

use cq_base::{Receipt, Refusal};
use cq_messages::{Message, Messages};

/// Whether the receipt is that of the message's last handing.
pub fn fits(receipt: Receipt, message: &Message) -> bool
    ensures { result ≡ fits receipt message.now }
{
    message.handings != 0 && receipt.handing() == message.handings
}

/// Whether a delete with a receipt of this message, which isn't deleted yet, takes effect. It does with
/// the receipt of the last handing, in flight or not, and does nothing with an older one (SQS API
/// Reference, "DeleteMessage").
fn delete_remaining(receipt: Receipt, message: &Message) -> Result<bool, Refusal>
    ensures reply { delete_reply result ≡ (delete_remaining receipt message.now).reply }
    ensures effective { is_deleting result ≡ (delete_remaining receipt message.now).effective }
{
    if message.handings < receipt.handing() {
        Err(Refusal::ReceiptHandleIsInvalid)
    } else {
        Ok(fits(receipt, message))
    }
}

/// Whether a delete with a receipt of a message that was sent takes effect.
pub fn delete_sent(receipt: Receipt, messages: &Messages) -> Result<bool, Refusal>
    ensures reply { delete_reply result
        ≡ (delete_sent receipt (message_at receipt.sequence messages.now)).reply }
    ensures effective { is_deleting result
        ≡ (delete_sent receipt (message_at receipt.sequence messages.now)).effective }
{
    match messages.get(receipt.sequence()) {
        Some(message) => delete_remaining(receipt, message),
        None => Ok(false),
    }
}
