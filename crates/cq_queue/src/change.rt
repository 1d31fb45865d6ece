//! A change of a message's timeout.
ghost use Rattle.std.specs.Prelude.{◌≡◌, ◌+◌, ◌*◌, nat_lt};
ghost use Rattle.cq_base.specs.declared.limits.TheConstants.{SECOND, FLIGHT_LIMIT};
ghost use Rattle.cq_base.specs.queue.Effects.{message_at, change_remaining, change_sent};
ghost use Rattle.cq_queue.specs.within.Answers.{change_reply, is_changing};

use crate::delete::fits;
use cq_base::{FLIGHT_LIMIT, Moment, Receipt, Refusal, SECOND, Seconds};
use cq_messages::{Message, Messages};

/// The moment in milliseconds so many seconds after this one.
pub fn end_of(moment: Moment, visibility: Seconds) -> u64
    ensures { result ≡ moment + SECOND * visibility }
{
    moment.get() + SECOND * u64::from(visibility.get())
}

/// Whether a timeout from this moment on ends later than twelve hours after the last handing.
fn is_beyond_limit(moment: Moment, visibility: Seconds, message: &Message) -> bool
    ensures { result ≡ nat_lt (message.now.handed_at + FLIGHT_LIMIT) (moment + SECOND * visibility) }
{
    message.handed_at.get() + FLIGHT_LIMIT < end_of(moment, visibility)
}

/// Whether a change of the timeout of a message that isn't deleted, to so many seconds from this moment
/// on, takes effect, or why not.
fn change_remaining(
    moment: Moment,
    visibility: Seconds,
    receipt: Receipt,
    message: &Message,
) -> Result<(), Refusal>
    ensures reply { change_reply result ≡ (change_remaining moment visibility receipt message.now).reply }
    ensures effective { is_changing result
        ≡ (change_remaining moment visibility receipt message.now).effective }
{
    if !fits(receipt, message) {
        Err(Refusal::ReceiptHandleIsInvalid)
    } else if !message.is_in_flight(moment) {
        Err(Refusal::MessageNotInflight)
    } else if is_beyond_limit(moment, visibility, message) {
        Err(Refusal::VisibilityBeyondLimit)
    } else {
        Ok(())
    }
}

/// The same with a receipt of a message that was sent: one that is deleted isn't in flight.
pub fn change_sent(
    moment: Moment,
    visibility: Seconds,
    receipt: Receipt,
    messages: &Messages,
) -> Result<(), Refusal>
    ensures reply { change_reply result
        ≡ (change_sent moment visibility receipt (message_at receipt.sequence messages.now)).reply }
    ensures effective { is_changing result
        ≡ (change_sent moment visibility receipt (message_at receipt.sequence messages.now)).effective }
{
    match messages.get(receipt.sequence()) {
        Some(message) => change_remaining(moment, visibility, receipt, message),
        None => Err(Refusal::MessageNotInflight),
    }
}
