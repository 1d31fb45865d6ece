//! Members that are texts with a rule.
ghost use Rattle.std.specs.Prelude.{◌≡◌, ◌↔◌, Ok};
ghost use Rattle.std.specs.Option.{option_copied};
ghost use Rattle.cq_base.specs.Handle.{Handle, IsHandle, handle_text};
ghost use Rattle.cq_json.specs.Fields as spec;
ghost use Rattle.cq_json.specs.Readers.{Gives, same};
ghost use Rattle.cq_json.specs.Receipts.{receipt_handle};

use crate::fields::ReadFault;
use cq_base::{Body, DedupId, GroupId, QueueName, Receipt};
use std::alloc::Global;

/// The queue name with that text.
pub fn queue_name(alloc: Global, text: &str) -> Result<QueueName, ReadFault>
    ensures { Gives same result (spec.queue_name text.now) }
{
    Ok(QueueName::new(alloc, text)?)
}

/// The message group id with that text.
pub fn group_id(alloc: Global, text: &str) -> Result<GroupId, ReadFault>
    ensures { Gives same result (spec.group_id text.now) }
{
    Ok(GroupId::new(alloc, text)?)
}

/// The message deduplication id with that text.
pub fn dedup_id(alloc: Global, text: &str) -> Result<DedupId, ReadFault>
    ensures { Gives same result (spec.dedup_id text.now) }
{
    Ok(DedupId::new(alloc, text)?)
}

/// The same, if there is a text.
pub fn dedup_id_if(alloc: Global, text: Option<&str>) -> Result<Option<DedupId>, ReadFault>
    ensures { Gives same result (spec.dedup_id_if (option_copied text.entry)) }
{
    match text {
        Some(text) => Ok(Some(dedup_id(alloc, text)?)),
        None => Ok(None),
    }
}

/// The message body with that text.
pub fn message_body(alloc: Global, text: &str) -> Result<Body, ReadFault>
    ensures { Gives same result (spec.message_body text.now) }
{
    Ok(Body::new(alloc, text)?)
}

/// The receipt handle with that text. It takes no memory.
#[tactic(auto, using(crate::proofs::Receipts::receipt_found, crate::proofs::Receipts::receipt_none, crate::proofs::Receipts::receipt_exact))]
pub fn receipt(text: &str) -> Result<Receipt, ReadFault>
    ensures value { Gives same result (receipt_handle text.now) }
    ensures exact { (h : Handle) → (receipt_handle text.now ≡ Ok h) ↔ (IsHandle h × (text.now ≡ handle_text h)) }
{
    match Receipt::read(text.as_bytes()) {
        Some(receipt) => Ok(receipt),
        None => Err(ReadFault::Bad),
    }
}
