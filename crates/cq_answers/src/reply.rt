//! Replies, each an object whose kind tells what it is.
ghost use Rattle.std.specs.Prelude.{OnOk, map};
ghost use Rattle.serde_json.specs.Events.{SendsValue};
ghost use Rattle.cq_answers.specs.Answers.{changed_data, counts_data, created_data, deleted_data, deliveries_data, delivery_data, received_data, refusal_data, removed_data, reply_data, sent_data};
ghost use Rattle.cq_answers.specs.within.Parts.{SendsEach};

use crate::member::{write_number, write_text, write_truth};
use cq_base::{Delivery, Reply};
use serde::Serializer;
use std::alloc::Global;

fn write_created<S: Serializer>(out: &mut S, incarnation: u64) -> Result<(), S::Error>
    ensures { OnOk result (SendsValue (created_data incarnation) (S.written out.old) (S.written out.new)) }
{
    out.begin_map(Some(2))?;
    write_number(out, "incarnation", incarnation)?;
    write_text(out, "kind", "created")?;
    out.end_map()
}

fn write_removed<S: Serializer>(out: &mut S) -> Result<(), S::Error>
    ensures { OnOk result (SendsValue removed_data (S.written out.old) (S.written out.new)) }
{
    out.begin_map(Some(1))?;
    write_text(out, "kind", "removed")?;
    out.end_map()
}

fn write_sent<S: Serializer>(out: &mut S, sequence: u64) -> Result<(), S::Error>
    ensures { OnOk result (SendsValue (sent_data sequence) (S.written out.old) (S.written out.new)) }
{
    out.begin_map(Some(2))?;
    write_text(out, "kind", "sent")?;
    write_number(out, "sequence", sequence)?;
    out.end_map()
}

/// Takes memory for the receipt's text alone.
fn write_delivery<S: Serializer>(
    alloc: Global,
    out: &mut S,
    delivery: &Delivery,
) -> Result<(), S::Error>
    ensures { OnOk result (SendsValue (delivery_data delivery.now) (S.written out.old) (S.written out.new)) }
{
    let Ok(receipt) = delivery.receipt.to_string(alloc) else {
        return Err(out.custom("no memory"));
    };
    out.begin_map(Some(3))?;
    write_text(out, "body", delivery.body.as_str())?;
    write_text(out, "group", delivery.group.as_str())?;
    write_text(out, "receipt", receipt.as_str())?;
    out.end_map()
}

fn write_deliveries<S: Serializer>(
    alloc: Global,
    out: &mut S,
    deliveries: &[Delivery],
) -> Result<(), S::Error>
    ensures { OnOk result (SendsValue (deliveries_data deliveries.now) (S.written out.old) (S.written out.new)) }
{
    out.begin_seq(Some(deliveries.len()))?;
    for delivery in deliveries {
        write_delivery(alloc, out, delivery)?;
    }
    out.end_seq()
}

fn write_received<S: Serializer>(
    alloc: Global,
    out: &mut S,
    deliveries: &[Delivery],
) -> Result<(), S::Error>
    ensures { OnOk result (SendsValue (received_data (deliveries_data deliveries.now)) (S.written out.old) (S.written out.new)) }
{
    out.begin_map(Some(2))?;
    write_text(out, "kind", "received")?;
    out.key("messages")?;
    write_deliveries(alloc, out, deliveries)?;
    out.end_map()
}

fn write_deleted<S: Serializer>(out: &mut S, removed: bool) -> Result<(), S::Error>
    ensures { OnOk result (SendsValue (deleted_data removed) (S.written out.old) (S.written out.new)) }
{
    out.begin_map(Some(2))?;
    write_text(out, "kind", "deleted")?;
    write_truth(out, "removed", removed)?;
    out.end_map()
}

fn write_changed<S: Serializer>(out: &mut S) -> Result<(), S::Error>
    ensures { OnOk result (SendsValue changed_data (S.written out.old) (S.written out.new)) }
{
    out.begin_map(Some(1))?;
    write_text(out, "kind", "changed")?;
    out.end_map()
}

fn write_counts<S: Serializer>(out: &mut S, visible: u64, in_flight: u64) -> Result<(), S::Error>
    ensures { OnOk result (SendsValue (counts_data visible in_flight) (S.written out.old) (S.written out.new)) }
{
    out.begin_map(Some(3))?;
    write_number(out, "in_flight", in_flight)?;
    write_text(out, "kind", "counts")?;
    write_number(out, "visible", visible)?;
    out.end_map()
}

fn write_refusal<S: Serializer>(out: &mut S, code: u16, name: &str) -> Result<(), S::Error>
    ensures { OnOk result (SendsValue (refusal_data code name.now) (S.written out.old) (S.written out.new)) }
{
    out.begin_map(Some(3))?;
    write_number(out, "code", u64::from(code))?;
    write_text(out, "kind", "refused")?;
    write_text(out, "name", name)?;
    out.end_map()
}

/// Writes a reply. What has no text yet, as a receipt, takes memory for it.
pub fn write_reply<S: Serializer>(alloc: Global, out: &mut S, reply: &Reply) -> Result<(), S::Error>
    ensures { OnOk result (SendsValue (reply_data reply.now) (S.written out.old) (S.written out.new)) }
{
    match reply {
        Reply::Created(incarnation) => write_created(out, *incarnation),
        Reply::Removed => write_removed(out),
        Reply::Sent(sequence) => write_sent(out, *sequence),
        Reply::Received(deliveries) => write_received(alloc, out, deliveries.as_slice()),
        Reply::Deleted(removed) => write_deleted(out, *removed),
        Reply::Changed => write_changed(out),
        Reply::Counts { visible, in_flight } => write_counts(out, *visible, *in_flight),
        Reply::Refused(refusal) => write_refusal(out, refusal.code(), refusal.name()),
    }
}
