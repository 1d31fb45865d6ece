//! Each value of the types has bytes.
ghost use Rattle.std.specs.Prelude.{◌≤◌, ◌<◌, ◌^◌};
ghost use Rattle.cq_base.specs.Handle.{IsHandle};
ghost use Rattle.cq_wire.specs.Limits.{IfThere, IsServer, IsName, IsId, IsBody, IsSeconds, IsAsk, IsRequest, IsEntry, IsQuery, IsDelivery, AreListed, IsReply};

use cq_base::{
    Ask, Body, DedupId, Delivery, Entry, GroupId, Query, QueueName, Receipt, Reply, Request,
    Seconds, ServerId,
};

/// Each name has bytes.
#[tactic(auto, using(crate::proofs::Utf8::utf8_is))]
pub fn name_fits(name: &QueueName)
    ensures { IsName name.now }
{
    let _text = name.as_str();
}

/// Each group id has bytes.
#[tactic(auto, using(crate::proofs::Utf8::utf8_is))]
pub fn group_fits(id: &GroupId)
    ensures { IsId id.now }
{
    let _text = id.as_str();
}

/// Each deduplication id has bytes.
#[tactic(auto, using(crate::proofs::Utf8::utf8_is))]
pub fn dedup_fits(id: &DedupId)
    ensures { IsId id.now }
{
    let _text = id.as_str();
}

/// Each body has bytes.
#[tactic(auto, using(crate::proofs::Utf8::utf8_is))]
pub fn body_fits(body: &Body)
    ensures { IsBody body.now }
{
    let _text = body.as_str();
}

/// Each server's number has bytes.
pub fn server_fits(id: ServerId)
    ensures { IsServer id }
{
    let _number = id.get();
}

fn dedup_if_fits(id: &Option<DedupId>)
    ensures { IfThere IsId id.now }
{
    match id {
        Some(id) => dedup_fits(id),
        None => (),
    }
}

fn seconds_if_fit(seconds: Option<Seconds>)
    ensures { IfThere IsSeconds seconds }
{
    match seconds {
        Some(seconds) => {
            let _number = seconds.get();
        }
        None => (),
    }
}

fn receipt_fits(receipt: Receipt)
    ensures { IsHandle receipt }
{
    let _incarnation = receipt.incarnation();
    let _sequence = receipt.sequence();
    let _handing = receipt.handing();
}

fn ask_fits(ask: &Ask)
    ensures { IsAsk ask.now }
{
    match ask {
        Ask::Create {
            queue,
            visibility,
            ..
        } => {
            name_fits(queue);
            let _number = visibility.get();
        }
        Ask::Remove { queue } => name_fits(queue),
        Ask::Send {
            queue,
            group,
            dedup,
            body,
        } => {
            name_fits(queue);
            group_fits(group);
            dedup_if_fits(dedup);
            body_fits(body);
        }
        Ask::Receive {
            queue,
            size,
            visibility,
        } => {
            name_fits(queue);
            let _number = size.get();
            seconds_if_fit(*visibility);
        }
        Ask::Delete { queue, receipt } => {
            name_fits(queue);
            receipt_fits(*receipt);
        }
        Ask::Change {
            queue,
            receipt,
            visibility,
        } => {
            name_fits(queue);
            receipt_fits(*receipt);
            let _number = visibility.get();
        }
    }
}

/// Each request has bytes.
pub fn request_fits(request: &Request)
    ensures { IsRequest request.now }
{
    let _client = request.client;
    let _number = request.number;
    ask_fits(&request.ask);
}

/// Each entry has bytes.
pub fn entry_fits(entry: &Entry)
    ensures { IsEntry entry.now }
{
    let _number = entry.moment.get();
    request_fits(&entry.request);
}

/// Each query has bytes.
pub fn query_fits(query: &Query)
    ensures { IsQuery query.now }
{
    let _client = query.client;
    let _tag = query.tag;
    name_fits(&query.queue);
}

fn delivery_fits(delivery: &Delivery)
    ensures { IsDelivery delivery.now }
{
    receipt_fits(delivery.receipt);
    group_fits(&delivery.group);
    body_fits(&delivery.body);
}

fn deliveries_fit(deliveries: &[Delivery])
    ensures { AreListed IsDelivery deliveries.now }
{
    let _count = deliveries.len();
    for delivery in deliveries {
        delivery_fits(delivery);
    }
}

/// Each reply has bytes.
pub fn reply_fits(reply: &Reply)
    ensures { IsReply reply.now }
{
    match reply {
        Reply::Created(incarnation) => {
            let _number = *incarnation;
        }
        Reply::Sent(sequence) => {
            let _number = *sequence;
        }
        Reply::Received(deliveries) => deliveries_fit(deliveries.as_slice()),
        Reply::Counts { visible, in_flight } => {
            let _visible = *visible;
            let _in_flight = *in_flight;
        }
        Reply::Removed | Reply::Deleted(_) | Reply::Changed | Reply::Refused(_) => (),
    }
}
