//! Replies, written piece by piece.
ghost use Rattle.std.specs.Prelude.{◌≡◌, ◌∷◌, ◌++◌, OnOk, decimal};
ghost use Rattle.json.specs.Print.{escape, quoted};
ghost use Rattle.serde_json.specs.Written.{compact_text};
ghost use Rattle.cq_base.specs.Handle.{handle_text};
ghost use Rattle.cq_answers.specs.Answers.{changed_data, counts_data, created_data, deleted_data, deliveries_data, delivery_data, received_data, refusal_data, removed_data, reply_data, sent_data};

use crate::row::Row;
use cq_base::{Delivery, NoMemory, Receipt, Reply};

fn put_created(row: &mut Row, incarnation: u64) -> Result<(), NoMemory>
    ensures ok { OnOk result (row.new.told ≡ row.old.told ++ compact_text (created_data incarnation)) }
    ensures before { row.new.before ≡ row.old.before }
{
    row.put(b"{\"incarnation\":")?;
    row.put_number(incarnation)?;
    row.put(b",\"kind\":\"created\"}")
}

fn put_removed(row: &mut Row) -> Result<(), NoMemory>
    ensures ok { OnOk result (row.new.told ≡ row.old.told ++ compact_text removed_data) }
    ensures before { row.new.before ≡ row.old.before }
{
    row.put(b"{\"kind\":\"removed\"}")
}

fn put_sent(row: &mut Row, sequence: u64) -> Result<(), NoMemory>
    ensures ok { OnOk result (row.new.told ≡ row.old.told ++ compact_text (sent_data sequence)) }
    ensures before { row.new.before ≡ row.old.before }
{
    row.put(b"{\"kind\":\"sent\",\"sequence\":")?;
    row.put_number(sequence)?;
    row.put(b"}")
}

/// Writes the number, and says of it that it needs no escape.
fn put_plain_number(row: &mut Row, number: u64) -> Result<(), NoMemory>
    ensures ok { OnOk result (row.new.told ≡ row.old.told ++ escape (decimal number)) }
    ensures before { row.new.before ≡ row.old.before }
{
    row.put_number(number)
}

/// Writes the three numbers as a string, with `-` between them.
fn put_numbers(row: &mut Row, first: u64, second: u64, third: u64) -> Result<(), NoMemory>
    ensures ok { OnOk result (row.new.told ≡ row.old.told ++ quoted (decimal first ++ 45 ∷ (decimal second ++ 45 ∷ decimal third))) }
    ensures before { row.new.before ≡ row.old.before }
{
    row.put(b"\"")?;
    put_plain_number(row, first)?;
    row.put(b"-")?;
    put_plain_number(row, second)?;
    row.put(b"-")?;
    put_plain_number(row, third)?;
    row.put(b"\"")
}

/// Writes the receipt's text as a string. It takes no memory for the text.
fn put_receipt(row: &mut Row, receipt: Receipt) -> Result<(), NoMemory>
    ensures ok { OnOk result (row.new.told ≡ row.old.told ++ quoted (handle_text receipt)) }
    ensures before { row.new.before ≡ row.old.before }
{
    put_numbers(
        row,
        receipt.incarnation(),
        receipt.sequence(),
        receipt.handing(),
    )
}

fn put_message(row: &mut Row, body: &str, group: &str, receipt: Receipt) -> Result<(), NoMemory>
    ensures ok { OnOk result (row.new.told ≡ row.old.told ++ compact_text (delivery_data (record { receipt = receipt; group = group.now; body = body.now }))) }
    ensures before { row.new.before ≡ row.old.before }
{
    row.put(b"{\"body\":")?;
    row.put_string(body)?;
    row.put(b",\"group\":")?;
    row.put_string(group)?;
    row.put(b",\"receipt\":")?;
    put_receipt(row, receipt)?;
    row.put(b"}")
}

fn put_delivery(row: &mut Row, delivery: &Delivery) -> Result<(), NoMemory>
    ensures ok { OnOk result (row.new.told ≡ row.old.told ++ compact_text (delivery_data delivery.now)) }
    ensures before { row.new.before ≡ row.old.before }
{
    put_message(
        row,
        delivery.body.as_str(),
        delivery.group.as_str(),
        delivery.receipt,
    )
}

fn put_deliveries(row: &mut Row, deliveries: &[Delivery]) -> Result<(), NoMemory>
    ensures ok { OnOk result (row.new.told ≡ row.old.told ++ compact_text (deliveries_data deliveries.now)) }
    ensures before { row.new.before ≡ row.old.before }
{
    row.put(b"[")?;
    let mut later = false;
    for delivery in deliveries {
        row.put_comma(later)?;
        put_delivery(row, delivery)?;
        later = true;
    }
    row.put(b"]")
}

fn put_received(row: &mut Row, deliveries: &[Delivery]) -> Result<(), NoMemory>
    ensures ok { OnOk result (row.new.told ≡ row.old.told ++ compact_text (received_data (deliveries_data deliveries.now))) }
    ensures before { row.new.before ≡ row.old.before }
{
    row.put(b"{\"kind\":\"received\",\"messages\":")?;
    put_deliveries(row, deliveries)?;
    row.put(b"}")
}

fn put_deleted(row: &mut Row, removed: bool) -> Result<(), NoMemory>
    ensures ok { OnOk result (row.new.told ≡ row.old.told ++ compact_text (deleted_data removed)) }
    ensures before { row.new.before ≡ row.old.before }
{
    if removed {
        row.put(b"{\"kind\":\"deleted\",\"removed\":true}")
    } else {
        row.put(b"{\"kind\":\"deleted\",\"removed\":false}")
    }
}

fn put_changed(row: &mut Row) -> Result<(), NoMemory>
    ensures ok { OnOk result (row.new.told ≡ row.old.told ++ compact_text changed_data) }
    ensures before { row.new.before ≡ row.old.before }
{
    row.put(b"{\"kind\":\"changed\"}")
}

fn put_counts(row: &mut Row, visible: u64, in_flight: u64) -> Result<(), NoMemory>
    ensures ok { OnOk result (row.new.told ≡ row.old.told ++ compact_text (counts_data visible in_flight)) }
    ensures before { row.new.before ≡ row.old.before }
{
    row.put(b"{\"in_flight\":")?;
    row.put_number(in_flight)?;
    row.put(b",\"kind\":\"counts\",\"visible\":")?;
    row.put_number(visible)?;
    row.put(b"}")
}

fn put_refusal(row: &mut Row, code: u64, name: &str) -> Result<(), NoMemory>
    ensures ok { OnOk result (row.new.told ≡ row.old.told ++ compact_text (refusal_data code name.now)) }
    ensures before { row.new.before ≡ row.old.before }
{
    row.put(b"{\"code\":")?;
    row.put_number(code)?;
    row.put(b",\"kind\":\"refused\",\"name\":")?;
    row.put_string(name)?;
    row.put(b"}")
}

/// Writes a reply: O(bytes of it). After `NoMemory` a prefix of it may be written.
pub fn put_reply(row: &mut Row, reply: &Reply) -> Result<(), NoMemory>
    ensures ok { OnOk result (row.new.told ≡ row.old.told ++ compact_text (reply_data reply.now)) }
    ensures before { row.new.before ≡ row.old.before }
{
    match reply {
        Reply::Created(incarnation) => put_created(row, *incarnation),
        Reply::Removed => put_removed(row),
        Reply::Sent(sequence) => put_sent(row, *sequence),
        Reply::Received(deliveries) => put_received(row, deliveries.as_slice()),
        Reply::Deleted(removed) => put_deleted(row, *removed),
        Reply::Changed => put_changed(row),
        Reply::Counts { visible, in_flight } => put_counts(row, *visible, *in_flight),
        Reply::Refused(refusal) => put_refusal(row, u64::from(refusal.code()), refusal.name()),
    }
}
