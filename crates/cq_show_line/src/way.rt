//! What is on its way, as JSON.
ghost use Rattle.std.specs.Prelude.{◌≡◌, OnOk};
ghost use Rattle.serde_json.specs.Events.{SendsValue};
ghost use Rattle.cq_show_line.specs.Lines.{kind_name, next_data, message_data, party_data, way_data, ways_data};
ghost use Rattle.cq_show_line.specs.within.Parts.{SendsMember};

use crate::member::{write_id, write_number, write_text};
use crate::shown::{MessageKind, NextMessage, Way};
use cq_base::Party;
use serde::Serializer;

/// The name of a kind.
fn kind_name(kind: MessageKind) -> &'static str
    ensures { result.now ≡ kind_name kind }
{
    match kind {
        MessageKind::Fwd => "Fwd",
        MessageKind::Snap => "Snap",
        MessageKind::Ack => "Ack",
        MessageKind::BeHead => "BeHead",
        MessageKind::Report => "Report",
        MessageKind::Adopt => "Adopt",
        MessageKind::BeTail => "BeTail",
        MessageKind::Feed => "Feed",
        MessageKind::Have => "Have",
        MessageKind::Adopted => "Adopted",
        MessageKind::Caught => "Caught",
        MessageKind::Ready => "Ready",
        MessageKind::Answer => "Answer",
    }
}

fn write_message<S: Serializer>(out: &mut S, message: &NextMessage) -> Result<(), S::Error>
    ensures { OnOk result (SendsValue (message_data message.now) (S.written out.old) (S.written out.new)) }
{
    out.begin_map(Some(2))?;
    write_text(out, "kind", kind_name(message.kind))?;
    write_number(out, "number", message.number)?;
    out.end_map()
}

/// Writes the message, or null.
fn write_next<S: Serializer>(out: &mut S, next: &Option<NextMessage>) -> Result<(), S::Error>
    ensures { OnOk result (SendsValue (next_data next.now) (S.written out.old) (S.written out.new)) }
{
    match next {
        Some(message) => write_message(out, message),
        None => out.unit(),
    }
}

fn write_party<S: Serializer>(out: &mut S, key: &str, party: Party) -> Result<(), S::Error>
    ensures { OnOk result (SendsMember key.now (party_data party) (S.written out.old) (S.written out.new)) }
{
    match party {
        Party::Master => write_text(out, key, "master"),
        Party::Clients => write_text(out, key, "clients"),
        Party::Server(id) => write_id(out, key, id),
    }
}

fn write_way<S: Serializer>(out: &mut S, way: &Way) -> Result<(), S::Error>
    ensures { OnOk result (SendsValue (way_data way.now) (S.written out.old) (S.written out.new)) }
{
    out.begin_map(Some(5))?;
    write_party(out, "from", way.from)?;
    out.key("next")?;
    write_next(out, &way.next)?;
    write_number(out, "stands", way.stands)?;
    write_party(out, "to", way.to)?;
    write_number(out, "waits", way.waits)?;
    out.end_map()
}

/// Writes the ways as an array.
pub fn write_ways<S: Serializer>(out: &mut S, ways: &[Way]) -> Result<(), S::Error>
    ensures { OnOk result (SendsValue (ways_data ways.now) (S.written out.old) (S.written out.new)) }
{
    out.begin_seq(Some(ways.len()))?;
    for way in ways {
        write_way(out, way)?;
    }
    out.end_seq()
}
