//! The line that tells what a chain holds.
ghost use Rattle.std.specs.Prelude.{◌≡◌, IfOk, OnOk, codes};
ghost use Rattle.serde_json.specs.Events.{SendsValue};
ghost use Rattle.cq_show_line.specs.Lines.{chain_data, servers_data, shown_data, shown_text, ways_data};
ghost use Rattle.cq_show_line.specs.within.Parts.{SendsMember};

use crate::member::{write_server, write_text, write_truth};
use crate::server::{write_chain, write_servers};
use crate::shown::Shown;
use crate::way::write_ways;
use cq_base::NoMemory;
use serde::{Described, Serialize, Serializer};
use std::alloc::Global;

/// Writes a member of the members of the chain.
fn write_chain_of<S: Serializer>(out: &mut S, shown: &Shown) -> Result<(), S::Error>
    ensures { OnOk result (SendsMember (codes "chain") (chain_data shown.now.chain.items) (S.written out.old) (S.written out.new)) }
{
    out.key("chain")?;
    write_chain(out, shown.chain.as_slice())
}

/// Writes a member of the servers.
fn write_servers_of<S: Serializer>(out: &mut S, shown: &Shown) -> Result<(), S::Error>
    ensures { OnOk result (SendsMember (codes "servers") (servers_data shown.now.servers.items) (S.written out.old) (S.written out.new)) }
{
    out.key("servers")?;
    write_servers(out, shown.servers.as_slice())
}

/// Writes a member of the ways.
fn write_ways_of<S: Serializer>(out: &mut S, shown: &Shown) -> Result<(), S::Error>
    ensures { OnOk result (SendsMember (codes "ways") (ways_data shown.now.ways.items) (S.written out.old) (S.written out.new)) }
{
    out.key("ways")?;
    write_ways(out, shown.ways.as_slice())
}

/// What a chain holds, to be written.
#[derive(Clone, Copy)]
struct Told<'a> {
    shown: &'a Shown,
}

impl<'a> Described for Told<'a> {
    ghost writes = { λ t old new. SendsValue (shown_data t.shown.now.chain.items t.shown.now.joiner t.shown.now.is_ready t.shown.now.servers.items t.shown.now.ways.items) old new };
}

impl<'a> Serialize for Told<'a> {
    #[tactic(auto, unfolding(crate::specs::Lines::shown_data))]
    fn serialize<S: Serializer>(&self, out: &mut S) -> Result<(), S::Error> {
        out.begin_map(Some(6))?;
        write_chain_of(out, self.shown)?;
        write_server(out, "joins", self.shown.joiner)?;
        write_text(out, "kind", "show")?;
        write_truth(out, "ready", self.shown.is_ready)?;
        write_servers_of(out, self.shown)?;
        write_ways_of(out, self.shown)?;
        out.end_map()
    }
}

/// The line that tells what a chain holds, with its line feed: O(bytes of it).
pub fn show_line(alloc: Global, shown: &Shown) -> Result<Vec<u8>, NoMemory>
    ensures { IfOk result (λ text. text.items ≡ shown_text shown.now.chain.items shown.now.joiner shown.now.is_ready shown.now.servers.items shown.now.ways.items) }
{
    let told = Told { shown };
    let Ok(mut text) = serde_json::to_vec(alloc, &told) else {
        return Err(NoMemory);
    };
    text.push(b'\n')?;
    Ok(text)
}
