//! Servers as JSON.
ghost use Rattle.std.specs.Prelude.{OnOk, map};
ghost use Rattle.serde_json.specs.Events.{SendsValue};
ghost use Rattle.cq_show_line.specs.Lines.{chain_data, server_data, servers_data};

use crate::member::{write_id, write_number, write_truth};
use crate::shown::ShownServer;
use cq_base::ServerId;
use serde::Serializer;

fn write_server<S: Serializer>(out: &mut S, server: &ShownServer) -> Result<(), S::Error>
    ensures { OnOk result (SendsValue (server_data server.now) (S.written out.old) (S.written out.new)) }
{
    out.begin_map(Some(7))?;
    write_number(out, "acked", server.acked)?;
    write_truth(out, "acts", server.is_acting)?;
    write_number(out, "count", server.count)?;
    write_truth(out, "down", server.is_down)?;
    write_truth(out, "full", server.is_full)?;
    write_truth(out, "head", server.is_head)?;
    write_id(out, "server", server.id)?;
    out.end_map()
}

/// Writes the servers as an array.
pub fn write_servers<S: Serializer>(out: &mut S, servers: &[ShownServer]) -> Result<(), S::Error>
    ensures { OnOk result (SendsValue (servers_data servers.now) (S.written out.old) (S.written out.new)) }
{
    out.begin_seq(Some(servers.len()))?;
    for server in servers {
        write_server(out, server)?;
    }
    out.end_seq()
}

/// Writes the numbers of servers as an array.
pub fn write_chain<S: Serializer>(out: &mut S, chain: &[ServerId]) -> Result<(), S::Error>
    ensures { OnOk result (SendsValue (chain_data chain.now) (S.written out.old) (S.written out.new)) }
{
    out.begin_seq(Some(chain.len()))?;
    for id in chain {
        out.u64(u64::from(id.get()))?;
    }
    out.end_seq()
}
