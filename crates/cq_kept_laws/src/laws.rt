//! Laws of servers whose entries are kept. A function here does nothing: its contract is a law, which is proved with it.
ghost use Rattle.cq_kept_laws.specs.Laws.{KeptServersRun};

use cq_disk::Device;
use cq_kept_server::KeptServer;

/// Whatever frames a server answers whose entries are kept, from its begin behind a list of entries on: its process ran as server 1 of a
/// chain does that begins with these entries. It answered all frames in order, but for those that were refused ahead of it, of which it
/// heard nothing, and those that asked for copies of its store, which change nothing of it. So what was told is what that run told, with
/// refusals and copies between.
pub fn kept_servers_run<D: Device>(_first: &KeptServer<D>, _last: &KeptServer<D>)
    ensures { KeptServersRun _first.now _last.now }
{}
