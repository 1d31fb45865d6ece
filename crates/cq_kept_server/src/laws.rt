//! What a host may rest on. A function here does nothing: its contract is a law, which is proved with it.
ghost use Rattle.cq_kept_server.specs.Laws.{Outlives};

use crate::KeptServer;
use cq_disk::Device;

/// Whatever frames a server answers and settles, and whatever it answers then up to a crash at any moment, or to a fault: what the crash
/// leaves stands for a list of entries that begins with all that the server had when it had settled, which are those from before and what
/// came of the frames, in order and once. `open` begins behind such a list. So each answer that was told rests on an entry that is there.
pub fn what_was_told_outlives_crashes<D: Device>(
    _first: &KeptServer<D>,
    _settled: &KeptServer<D>,
    _last: &KeptServer<D>,
    _left: &KeptServer<D>,
)
    ensures { Outlives _first.now _settled.now _last.now _left.now }
{}
