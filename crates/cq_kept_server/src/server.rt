//! How a server begins whose entries are kept, and goes on behind those that were.
ghost use Rattle.std.specs.Prelude.{◌≡◌, ◌⊎◌, ◌<◌, ◌≤◌, ◌+◌, [], ℕ, List, length, IsTrue, IfErr, IfOk};
ghost use Rattle.cq_base.specs.declared.ask.Entry as rust_entry;
ghost use Rattle.cq_disk.specs.Device.{LeavesOnly};
ghost use Rattle.cq_journal.specs.Intact.{IsIntact};
ghost use Rattle.cq_kept_entries.specs.Faults.{HasReason, IsOfCall};
ghost use Rattle.cq_kept_entries.specs.Kept.{BytesStandFor, StandForSome, entries_journal};
ghost use Rattle.cq_server_process.specs.Answers.{StandsSo};
ghost use Rattle.cq_store.specs.Stands as stores;

use cq_chain::Server;
use cq_disk::Device;
use cq_frames::Standing;
use cq_journal::{Journal, NUMBER_LIMIT};
use cq_kept_entries::{KeptEntries, StartFault};
use cq_process::standing;
use cq_records::LogFault;
use cq_server_copies::SavingProcess;
use cq_server_process::{ServerProcess, Streams};
use cq_store::Store;
use std::alloc::Global;

/// The only server of a chain, whose entries a journal keeps. It is told commands, and what it tells of them as frames is to be told only
/// once it is settled.
#[derive(Drop)]
pub struct KeptServer<D: Device> {
    pub(crate) alloc: Global,
    pub(crate) process: SavingProcess,
    /// The streams of arrivals that ended before the process heard of them.
    pub(crate) streams: Streams,
    pub(crate) kept: KeptEntries<D>,
    /// For how many bytes of an entry there was no room, at most, since all was settled.
    pub(crate) wanted: usize,
    /// Why entries aren't kept any more, if that is so.
    pub(crate) fault: Option<LogFault>,
}

impl<D: Device> KeptServer<D> {
    ghost use Rattle.cq_kept_server.specs.Servers.{BeginsWith, IsNewServer, IsReady, IsSettled, server_device, server_half, server_len};

    /// Makes a journal on a device, as `KeptEntries::create` does, and begins with no entries. Whatever the device has is lost.
    pub fn create(
        alloc: Global,
        device: D,
        half: usize,
        len: usize,
    ) -> Result<KeptServer<D>, StartFault>
        requires root { half + half ≤ length (D.seen device) }
        requires small { half + half < NUMBER_LIMIT }
        ensures ready { IfOk result IsReady }
        ensures settled { IfOk result IsSettled }
        ensures lengths { IfOk result (λ server. (server_half server ≡ half) × (server_len server ≡ len)) }
        ensures begins { IfOk result (λ server. BeginsWith server []) }
        ensures honest { IfOk result (λ server. IsTrue (D.is_honest (server_device server)) → IsTrue (D.is_honest device)) }
        ensures refused { IfErr result IsOfCall }
    {
        let store = Store::new(alloc)?;
        let kept = KeptEntries::create(alloc, device, half, len)?;
        Ok(KeptServer::begin(alloc, kept, store))
    }

    /// Goes on behind the entries that the journal on a device has, as `KeptEntries::open` does.
    pub fn open(
        alloc: Global,
        device: D,
        half: usize,
        len: usize,
    ) -> Result<KeptServer<D>, StartFault>
        requires { half + half ≤ length (D.seen device) }
        ensures ready { IfOk result IsReady }
        ensures settled { IfOk result IsSettled }
        ensures lengths { IfOk result (λ server. (server_half server ≡ half) × (server_len server ≡ len)) }

        // Whatever entries the bytes of the device stand for, the server begins behind these.
        ensures begins { IfOk result (λ server. IsTrue (D.is_honest (server_device server)) → (all : List rust_entry.Entry) → BytesStandFor half len (D.seen device) all → BeginsWith server all) }

        // A crash at any moment leaves what it might have left before, or what stands for the same entries.
        ensures any_moment { IfOk result (λ server. IsTrue (D.is_honest (server_device server)) → (all : List rust_entry.Entry) → BytesStandFor half len (D.seen device) all
            → LeavesOnly D.moment D.left_since device (server_device server) (λ c. D.may_leave device c ⊎ BytesStandFor half len c all)) }

        // What it refuses, it refuses for a reason: `last` is the device as the calls on it have left it.
        ensures refused { IfErr result (λ fault. (last : D) × (IsTrue (D.is_honest last) → HasReason fault (IsIntact half len (D.seen device)) (StandForSome half len (D.seen device)))) }
    {
        let (kept, store) = KeptEntries::open(alloc, device, half, len)?;
        Ok(KeptServer::begin(alloc, kept, store))
    }

    /// Begins with this store, behind the entries that are kept.
    fn begin(alloc: Global, kept: KeptEntries<D>, store: Store) -> KeptServer<D>
        ensures kept { result.kept ≡ kept }
        ensures new { (all : List rust_entry.Entry) → stores.StandsFor store all → IsNewServer all result.process result.streams }
    {
        let process = SavingProcess::new(alloc, ServerProcess::alone(alloc, store));
        let streams = Streams::new();
        KeptServer {
            alloc,
            process,
            streams,
            kept,
            wanted: 0,
            fault: None,
        }
    }

    /// Its server: O(1).
    pub fn core(&self) -> &Server
        ensures { result.now ≡ self.now.process.process.core }
    {
        self.process.core()
    }

    /// Where the server stands: O(1).
    pub fn standing(&self) -> Standing
        ensures { StandsSo self.now.process.process.core result }
    {
        standing(self.process.core())
    }

    /// Why entries aren't kept any more, if that is so: O(1).
    pub fn fault(&self) -> Option<LogFault>
        ensures { result ≡ self.now.fault }
    {
        self.fault
    }

    /// The journal, to be handed on.
    pub fn into_journal(self) -> Journal<D>
        ensures { result ≡ entries_journal self.kept }
    {
        self.kept.into_journal()
    }
}
