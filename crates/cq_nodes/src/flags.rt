//! What nodes on different threads tell each other beside their links.
ghost use Rattle.std.specs.Prelude.{◌≡◌, ◌+◌, ◌-◌, ◌^◌, ◌==◌, ◌||◌, ◌&&◌, min};

use crate::bell::Bell;
use cq_base::{NoMemory, Party, ServerId};
use crossbeam_utils::CachePadded;
use std::alloc::Global;
use std::sync::atomic::Ordering::SeqCst;
use std::sync::atomic::{AtomicBool, AtomicU64};

/// Where the flags of that server stand.
fn place_of(id: ServerId) -> usize
    ensures { result ≡ id - 1 }
{
    (id.get() - 1) as usize
}

/// What a server tells that found nothing after so many crashes: one more than these, since 0 is told before its first such turn.
fn look_after(crashes: u64) -> u64
    ensures { result ≡ min (crashes + 1) (2 ^ 64 - 1) }
{
    crashes.saturating_add(1)
}

/// Whether a server is out: it has crashed, or it wasn't full and found nothing after so many crashes.
fn is_out(crashed: bool, looked: u64, crashes: u64) -> bool
    ensures { result ≡ (crashed || looked == min (crashes + 1) (2 ^ 64 - 1)) }
{
    crashed || looked == look_after(crashes)
}

/// Whether servers and the master have nothing to wait for: they are to end, or both clients have ended.
fn is_over(are_to_end: bool, first_ended: bool, second_ended: bool) -> bool
    ensures { result ≡ (are_to_end || first_ended && second_ended) }
{
    are_to_end || first_ended && second_ended
}

/// What the others know of a server beside its links.
#[derive(Drop)]
struct ServerFlags {
    crashed: AtomicBool,
    /// What `look_after` gives of the crashes before the last turn in which it wasn't full and found nothing: 0 if there was
    /// none.
    looked: AtomicU64,
    bell: Bell,
}

impl ServerFlags {
    /// A server that hasn't crashed, before its first turn.
    fn new() -> ServerFlags {
        ServerFlags {
            crashed: AtomicBool::new(false),
            looked: AtomicU64::new(0),
            bell: Bell::new(),
        }
    }

    /// Whether it has crashed, or wasn't full and found nothing after so many crashes.
    fn is_out(&self, crashes: u64) -> bool {
        is_out(self.crashed.load(SeqCst), self.looked.load(SeqCst), crashes)
    }
}

/// What the others know of a client.
#[derive(Drop)]
struct ClientFlags {
    ended: AtomicBool,
    bell: Bell,
}

impl ClientFlags {
    /// A client that hasn't ended.
    fn new() -> ClientFlags {
        ClientFlags {
            ended: AtomicBool::new(false),
            bell: Bell::new(),
        }
    }

    /// It has ended.
    fn end(&self) {
        self.ended.store(true, SeqCst);
    }

    /// Whether it has ended.
    fn has_ended(&self) -> bool {
        self.ended.load(SeqCst)
    }
}

/// Which servers have crashed, which of the two clients have ended, whether all nodes are to stop or give up, and the bells
/// of all nodes. All nodes of a run share it. What is decided by it are functions with contracts; that it holds what was told,
/// none says: a server that is told to be down too early, or too late, changes only what the nodes do next.
#[derive(Drop)]
pub struct Flags {
    servers: Vec<CachePadded<ServerFlags>>,
    first: CachePadded<ClientFlags>,
    second: CachePadded<ClientFlags>,
    master: CachePadded<Bell>,
    /// How many servers crash, each counted before it is told that it has crashed.
    crashes: AtomicU64,
    stopped: AtomicBool,
    given_up: AtomicBool,
    may_sleep: AtomicBool,
    /// How many sleeps of the master ended by themselves.
    beats: CachePadded<AtomicU64>,
}

impl Flags {
    /// No server of so many has crashed, no client has ended, and no node is to stop.
    pub fn new(alloc: Global, servers: u32) -> Result<Flags, NoMemory> {
        let mut all = Vec::new(alloc);
        for _ in 0..servers {
            all.push(CachePadded::new(ServerFlags::new()))?;
        }
        Ok(Flags {
            servers: all,
            first: CachePadded::new(ClientFlags::new()),
            second: CachePadded::new(ClientFlags::new()),
            master: CachePadded::new(Bell::new()),
            crashes: AtomicU64::new(0),
            stopped: AtomicBool::new(false),
            given_up: AtomicBool::new(false),
            may_sleep: AtomicBool::new(false),
            beats: CachePadded::new(AtomicU64::new(0)),
        })
    }

    /// What is known of that server, if it is one of them.
    fn server(&self, id: ServerId) -> Option<&ServerFlags> {
        match self.servers.get(place_of(id)) {
            Some(server) => Some(server),
            None => None,
        }
    }

    /// What is known of the first client, or of the second.
    fn client(&self, second: bool) -> &ClientFlags {
        if second { &self.second } else { &self.first }
    }

    /// Whether each server has crashed, or wasn't full and found nothing after so many crashes. O(servers).
    fn are_all_out(&self, crashes: u64) -> bool {
        for server in &self.servers {
            if !server.is_out(crashes) {
                return false;
            }
        }
        true
    }

    /// All nodes give up where no server is full and none can get to be. One that isn't full gets to be by a message of a
    /// full one alone, and a full one never says that it found nothing. So where each that lives has found nothing since
    /// the last crash, no such message is on its way. A crash is counted before it is told: where the count is the same
    /// behind all looks, it has each crash that these saw. O(servers).
    fn give_up_if_lost(&self) {
        let crashes = self.crashes.load(SeqCst);
        if self.are_all_out(crashes) && self.crashes.load(SeqCst) == crashes {
            self.give_up();
        }
    }

    /// The server has crashed. If no full one is left and none can get to be full, all nodes give up. It does nothing for a
    /// server that isn't one of them. O(servers).
    pub fn crash(&self, id: ServerId) {
        if let Some(server) = self.server(id) {
            self.crashes.fetch_add(1, SeqCst);
            server.crashed.store(true, SeqCst);
            self.give_up_if_lost();
            self.ring_all();
        }
    }

    /// Whether the server has crashed.
    pub fn has_crashed(&self, id: ServerId) -> bool {
        match self.server(id) {
            Some(server) => server.crashed.load(SeqCst),
            None => false,
        }
    }

    /// How many servers crashed. A server asks before a turn, and says so where that turn finds nothing.
    pub fn crashes(&self) -> u64 {
        self.crashes.load(SeqCst)
    }

    /// The server isn't full, and found nothing on its links in a turn that began after so many crashes. If nothing can be
    /// on its way to any server, all nodes give up. It does nothing for a server that isn't one of them. O(servers) after
    /// a further crash, and O(1) otherwise.
    pub fn find_nothing(&self, id: ServerId, crashes: u64) {
        if let Some(server) = self.server(id) {
            let looked = look_after(crashes);
            if server.looked.load(SeqCst) != looked {
                server.looked.store(looked, SeqCst);
                self.give_up_if_lost();
            }
        }
    }

    /// The first client has ended, or the second.
    pub fn end(&self, second: bool) {
        self.client(second).end();
        self.ring_all();
    }

    /// Whether the servers and the master have nothing to wait for: both clients have ended, or all nodes are to stop or
    /// give up.
    pub fn have_ended(&self) -> bool {
        is_over(
            self.are_to_end(),
            self.first.has_ended(),
            self.second.has_ended(),
        )
    }

    /// All nodes are to stop at their next turn.
    pub fn stop(&self) {
        self.stopped.store(true, SeqCst);
        self.ring_all();
    }

    /// No answer can come any more, or no crash can be mended any more, and all nodes end at their next turn. What they did
    /// is audited all the same.
    pub fn give_up(&self) {
        self.given_up.store(true, SeqCst);
        self.ring_all();
    }

    /// Whether all nodes are to stop or give up.
    pub fn are_to_end(&self) -> bool {
        self.is_stopped() || self.given_up.load(SeqCst)
    }

    /// Whether all nodes are to stop.
    pub fn is_stopped(&self) -> bool {
        self.stopped.load(SeqCst)
    }

    /// From now on nodes may sleep between their turns: nobody but nodes that share these flags puts anything for them.
    /// Without it they look at their links again and again.
    pub fn let_sleep(&self) {
        self.may_sleep.store(true, SeqCst);
    }

    /// Whether nodes may sleep.
    pub(crate) fn may_sleep(&self) -> bool {
        self.may_sleep.load(SeqCst)
    }

    /// The bell of the master, or of that server, if it is one of them. The clients have one each.
    pub(crate) fn bell(&self, party: Party) -> Option<&Bell> {
        match party {
            Party::Master => Some(&self.master),
            Party::Server(id) => match self.server(id) {
                Some(server) => Some(&server.bell),
                None => None,
            },
            Party::Clients => None,
        }
    }

    /// The bell of the first client, or of the second.
    pub(crate) fn client_bell(&self, second: bool) -> &Bell {
        &self.client(second).bell
    }

    /// Something was put for that party.
    pub(crate) fn ring(&self, party: Party) {
        if let Some(bell) = self.bell(party) {
            bell.ring();
        }
    }

    /// Something was put for the first client, or for the second.
    pub(crate) fn ring_client(&self, second: bool) {
        self.client_bell(second).ring();
    }

    /// Something is to be known by all nodes. O(servers).
    fn ring_all(&self) {
        for server in &self.servers {
            server.bell.ring();
        }
        self.master.ring();
        self.first.bell.ring();
        self.second.bell.ring();
    }

    /// A sleep of the master ended by itself.
    pub(crate) fn beat(&self) {
        self.beats.fetch_add(1, SeqCst);
    }

    /// How many sleeps of the master ended by themselves.
    pub(crate) fn beats(&self) -> u64 {
        self.beats.load(SeqCst)
    }
}
