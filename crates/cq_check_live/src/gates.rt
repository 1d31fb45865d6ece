//! Gates.
use cq_base::{Party, ServerId};
use cq_nodes::Gate;
use std::sync::atomic::Ordering::SeqCst;
use std::sync::atomic::{AtomicBool, AtomicU64};
use std::thread::yield_now;

/// How often one party looks whether another one came.
const PATIENCE: u32 = 10_000_000;

/// The gate that shuts before the turn of that number, and knows for which turns it was asked.
#[derive(Drop)]
pub struct Recording {
    shut: u64,
    first: AtomicU64,
    last: AtomicU64,
}

impl Recording {
    pub fn new(shut: u64) -> Recording {
        Recording {
            shut,
            first: AtomicU64::new(0),
            last: AtomicU64::new(0),
        }
    }

    /// The first turn for which it was asked, and the last one.
    pub fn asked(&self) -> (u64, u64) {
        (self.first.load(SeqCst), self.last.load(SeqCst))
    }
}

impl Gate for Recording {
    ghost lets = { λ _ _ _ _. Unit {0} };

    fn enter(&self, _party: Party, turn: u64) -> bool {
        if self.first.load(SeqCst) == 0 {
            self.first.store(turn, SeqCst);
        }
        self.last.store(turn, SeqCst);
        turn != self.shut
    }
}

/// What a gate of a live run does.
#[derive(Clone, Copy, PartialEq, Eq)]
pub enum Rule {
    /// It lets each turn begin.
    Open,
    /// It shuts before the master's first turn.
    ShutToMaster,
    /// It shuts before the fifth turn of server 2, and holds the first server in its second turn until then.
    ShutToServer,
    /// The first server and server 5 wait for each other before their second turns.
    Meet,
    /// Server 3 waits in its second turn until the first server has had 300.
    Hold,
    /// The first server waits in its second turn until server 6 has had 100.
    AwaitSixth,
}

/// The gate of a rule, and how many turns a node had at most.
#[derive(Drop)]
pub struct Ruled {
    rule: Rule,
    one_came: AtomicBool,
    other_came: AtomicBool,
    turns: AtomicU64,
}

/// The number of a server, and 0 for the master.
fn number_of(party: Party) -> u32 {
    match party {
        Party::Server(id) => id.get(),
        _ => 0,
    }
}

/// Waits for a flag, but not for ever.
fn wait_for(flag: &AtomicBool) -> bool {
    for _ in 0..PATIENCE {
        if flag.load(SeqCst) {
            return true;
        }
        yield_now();
    }
    false
}

impl Ruled {
    pub fn new(rule: Rule) -> Ruled {
        Ruled {
            rule,
            one_came: AtomicBool::new(false),
            other_came: AtomicBool::new(false),
            turns: AtomicU64::new(0),
        }
    }

    /// The highest number of a turn that it was asked for.
    pub fn turns(&self) -> u64 {
        self.turns.load(SeqCst)
    }

    /// One of two that wait for each other has come.
    fn meet(&self, server: u32, turn: u64) -> bool {
        match (server, turn) {
            (1, 2) => {
                self.one_came.store(true, SeqCst);
                wait_for(&self.other_came)
            }
            (5, 2) => {
                self.other_came.store(true, SeqCst);
                wait_for(&self.one_came)
            }
            _ => true,
        }
    }

    /// Server `waits` waits in its second turn until `goes` comes to the turn of that number.
    fn hold(&self, server: u32, turn: u64, waits: u32, goes: u32, until: u64) -> bool {
        if server == goes && turn == until {
            self.one_came.store(true, SeqCst);
        }
        if server == waits && turn == 2 {
            return wait_for(&self.one_came);
        }
        true
    }
}

impl Gate for Ruled {
    ghost lets = { λ _ _ _ _. Unit {0} };

    fn enter(&self, party: Party, turn: u64) -> bool {
        let server = number_of(party);
        if self.turns.load(SeqCst) < turn {
            self.turns.fetch_max(turn, SeqCst);
        }
        match self.rule {
            Rule::Open => true,
            Rule::ShutToMaster => party != Party::Master,
            Rule::ShutToServer => { self.hold(server, turn, 1, 2, 5) && (server != 2 || turn != 5) }
            Rule::Meet => self.meet(server, turn),
            Rule::Hold => self.hold(server, turn, 3, 1, 301),
            Rule::AwaitSixth => self.hold(server, turn, 1, 6, 100),
        }
    }
}
