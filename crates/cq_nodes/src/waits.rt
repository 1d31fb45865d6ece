//! How a node waits between turns that find nothing to do.
use crate::bell::Bell;
use crate::flags::Flags;
use crate::turns::Turn;
use cq_base::Party;
use std::sync::Wait;
use std::thread::yield_now;

/// After so many turns in a row without work, a node that doesn't sleep lets other threads run, each time.
const IDLE_LIMIT: u32 = 64;

/// In a wait, a node looks so often at its bell before it gives its processor away.
const LOOKS: u32 = 256;

/// Then it lets other threads run, so often at most, before it sleeps.
const YIELDS: u32 = 64;

/// Behind a sleep in which nobody rang, so many turns of a node whose turns count follow before it sleeps again: a client
/// asks again after so many turns, and a server joins at one of the master's.
const TURNS_AFTER_SLEEP: u32 = 64;

/// For so many waits at least, and at most, a node doesn't yield once yields have taken long.
const SHORTEST_PAUSE: u32 = 64;

const LONGEST_PAUSE: u32 = 65_536;

/// How one node waits. It may sleep where all who put something for it ring its bell; otherwise it lets other threads run
/// after many turns without work.
///
/// A yield comes back at once where no other thread wants the processor, and only after a while where other programs take
/// it; then the node sleeps without yields for some waits. The master, which has little to do, sleeps nearly always, and
/// counts its sleeps: two of them within one yield say that it took long.
#[derive(Drop)]
pub(crate) struct Waits<'a> {
    flags: &'a Flags,
    bell: Option<&'a Bell>,
    is_master: bool,
    /// So many turns follow a sleep in which nobody rang, beside the first one.
    turns_after_sleep: u32,
    /// Whether nobody rang in the last sleep, and no turn did anything since.
    is_quiet: bool,
    /// Turns in a row without work, of a node that doesn't sleep.
    idle: u32,
    /// So many turns without work follow before the next wait.
    credit: u32,
    /// In so many waits to come it doesn't yield.
    shy: u32,
    /// For so many waits it won't, once yields take long again.
    pause: u32,
}

impl<'a> Waits<'a> {
    /// Before the first turn of that party's node. `do_turns_count`: time alone may bring it something.
    pub(crate) fn of(flags: &'a Flags, party: Party, do_turns_count: bool) -> Waits<'a> {
        Waits {
            flags,
            bell: flags.bell(party),
            is_master: party == Party::Master,
            turns_after_sleep: if do_turns_count { TURNS_AFTER_SLEEP } else { 0 },
            is_quiet: false,
            idle: 0,
            credit: 0,
            shy: 0,
            pause: SHORTEST_PAUSE,
        }
    }

    /// Before the first turn of a client's node: the first client's, or the second's.
    pub(crate) fn of_client(flags: &'a Flags, second: bool) -> Waits<'a> {
        Waits {
            flags,
            bell: Some(flags.client_bell(second)),
            is_master: false,
            turns_after_sleep: TURNS_AFTER_SLEEP,
            is_quiet: false,
            idle: 0,
            credit: 0,
            shy: 0,
            pause: SHORTEST_PAUSE,
        }
    }

    /// Before a turn: what others rang of is seen in that turn.
    pub(crate) fn hear(&self) {
        if let Some(bell) = self.bell {
            bell.hear();
        }
    }

    /// After a turn: whether the node is to wait before the next one.
    pub(crate) fn are_due(&mut self, turn: Turn) -> bool {
        if turn == Turn::Worked {
            self.idle = 0;
            self.credit = 0;
            self.is_quiet = false;
            return false;
        }
        if self.credit > 0 {
            self.credit -= 1;
            return false;
        }
        true
    }

    /// Waits until somebody rings, for a bounded time. A node to which a full link has handed something back doesn't
    /// sleep: nobody rings when there is room again.
    pub(crate) fn wait<R: Wait>(&mut self, rt: &R, holds_nothing: bool) {
        match self.bell {
            Some(bell) if holds_nothing && self.flags.may_sleep() => self.wait_for(rt, bell),
            _ => self.give_way(),
        }
    }

    /// Lets other threads run, where many turns found nothing.
    fn give_way(&mut self) {
        if self.idle < IDLE_LIMIT {
            self.idle += 1;
        } else {
            yield_now();
        }
    }

    /// Looks, yields, and then sleeps. Where it slept and nothing came, it sleeps again at once.
    fn wait_for<R: Wait>(&mut self, rt: &R, bell: &Bell) {
        if !self.is_quiet && (rings_soon(bell) || self.yields_until(bell)) {
            return;
        }
        self.is_quiet = bell.sleep(rt);
        if self.is_quiet {
            self.credit = self.turns_after_sleep;
            if self.is_master {
                self.flags.beat();
            }
        }
    }

    /// Lets other threads run until somebody rings, where yields are quick. It answers whether somebody rang.
    fn yields_until(&mut self, bell: &Bell) -> bool {
        if self.is_master {
            return false;
        }
        if self.shy > 0 {
            self.shy -= 1;
            return false;
        }
        for _ in 0..YIELDS {
            let was_quick = yield_once(self.flags);
            if !was_quick {
                self.pause = self.pause.saturating_mul(4).min(LONGEST_PAUSE);
                self.shy = self.pause;
                return bell.has_rung();
            }
            if bell.has_rung() {
                return true;
            }
        }
        self.pause = (self.pause - self.pause / 8).max(SHORTEST_PAUSE);
        false
    }
}

/// Whether somebody rings within some looks.
fn rings_soon(bell: &Bell) -> bool {
    for _ in 0..LOOKS {
        if bell.has_rung() {
            return true;
        }
    }
    false
}

/// Lets other threads run. It answers whether the processor came back soon.
fn yield_once(flags: &Flags) -> bool {
    let before = flags.beats();
    yield_now();
    flags.beats().saturating_sub(before) < 2
}
