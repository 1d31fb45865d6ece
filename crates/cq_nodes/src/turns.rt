//! Turns of nodes, and the gate before them.
ghost use Rattle.std.specs.Prelude.{◌≡◌, ℕ, ◌+◌, min, Bool, true};
ghost use Rattle.cq_base.specs.declared.party.Party as rust_party;

use cq_base::Party;

/// Turns are counted up to 2^62, and no further.
pub const TURNS_LIMIT: u64 = 1 << 62;

/// What a node did in a turn.
#[derive(Clone, Copy, Debug, PartialEq, Eq)]
pub enum Turn {
    /// It took or put something, or what its script or a crash asks of it.
    Worked,
    /// It found nothing to do.
    Idle,
    /// It has ended, and no later turn does anything.
    Ended,
}

/// Why a run of turns ended.
#[derive(Clone, Copy, Debug, PartialEq, Eq)]
pub enum Stop {
    /// The node has ended.
    Ended,
    /// All turns are used.
    Limit,
    /// The gate let no further turn begin.
    Shut,
}

/// So many turns with one more.
pub(crate) fn counted(turns: u64) -> u64
    ensures { result ≡ min (turns + 1) TURNS_LIMIT }
{
    if turns < TURNS_LIMIT {
        turns + 1
    } else {
        TURNS_LIMIT
    }
}

/// What is asked before each turn of a server or of the master. It may wait.
pub trait Gate {
    /// What it may answer to a party before the turn of a number.
    ghost lets: { Self → rust_party.Party → ℕ → Bool → Type 0 };

    /// Whether the party's turn of that number may begin. Turns count from 1.
    fn enter(&self, party: Party, turn: u64) -> bool
        ensures { lets self.now party turn result };
}

/// The gate that lets each turn begin.
#[derive(Clone, Copy, Debug)]
pub struct Always;

impl Gate for Always {
    ghost lets = { λ _ _ _ answer. answer ≡ true };

    fn enter(&self, _party: Party, _turn: u64) -> bool {
        true
    }
}
