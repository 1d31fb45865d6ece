//! What follows of kept sessions from the contracts of their calls.
ghost use Rattle.std.specs.Prelude.{ℕ, List};
ghost use Rattle.cq_kept_session.specs.Examples.{BaseExamples};
ghost use Rattle.cq_kept_session.specs.Kept.{StandsFor};
ghost use Rattle.cq_kept_session.specs.Takes.{Continues, Taken, TakesAll};

use crate::KeptSession;
use cq_disk::Device;

/// After any chunks that were taken and answered, what is kept stands for whatever bytes it stood for before, and for all of the chunks
/// behind them, in order and once. All that was written of the chunks is what one session writes on all these bytes.
pub fn what_is_told_is_of_what_is_kept<D: Device>(_old: &KeptSession<D>, _new: &KeptSession<D>)
    ensures { (bytes : List ℕ) (takes : List Taken) → StandsFor _old.now bytes → TakesAll bytes takes _old.now _new.now → Continues bytes takes _old.now _new.now }
{}

/// Rows of bases.
pub fn bases_are_read_so()
    ensures { BaseExamples }
{}
