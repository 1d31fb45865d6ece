//! The servers that the steps of a live run let join.
ghost use Rattle.std.specs.Prelude.{◌≡◌, ◌++◌, ◌∷◌, [], IfOk, OnOk, MatchOption};
ghost use Rattle.cq_live_plan.specs.Steps.{joins_of};

use crate::step::LiveStep;
use cq_base::{NoMemory, ServerId};
use std::alloc::Global;

/// A server that is to join the chain.
#[derive(Clone, Copy, Debug, PartialEq, Eq)]
pub struct Join {
    pub server: ServerId,
    /// The master's turn from which on it joins that server. Turns count from 1.
    pub after: u64,
}

/// The join that the step asks for, if it does.
fn join_in(step: &LiveStep) -> Option<Join>
    ensures { MatchOption result (joins_of (step.now ∷ []) ≡ []) (λ join. joins_of (step.now ∷ []) ≡ join ∷ []) }
{
    match step {
        LiveStep::Join { server, after } => Some(Join {
            server: *server,
            after: *after,
        }),
        _ => None,
    }
}

/// Adds the join that the step asks for, if it does.
fn add_join(joins: &mut Vec<Join>, step: &LiveStep) -> Result<(), NoMemory>
    ensures { OnOk result (joins.new.items ≡ joins.old.items ++ joins_of (step.now ∷ [])) }
{
    if let Some(join) = join_in(step) {
        joins.push(join)?;
    }
    Ok(())
}

/// The joins that the steps ask for, in order: O(steps). It keeps the allocator.
pub fn joins_of(alloc: Global, steps: &[LiveStep]) -> Result<Vec<Join>, NoMemory>
    ensures { IfOk result (λ joins. joins.items ≡ joins_of steps.now) }
{
    let mut joins = Vec::new(alloc);
    for step in steps {
        add_join(&mut joins, step)?;
    }
    Ok(joins)
}
