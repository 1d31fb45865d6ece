//! How the faults of a live run are told, and the status that the program ends with.
ghost use Rattle.std.specs.Prelude.{◌≡◌};
ghost use Rattle.cq_lines.specs.Checks.{inner_of, is_failed};
ghost use Rattle.cq_main.specs.LiveOutcomes.{EndsAtLive, EndsLive};
ghost use Rattle.cq_main.specs.LiveStatuses.{fault_step, live_status_of};

use crate::report::report;
use cq_live::LiveFault;
use cq_script::{Checked, ScriptFault};
use std::io::Write;

/// Why `cq live` has no report.
#[derive(Debug, Drop)]
pub enum LiveEnd {
    /// The live script could not be read.
    Script(ScriptFault),
    /// It could not be run, or the audit refused what was done.
    Live(LiveFault),
}

/// The step of the live script that can't be done, if the fault is that.
fn step_of(fault: &LiveFault) -> Option<u64>
    ensures { result ≡ fault_step fault.now }
{
    match fault {
        LiveFault::BadScript(step) => Some(*step),
        LiveFault::TurnLimit
        | LiveFault::AuditRefused(_)
        | LiveFault::SpawnFailed
        | LiveFault::NoMemory => None,
    }
}

/// The status with which a fault of a live run ends the program: 1 where the audit refused it, 2 where its script is at
/// fault, and else 3.
fn live_status_of(fault: &LiveFault) -> u8
    ensures { result ≡ live_status_of fault.now }
{
    match fault {
        LiveFault::AuditRefused(_) => 1,
        LiveFault::BadScript(_) => 2,
        LiveFault::TurnLimit | LiveFault::SpawnFailed | LiveFault::NoMemory => 3,
    }
}

/// Writes the line of a fault of a live run, such as `cq: 74 BadScript step 1`, and gives the status with which the program
/// ends.
fn report_live<E: Write>(fault: &LiveFault, errors: &mut Checked<E>) -> u8
    ensures { EndsAtLive fault.now result (is_failed errors.new) (E.contents (inner_of errors.old))
        (E.contents (inner_of errors.new)) }
{
    let code = fault.code();
    let name = fault.name();
    match step_of(fault) {
        Some(step) => errors.print(format_args!("cq: {code} {name} step {step}\n")),
        None => errors.print(format_args!("cq: {code} {name}\n")),
    }
    live_status_of(fault)
}

/// Writes the line of why `cq live` has no report, and gives the status with which the program ends.
pub fn report_end<E: Write>(end: &LiveEnd, errors: &mut Checked<E>) -> u8
    ensures { EndsLive end.now result (is_failed errors.new) (E.contents (inner_of errors.old))
        (E.contents (inner_of errors.new)) }
{
    match end {
        LiveEnd::Script(fault) => report(fault, errors),
        LiveEnd::Live(fault) => report_live(fault, errors),
    }
}
