//! Live runs, by the function that the program calls.
use crate::gates::{Rule, Ruled};
use crate::plan::{number, plan_of};
use crate::stop;
use cq_base::Party;
use cq_live::{LiveReport, live};
use cq_world::Event;
use std::alloc::Global;
use std::io;
use std::sync::Wait;
use std::thread::Threads;

/// More turns than any of these runs has that ends by itself.
const MANY_TURNS: u64 = 50_000;

/// The rule of that name.
fn rule_of(word: &str) -> Option<Rule> {
    match word {
        "open" => Some(Rule::Open),
        "shut-to-master" => Some(Rule::ShutToMaster),
        "shut-to-server" => Some(Rule::ShutToServer),
        "meet" => Some(Rule::Meet),
        "hold" => Some(Rule::Hold),
        "await-sixth" => Some(Rule::AwaitSixth),
        _ => None,
    }
}

/// How often each kind of event is there.
#[derive(Clone, Copy)]
struct Counts {
    crashes: u64,
    detections: u64,
    joins: u64,
    /// Whether a request of number 3 or above arrived before moment 300.
    is_early: bool,
    /// Whether the master took something from server 6.
    has_sixth: bool,
}

/// Counts the event.
fn count(counts: &mut Counts, event: &Event) {
    match event {
        Event::Crash { .. } => counts.crashes = counts.crashes.saturating_add(1),
        Event::Detect { .. } => counts.detections = counts.detections.saturating_add(1),
        Event::Join { .. } => counts.joins = counts.joins.saturating_add(1),
        Event::Arrive { clock, request, .. } if request.number >= 3 && clock.get() < 300 => {
            counts.is_early = true;
        }
        Event::Take {
            from: Party::Server(id),
            to: Party::Master,
        } if id.get() == 6 => counts.has_sixth = true,
        _ => {}
    }
}

/// The counts of all events.
fn counts_of(events: &[Event]) -> Counts {
    let mut counts = Counts {
        crashes: 0,
        detections: 0,
        joins: 0,
        is_early: false,
        has_sixth: false,
    };
    for event in events {
        count(&mut counts, event);
    }
    counts
}

/// Tells what the report says that is the same in each run: of a rule that lets some party come first, who did.
fn tell(rt: &impl Print, rule: Rule, report: &LiveReport) -> io::Result<()> {
    let counts = counts_of(&report.events);
    println!(rt;
        "  accepted {}, found no memory {}",
        report.accepted,
        report.starved.len()
    )?;
    match rule {
        Rule::Meet => println!(rt;
            "  crashes {}, detections {}, joins {}",
            counts.crashes, counts.detections, counts.joins
        ),
        Rule::Hold => println!(rt; "  requests before moment 300: {}", counts.is_early),
        Rule::AwaitSixth => println!(rt;
            "  joins {}, the master heard of server 6: {}",
            counts.joins, counts.has_sixth
        ),
        _ => println!(rt; "  crashes {}", counts.crashes),
    }
}

/// The run of these words.
pub fn run(rt: &(impl Threads + Wait + Sync + Print), alloc: Global, text: &str) -> io::Result<()> {
    let (rule, rest) = text.split_once(' ').ok_or(stop("no gate"))?;
    let (limit, rest) = rest.split_once(' ').ok_or(stop("no limit"))?;
    let rule = rule_of(rule).ok_or(stop("no such gate"))?;
    let limit = number(Some(limit))?;
    let plan = plan_of(alloc, rest)?;
    let gate = Ruled::new(rule);
    match live(rt, alloc, plan.size, &plan.steps, limit, &gate) {
        Ok(report) => tell(rt, rule, &report)?,
        Err(fault) => println!(rt; "  {} {}", fault.code(), fault.name())?,
    }
    println!(rt; "  many turns: {}", gate.turns() > MANY_TURNS)
}
