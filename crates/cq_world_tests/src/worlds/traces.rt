//! Audits of traces: some have an order, and some have none.
use super::*;
use cq_trace::{AuditFault, Trace, audit};

/// What comes of an audit: the number of its fault, or 0; and how many events it gives, how many parties it names, or
/// which trace is bad.
type Told = (u16, u64);

fn told_of_fault(fault: &AuditFault) -> Told {
    let told = match fault {
        AuditFault::NoNextEvent(parties) => parties.len() as u64,
        AuditFault::BadTrace(number) => *number,
        AuditFault::NoMemory => 0,
    };
    (fault.code(), told)
}

fn told(outcome: &Result<Vec<Event>, AuditFault>) -> Told {
    match outcome {
        Ok(events) => (0, events.len() as u64),
        Err(fault) => told_of_fault(fault),
    }
}

/// The audit, which is tried once more where it was refused memory.
fn audited(alloc: Global, size: ChainSize, traces: &[Trace]) -> Result<Vec<Event>, AuditFault> {
    let first = audit(alloc, size, traces);
    if told(&first).0 == 20 {
        audit(alloc, size, traces)
    } else {
        first
    }
}

fn check_audit(
    rt: &impl Abort,
    alloc: Global,
    servers: u8,
    traces: &[Trace],
    want: Told,
) -> Result<(), Fail> {
    let size = ChainSize::new(servers).ok_or("no size")?;
    assert_eq!(rt; told(&audited(alloc, size, traces)), want);
    Ok(())
}

/// The trace of a party, which has its events of these rows.
fn trace_of(alloc: Global, who: Who, rows: &[Row]) -> Result<Trace, Fail> {
    let party = party(who)?;
    let mut events = Vec::new(alloc);
    for row in rows {
        let event = event_of(alloc, *row)?;
        if event.party() == party {
            events.push(event)?;
        }
    }
    Ok(Trace { party, events })
}

/// Parties that did nothing have an order.
#[test]
fn no_traces(rt: HostRuntime) -> Result<(), Fail> {
    check_audit(&rt, rt.alloc(), 2, &[], (0, 0))
}

/// What is taken was put before, whichever trace comes first.
#[test]
fn put_before_taken(rt: HostRuntime) -> Result<(), Fail> {
    let alloc = rt.alloc();
    let rows = [
        Row::Arrive(1, 1, 1),
        Row::Put(ONE, TWO),
        Row::Take(ONE, TWO),
    ];
    let mut traces = Vec::new(alloc);
    traces.push(trace_of(alloc, TWO, &rows)?)?;
    check_audit(&rt, alloc, 2, &traces, (51, 1))?;
    traces.push(trace_of(alloc, ONE, &rows)?)?;
    check_audit(&rt, alloc, 2, &traces, (0, 3))
}

/// The first trace that is bad is told by its number.
#[test]
fn bad_traces(rt: HostRuntime) -> Result<(), Fail> {
    let alloc = rt.alloc();
    let mut traces = Vec::new(alloc);
    traces.push(trace_of(alloc, ONE, &[Row::Crash(1)])?)?;
    traces.push(trace_of(alloc, ONE, &[])?)?;
    check_audit(&rt, alloc, 2, &traces, (52, 2))?;
    let foreign = trace_of(alloc, ONE, &[Row::Crash(1)])?;
    let party = party(TWO)?;
    let mut others = Vec::new(alloc);
    others.push(Trace {
        party,
        events: foreign.events,
    })?;
    check_audit(&rt, alloc, 2, &others, (52, 1))
}

/// A message goes its way.
fn passed(from: Who, to: Who) -> [Row; 2] {
    [Row::Put(from, to), Row::Take(from, to)]
}

/// Adds the ways of messages, each from one party to another.
fn pass_all(rows: &mut Vec<Row>, ways: &[(Who, Who)]) -> Result<(), Fail> {
    for (from, to) in ways {
        for row in passed(*from, *to) {
            rows.push(row)?;
        }
    }
    Ok(())
}

/// A server joins, and the one that fed it crashes with an entry that it lacks, so that the one before that sends its state.
fn feeder_lost(alloc: Global) -> Result<Vec<Row>, Fail> {
    let mut rows = Vec::new(alloc);
    rows.push(Row::Arrive(1, 1, 1))?;
    rows.push(Row::Arrive(1, 1, 2))?;
    let settled = [(ONE, TWO), (ONE, TWO), (TWO, ONE), (TWO, ONE)];
    pass_all(&mut rows, &settled)?;
    rows.push(Row::Join(3))?;
    let fed = [
        (MASTER, THREE),
        (THREE, MASTER),
        (MASTER, TWO),
        (TWO, THREE),
    ];
    pass_all(&mut rows, &fed)?;
    rows.push(Row::Arrive(1, 1, 3))?;
    let member = [(ONE, TWO), (TWO, ONE), (THREE, MASTER)];
    pass_all(&mut rows, &member)?;
    rows.push(Row::Crash(2))?;
    rows.push(Row::Detect(2))?;
    let repaired = [
        (MASTER, THREE),
        (THREE, MASTER),
        (MASTER, ONE),
        (ONE, THREE),
        (ONE, MASTER),
        (THREE, MASTER),
        (MASTER, THREE),
        (THREE, MASTER),
    ];
    pass_all(&mut rows, &repaired)?;
    Ok(rows)
}

/// The traces of a run with a join, a crash and a detection, the master's first, have an order.
#[test]
fn a_run_has_an_order(rt: HostRuntime) -> Result<(), Fail> {
    let alloc = rt.alloc();
    let rows = feeder_lost(alloc)?;
    let mut traces = Vec::new(alloc);
    for who in [MASTER, ONE, TWO, THREE] {
        traces.push(trace_of(alloc, who, &rows)?)?;
    }
    check_audit(&rt, alloc, 2, &traces, (0, rows.len() as u64))
}
