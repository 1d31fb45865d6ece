//! Whether a chain ends well wherever servers of it crash. It runs lists of events, and puts crashes before each event of a
//! list and behind the last one. After each run all that is on its way is moved, until nothing is. Then the members of the chain
//! have to be alike, the last one has to act, and the newest request of each client, which arrives once more, has to be answered
//! as it was before.
//!
//! Each line of standard input is a number of crashes, 0, 1 or 2: so many are put into each run, in all ways. Each run that
//! ends otherwise is a line of output, and so is the number of runs of each list. The line `twins` runs each list in two worlds,
//! one of which may be refused memory, and compares them. The status is 1 where a run ends otherwise, or two worlds differ.
#![tactic(auto)]

mod again;
mod crashes;
mod ending;
mod lists;
mod rows;
mod running;

use crate::again::run_twins;
use crate::crashes::{Told, run_all};
use crate::lists::LISTS;
use std::io;
use std::io::{BufRead, BufReader};
use std::process::ExitCode;

fn stop(what: &'static str) -> io::Error {
    io::Error::other(what)
}

/// All lists, with so many crashes in each run. Whether all runs ended well.
fn run_lists(rt: &HostRuntime, crashes: u8) -> io::Result<bool> {
    let mut well = true;
    for list in LISTS {
        let told = run_all(rt, list, crashes)?;
        told.print(rt, list, crashes)?;
        well = well && told.failed == 0;
    }
    Ok(well)
}

/// All lists, each in two worlds. Whether these stayed alike.
fn run_all_twins(rt: &HostRuntime) -> io::Result<bool> {
    let mut well = true;
    for list in LISTS {
        let alike = run_twins(rt, list)?;
        well = well && alike;
    }
    Ok(well)
}

fn number(line: &str) -> io::Result<u8> {
    match line.parse() {
        Ok(number) if number <= 2 => Ok(number),
        _ => Err(stop("no number of crashes")),
    }
}

fn run_line(rt: &HostRuntime, line: &str) -> io::Result<bool> {
    if line == "twins" {
        return run_all_twins(rt);
    }
    run_lists(rt, number(line)?)
}

fn run_lines(rt: &HostRuntime) -> io::Result<bool> {
    let mut well = true;
    for line in BufReader::new(rt.alloc(), rt.reader())?.lines(rt.alloc()) {
        let ended = run_line(rt, line?.as_str())?;
        well = well && ended;
    }
    Ok(well)
}

fn main(rt: HostRuntime) -> ExitCode {
    match run_lines(&rt) {
        Ok(true) => ExitCode::SUCCESS,
        Ok(false) => ExitCode::FAILURE,
        Err(error) => {
            let _ = eprintln!(rt; "cq_check_crashes: {error}");
            ExitCode::FAILURE
        }
    }
}
