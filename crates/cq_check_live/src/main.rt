//! What nodes decide in their turns, which no contract says whole: when a server is told to have crashed, when all nodes give
//! up, what a gate is asked, and what ends a run. Each line of standard input is a run, and its first word says which kind:
//!
//! - `rounds`: all nodes in one thread, a turn of each after the other, over rings of one place, each of which hands a message
//!   back once before it takes it. Told are each crash, detection and join, and the end of each node, with the number of the
//!   turn.
//! - `turns LIMIT SHUT`: each node runs by itself, for so many turns at most, by a gate that shuts before the turn of the
//!   second number. Told are the turns that the gate was asked for, and why the run ended; and behind the first client's run
//!   how many requests arrive at each server.
//! - `live GATE LIMIT`: a live run on threads, with so many turns for each node at most. `gates.rt` has the gates.
//!
//! Then come how many servers the chain begins with, how many sends each of the two clients makes once it has made the queue
//! (or `none`, where they ask nothing), and the changes: `crash:2:10` is a crash of server 2 once it has ten entries, and `join:4:100` a join of server 4 from the
//! master's turn 100 on.
#![tactic(auto)]

mod gates;
mod lives;
mod nodes;
mod plan;
mod rings;
mod rounds;
mod turns;

use std::alloc::Global;
use std::io;
use std::io::{BufRead, BufReader};
use std::process::ExitCode;
use std::sync::Wait;
use std::thread::Threads;

/// The error of that text.
fn stop(what: &'static str) -> io::Error {
    io::Error::other(what)
}

/// The run of that line.
fn run_line(
    rt: &(impl Threads + Wait + Sync + Print),
    alloc: Global,
    line: &str,
) -> io::Result<()> {
    println!(rt; "{line}")?;
    let (kind, rest) = line.split_once(' ').ok_or(stop("one word alone"))?;
    match kind {
        "rounds" => rounds::run(rt, alloc, rest),
        "turns" => turns::run(rt, alloc, rest),
        "live" => lives::run(rt, alloc, rest),
        _ => Err(stop("no such kind")),
    }
}

fn run_lines(rt: &(impl Threads + Wait + Sync + Print + Input), alloc: Global) -> io::Result<()> {
    for line in BufReader::new(alloc, rt.reader())?.lines(alloc) {
        run_line(rt, alloc, line?.as_str())?;
    }
    Ok(())
}

fn main(rt: HostRuntime) -> ExitCode {
    match run_lines(&rt, rt.alloc()) {
        Ok(()) => ExitCode::SUCCESS,
        Err(error) => {
            let _ = eprintln!(rt; "cq_check_live: {error}");
            ExitCode::FAILURE
        }
    }
}
