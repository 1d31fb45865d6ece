//! The jobs by which `bench/run` compares two builds of this repository, by the words of the command line: the name of a job,
//! a seed, and how large it is to be, 1,000 if that isn't said. Each job makes its own input by the seed, runs it through the
//! public calls, and tells a digest of all that came of it, and no times.
//!
//!   session   a session on one server: 40 queues of 50 groups, between which producers and consumers go back and forth
//!   replay    a script on three servers, whose entries and acknowledgements all move; servers crash, and others join
//!   backlog   a session in which one queue gets many messages with long texts of many alphabets, before any is received
//!   store     the calls of a store by themselves: sends, receives, other timeouts, deletes, counts and copies
//!   live      a live chain of three servers on threads, of which one crashes, and which another joins; and its audit
//!   each      all of them
#![tactic(auto)]

mod backlog;
mod chain;
mod common;
mod digest;
mod letters;
mod lines;
mod live;
mod orders;
mod script;
mod session;
mod store;
mod texts;

use crate::common::stop;
use std::alloc::Global;
use std::process::ExitCode;
use std::sync::Wait;
use std::thread::Threads;
use std::{env, io};

/// How large a job is where no word says it.
const SIZE: u64 = 1_000;

/// The names of the jobs.
const JOBS: [&str; 5] = ["session", "replay", "backlog", "store", "live"];

/// Runs the job of that name, and gives the digest of what came of it.
fn run_job(
    rt: &(impl Threads + Wait + Sync),
    alloc: Global,
    name: &str,
    seed: u64,
    size: u64,
) -> io::Result<u64> {
    match name {
        "session" => session::run(alloc, seed, size),
        "replay" => chain::run(alloc, seed, size),
        "backlog" => backlog::run(alloc, seed, size),
        "store" => store::run(alloc, seed, size),
        "live" => live::run(rt, alloc, seed, size),
        _ => Err(stop("the first word is no job")),
    }
}

/// Runs the job of that name, and tells the digest.
fn tell_job(
    rt: &(impl Threads + Wait + Sync + Print),
    alloc: Global,
    name: &str,
    seed: u64,
    size: u64,
) -> io::Result<()> {
    let digest = run_job(rt, alloc, name, seed, size)?;
    println!(rt; "{name} {digest:016x}")
}

/// Runs all jobs, one after another.
fn tell_each(
    rt: &(impl Threads + Wait + Sync + Print),
    alloc: Global,
    seed: u64,
    size: u64,
) -> io::Result<()> {
    for name in JOBS {
        tell_job(rt, alloc, name, seed, size)?;
    }
    Ok(())
}

/// The number that a word says.
fn number(word: Option<&String>) -> io::Result<u64> {
    match word {
        Some(word) => word.parse().map_err(|_| stop("a word is no number")),
        None => Err(stop("there is no seed")),
    }
}

/// Does what the words say.
fn run(
    rt: &(impl Threads + Wait + Sync + Print),
    alloc: Global,
    words: &[String],
) -> io::Result<()> {
    let name = words.first().ok_or(stop("there is no job"))?;
    let seed = number(words.get(1))?;
    let size = if words.len() > 2 {
        number(words.get(2))?
    } else {
        SIZE
    };
    if name.as_str() == "each" {
        return tell_each(rt, alloc, seed, size);
    }
    tell_job(rt, alloc, name.as_str(), seed, size)
}

/// The words of the command line, behind the program's name.
fn words_of(rt: &HostRuntime) -> io::Result<Vec<String>> {
    Ok(env::args(rt)?.skip(1).collect(rt.alloc())?)
}

fn main(rt: HostRuntime) -> ExitCode {
    let done = match words_of(&rt) {
        Ok(words) => run(&rt, rt.alloc(), words.as_slice()),
        Err(error) => Err(error),
    };
    match done {
        Ok(()) => ExitCode::SUCCESS,
        Err(error) => {
            let _ = eprintln!(rt; "cq_workloads: {error}");
            ExitCode::FAILURE
        }
    }
}
