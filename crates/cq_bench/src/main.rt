//! What the programs of `bench/` measure, by the first word of the command line: `store`, the calls of a store; `bytes`,
//! stores that are written and read as bytes; `links`,
//! items from one thread to another; `live`, live runs; and `json`, lines read and written by `serde_json` alone. Each
//! reads lines of standard input; its file says which.
#![tactic(auto)]

mod common;
mod json;
mod links;
mod live;
mod store;

use crate::common::stop;
use std::process::ExitCode;
use std::{env, io};

/// The words of the command line, behind the program's name.
fn words_of(rt: &HostRuntime) -> io::Result<Vec<String>> {
    Ok(env::args(rt)?.skip(1).collect(rt.alloc())?)
}

fn main(rt: HostRuntime) -> ExitCode {
    let done = match words_of(&rt) {
        Ok(words) => match words.first().map(|word| word.as_str()) {
            Some("store") => store::run_lines(&rt),
            Some("bytes") => store::run_byte_lines(&rt),
            Some("links") => links::run_lines(&rt, rt.alloc()),
            Some("live") => live::run_lines(&rt, rt.alloc()),
            Some("json") => json::copy_lines(&rt),
            _ => Err(stop("the first word is none of store, bytes, links, live and json")),
        },
        Err(error) => Err(error),
    };
    match done {
        Ok(()) => ExitCode::SUCCESS,
        Err(error) => {
            let _ = eprintln!(rt; "cq_bench: {error}");
            ExitCode::FAILURE
        }
    }
}
