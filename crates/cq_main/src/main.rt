//! The program `cq`: it reads a script of JSON lines on standard input, runs it in a world of servers, or live by servers
//! on threads of their own, and writes what comes of it on standard output.
#![tactic(auto)]

mod explain;
mod guide;
mod kept;
mod live;
mod live_fault;
mod process;
mod process_fault;
mod report;
mod run;

use crate::run::{run, tell_unread};
use cq_script::Checked;
use std::process::ExitCode;
use std::{env, io};

/// The arguments of the command line, behind the program's name.
fn args_of(rt: &HostRuntime) -> io::Result<Vec<String>> {
    Ok(env::args(rt)?.skip(1).collect(rt.alloc())?)
}

fn main(rt: HostRuntime) -> ExitCode {
    let mut reader = Checked::new(rt.reader());
    let mut output = Checked::new(io::writer(&rt));
    let mut errors = Checked::new(rt.stderr());
    let status = match args_of(&rt) {
        Ok(args) => run(
            &rt,
            rt.alloc(),
            args.as_slice(),
            &mut reader,
            &mut output,
            &mut errors,
        ),
        Err(error) => tell_unread(&error, &mut errors),
    };
    ExitCode::from(status)
}
