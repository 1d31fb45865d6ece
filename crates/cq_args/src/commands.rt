//! The command line as it is declared: its subcommands and their options.
ghost use Rattle.std.specs.Prelude.{◌≡◌, ◌<◌, IfOk, false};
ghost use Rattle.clap.specs.Words.{app_of, rule_of};
ghost use Rattle.clap.specs.declared.builder.command.Command.TheViews.{out-Command};
ghost use Rattle.cq_args.specs.CommandLine.{command_app, explain_app, file_app, file_rule, files_app, first_rule, id_rule, is_live_rule, joining_rule, journal_app, journal_rule, journal_size_rule, live_app, load_rule, master_app, no_create_rule, placed_server_app, process_app, program_app, server_app, stored_server_app, serving_app, session_app, size_rule, tell_store_rule, turns_rule, two_syncs_rule, wire_rule};

use crate::VERSION;
use clap::{Arg, ArgAction, Command, value_parser};
use cq_base::CHAIN_LIMIT;
use std::alloc::{AllocError, Global};

pub(crate) const REPLAY: &str = "replay";

pub(crate) const SESSION: &str = "session";

pub(crate) const LIVE: &str = "live";

pub(crate) const VERIFY: &str = "verify";

pub(crate) const COPY: &str = "copy";

pub(crate) const DUMP: &str = "dump";

pub(crate) const SERVER: &str = "server";

pub(crate) const MASTER: &str = "master";

pub(crate) const EXPLAIN: &str = "explain";

pub(crate) const WATCH: &str = "watch";

pub(crate) const FILE: &str = "FILE";

pub(crate) const TO: &str = "TO";

pub(crate) const SERVERS: &str = "servers";

pub(crate) const ID: &str = "id";

pub(crate) const FIRST: &str = "first";

pub(crate) const JOINING: &str = "joining";

pub(crate) const LOAD: &str = "load";

pub(crate) const TURNS: &str = "turns";

pub(crate) const JOURNAL: &str = "journal";

pub(crate) const JOURNAL_SIZE: &str = "journal-size";

pub(crate) const NO_CREATE: &str = "no-create";

pub(crate) const TWO_SYNCS: &str = "two-syncs";

pub(crate) const TELL_STORE: &str = "tell-store";

const WIRE: &str = "wire";

/// The length of a journal that is made, in mebibytes, if none is given.
pub(crate) const JOURNAL_SIZE_DEFAULT: u64 = 256;

/// The least and the most that may be asked for.
const JOURNAL_SIZE_LEAST: u32 = 64;

const JOURNAL_SIZE_MOST: u32 = 1_048_576;

/// The version of the bytes that processes of a chain read and write (docs/WIRE.md), which is the only one.
const WIRE_VERSION: u8 = 1;

/// Its text, which stands if none is given.
const WIRE_DEFAULT: &str = "1";

/// The number of servers that a replay and a session have if none is given.
const SERVERS_DEFAULT: &str = "1";

/// The number of servers that a live run has if none is given.
const LIVE_SERVERS_DEFAULT: &str = "3";

/// The most turns that may be asked for.
const TURNS_LIMIT: u32 = 1_000_000_000;

/// The number of turns of a live run if none is given: the most.
const TURNS_DEFAULT: &str = "1000000000";

/// The subcommand of that name, with the number of servers as its option, and what this number is if it isn't given.
fn command<'a>(
    alloc: Global,
    name: &'a str,
    about: &'a str,
    servers_default: &'a str,
) -> Result<Command<'a>, AllocError>
    ensures app { IfOk result (λ command. app_of command ≡ command_app name.now servers_default.now) }
    ensures local { IfOk result (λ command. (out-Command command).has_globals ≡ false) }
{
    let servers = Arg::new(alloc, SERVERS)
        .long(SERVERS)
        .value_name("N")
        .value_parser(value_parser!(u8).range(1..=i64::from(CHAIN_LIMIT)))
        .default_value(servers_default)
        .help("How many servers the chain begins with, from 1 to 8");
    Command::new(alloc, name).about(about).arg(servers)
}

/// The number of turns, as an option.
fn turns_option<'a>(alloc: Global) -> Arg<'a>
    ensures rule { rule_of result ≡ turns_rule }
    ensures local { result.global ≡ false }
{
    Arg::new(alloc, TURNS)
        .long(TURNS)
        .value_name("T")
        .value_parser(value_parser!(u64).range(1..=i64::from(TURNS_LIMIT)))
        .default_value(TURNS_DEFAULT)
        .help("How many turns each thread takes at most, from 1 to 1000000000")
}

/// The subcommand for sessions, with the number of servers, and the journal, as its options.
fn session<'a>(alloc: Global) -> Result<Command<'a>, AllocError>
    ensures app { IfOk result (λ command. app_of command ≡ session_app) }
    ensures local { IfOk result (λ command. (out-Command command).has_globals ≡ false) }
{
    let command = command(
        alloc,
        SESSION,
        "Runs the lines that come on standard input, until it ends, and goes on behind bad ones",
        SERVERS_DEFAULT,
    )?;
    let command = command.arg(journal_option(alloc))?;
    let command = command.arg(journal_size_option(alloc))?;
    let command = command.arg(two_syncs_option(alloc))?;
    command.arg(tell_store_option(alloc))
}

/// The name of the journal's file, as an option.
fn journal_option<'a>(alloc: Global) -> Arg<'a>
    ensures rule { rule_of result ≡ journal_rule }
    ensures local { result.global ≡ false }
{
    Arg::new(alloc, JOURNAL)
        .long(JOURNAL)
        .value_name("FILE")
        .help(
            "Keeps the lines in this file before they are answered, and goes on behind those that it has",
        )
}

/// The length of a journal that is made, as an option.
fn journal_size_option<'a>(alloc: Global) -> Arg<'a>
    ensures rule { rule_of result ≡ journal_size_rule }
    ensures local { result.global ≡ false }
{
    Arg::new(alloc, JOURNAL_SIZE)
        .long(JOURNAL_SIZE)
        .value_name("MIB")
        .value_parser(value_parser!(u64).range(
            i64::from(JOURNAL_SIZE_LEAST)..=i64::from(JOURNAL_SIZE_MOST),
        ))
        .help(
            "How many mebibytes that file has where it is made, from 64 to 1048576, and 256 if not given",
        )
}

/// Whether the journal is written with two syncs, as an option.
fn two_syncs_option<'a>(alloc: Global) -> Arg<'a>
    ensures rule { rule_of result ≡ two_syncs_rule }
    ensures local { result.global ≡ false }
{
    Arg::new(alloc, TWO_SYNCS)
        .long(TWO_SYNCS)
        .action(ArgAction::SetTrue)
        .help(
            "Syncs twice for what one sync keeps: nothing is supposed of sectors that a crash tears",
        )
}

/// Whether the store is told at the start, as an option.
fn tell_store_option<'a>(alloc: Global) -> Arg<'a>
    ensures rule { rule_of result ≡ tell_store_rule }
    ensures local { result.global ≡ false }
{
    Arg::new(alloc, TELL_STORE)
        .long(TELL_STORE)
        .action(ArgAction::SetTrue)
        .help("Writes the bytes of the store first, a line for each of its chunks")
}

/// The subcommand for live runs, with the numbers of servers and of turns as its options.
fn live<'a>(alloc: Global) -> Result<Command<'a>, AllocError>
    ensures app { IfOk result (λ command. app_of command ≡ live_app) }
    ensures local { IfOk result (λ command. (out-Command command).has_globals ≡ false) }
{
    let command = command(
        alloc,
        LIVE,
        "Runs the live script on standard input by servers, a master and two clients on threads of their own, and audits what they did",
        LIVE_SERVERS_DEFAULT,
    )?;
    command.arg(turns_option(alloc))
}

/// The name of a file, which has to be given.
fn file<'a>(alloc: Global, id: &'a str, help: &'a str) -> Arg<'a>
    ensures rule { rule_of result ≡ file_rule id.now }
    ensures local { result.global ≡ false }
{
    Arg::new(alloc, id).required(true).help(help)
}

/// The subcommand of that name, which is about a journal's file.
fn file_command<'a>(alloc: Global, name: &'a str, about: &'a str) -> Result<Command<'a>, AllocError>
    ensures app { IfOk result (λ command. app_of command ≡ file_app name.now) }
    ensures local { IfOk result (λ command. (out-Command command).has_globals ≡ false) }
{
    let path = file(
        alloc,
        FILE,
        "The file of a journal, which a session may keep meanwhile",
    );
    Command::new(alloc, name).about(about).arg(path)
}

/// The subcommand of that name, which makes another file of that of a journal.
fn files_command<'a>(
    alloc: Global,
    name: &'a str,
    about: &'a str,
) -> Result<Command<'a>, AllocError>
    ensures app { IfOk result (λ command. app_of command ≡ files_app name.now) }
    ensures local { IfOk result (λ command. (out-Command command).has_globals ≡ false) }
{
    let command = file_command(alloc, name, about)?;
    command.arg(file(
        alloc,
        TO,
        "The file that is made of it; there must be none yet",
    ))
}

/// The program's command line without those commands that are about a journal's file.
fn serving_program<'a>(alloc: Global) -> Result<Command<'a>, AllocError>
    ensures { IfOk result (λ command. app_of command ≡ serving_app) }
{
    let replay = command(
        alloc,
        REPLAY,
        "Runs the script on standard input and writes its answers to standard output",
        SERVERS_DEFAULT,
    )?;
    let session = session(alloc)?;
    let live = live(alloc)?;
    Command::new(alloc, "cq")
        .no_binary_name(true)
        .bin_name("cq")?
        .version(VERSION)
        .about(
            "Runs scripts of what happens to a FIFO message queue that a chain of servers keeps.\nWithout a command it does what 'cq replay' does.",
        )
        .subcommand(replay)?
        .subcommand(session)?
        .subcommand(live)
}

/// The number of a server, as an option.
fn id_option<'a>(alloc: Global) -> Arg<'a>
    ensures rule { rule_of result ≡ id_rule }
    ensures local { result.global ≡ false }
{
    Arg::new(alloc, ID)
        .long(ID)
        .value_name("N")
        .required(true)
        .value_parser(value_parser!(u32).range(1..=i64::from(u32::MAX)))
        .help(
            "The number of the server, from 1 to 4294967295, which no other server of the chain ever has",
        )
}

/// The number of servers of a first chain, as an option of one of them.
fn first_option<'a>(alloc: Global) -> Arg<'a>
    ensures rule { rule_of result ≡ first_rule }
    ensures local { result.global ≡ false }
{
    Arg::new(alloc, FIRST)
        .long(FIRST)
        .value_name("SIZE")
        .value_parser(value_parser!(u8).range(1..=i64::from(CHAIN_LIMIT)))
        .help("It is one of the first servers of a chain, of so many, from 1 to 8")
}

/// Whether a server joins later, as an option.
fn joining_option<'a>(alloc: Global) -> Arg<'a>
    ensures rule { rule_of result ≡ joining_rule }
    ensures local { result.global ≡ false }
{
    Arg::new(alloc, JOINING)
        .long(JOINING)
        .action(ArgAction::SetTrue)
        .help("It joins a chain, once the master lets it")
}

/// Whether a server begins with a store that it is told, as an option.
fn load_option<'a>(alloc: Global) -> Arg<'a>
    ensures rule { rule_of result ≡ load_rule }
    ensures local { result.global ≡ false }
{
    Arg::new(alloc, LOAD)
        .long(LOAD)
        .action(ArgAction::SetTrue)
        .help(
            "It begins with a store that it is told first; of a chain of one, as '--id 1 --first 1'",
        )
}

/// The version of the bytes that a process writes, as an option.
fn wire_option<'a>(alloc: Global) -> Arg<'a>
    ensures rule { rule_of result ≡ wire_rule }
    ensures local { result.global ≡ false }
{
    Arg::new(alloc, WIRE)
        .long(WIRE)
        .value_name("V")
        .value_parser(value_parser!(u8).range(1..=i64::from(WIRE_VERSION)))
        .default_value(WIRE_DEFAULT)
        .help("The version of the bytes that it writes: there is 1 alone")
}

/// The subcommand for a process that keeps a server, with the options that say which one.
fn placed_server<'a>(alloc: Global) -> Result<Command<'a>, AllocError>
    ensures app { IfOk result (λ command. app_of command ≡ placed_server_app) }
    ensures local { IfOk result (λ command. (out-Command command).has_globals ≡ false) }
{
    let command = Command::new(alloc, SERVER)
        .about(
            "Keeps one server of a chain: it is told commands on standard input, and tells what comes of them on standard output, as frames",
        )
        .arg(id_option(alloc))?;
    let command = command.arg(first_option(alloc))?;
    let command = command.arg(joining_option(alloc))?;
    command.arg(load_option(alloc))
}

/// That subcommand, with the journal of a server as its options, too.
fn stored_server<'a>(alloc: Global) -> Result<Command<'a>, AllocError>
    ensures app { IfOk result (λ command. app_of command ≡ stored_server_app) }
    ensures local { IfOk result (λ command. (out-Command command).has_globals ≡ false) }
{
    let command = placed_server(alloc)?;
    let command = command.arg(entries_option(alloc))?;
    let command = command.arg(journal_size_option(alloc))?;
    command.arg(no_create_option(alloc))
}

/// Whether the journal has to be there, as an option.
fn no_create_option<'a>(alloc: Global) -> Arg<'a>
    ensures rule { rule_of result ≡ no_create_rule }
    ensures local { result.global ≡ false }
{
    Arg::new(alloc, NO_CREATE)
        .long(NO_CREATE)
        .action(ArgAction::SetTrue)
        .help("Makes no journal: that file has to be there, and to have one")
}

/// The name of the file of a server's journal, as an option.
fn entries_option<'a>(alloc: Global) -> Arg<'a>
    ensures rule { rule_of result ≡ journal_rule }
    ensures local { result.global ≡ false }
{
    Arg::new(alloc, JOURNAL)
        .long(JOURNAL)
        .value_name("FILE")
        .help(
            "Keeps its entries in this file before anything is told of them, and begins behind those that it has; of a chain of one",
        )
}

/// The subcommand for a process that keeps a server.
fn server<'a>(alloc: Global) -> Result<Command<'a>, AllocError>
    ensures app { IfOk result (λ command. app_of command ≡ server_app) }
    ensures local { IfOk result (λ command. (out-Command command).has_globals ≡ false) }
{
    let command = stored_server(alloc)?;
    command.arg(wire_option(alloc))
}

/// The number of servers of a first chain, as an option of its master.
fn size_option<'a>(alloc: Global) -> Arg<'a>
    ensures rule { rule_of result ≡ size_rule }
    ensures local { result.global ≡ false }
{
    Arg::new(alloc, SERVERS)
        .long(SERVERS)
        .value_name("N")
        .required(true)
        .value_parser(value_parser!(u8).range(1..=i64::from(CHAIN_LIMIT)))
        .help("How many servers the chain begins with, from 1 to 8")
}

/// The subcommand for a process that keeps the master.
fn master<'a>(alloc: Global) -> Result<Command<'a>, AllocError>
    ensures app { IfOk result (λ command. app_of command ≡ master_app) }
    ensures local { IfOk result (λ command. (out-Command command).has_globals ≡ false) }
{
    let command = Command::new(alloc, MASTER)
        .about("Keeps the master of a chain, as 'cq server' keeps a server")
        .arg(size_option(alloc))?;
    command.arg(wire_option(alloc))
}

/// Whether a live script is explained, as an option.
fn live_option<'a>(alloc: Global) -> Arg<'a>
    ensures rule { rule_of result ≡ is_live_rule }
    ensures local { result.global ≡ false }
{
    Arg::new(alloc, LIVE)
        .long(LIVE)
        .action(ArgAction::SetTrue)
        .help("The lines are those of a live script, for 'cq live'")
}

/// The subcommand that explains lines, with the number of servers, and whether they are those of a live script, as its options.
fn explain<'a>(alloc: Global) -> Result<Command<'a>, AllocError>
    ensures app { IfOk result (λ command. app_of command ≡ explain_app) }
    ensures local { IfOk result (λ command. (out-Command command).has_globals ≡ false) }
{
    let command = command(
        alloc,
        EXPLAIN,
        "Tells what is wrong with lines of the script on standard input, each by a sentence, and goes on behind them",
        SERVERS_DEFAULT,
    )?;
    command.arg(live_option(alloc))
}

/// The program's command line without those commands that are about a process of a chain.
fn journal_program<'a>(alloc: Global) -> Result<Command<'a>, AllocError>
    ensures { IfOk result (λ command. app_of command ≡ journal_app) }
{
    let program = serving_program(alloc)?;
    let verify = file_command(
        alloc,
        VERIFY,
        "Tells what a journal has, or where it is damaged",
    )?;
    let copy = files_command(
        alloc,
        COPY,
        "Copies a journal, also that of a session that runs",
    )?;
    let dump = file_command(
        alloc,
        DUMP,
        "Writes the lines of a journal, and before them the store that stands for those that it hasn't any more",
    )?;
    program
        .subcommand(verify)?
        .subcommand(copy)?
        .subcommand(dump)
}

/// The program's command line without those that explain lines, or show what they do.
fn process_program<'a>(alloc: Global) -> Result<Command<'a>, AllocError>
    ensures { IfOk result (λ command. app_of command ≡ process_app) }
{
    let program = journal_program(alloc)?;
    let server = server(alloc)?;
    let master = master(alloc)?;
    program.subcommand(server)?.subcommand(master)
}

/// The program's command line.
pub(crate) fn program<'a>(alloc: Global) -> Result<Command<'a>, AllocError>
    ensures { IfOk result (λ command. app_of command ≡ program_app) }
{
    let program = process_program(alloc)?;
    let explain = explain(alloc)?;
    let watch = command(
        alloc,
        WATCH,
        "Runs lines as 'cq session' does, and tells what the chain holds where the line {\"op\":\"show\"} asks",
        SERVERS_DEFAULT,
    )?;
    program.subcommand(explain)?.subcommand(watch)
}
