//! What the arguments of the command line ask for.
ghost use Rattle.std.specs.Prelude.{◌≡◌, ◌≢◌, ℕ, ◌<◌, ◌≤◌, ◌+◌, ◌^◌, [], ◌∷◌, codes, IfOk, IfSome, IsErrAnd, MatchResult, Some, false, map};
ghost use Rattle.std.specs.Str.Parse.{IsNumeral, digits_value, without_leading_plus};
ghost use Rattle.clap.specs.Words.{HasKind, Text, fault_of, first_of, found_of, kind_of, rows_of, subcommand_of, subcommand_rows_of};
ghost use Rattle.clap.specs.declared.error.kind.ErrorKind.TheVariants.{OutOfMemory};
ghost use Rattle.cq_args.specs.declared.invocation.TheConstants.{ZERO_DIGIT};
ghost use Rattle.cq_args.specs.declared.invocation.Invocation.{Invocation};
ghost use Rattle.cq_args.specs.declared.invocation.Invocation.TheVariants as invocations;
ghost use Rattle.cq_args.specs.CommandLine.{AsksFiles, AsksJournal, AsksProcess, AsksServer, IsAsked, IsFirstIn, IsNumber, IsOnFile, IsProcess, IsSized, LacksJournal, LacksJournalIn, ReadsTurns, asked_invocation, explain_name, master_name, name_in, name_of, program_app, server_name, session_name, size_of, text_in, turns_text, watch_name};

use crate::commands::{
    COPY, DUMP, EXPLAIN, FILE, FIRST, ID, JOINING, JOURNAL, JOURNAL_SIZE, JOURNAL_SIZE_DEFAULT,
    LIVE, LOAD, MASTER, NO_CREATE, REPLAY, SERVER, SERVERS, SESSION, TELL_STORE, TO, TURNS,
    TWO_SYNCS, VERIFY, WATCH, program,
};
use clap::error::ErrorKind;
use clap::{ArgMatches, Error};
use cq_base::{CHAIN_LIMIT, ChainSize, ServerId};
use std::alloc::Global;
use std::convert::AsStr;

/// The number of this version of Hobbychair, which `--version` tells. CHANGELOG.md says what came with it.
pub const VERSION: &str = "0.1.0";

/// The first digit, as a byte.
const ZERO_DIGIT: u8 = b'0';

/// The journal that a session is asked to keep.
#[derive(Clone, Copy, Debug, PartialEq, Eq)]
pub struct JournalOptions<'a> {
    /// The name of its file.
    pub path: &'a str,
    /// How many mebibytes the file has where it is made.
    pub mebibytes: u64,
    /// Whether it is written with two syncs.
    pub two_syncs: bool,
    /// Whether the store is told at the start.
    pub tell_store: bool,
}

/// What the command line asks for.
#[derive(Clone, Copy, Debug, PartialEq, Eq)]
pub enum Invocation<'a> {
    /// The script on standard input, run in a world whose chain begins with so many servers.
    Replay {
        size: ChainSize,
    },
    /// The lines of a session, run in such a world; a bad line doesn't end it.
    Session {
        size: ChainSize,
    },
    /// The lines of a session that a journal keeps before they are answered.
    Kept {
        size: ChainSize,
        journal: JournalOptions<'a>,
    },
    /// The live script on standard input, run by so many servers, a master and two clients on threads of their own, each
    /// of them for at most so many turns.
    Live {
        size: ChainSize,
        turns: u64,
    },
    /// What the journal in a file has.
    Verify {
        path: &'a str,
    },
    /// Another file with what the journal in a file has.
    Copy {
        path: &'a str,
        to: &'a str,
    },
    /// The lines of the journal in a file.
    Dump {
        path: &'a str,
    },
    /// A process that keeps the server of that number, at most `size`, of a first chain of so many.
    First {
        id: ServerId,
        size: ChainSize,
    },
    /// A process that keeps the server of that number, which joins a chain later.
    Joining {
        id: ServerId,
    },
    /// A process that keeps the only server of a first chain, which begins with a store that it is told.
    Loaded,
    /// A process that keeps the only server of a first chain, whose entries a journal in a file keeps, of so many mebibytes where it
    /// is made. With `no_create` it isn't made.
    KeptServer {
        path: &'a str,
        mebibytes: u64,
        no_create: bool,
    },
    /// A process that keeps the master of a first chain of so many servers.
    Master {
        size: ChainSize,
    },
    /// What is wrong with the lines of the script on standard input, run by so many servers, or of a live script.
    Explain {
        size: ChainSize,
        is_live: bool,
    },
    /// The lines of a session without a journal, which may ask what the chain holds.
    Watch {
        size: ChainSize,
    },
}

/// How many servers are asked for; one where no subcommand stands.
fn servers_in(matches: &ArgMatches<'_>) -> Option<u8>
    ensures asked { IfSome result (IsSized (subcommand_rows_of matches.now)) }
    ensures digit { (servers : ℕ) → servers < 10 → text_in (subcommand_rows_of matches.now) ≡ Some ((ZERO_DIGIT + servers) ∷ [])
        → result ≡ Some servers }
{
    match matches.subcommand() {
        None => Some(1),
        Some((_, options)) => options.get_one::<u8>(SERVERS),
    }
}

/// How many turns are asked for; no number where no subcommand stands.
fn turns_in(matches: &ArgMatches<'_>) -> Option<u64>
    ensures asked { IfSome result (IsNumber (turns_text (subcommand_rows_of matches.now))) }
    ensures numeral { (text : Text) → turns_text (subcommand_rows_of matches.now) ≡ Some text
        → IsNumeral 10 (without_leading_plus text) → digits_value 10 (without_leading_plus text) < 2 ^ 64
        → result ≡ Some (digits_value 10 (without_leading_plus text)) }
{
    let (_, options) = matches.subcommand()?;
    options.get_one::<u64>(TURNS)
}

/// The journal that a session keeps, as these options say. `None`: one is asked for without a file, or its size is no number.
fn session_in<'a>(options: &ArgMatches<'a>, size: ChainSize) -> Option<Invocation<'a>>
    ensures asked { IfSome result (λ it. (size_of it ≡ size) × (name_of it ≡ session_name) × AsksJournal (rows_of (found_of options.now)) it) }
    ensures good { LacksJournal (rows_of (found_of options.now)) → result ≡ Some (Invocation.Session size) }
{
    let two_syncs = options.get_flag(TWO_SYNCS);
    let tell_store = options.get_flag(TELL_STORE);
    let mebibytes = options.get_one::<u64>(JOURNAL_SIZE);
    if let Some(path) = options.get_str(JOURNAL) {
        let mebibytes = mebibytes.unwrap_or(JOURNAL_SIZE_DEFAULT);
        let journal = JournalOptions {
            path,
            mebibytes,
            two_syncs,
            tell_store,
        };
        return Some(Invocation::Kept { size, journal });
    }
    if two_syncs {
        return None;
    }
    if tell_store {
        return None;
    }
    match mebibytes {
        Some(_) => None,
        None => Some(Invocation::Session { size }),
    }
}

/// What is asked for, but for the commands that are about a journal's file; a replay where no subcommand stands.
fn serving_in<'a>(matches: &ArgMatches<'a>) -> Option<Invocation<'a>>
    ensures asked { IfSome result (IsAsked (subcommand_rows_of matches.now)) }
    ensures good { (invocation : Invocation) → text_in (subcommand_rows_of matches.now) ≡ Some ((ZERO_DIGIT + size_of invocation) ∷ [])
        → 1 ≤ size_of invocation → size_of invocation ≤ CHAIN_LIMIT → name_in (subcommand_rows_of matches.now) ≡ name_of invocation
        → ReadsTurns (turns_text (subcommand_rows_of matches.now)) invocation → LacksJournalIn (subcommand_rows_of matches.now) invocation → result ≡ Some invocation }
{
    let size = ChainSize::new(servers_in(matches)?)?;
    match matches.subcommand_name() {
        None | Some(REPLAY) => Some(Invocation::Replay { size }),
        Some(SESSION) => {
            let (_, options) = matches.subcommand()?;
            session_in(options, size)
        }
        Some(LIVE) => Some(Invocation::Live {
            size,
            turns: turns_in(matches)?,
        }),
        Some(_) => None,
    }
}

/// The command about a journal's file of this name, as these options say. `None`: there is no such command.
fn file_word_in<'a>(name: &str, options: &ArgMatches<'a>) -> Option<Invocation<'a>>
    ensures { IfSome result (λ it. (name_of it ≡ name.now) × IsOnFile it × AsksFiles (rows_of (found_of options.now)) it) }
{
    match name {
        VERIFY => Some(Invocation::Verify {
            path: options.get_str(FILE)?,
        }),
        COPY => Some(Invocation::Copy {
            path: options.get_str(FILE)?,
            to: options.get_str(TO)?,
        }),
        DUMP => Some(Invocation::Dump {
            path: options.get_str(FILE)?,
        }),
        _ => None,
    }
}

/// A server that joins: with no size, and no store to begin with.
fn joining_in<'a>(id: ServerId, size: Option<u8>, is_loading: bool) -> Option<Invocation<'a>>
    ensures { IfSome result (λ it. (it ≡ invocations.Joining id) × (is_loading ≡ false)) }
{
    if is_loading {
        return None;
    }
    match size {
        None => Some(Invocation::Joining { id }),
        Some(_) => None,
    }
}

/// A server of a first chain: its number is at most the size, and the only one may begin with a store.
fn first_in<'a>(id: ServerId, size: ChainSize, is_loading: bool) -> Option<Invocation<'a>>
    ensures { IfSome result (IsFirstIn id size is_loading) }
{
    if u32::from(size.get()) < id.get() {
        return None;
    }
    if is_loading {
        if size.get() == 1 {
            return Some(Invocation::Loaded);
        }
        return None;
    }
    Some(Invocation::First { id, size })
}

/// The process that keeps a server without a journal, as these options say. `None`: it is neither a first server nor one that joins,
/// or both, its number is above the chain's size, or it begins with a store and isn't the only one.
fn unkept_server_in<'a>(options: &ArgMatches<'a>) -> Option<Invocation<'a>>
    ensures { IfSome result (AsksServer (rows_of (found_of options.now))) }
{
    let id = ServerId::new(options.get_one::<u32>(ID)?)?;
    let size = options.get_one::<u8>(FIRST);
    let is_loading = options.get_flag(LOAD);
    if options.get_flag(JOINING) {
        return joining_in(id, size, is_loading);
    }
    first_in(id, ChainSize::new(size?)?, is_loading)
}

/// The process that keeps a server with a journal in that file, as the other options say. `None`: it isn't the only server of a first
/// chain, or it begins with a store that it is told.
fn kept_server_in<'a>(options: &ArgMatches<'a>, path: &'a str) -> Option<Invocation<'a>>
    requires { first_of (codes "journal") (rows_of (found_of options.now)) ≡ Some path.now }
    ensures { IfSome result (λ it. (name_of it ≡ server_name) × IsProcess it × AsksProcess (rows_of (found_of options.now)) it) }
{
    if options.get_flag(JOINING) {
        return None;
    }
    if options.get_flag(LOAD) {
        return None;
    }
    let id = options.get_one::<u32>(ID)?;
    let size = options.get_one::<u8>(FIRST)?;
    if id != 1 {
        return None;
    }
    if size != 1 {
        return None;
    }
    let mebibytes = options.get_one::<u64>(JOURNAL_SIZE);
    let mebibytes = mebibytes.unwrap_or(JOURNAL_SIZE_DEFAULT);
    let no_create = options.get_flag(NO_CREATE);
    Some(Invocation::KeptServer {
        path,
        mebibytes,
        no_create,
    })
}

/// The process that keeps a server, as these options say. `None`: they don't go with each other, or something is said of a journal
/// without its file.
fn server_in<'a>(options: &ArgMatches<'a>) -> Option<Invocation<'a>>
    ensures { IfSome result (λ it. (name_of it ≡ server_name) × IsProcess it × AsksProcess (rows_of (found_of options.now)) it) }
{
    if let Some(path) = options.get_str(JOURNAL) {
        return kept_server_in(options, path);
    }
    if options.get_flag(NO_CREATE) {
        return None;
    }
    match options.get_one::<u64>(JOURNAL_SIZE) {
        Some(_) => None,
        None => unkept_server_in(options),
    }
}

/// The process that keeps the master, as these options say.
fn master_in<'a>(options: &ArgMatches<'a>) -> Option<Invocation<'a>>
    ensures { IfSome result (λ it. (name_of it ≡ master_name) × IsProcess it × AsksProcess (rows_of (found_of options.now)) it) }
{
    let size = ChainSize::new(options.get_one::<u8>(SERVERS)?)?;
    Some(Invocation::Master { size })
}

/// Which lines are explained, as these options say.
fn explain_in<'a>(options: &ArgMatches<'a>) -> Option<Invocation<'a>>
    ensures { IfSome result (λ it. (name_of it ≡ explain_name) × IsProcess it × AsksProcess (rows_of (found_of options.now)) it) }
{
    let is_live = options.get_flag(LIVE);
    let size = ChainSize::new(options.get_one::<u8>(SERVERS)?)?;
    Some(Invocation::Explain { size, is_live })
}

/// Which session is watched, as these options say.
fn watch_in<'a>(options: &ArgMatches<'a>) -> Option<Invocation<'a>>
    ensures { IfSome result (λ it. (name_of it ≡ watch_name) × IsProcess it × AsksProcess (rows_of (found_of options.now)) it) }
{
    let size = ChainSize::new(options.get_one::<u8>(SERVERS)?)?;
    Some(Invocation::Watch { size })
}

/// The command about lines of this name, as these options say. `None`: there is no such command.
fn lines_in<'a>(name: &str, options: &ArgMatches<'a>) -> Option<Invocation<'a>>
    ensures { IfSome result (λ it. (name_of it ≡ name.now) × IsProcess it × AsksProcess (rows_of (found_of options.now)) it) }
{
    match name {
        EXPLAIN => explain_in(options),
        WATCH => watch_in(options),
        _ => None,
    }
}

/// The process of a chain of this name, as these options say. `None`: there is no such process.
fn process_in<'a>(name: &str, options: &ArgMatches<'a>) -> Option<Invocation<'a>>
    ensures { IfSome result (λ it. (name_of it ≡ name.now) × IsProcess it × AsksProcess (rows_of (found_of options.now)) it) }
{
    match name {
        SERVER => server_in(options),
        MASTER => master_in(options),
        _ => None,
    }
}

/// What is asked for; a replay where no subcommand stands.
fn invocation_in<'a>(matches: &ArgMatches<'a>) -> Option<Invocation<'a>>
    ensures asked { IfSome result (IsAsked (subcommand_rows_of matches.now)) }
    ensures good { (invocation : Invocation) → text_in (subcommand_rows_of matches.now) ≡ Some ((ZERO_DIGIT + size_of invocation) ∷ [])
        → 1 ≤ size_of invocation → size_of invocation ≤ CHAIN_LIMIT → name_in (subcommand_rows_of matches.now) ≡ name_of invocation
        → ReadsTurns (turns_text (subcommand_rows_of matches.now)) invocation → LacksJournalIn (subcommand_rows_of matches.now) invocation → result ≡ Some invocation }
{
    match matches.subcommand() {
        Some((name @ (VERIFY | COPY | DUMP), options)) => file_word_in(name, options),
        Some((name @ (SERVER | MASTER), options)) => process_in(name, options),
        Some((name @ (EXPLAIN | WATCH), options)) => lines_in(name, options),
        _ => serving_in(matches),
    }
}

/// What the arguments behind the program's name ask for; no arguments ask for a replay on one server. An error is
/// a request for help or for the version, a fault of the arguments, or want of memory.
pub fn invocation_of<'a, S: AsStr>(alloc: Global, args: &'a [S]) -> Result<Invocation<'a>, Error>
    ensures asked { IfOk result (IsAsked (subcommand_of program_app (map S.text args.entry.now))) }
    ensures good { (invocation : Invocation) → asked_invocation (map S.text args.entry.now) ≡ Some invocation
        → MatchResult result (λ got. got ≡ invocation) (λ error. kind_of error ≡ OutOfMemory) }
    ensures faults { fault_of program_app (map S.text args.entry.now) ≢ []
        → IsErrAnd result (HasKind (fault_of program_app (map S.text args.entry.now))) }
{
    let mut program = program(alloc)?;
    let matches = program.try_get_matches_from_mut(args)?;
    if let Some(invocation) = invocation_in(&matches) {
        return Ok(invocation);
    }
    Err(program.error(
        ErrorKind::InvalidValue,
        "a number is missing or out of its range, or '--journal FILE' is missing, or a server has not just one of '--first SIZE' and '--joining', or one that isn't alone has a journal",
    )?)
}
