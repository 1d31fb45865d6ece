//! Laws of the processes of a chain. A function here does nothing: its contract is a law, which is proved with it.
ghost use Rattle.cq_chain_laws.specs.Copies.{CopiesAreLoaded};
ghost use Rattle.cq_chain_laws.specs.Laws.{KeptProcessesAreRuns, LinkedProcessesAreAChain, LoggedProcessesAreAChain, MasterRunsAreActions};

/// What a new process of a master does of frames, one after another, are actions of its core from the first one on. The messages that it
/// puts to a server were told, each as one piece, and those that it takes were pieces that came.
pub fn master_runs_are_actions()
    ensures { MasterRunsAreActions }
{}

/// The processes of a chain are the chain, whatever each of them is given, where each piece that comes to one in turn was told for it by the
/// process of its sender, with its number. Take one order in time of what they did, in which a message is put before it is taken, a
/// detection comes behind the crash of its server, nothing of a server comes behind its crash or before its join, and a server crashes only
/// where another one is full and lives. Or one in which each crash stands just before its detection, and the master detects a server only
/// where another member was full at the start, or the master has taken its Ready. In each such order each event is enabled. So it is a run
/// of the world, and each answer that any process puts to the clients is one queue object's over one growing list. A chain may begin with
/// servers that have nothing, or with one that has a list of entries, over which the list goes on.
pub fn linked_processes_are_a_chain()
    ensures time { LinkedProcessesAreAChain }
    ensures log { LoggedProcessesAreAChain }
{}

/// What `cq server` and `cq master` read and wrote is what such processes did: whatever their input, the frames of a front of it were
/// answered, and a front of the answers is the output, but for memory that wanted at the start. Copies of a store change nothing of it. One
/// that begins with a store serves once that is whole, as server 1 of the world that begins with the entries for which the store stands. So
/// the law of linked processes speaks of what is read and written, whatever ended it.
pub fn kept_processes_are_runs()
    ensures { KeptProcessesAreRuns }
{}

/// The chunks that a process tells as a copy of its store, from the first one to the empty one, make a process that begins with a store,
/// and that is given them in their order, begin with that store: so it begins where the world does that begins with the entries for which
/// the store stands.
pub fn copies_are_loaded()
    ensures { CopiesAreLoaded }
{}
