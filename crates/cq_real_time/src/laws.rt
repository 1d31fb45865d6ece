//! Laws of orders in time. A function here does nothing: its contract is a law, which is proved with it.
ghost use Rattle.cq_real_time.specs.Laws.{NothingGoesToUnknownServers};
ghost use Rattle.cq_real_time.specs.Interleavings.{FirstWorldsAreStarts, OrdersFromStartsAreRuns, AnswersFromStartsAreOfOneObject, OrdersInTimeAreRuns, LogOrdersFromStartsAreRuns, OrdersByTheLogAreRuns};
ghost use Rattle.cq_real_time.specs.Loading.{NoneLoadedIsFirst, LoadedWorldsAreAlone, LoadedWorldsAreReached, LoadedWorldsAreStarts, LoadedPartiesAct, OrdersFromStoresGoOn, HistoriesMayBeLoaded};

/// Nothing waits for a server that never joined and was no member of the first chain, and nothing stands in a link to it.
pub fn nothing_goes_to_unknown_servers()
    ensures { NothingGoesToUnknownServers }
{}

/// What servers and the master did, each by its own core, which refused none of it, happens in one order in time in which
/// each message is put before it is taken, a detection comes behind the crash of its server, nothing of a server comes behind
/// its crash or before its join, and a server crashes only where another one is full and lives. In each such order each event
/// is enabled: so it is a run of the world, and the laws of the chain hold of it.
pub fn orders_in_time_are_runs()
    ensures { OrdersInTimeAreRuns }
{}

/// The same holds wherever the parties begin: in a first world, or in one to which events led, in which no server is down and no
/// link has a message. What a server does that the master didn't know there comes behind its join. Each answer that was put to
/// the clients is one queue object's, over the committed list of all that happened up to there and in the order.
pub fn orders_from_starts_are_runs()
    ensures first { FirstWorldsAreStarts }
    ensures runs { OrdersFromStartsAreRuns }
    ensures answers { AnswersFromStartsAreOfOneObject }
{}

/// That another server is full and lives where one crashes can be read off what the master did. Take such an order, but in
/// place of that rule each crash stands just before its detection, nothing of a server comes behind its detection, and the
/// master detects a server only where another member is of the first chain, or the master has taken its Ready. It is an order
/// in time, and so a run of the world.
pub fn orders_by_the_log_are_runs()
    ensures { OrdersByTheLogAreRuns }
{}

/// The same holds of the log wherever the parties begin: by it a server is full that was full there, or whose Ready was taken.
pub fn log_orders_from_starts_are_runs()
    ensures { LogOrdersFromStartsAreRuns }
{}

/// The world that begins with a list of entries is that of one server alone, at rest behind them, and with none it is the first
/// world of one server.
pub fn loaded_worlds_are_alone()
    ensures empty { NoneLoadedIsFirst }
    ensures alone { LoadedWorldsAreAlone }
{}

/// Where moments never fall, and the list is at most 2^62 long, a chain of one reaches that world from nothing: the requests
/// arrive one after another, each while the clock shows the moment of its entry, and each answer is put to the clients.
pub fn loaded_worlds_are_reached()
    ensures { LoadedWorldsAreReached }
{}

/// An order in time from such a world on is the end of a run of a chain that begins with nothing. The committed list of that run
/// begins with the entries, and each answer that was put to the clients is one queue object's, over that list.
pub fn orders_from_stores_go_on()
    ensures starts { LoadedWorldsAreStarts }
    ensures parties { LoadedPartiesAct }
    ensures goes_on { OrdersFromStoresGoOn }
{}

/// What any server has at any moment of a run is a list with which a chain can begin: its moments never fall, and it is at most 2^62
/// long.
pub fn histories_may_be_loaded()
    ensures { HistoriesMayBeLoaded }
{}
