//! Laws of the chain, for every list of events from the first world of every size. A function here does
//! nothing: its contract is a law, which is proved with it.

ghost use Rattle.std.specs.Prelude.{List};
ghost use Rattle.cq_base.specs.declared.ask.Entry.{Entry};
ghost use Rattle.cq_store.specs.Laws.{FreshOnceIn, RepeatsAreAnsweredAt, OthersDoNothingAt, EachQueueAloneIn, EachReplyAloneAt, HandsWhatWasSentAt, NoneInFlightAt, NoneDeletedAt, NoneRemovedAt, OneAcceptancePerWindowAt, FirstHandingsInOrderIn};
ghost use Rattle.cq_world.specs.Laws.{AtEachPlace, OfCommitted, AnswersAreOfTheObject, GivenWereMade, CommittedIsOfTheHead, CommittedIsOfFullServers, CommittedGrows, CommittedIsOfArrivals, DroppedServersStayOut, MessagesAreOfTheHistory, HistoriesArePrefixes, HistoriesFallAlongTheChain, OneActs, LengthsNeverFall, LaterArrivalsStandAbove, LaterQueriesSeeAsMuch, QuietMembersAgree, QuietTailActs, HeadlineHolds};

/// Every answer that a server makes is the one that a single queue object gives which takes the committed list:
/// to a request at the place that the answer bears, to a query after so many entries. Only answers that were
/// made are given.
pub fn answers_are_of_one_object()
    ensures made { AnswersAreOfTheObject }
    ensures given { GivenWereMade }
{}

/// The committed list is a prefix of the history of each full server that lives, and of a head that lives, which is
/// full.
pub fn committed_is_of_full_servers()
    ensures full { CommittedIsOfFullServers }
    ensures head { CommittedIsOfTheHead }
{}

/// With more events the committed list only grows.
pub fn committed_grows()
    ensures { CommittedGrows }
{}

/// The committed list holds requests that arrived, in order, each with the larger of the clock that it met and the
/// moment before it; so its moments never fall.
pub fn committed_is_of_arrivals()
    ensures { CommittedIsOfArrivals }
{}

/// Along the chain the history of each member is a prefix of that of each member before it, and the history of a
/// server that has a predecessor is a prefix of the predecessor's. What is on its way from a server is of its history: a
/// forwarded entry stands there at the place that it bears, and a snapshot is a prefix of it.
pub fn histories_are_prefixes()
    ensures members { HistoriesFallAlongTheChain }
    ensures predecessors { HistoriesArePrefixes }
    ensures messages { MessagesAreOfTheHistory }
{}

/// At most one server that lives acts as tail.
pub fn one_server_acts()
    ensures { OneActs }
{}

/// A server that joined and was dropped, since the last member was lost meanwhile, is never a member again.
/// While it lives it isn't full and doesn't act.
pub fn dropped_servers_stay_out()
    ensures { DroppedServersStayOut }
{}

/// The lengths of the answers that are made never fall, in the order in which they are made.
pub fn lengths_never_fall()
    ensures { LengthsNeverFall }
{}

/// What comes later sees what was answered: an entry that arrives after an answer was made is appended at a place above
/// the answer's length, and a query that comes after it is answered with a length that is at least as much.
pub fn later_requests_see_what_was_answered()
    ensures arrivals { LaterArrivalsStandAbove }
    ensures queries { LaterQueriesSeeAsMuch }
{}

/// In a chain that is quiet, since the master knows that its last member acts and nothing is on its way between its members
/// and the master, all members have the same history, and the last one acts: nothing is lost on the way.
pub fn a_quiet_chain_agrees()
    ensures members { QuietMembersAgree }
    ensures tail { QuietTailActs }
{}

/// On the committed list, of the entries of a client under one number at most one is fresh, a repeat has the reply of
/// the fresh one, and after the others all goes on as if they weren't there.
pub fn one_effect_per_number()
    ensures once { OfCommitted FreshOnceIn }
    ensures repeats { OfCommitted (AtEachPlace RepeatsAreAnsweredAt) }
    ensures idle { OfCommitted (AtEachPlace OthersDoNothingAt) }
{}

/// On the committed list, what the fresh entries that name a queue do, and what they are answered with, follows from
/// these alone.
pub fn other_queues_do_not_matter()
    ensures outcomes { OfCommitted EachQueueAloneIn }
    ensures replies { OfCommitted (AtEachPlace EachReplyAloneAt) }
{}

/// On the committed list, only accepted messages are handed out, and none while one of its group is in flight.
pub fn no_handing_while_in_flight()
    ensures sent { OfCommitted (AtEachPlace HandsWhatWasSentAt) }
    ensures landed { OfCommitted (AtEachPlace NoneInFlightAt) }
{}

/// On the committed list, nothing is handed out after its deletion or after that of its queue.
pub fn no_handing_after_deletion()
    ensures deleted { OfCommitted (AtEachPlace NoneDeletedAt) }
    ensures removed { OfCommitted (AtEachPlace NoneRemovedAt) }
{}

/// On the committed list, of the sends to an incarnation with one deduplication id no two are accepted less than
/// 300,000 ms apart.
pub fn one_acceptance_per_window()
    ensures { OfCommitted (AtEachPlace OneAcceptancePerWindowAt) }
{}

/// On the committed list, the messages of a group are first handed out in order of sending, and none is left out.
pub fn first_handings_in_order()
    ensures { OfCommitted FirstHandingsInOrderIn }
{}

/// The headline: every answer is one queue object's over one growing list of requests, on which the laws of the
/// queue object hold.
pub fn headline()
    ensures { HeadlineHolds }
{}
