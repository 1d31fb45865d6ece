//! Laws of the queue object, for every list of entries. A function here does nothing: its contract is a
//! law, which is proved with it.

ghost use Rattle.cq_store.specs.Laws.{FreshOnce, RepeatsAreAnswered, OthersDoNothing, EachQueueAlone, EachReplyAlone, EachIncarnationAlone, HandsWhatWasSent, NoneInFlight, NoneDeleted, NoneRemoved, NoneComes, ReceiptsCount, OneAcceptancePerWindow, OthersAreAccepted, FirstHandingsInOrder};
ghost use Rattle.cq_store.specs.Ranks.{HandedByRank, OneListByRank};

/// Of the entries of a client under one number at most one is fresh, and after the others all goes on as if
/// they weren't there. An entry that is neither fresh nor stale repeats the fresh one, and has its reply.
pub fn one_effect_per_number()
    ensures once { FreshOnce }
    ensures repeats { RepeatsAreAnswered }
    ensures idle { OthersDoNothing }
{}

/// What the fresh entries that name a queue do, and what they are answered with, follows from these
/// alone. What entries do on one incarnation of a queue follows from those that came to it.
pub fn other_queues_do_not_matter()
    ensures outcomes { EachQueueAlone }
    ensures replies { EachReplyAlone }
    ensures incarnations { EachIncarnationAlone }
{}

/// Only a fresh entry hands out messages, and only those that its queue's incarnation accepted. Where it
/// hands one out, no message of that group is in flight just before.
pub fn no_handing_while_in_flight()
    ensures sent { HandsWhatWasSent }
    ensures landed { NoneInFlight }
{}

/// A message that was deleted is handed out by no later entry. After a queue's removal no fresh entry comes
/// to the incarnation that it ended, and none is answered with a message of it.
pub fn no_handing_after_deletion()
    ensures deleted { NoneDeleted }
    ensures removed { NoneRemoved }
    ensures ended { NoneComes }
{}

/// A receive hands out the candidates, which are the messages of open groups, that have fewer than its
/// size before them. One stands before another if its group has the older oldest message, or if it is of
/// the same group and older itself. No other list is so.
pub fn handed_by_rank()
    ensures by_rank { HandedByRank }
    ensures one { OneListByRank }
{}

/// A receipt that a receive gives has the number of the incarnation, that of the message, and the count
/// of the handings of this message so far, this one among them.
pub fn receipts_count_handings()
    ensures { ReceiptsCount }
{}

/// Of the sends to an incarnation with one deduplication id no two are accepted less than 300,000 ms
/// apart: the later one is answered with the number of the one that was accepted. All other fresh sends
/// to a queue that lives are accepted.
pub fn one_acceptance_per_window()
    ensures one { OneAcceptancePerWindow }
    ensures others { OthersAreAccepted }
{}

/// On each incarnation of a queue the messages of a group are first handed out in order of sending, and
/// none is left out.
pub fn first_handings_in_order()
    ensures { FirstHandingsInOrder }
{}
