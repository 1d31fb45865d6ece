//! What the nodes of a live run show together once it has ended, and what that promises. A function here does nothing:
//! its contract is a law, which is proved with it.
ghost use Rattle.cq_live.specs.Ended.{Shows};
ghost use Rattle.cq_live.specs.Lives.{AuditsOrder, NodesLive};

/// Once all nodes have ended and all their links and inboxes are settled, there is what each of the nodes did: all of it
/// together is what nodes show for a live run of the steps, and their traces are its events.
pub fn nodes_show()
    ensures { Shows }
{}

/// What an audit answers to the traces of nodes is an order of what they did. Where all asks are closed, that order is
/// what a live run promises: its events are enabled one after another, the requests that arrive are what the clients ask,
/// each ask was closed by an answer that the run of the order gives, and servers crash and join as planned.
pub fn nodes_live()
    ensures audit { AuditsOrder }
    ensures live { NodesLive }
{}
