//! What an audited order says of what the parties did. A function here does nothing: its contract is a law, which
//! is proved with it.
ghost use Rattle.cq_events.specs.Actions.{OrdersAgree};

/// What servers and the master did, each by its own core, over links that hand over in order what was put, is what the
/// world does in any one order of their events in which each is enabled: the run of that order puts on each link, and
/// gives to the clients, just the messages that they put. So the laws of the chain hold of what they did.
pub fn orders_agree()
    ensures { OrdersAgree }
{}
