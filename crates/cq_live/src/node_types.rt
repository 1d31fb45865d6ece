//! The nodes of a live run, between ends of links and inboxes.
use cq_chain::Message;
use cq_link::{InPut, InTake, Putter, Taker};
use cq_nodes::{ClientNode, MasterNode, ServerNode};
use cq_threads::Nodes;

/// The node of the master.
pub(crate) type Master<'a> = MasterNode<'a, Putter<Message>, Taker<Message>>;

/// The node of a server.
pub(crate) type Server<'a> = ServerNode<'a, Putter<Message>, Taker<Message>, InTake>;

/// The node of a client.
pub(crate) type Client<'a> = ClientNode<'a, InPut, Taker<Message>>;

/// The nodes of all parties.
pub(crate) type AllNodes<'a> = Nodes<'a, Putter<Message>, Taker<Message>, InTake, InPut>;
