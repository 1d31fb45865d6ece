//! Nodes of a chain: each runs one server, the master or one client between the ends of links. `specs/` holds the
//! rules.
#![tactic(auto)]

mod arrivals;
mod bell;
mod client_moves;
mod client_node;
mod crashes;
mod ends;
mod first_core;
mod flags;
mod links;
mod master_moves;
mod master_node;
mod moves;
mod server_ends;
mod server_node;
mod to_clients;
mod turns;
mod waits;

pub use client_node::{ClientLeft, ClientLinks, ClientNode};
pub use ends::{In, Out, ToClients};
pub use flags::Flags;
pub use links::Links;
pub use master_node::{MasterEnds, MasterNode};
pub use server_ends::{ServerEnds, ServerParts};
pub use server_node::ServerNode;
pub use turns::{Always, Gate, Stop, TURNS_LIMIT, Turn};
