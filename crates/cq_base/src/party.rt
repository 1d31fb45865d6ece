//! Those who send and take messages.
use crate::number::ServerId;

/// Who sends and takes messages: the master of the chain, the clients, who are one party together, and each
/// server.
#[derive(Clone, Copy, Debug, PartialEq, Eq, Hash)]
pub enum Party {
    Master,
    Clients,
    Server(ServerId),
}
