//! Whether a server is a certain one.
ghost use Rattle.std.specs.Prelude.{◌≡◌};
ghost use Rattle.cq_chain.specs.Parties.{is_that};

use cq_base::ServerId;

/// Whether it is that server.
pub(crate) fn is_that(server: Option<ServerId>, id: ServerId) -> bool
    ensures { result ≡ is_that server id }
{
    match server {
        Some(other) => other.get() == id.get(),
        None => false,
    }
}
