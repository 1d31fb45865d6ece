//! A server stops.
ghost use Rattle.cq_chain.specs.Stands.{Does};
ghost use Rattle.cq_chain.specs.Steps.{crashed};

use super::Server;

impl Server {
    /// It crashes, which it does by stopping (van Renesse and Schneider, section 3): what it has stays as it is. It
    /// takes no memory: O(1).
    pub fn crash(&mut self)
        ensures { Does self.old self.new crashed }
    {
        self.down = true;
    }
}
