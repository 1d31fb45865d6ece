//! How entries are kept on which answers rest.
ghost use Rattle.std.specs.Prelude.{OnErr, OnOk};

use crate::KeptServer;
use cq_disk::Device;
use cq_frame_loop::Unsettled;
use cq_records::LogFault;

impl<D: Device> KeptServer<D> {
    ghost use Rattle.cq_kept_server.specs.Keeping.{Rests, Stops};
    ghost use Rattle.cq_kept_server.specs.Servers.{IsReady, IsSettled};

    /// Keeps all entries that were added, by one sync, and makes ready for what comes: a base takes the place of all where that is due, and
    /// the next region gets its space. After an error, which `fault` tells, the process has to end.
    pub fn keep_all(&mut self) -> Result<(), Unsettled>
        requires { IsReady self.old }
        ensures rests { OnOk result (Rests self.old self.new) }
        ensures settled { OnOk result (IsSettled self.new) }
        ensures stops { OnErr result (Stops self.old self.new) }
    {
        match self.commit_and_prepare() {
            Ok(()) => {
                self.wanted = 0;
                Ok(())
            }
            Err(fault) => {
                self.fault = Some(fault);
                Err(Unsettled)
            }
        }
    }

    /// Keeps them.
    fn commit_and_prepare(&mut self) -> Result<(), LogFault>
        requires { IsReady self.old }
        ensures rests { OnOk result (Rests self.old self.new) }
        ensures settled { OnOk result (IsSettled self.new) }
        ensures stops { OnErr result (Stops self.old self.new) }
    {
        self.kept.commit()?;
        self.kept.prepare(self.process.core().store(), self.wanted)?;
        Ok(())
    }
}
