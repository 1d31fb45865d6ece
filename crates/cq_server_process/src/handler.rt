//! The process as what answers frames.
use crate::process::ServerProcess;
use cq_frame_loop::{FrameHandler, Unanswered};

impl FrameHandler for ServerProcess {
    ghost use Rattle.cq_frame_loop.specs.Chains.{any_break};
    ghost use Rattle.cq_server_process.specs.Processes.{answers};

    ghost answers = { answers };

    ghost breaks = { any_break };

    fn answer(
        &mut self,
        frame: Option<&[u8]>,
        out: &mut Vec<u8>,
        end: &mut Vec<u8>,
    ) -> Result<(), Unanswered> {
        match self.answer_frame(frame, out, end) {
            Ok(()) => Ok(()),
            Err(_) => Err(Unanswered),
        }
    }
}
