//! The process as what answers frames.
use crate::process::MasterProcess;
use cq_frame_loop::{FrameHandler, Unanswered};

impl FrameHandler for MasterProcess {
    ghost use Rattle.cq_frame_loop.specs.Chains.{any_break};
    ghost use Rattle.cq_master_process.specs.Answering.{Answers};

    ghost answers = { Answers };

    ghost breaks = { any_break };

    fn answer(
        &mut self,
        frame: Option<&[u8]>,
        out: &mut Vec<u8>,
        end: &mut Vec<u8>,
    ) -> Result<(), Unanswered> {
        match self.answer_frame(frame, out, end) {
            Ok(()) => Ok(()),
            Err(_) => Err(Unanswered),
        }
    }
}
