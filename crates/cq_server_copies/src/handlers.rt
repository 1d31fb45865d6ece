//! The processes as what answers frames.
use crate::loading::LoadingProcess;
use crate::saving::SavingProcess;
use cq_frame_loop::{FrameHandler, Unanswered};

impl FrameHandler for SavingProcess {
    ghost use Rattle.cq_frame_loop.specs.Chains.{any_break};
    ghost use Rattle.cq_server_copies.specs.Saving.{Answers};

    ghost answers = { Answers };

    ghost breaks = { any_break };

    fn answer(
        &mut self,
        frame: Option<&[u8]>,
        out: &mut Vec<u8>,
        end: &mut Vec<u8>,
    ) -> Result<(), Unanswered> {
        match self.answer_frame(frame, out, end) {
            Ok(()) => Ok(()),
            Err(_) => Err(Unanswered),
        }
    }
}

impl FrameHandler for LoadingProcess {
    ghost use Rattle.cq_server_copies.specs.Loading.{Answers, Breaks};

    ghost answers = { Answers };

    ghost breaks = { Breaks };

    fn answer(
        &mut self,
        frame: Option<&[u8]>,
        out: &mut Vec<u8>,
        end: &mut Vec<u8>,
    ) -> Result<(), Unanswered> {
        match self.answer_frame(frame, out, end) {
            Ok(()) => Ok(()),
            Err(_) => Err(Unanswered),
        }
    }
}
