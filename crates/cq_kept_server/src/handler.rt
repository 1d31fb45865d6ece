//! The server as what answers frames, which settles them before they are told.
use crate::KeptServer;
use cq_disk::Device;
use cq_frame_loop::{SettlingHandler, Unanswered, Unsettled};

impl<D: Device> SettlingHandler for KeptServer<D> {
    ghost use Rattle.cq_kept_server.specs.Keeping.{Answers, Rests, Stops, answers_rest, stops_none};
    ghost use Rattle.cq_kept_server.specs.Servers.{IsReady, IsSettled, state_of};

    ghost answers = { Answers };

    ghost rests = { Rests };

    ghost stops = { Stops };

    ghost is_ready = { IsReady };

    ghost is_settled = { IsSettled };

    ghost answers_on = { λ p q r frame text a b. answers_rest (state_of p) (state_of q) (state_of r) frame text a b };

    ghost stops_none = { λ p ready. stops_none D.only_now (state_of p) ready };

    fn answer(
        &mut self,
        frame: Option<&[u8]>,
        out: &mut Vec<u8>,
        end: &mut Vec<u8>,
    ) -> Result<(), Unanswered> {
        self.answer_frame(frame, out, end)
    }

    fn settle(&mut self) -> Result<(), Unsettled> {
        self.keep_all()
    }
}
