//! A handler that numbers the frames.
ghost use Rattle.std.specs.Prelude.{◌≡◌, ◌++◌, option_map, OnOk, OnErr};
ghost use Rattle.cq_frame_loop_tests.specs.Numbering.{bytes_told};

use cq_frame_loop::{FrameHandler, Unanswered};

/// Tells of each frame its bytes, or 255 where it is too long, and then its number, up to a limit.
#[derive(Drop)]
pub struct Numbering {
    pub count: u8,
    pub limit: u8,
}

/// Tells the bytes of a frame.
fn tell_bytes(frame: Option<&[u8]>, out: &mut Vec<u8>) -> Result<(), Unanswered>
    ensures ok { OnOk result (out.new.items ≡ out.old.items ++ bytes_told (option_map (λ bytes. bytes.now) frame.entry)) }
    ensures err { OnErr result (out.new.items ≡ out.old.items) }
{
    let told = match frame {
        Some(bytes) => out.extend_from_slice(bytes),
        None => out.extend_from_slice(&[255]),
    };
    match told {
        Ok(()) => Ok(()),
        Err(_) => Err(Unanswered),
    }
}

impl FrameHandler for Numbering {
    ghost use Rattle.cq_frame_loop.specs.Chains.{any_break};
    ghost use Rattle.cq_frame_loop_tests.specs.Numbering.{numbers};

    ghost answers = { numbers };

    ghost breaks = { any_break };

    fn answer(
        &mut self,
        frame: Option<&[u8]>,
        out: &mut Vec<u8>,
        end: &mut Vec<u8>,
    ) -> Result<(), Unanswered> {
        if self.count >= self.limit || tell_bytes(frame, out).is_err() {
            return Err(Unanswered);
        }
        match end.push(self.count) {
            Ok(()) => {
                self.count += 1;
                Ok(())
            }
            Err(_) => Err(Unanswered),
        }
    }
}
