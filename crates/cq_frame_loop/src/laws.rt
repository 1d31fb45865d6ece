//! Laws of how an input is cut. A function here does nothing: its contract is a law, which is proved with it.
ghost use Rattle.cq_frame_loop.specs.Laws.{AreCut};

/// What is written as frames, one behind another, is cut into just these frames, and those that are too long are none.
pub fn written_frames_are_cut()
    ensures { AreCut }
{}
