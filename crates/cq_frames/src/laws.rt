//! Laws of the layout. A function here does nothing: its contract is a law, which is proved with it.
ghost use Rattle.cq_frames.specs.Frames.{AreCutOff};
ghost use Rattle.cq_frames.specs.Layout.{command, response};
ghost use Rattle.cq_frames.specs.Limits.{IsCommand, IsResponse};
ghost use Rattle.cq_frames.specs.Reading.{command_at, response_at};
ghost use Rattle.cq_frames.specs.Streams.{StreamsAreFirst};
ghost use Rattle.cq_wire.specs.Laws.{AreReadBack, Differ};

/// What is written of a command is read as that command.
pub fn written_commands_are_read()
    ensures { AreReadBack command command_at IsCommand }
{}

/// What is written of a response is read as that response.
pub fn written_responses_are_read()
    ensures { AreReadBack response response_at IsResponse }
{}

/// No two commands have the same bytes.
pub fn two_commands_differ()
    ensures { Differ command IsCommand }
{}

/// No two responses have the same bytes.
pub fn two_responses_differ()
    ensures { Differ response IsResponse }
{}

/// What is written as a frame is cut off as that frame, whatever stands behind it.
pub fn written_frames_are_cut_off()
    ensures { AreCutOff }
{}

/// What is read of bytes has the stream that they begin with: an arrival that one, and all other commands none.
pub fn streams_are_read_first()
    ensures { StreamsAreFirst }
{}
