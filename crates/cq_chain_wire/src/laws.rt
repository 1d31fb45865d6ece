//! Laws of the layout. A function here does nothing: its contract is a law, which is proved with it.
ghost use Rattle.cq_wire.specs.Laws.{AreReadBack, Differ};
ghost use Rattle.cq_chain_wire.specs.Laws.{ArePiecesOfOne, IsReadBack, IsWrittenSo};
ghost use Rattle.cq_chain_wire.specs.Layout.{message};
ghost use Rattle.cq_chain_wire.specs.Limits.{IsMessage};
ghost use Rattle.cq_chain_wire.specs.Reading.{message_at};

/// What is written of a message is read as that message.
pub fn what_is_written_is_read()
    ensures { AreReadBack message message_at IsMessage }
{}

/// No two messages have the same bytes.
pub fn two_messages_differ()
    ensures { Differ message IsMessage }
{}

/// A message that is written in pieces is read as the same message, wherever it was cut.
pub fn what_is_written_in_pieces_is_read()
    ensures { IsReadBack }
{}

/// What is read as a message was written so: a plain message as one piece; a snapshot as the parts of its store in their order,
/// each whole and in one piece, and the end.
pub fn what_is_read_was_written()
    ensures { IsWrittenSo }
{}

/// No two messages have the same pieces.
pub fn two_messages_have_other_pieces()
    ensures { ArePiecesOfOne }
{}
