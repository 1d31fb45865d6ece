//! Laws of links. A function here does nothing: its contract is a law, which is proved with it.
ghost use Rattle.cq_process.specs.Laws.{AreReadOn, IsReadAsWritten};

/// Pieces that come one at a time are read as all of them together.
pub fn pieces_are_read_on()
    ensures { AreReadOn }
{}

/// Of pieces of one message, as they are written one after another, no other message is read.
pub fn no_other_message_is_read()
    ensures { IsReadAsWritten }
{}
