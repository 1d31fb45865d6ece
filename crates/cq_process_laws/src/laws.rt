//! Laws of a process that keeps a server. A function here does nothing: its contract is a law, which is proved with it.
ghost use Rattle.cq_process_laws.specs.Laws.{AnswersAreActions, LinksHandOver, RunsAreActions};

/// What a process does of a frame are actions of its core, of which none is refused: the one that the command is, and then puts, party by
/// party. Each piece that is told is of a message that is put with it, or of one of which more pieces are left.
pub fn answers_are_actions()
    ensures { AnswersAreActions }
{}

/// What a new process does of frames, one after another, are actions of its core from the first one on. The messages that it puts to a
/// party were told as pieces, and those that it takes were read of pieces that came.
pub fn runs_are_actions()
    ensures { RunsAreActions }
{}

/// Where each piece that comes to one process was told for it by another one, with its number, it takes the messages that the other one
/// put, in order. It doesn't matter in which order the pieces come, which come again, or which come ahead of others: those out of turn are
/// refused (45), and may be any.
pub fn links_hand_over()
    ensures { LinksHandOver }
{}
