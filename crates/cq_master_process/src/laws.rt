//! Laws of answers. A function here does nothing: its contract is a law, which is proved with it.
ghost use Rattle.cq_master_process.specs.Laws.{AreActions};

/// What the process does of a frame is a list of actions of its core, none of which the core refuses.
pub fn answers_are_actions()
    ensures { AreActions }
{}
