//! What is known of all scripts, whatever they say. Each law is the contract of a function that does nothing.
ghost use Rattle.std.specs.Prelude.{ℕ, List};
ghost use Rattle.cq_script.specs.Laws.{TextIsOfTheRun};
ghost use Rattle.cq_script.specs.declared.script_line.ScriptLine.{ScriptLine};

/// What a script writes is what the run of its events gives and refuses, each at the line that says its event. So all
/// laws of runs speak of what is written.
#[tactic(auto, using(crate::proofs::RunTold::text_is_of_the_run))]
pub fn text_is_of_the_run()
    ensures { (size : ℕ) (lines : List ScriptLine) → TextIsOfTheRun size lines }
{}
