//! Scripts: lines of JSON that say what happens in a world of servers, what comes of it, and lines of JSON that
//! tell it.
//! `specs/` holds the rules.
#![tactic(auto)]

mod event;
mod event_line;
mod fault;
mod flat_event;
pub mod laws;
mod outcome;
mod resumed;
mod run;
mod running;
mod script_line;
mod sessions;
mod writing;

pub use cq_answers::{answer_line, refused_line};
pub use cq_lines::{
    CHUNK_SIZE, Checked, LINE_LIMIT, LINES_LIMIT, LineFault, ScriptFault, Sink, Source, cut_line,
    is_blank, read_fault,
};
pub use event_line::{Line, event_of};
pub use fault::LineRefusal;
pub use resumed::ResumedSession;
pub use run::replay;
pub use sessions::session;
pub use writing::{finish_writing, write_text};
