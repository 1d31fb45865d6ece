//! Reading a text line by line: its bytes are cut into lines here, and a parser makes a value of each.
//! `specs/` holds the rules.
#![tactic(auto)]

mod checked;
mod fault;
mod limits;
mod line;
mod parser;
mod reader;
mod sink;
mod source;
mod text;

pub use checked::Checked;
pub use fault::ScriptFault;
pub use limits::{LINE_LIMIT, LINES_LIMIT, Limits};
pub use line::{cut_line, is_blank};
pub use parser::{LineFault, LineParser};
pub use reader::LineReader;
pub use sink::Sink;
pub use source::{Source, read_fault};
pub use text::{BYTES_LIMIT, CHUNK_SIZE, read_lines};
