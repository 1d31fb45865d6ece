//! Why a line says no event.
ghost use Rattle.std.specs.Prelude.{◌≡◌};
ghost use Rattle.cq_script.specs.Faults.{line_code_of, line_name_of};

use cq_base::BaseFault;
use thiserror::Error;

/// Why a line says no event, where that is told and the lines behind it are run.
#[derive(Clone, Copy, Debug, PartialEq, Eq, Error)]
pub enum LineRefusal {
    /// A text in it breaks that text's rule.
    #[error("{0}")]
    Text(BaseFault),
    /// It is no line of a script. Only a session goes on behind such a line.
    #[error("not a line of a script")]
    Bad,
    /// It has more bytes than a line may have. Only a session goes on behind such a line.
    #[error("the line is too long")]
    TooLong,
}

impl LineRefusal {
    /// The number that it is told by: that of the text's fault, or of the script's.
    pub fn code(&self) -> u16
        ensures { result ≡ line_code_of self.now }
    {
        match self {
            LineRefusal::Text(fault) => fault.code(),
            LineRefusal::Bad => 61,
            LineRefusal::TooLong => 62,
        }
    }

    /// The name that it is told by.
    pub fn name(&self) -> &'static str
        ensures { result.now ≡ line_name_of self.now }
    {
        match self {
            LineRefusal::Text(fault) => fault.name(),
            LineRefusal::Bad => "BadLine",
            LineRefusal::TooLong => "LineTooLong",
        }
    }
}
