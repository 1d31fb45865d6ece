//! Why a session with a journal ends.
ghost use Rattle.std.specs.Prelude.{◌≡◌};
ghost use Rattle.cq_kept_run.specs.Faults.{code_of, name_of};
ghost use Rattle.cq_kept_run.specs.Reasons.{IsOfKept, IsOfLoop, IsOfStart, kept_of_device, kept_of_log, kept_of_open, kept_of_region, kept_of_start};
ghost use Rattle.cq_kept_run.specs.declared.fault.KeptFault.TheVariants as kept;

use cq_base::NoMemory;
use cq_disk::{DeviceFault, OpenFault as FileFault};
use cq_frame_loop::LoopFault;
use cq_journal::{OpenFault, RegionFault};
use cq_kept_entries::StartFault as EntriesFault;
use cq_kept_session::{ServeFault, StartFault, TakeFault};
use cq_lines::ScriptFault;
use cq_records::{LogFault, ReadFault};
use std::io;
use thiserror::Error;

/// What is wrong with the journal.
#[derive(Clone, Copy, Debug, PartialEq, Eq, Error)]
pub enum JournalFault {
    /// The file can't be opened or made, or a read, a write or a sync failed. Nothing is answered that wasn't kept.
    #[error("the journal failed")]
    Failed,
    /// Bytes changed behind its back: at this place of the file, if that is known.
    #[error("the journal is damaged")]
    Damaged(Option<usize>),
    /// Another program has it.
    #[error("the journal is in use")]
    Busy,
    /// The file is none.
    #[error("there is no journal in the file")]
    NotAJournal,
    /// The file has a journal of something else: of a server's entries where lines are wanted, of lines where entries are, or of a
    /// session on another number of servers.
    #[error("the journal has something else")]
    OtherJournal,
}

impl JournalFault {
    /// The number that stands for the fault in what the program reports.
    pub fn code(&self) -> u16
        ensures { result ≡ code_of self.now }
    {
        match self {
            JournalFault::Failed => 66,
            JournalFault::Damaged(_) => 67,
            JournalFault::Busy => 68,
            JournalFault::NotAJournal => 69,
            JournalFault::OtherJournal => 79,
        }
    }

    /// The fault's name.
    pub fn name(&self) -> &'static str
        ensures { result.now ≡ name_of self.now }
    {
        match self {
            JournalFault::Failed => "JournalFailed",
            JournalFault::Damaged(_) => "JournalDamaged",
            JournalFault::Busy => "JournalBusy",
            JournalFault::NotAJournal => "NotAJournal",
            JournalFault::OtherJournal => "OtherJournal",
        }
    }
}

/// Why a server ends whose entries a journal keeps, before its reader does.
#[derive(Clone, Copy, Debug, PartialEq, Eq, Error)]
pub enum ServerFault {
    #[error("{0}")]
    Loop(LoopFault),
    #[error("{0}")]
    Journal(JournalFault),
}

impl From<KeptFault> for ServerFault {
    ghost from_gives = { λ fault it. IsOfKept fault it };

    fn from(fault: KeptFault) -> ServerFault {
        match fault {
            KeptFault::Script(fault) => ServerFault::from(fault),
            KeptFault::Journal(fault) => ServerFault::Journal(fault),
        }
    }
}

impl From<ScriptFault> for ServerFault {
    ghost from_gives = { λ _ it. IsOfLoop it };

    fn from(fault: ScriptFault) -> ServerFault {
        match fault {
            ScriptFault::ReadFailed => ServerFault::Loop(LoopFault::ReadFailed),
            ScriptFault::WriteFailed => ServerFault::Loop(LoopFault::WriteFailed),
            _ => ServerFault::Loop(LoopFault::NoMemory),
        }
    }
}

impl From<DeviceFault> for ServerFault {
    ghost from_gives = { λ fault it. IsOfKept (kept_of_device fault) it };

    fn from(fault: DeviceFault) -> ServerFault {
        ServerFault::from(KeptFault::from(fault))
    }
}

impl From<LogFault> for ServerFault {
    ghost from_gives = { λ fault it. IsOfKept (kept_of_log fault) it };

    fn from(fault: LogFault) -> ServerFault {
        ServerFault::from(KeptFault::from(fault))
    }
}

impl From<EntriesFault> for ServerFault {
    ghost from_gives = { λ fault it. IsOfStart fault it };

    fn from(fault: EntriesFault) -> ServerFault {
        match fault {
            EntriesFault::NoEntries => ServerFault::Journal(JournalFault::OtherJournal),
            _ => ServerFault::from(KeptFault::from(fault)),
        }
    }
}

/// Why a session with a journal ends before its reader does.
#[derive(Clone, Copy, Debug, PartialEq, Eq, Error)]
pub enum KeptFault {
    #[error("{0}")]
    Script(ScriptFault),
    #[error("{0}")]
    Journal(JournalFault),
}

impl From<ScriptFault> for KeptFault {
    ghost from_gives = { λ fault it. it ≡ kept.Script fault };

    fn from(fault: ScriptFault) -> KeptFault {
        KeptFault::Script(fault)
    }
}

impl From<JournalFault> for KeptFault {
    ghost from_gives = { λ fault it. it ≡ kept.Journal fault };

    fn from(fault: JournalFault) -> KeptFault {
        KeptFault::Journal(fault)
    }
}

impl From<NoMemory> for KeptFault {
    fn from(_fault: NoMemory) -> KeptFault {
        KeptFault::Script(ScriptFault::NoMemory)
    }
}

impl From<DeviceFault> for KeptFault {
    ghost from_gives = { λ fault it. it ≡ kept_of_device fault };

    fn from(fault: DeviceFault) -> KeptFault {
        match fault {
            DeviceFault::NoMemory => KeptFault::Script(ScriptFault::NoMemory),
            DeviceFault::Failed => KeptFault::Journal(JournalFault::Failed),
        }
    }
}

impl From<LogFault> for KeptFault {
    ghost from_gives = { λ fault it. it ≡ kept_of_log fault };

    fn from(fault: LogFault) -> KeptFault {
        match fault {
            LogFault::NoMemory => KeptFault::Script(ScriptFault::NoMemory),
            LogFault::Full | LogFault::Failed => KeptFault::Journal(JournalFault::Failed),
        }
    }
}

impl From<ReadFault> for KeptFault {
    fn from(fault: ReadFault) -> KeptFault {
        KeptFault::from(OpenFault::from(fault))
    }
}

impl From<OpenFault> for KeptFault {
    ghost from_gives = { λ fault it. it ≡ kept_of_open fault };

    fn from(fault: OpenFault) -> KeptFault {
        match fault {
            OpenFault::NoJournal => KeptFault::Journal(JournalFault::NotAJournal),
            OpenFault::Damaged => KeptFault::Journal(JournalFault::Damaged(None)),
            OpenFault::NoMemory => KeptFault::Script(ScriptFault::NoMemory),
            OpenFault::Full | OpenFault::Failed => KeptFault::Journal(JournalFault::Failed),
        }
    }
}

impl From<RegionFault> for KeptFault {
    ghost from_gives = { λ fault it. it ≡ kept_of_region fault };

    fn from(fault: RegionFault) -> KeptFault {
        match fault {
            RegionFault::Damaged(place) => KeptFault::Journal(JournalFault::Damaged(Some(place))),
            RegionFault::NoMemory => KeptFault::Script(ScriptFault::NoMemory),
            RegionFault::Failed => KeptFault::Journal(JournalFault::Failed),
        }
    }
}

impl From<StartFault> for KeptFault {
    fn from(fault: StartFault) -> KeptFault {
        match fault {
            StartFault::Open(fault) => KeptFault::from(fault),
            StartFault::OtherSize => KeptFault::Journal(JournalFault::OtherJournal),
            StartFault::Read(fault) => KeptFault::from(fault),
            StartFault::Run(fault) => KeptFault::from(fault),
            StartFault::Write(fault) => KeptFault::from(fault),
        }
    }
}

impl From<EntriesFault> for KeptFault {
    ghost from_gives = { λ fault it. it ≡ kept_of_start fault };

    fn from(fault: EntriesFault) -> KeptFault {
        match fault {
            EntriesFault::Open(fault) => KeptFault::from(fault),
            EntriesFault::Read(fault) => KeptFault::from(fault),
            EntriesFault::NoEntries => KeptFault::Journal(JournalFault::Damaged(None)),
            EntriesFault::NoMemory => KeptFault::Script(ScriptFault::NoMemory),
            EntriesFault::Write(fault) => KeptFault::from(fault),
        }
    }
}

impl From<TakeFault> for KeptFault {
    fn from(fault: TakeFault) -> KeptFault {
        match fault {
            TakeFault::NotKept(fault) => KeptFault::from(fault),
            TakeFault::NotTold(fault) => KeptFault::from(fault),
        }
    }
}

impl From<ServeFault> for KeptFault {
    fn from(fault: ServeFault) -> KeptFault {
        match fault {
            ServeFault::Read(fault) => KeptFault::from(fault),
            ServeFault::Take(fault) => KeptFault::from(fault),
            ServeFault::Rewrite(fault) => KeptFault::from(fault),
        }
    }
}

impl From<FileFault> for KeptFault {
    fn from(fault: FileFault) -> KeptFault {
        match fault {
            FileFault::Busy => KeptFault::Journal(JournalFault::Busy),
            FileFault::NotAFile => KeptFault::Journal(JournalFault::NotAJournal),
            FileFault::Io(error) if error.kind() == io::ErrorKind::OutOfMemory => {
                KeptFault::Script(ScriptFault::NoMemory)
            }
            FileFault::Io(_) => KeptFault::Journal(JournalFault::Failed),
        }
    }
}
