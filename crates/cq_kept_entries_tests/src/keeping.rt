//! Entries that are kept, and opened again.
ghost use Rattle.std.specs.Prelude.{OnOk, IfOk};
ghost use Rattle.cq_kept_entries.specs.Kept.{IsKept};

use cq_base::{
    Ask, BaseFault, BatchSize, Body, DedupId, Entry, GroupId, HISTORY_LIMIT, Moment, NoMemory,
    QueueName, Reply, Request, Seconds,
};
use cq_disk::{Device, Memory, TornWrites};
use cq_journal::OpenFault;
use cq_kept_entries::{EntryClass, KeptEntries, StartFault, class_of};
use cq_records::LogFault;
use cq_store::Store;
use cq_wire::write_reply;
use std::alloc::{AllocError, AllocFailed, Global};
use std::test::Fail;

/// The length of a half of the root.
pub(crate) const HALF: usize = 64;

/// The length of a region.
pub(crate) const LEN: usize = 400;

/// The length of a device with room for six regions.
pub(crate) const WHOLE: usize = 2 * HALF + 6 * LEN;

/// Why a test gave up.
#[derive(Debug, Drop)]
pub(crate) enum Broken {
    NoMemory,
    NoValue,
    Log(LogFault),
}

impl From<NoMemory> for Broken {
    fn from(_fault: NoMemory) -> Broken {
        Broken::NoMemory
    }
}

impl From<AllocError> for Broken {
    fn from(_error: AllocError) -> Broken {
        Broken::NoMemory
    }
}

impl<T: Drop> From<AllocFailed<T>> for Broken {
    fn from(_error: AllocFailed<T>) -> Broken {
        Broken::NoMemory
    }
}

impl From<BaseFault> for Broken {
    fn from(_fault: BaseFault) -> Broken {
        Broken::NoValue
    }
}

impl From<LogFault> for Broken {
    fn from(fault: LogFault) -> Broken {
        Broken::Log(fault)
    }
}

/// The ask of the entry of that number: a queue is made, then a message is sent, and then all are received and sent by turns.
fn ask_of(alloc: Global, number: u64) -> Result<Ask, Broken> {
    let queue = QueueName::new(alloc, "q.fifo")?;
    if number == 1 {
        return Ok(Ask::Create {
            queue,
            visibility: Seconds::new(30).ok_or(Broken::NoValue)?,
            content: false,
        });
    }
    if number % 3 == 0 {
        return Ok(Ask::Receive {
            queue,
            size: BatchSize::new(10).ok_or(Broken::NoValue)?,
            visibility: None,
        });
    }
    let id = format!(in alloc; "d{number}")?;
    Ok(Ask::Send {
        queue,
        group: GroupId::new(alloc, "a")?,
        dedup: Some(DedupId::new(alloc, id.as_str())?),
        body: Body::new(alloc, id.as_str())?,
    })
}

/// The entry of that number.
pub(crate) fn entry_of(alloc: Global, number: u64) -> Result<Entry, Broken> {
    Ok(Entry {
        moment: Moment::new(number.saturating_mul(257).min(1_000_000)).ok_or(Broken::NoValue)?,
        request: Request {
            client: 1,
            number,
            ask: ask_of(alloc, number)?,
        },
    })
}

/// The bytes of what a store answers to an entry; none, if it doesn't take it.
pub(crate) fn answered(alloc: Global, store: &mut Store, entry: &Entry) -> Result<Vec<u8>, Broken> {
    let mut bytes = Vec::new(alloc);
    if store.count() < HISTORY_LIMIT && entry.moment >= store.last() {
        let reply = store.apply(entry)?;
        write_reply(&mut bytes, &reply)?;
    }
    Ok(bytes)
}

/// The store of so many first entries.
pub(crate) fn store_of(alloc: Global, count: u64) -> Result<Store, Broken> {
    let mut store = Store::new(alloc)?;
    for number in 1..=count.min(1_000) {
        answered(alloc, &mut store, &entry_of(alloc, number)?)?;
    }
    Ok(store)
}

/// Whether a store answers a further receive as one does of so many first entries.
pub(crate) fn goes_on(alloc: Global, store: &mut Store, count: u64) -> Result<bool, Broken> {
    let mut other = store_of(alloc, count)?;
    let entry = Entry {
        moment: Moment::new(2_000_000).ok_or(Broken::NoValue)?,
        request: Request {
            client: 2,
            number: 1,
            ask: ask_of(alloc, 3)?,
        },
    };
    let is_count = store.count() == count;
    let told = answered(alloc, store, &entry)?;
    Ok(is_count && told.as_slice() == answered(alloc, &mut other, &entry)?.as_slice())
}

/// Adds the entries from one number on, up to the one before `end`.
fn add_all<D: Device>(
    alloc: Global,
    kept: &mut KeptEntries<D>,
    first: u64,
    end: u64,
) -> Result<(), Broken>
    requires { IsKept kept.old }
    ensures { OnOk result (IsKept kept.new) }
{
    for number in first..end {
        let entry = entry_of(alloc, number)?;
        kept.add(entry.moment, &entry.request)?;
    }
    Ok(())
}

/// Adds the entries of these numbers, and keeps them.
pub(crate) fn keep<D: Device>(
    alloc: Global,
    kept: &mut KeptEntries<D>,
    first: u64,
    last: u64,
) -> Result<(), Broken>
    requires { IsKept kept.old }
    ensures { OnOk result (IsKept kept.new) }
{
    add_all(alloc, kept, first, last.saturating_add(1))?;
    kept.commit()?;
    Ok(())
}

/// Opens the entries that these bytes have.
pub(crate) fn open(
    alloc: Global,
    bytes: Vec<u8>,
) -> Result<(KeptEntries<Memory>, Store), StartFault>
    ensures { IfOk result (λ opened. IsKept opened.0) }
{
    if bytes.len() < 2 * HALF {
        return Err(StartFault::Open(OpenFault::NoJournal));
    }
    let device = Memory::new(alloc, bytes, TornWrites::OldOrNew);
    KeptEntries::open(alloc, device, HALF, LEN)
}

/// The entries that are kept are there again, once and in order, and more are kept behind them.
#[test]
fn entries_are_kept(rt: HostRuntime) -> Result<(), Fail> {
    let alloc = rt.alloc();
    let device = Memory::new(alloc, vec![in alloc; 0u8; WHOLE]?, TornWrites::OldOrNew);
    let mut kept = KeptEntries::create(alloc, device, HALF, LEN)?;
    keep(alloc, &mut kept, 1, 3)?;
    keep(alloc, &mut kept, 4, 4)?;
    let entry = entry_of(alloc, 5)?;
    kept.add(entry.moment, &entry.request)?;
    let bytes = kept.into_journal().into_device().bytes().to_vec(alloc)?;

    let (mut again, mut store) = open(alloc, bytes)?;
    assert!(rt; goes_on(alloc, &mut store, 4)?);
    keep(alloc, &mut again, 5, 6)?;
    let bytes = again.into_journal().into_device().bytes().to_vec(alloc)?;
    let (_, mut store) = open(alloc, bytes)?;
    assert!(rt; goes_on(alloc, &mut store, 6)?);
    Ok(())
}

/// A base stands for the entries before it, and more are kept behind it.
#[test]
fn a_base_stands_for_entries(rt: HostRuntime) -> Result<(), Fail> {
    let alloc = rt.alloc();
    let device = Memory::new(alloc, vec![in alloc; 0u8; WHOLE]?, TornWrites::OldOrNew);
    let mut kept = KeptEntries::create(alloc, device, HALF, LEN)?;
    keep(alloc, &mut kept, 1, 4)?;
    kept.rewrite(&store_of(alloc, 4)?)?;
    keep(alloc, &mut kept, 5, 6)?;
    let bytes = kept.into_journal().into_device().bytes().to_vec(alloc)?;

    let (_, mut store) = open(alloc, bytes)?;
    assert!(rt; goes_on(alloc, &mut store, 6)?);
    Ok(())
}

/// Behind an opening a base counts as one, and not as entries behind it: no other one is due.
#[test]
fn an_opening_makes_no_base_due(rt: HostRuntime) -> Result<(), Fail> {
    let alloc = rt.alloc();
    let whole = 2 * HALF + 20 * LEN;
    let device = Memory::new(alloc, vec![in alloc; 0u8; whole]?, TornWrites::OldOrNew);
    let mut kept = KeptEntries::create(alloc, device, HALF, LEN)?;
    kept.rewrite(&store_of(alloc, 60)?)?;
    keep(alloc, &mut kept, 61, 62)?;
    let bytes = kept.into_journal().into_device().bytes().to_vec(alloc)?;

    let (mut again, store) = open(alloc, bytes)?;
    assert_eq!(rt; store.count(), 62);
    assert_eq!(rt; again.rewrite_if_due(&store, 0)?, false);
    Ok(())
}

/// Where there is no space, nothing changes, and the entries that were added stay.
#[test]
fn a_batch_needs_space(rt: HostRuntime) -> Result<(), Fail> {
    let alloc = rt.alloc();
    let whole = 2 * HALF + 2 * LEN;
    let device = Memory::new(alloc, vec![in alloc; 0u8; whole]?, TornWrites::OldOrNew);
    let mut kept = KeptEntries::create(alloc, device, HALF, LEN)?;
    keep(alloc, &mut kept, 1, 2)?;
    add_all(alloc, &mut kept, 3, 21)?;
    assert!(rt; !kept.has_room(EntryClass::Adds, 100));
    assert_eq!(rt; kept.commit(), Err(LogFault::Full));
    assert!(rt; !kept.is_settled());
    let bytes = kept.into_journal().into_device().bytes().to_vec(alloc)?;
    let (_, mut store) = open(alloc, bytes)?;
    assert!(rt; goes_on(alloc, &mut store, 2)?);
    Ok(())
}

/// Entries that come and go never fill a journal: a base takes the place of those that were kept.
#[test]
fn entries_fill_no_journal(rt: HostRuntime) -> Result<(), Fail> {
    let alloc = rt.alloc();
    let device = Memory::new(
        alloc,
        vec![in alloc; 0u8; 2 * HALF + 8 * 4_000]?,
        TornWrites::OldOrNew,
    );
    let mut kept = KeptEntries::create(alloc, device, HALF, 4_000)?;
    let mut store = Store::new(alloc)?;
    let ask = ask_of(alloc, 3)?;
    assert_eq!(rt; class_of(&ask), EntryClass::Changes);
    for number in 1..=900 {
        let mut entry = entry_of(alloc, 3)?;
        entry.request.number = number;
        kept.rewrite_if_due(&store, 100)?;
        kept.add(entry.moment, &entry.request)?;
        kept.commit()?;
        answered(alloc, &mut store, &entry)?;
    }
    let bytes = kept.into_journal().into_device().bytes().to_vec(alloc)?;
    if bytes.len() < 2 * HALF {
        return Err(Broken::NoValue.into());
    }
    let (_, again) = KeptEntries::open(
        alloc,
        Memory::new(alloc, bytes, TornWrites::OldOrNew),
        HALF,
        4_000,
    )?;
    assert_eq!(rt; again.count(), 900);
    Ok(())
}
