//! Two servers of a chain, each with its links, and what goes from one to the other in pieces.
use cq_base::{Ask, ChainSize, Moment, Party, QueueName, Request, Seconds, ServerId};
use cq_chain::Server;
use cq_frames::PieceNumber;
use cq_process::{Links, PutFault, TakeFault, Taken, Written, arrive, standing};
use std::alloc::Global;
use std::process::Abort;
use std::test::Fail;

/// A server, and its links.
#[derive(Drop)]
pub struct Member {
    pub core: Server,
    pub links: Links,
}

pub fn party(number: u32) -> Result<Party, Fail> {
    let id = ServerId::new(number).ok_or("no server")?;
    Ok(Party::Server(id))
}

/// A member of a first chain, if it is one.
fn first(alloc: Global, id: ServerId, size: ChainSize) -> Option<Server> {
    if u32::from(size.get()) < id.get() {
        return None;
    }
    Server::first(alloc, id, size).ok()
}

/// That server of a first chain of two.
pub fn node(alloc: Global, number: u32) -> Result<Member, Fail> {
    let id = ServerId::new(number).ok_or("no server")?;
    let size = ChainSize::new(2).ok_or("no size")?;
    let core = first(alloc, id, size).ok_or("no member")?;
    Ok(Member {
        core,
        links: Links::new(alloc),
    })
}

/// The first piece of the message of that number.
pub fn first_piece(message: u64) -> PieceNumber {
    PieceNumber { message, index: 0 }
}

/// Client 1 creates `q.fifo`.
pub fn create(alloc: Global) -> Result<Request, Fail> {
    let queue = QueueName::new(alloc, "q.fifo")?;
    let visibility = Seconds::new(30).ok_or("no timeout")?;
    Ok(Request {
        client: 1,
        number: 1,
        ask: Ask::Create {
            queue,
            visibility,
            content: false,
        },
    })
}

/// What the node writes next for the party; none where its link can't be opened.
fn put(node: &mut Member, to: Party, piece: &mut Vec<u8>) -> Option<Result<Written, PutFault>> {
    if node.links.open(to).is_err() {
        return None;
    }
    if !node.links.is_open(&to) {
        return None;
    }
    Some(node.links.put_next(&mut node.core, to, piece, 1_000))
}

fn take(
    node: &mut Member,
    from: Party,
    number: PieceNumber,
    piece: &[u8],
) -> Result<Taken, TakeFault> {
    node.links.take(&mut node.core, from, number, piece)
}

/// The first message goes from one node to the other one, once.
fn check_passes(
    rt: &impl Abort,
    alloc: Global,
    from: (&mut Member, Party),
    to: (&mut Member, Party),
) -> Result<(), Fail> {
    let mut piece = Vec::new(alloc);
    let written = put(from.0, to.1, &mut piece);
    assert!(rt;
        written
            == Some(Ok(Written::Message {
                number: first_piece(1)
            }))
    );
    assert!(rt; take(to.0, from.1, first_piece(2), &piece) == Err(TakeFault::NotNext));
    let later = PieceNumber {
        message: 1,
        index: 1,
    };
    assert!(rt; take(to.0, from.1, later, &piece) == Err(TakeFault::NotNext));
    assert!(rt; take(to.0, from.1, first_piece(1), &piece) == Ok(Taken::Message));
    assert!(rt; take(to.0, from.1, first_piece(1), &piece) == Err(TakeFault::NotNext));
    assert!(rt; put(from.0, to.1, &mut piece) == Some(Ok(Written::Nothing)));
    Ok(())
}

fn check_the_entry_goes_round(
    rt: &impl Abort,
    alloc: Global,
    head: &mut Member,
    tail: &mut Member,
) -> Result<(), Fail> {
    let request = create(alloc)?;
    assert!(rt; arrive(&mut head.core, &request, Moment::zero()) == Ok(()));
    check_passes(rt, alloc, (head, party(1)?), (tail, party(2)?))?;
    check_passes(rt, alloc, (tail, party(2)?), (head, party(1)?))?;
    assert!(rt; standing(&head.core).acked == 1);
    let mut answer = Vec::new(alloc);
    let written = put(tail, Party::Clients, &mut answer);
    assert!(rt;
        written
            == Some(Ok(Written::Message {
                number: first_piece(1)
            }))
    );
    Ok(())
}

#[test]
fn the_entry_goes_round(rt: HostRuntime) -> Result<(), Fail> {
    let alloc = rt.alloc();
    let mut head = node(alloc, 1)?;
    let mut tail = node(alloc, 2)?;
    check_the_entry_goes_round(&rt, alloc, &mut head, &mut tail)
}

fn check_nothing_comes_of_the_gone(
    rt: &impl Abort,
    alloc: Global,
    head: &mut Member,
    tail: ServerId,
) -> Result<(), Fail> {
    let request = create(alloc)?;
    assert!(rt; arrive(&mut head.core, &request, Moment::zero()) == Ok(()));
    let mut piece = Vec::new(alloc);
    head.links.open(Party::Server(tail))?;
    assert!(rt; !head.links.is_gone(&Party::Server(tail)));
    head.links.gone(&mut head.core, tail)?;
    assert!(rt; head.links.is_gone(&Party::Server(tail)));
    assert!(rt; take(head, Party::Server(tail), first_piece(1), &piece) == Err(TakeFault::NotNext));
    assert!(rt; put(head, Party::Server(tail), &mut piece) == Some(Ok(Written::Nothing)));
    Ok(())
}

#[test]
fn nothing_comes_of_the_gone(rt: HostRuntime) -> Result<(), Fail> {
    let alloc = rt.alloc();
    let mut head = node(alloc, 1)?;
    let tail = ServerId::new(2).ok_or("no server")?;
    check_nothing_comes_of_the_gone(&rt, alloc, &mut head, tail)
}
