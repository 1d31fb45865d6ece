//! What is told of a server, read from its frames.
use crate::links::{Member, create, first_piece, node, party};
use cq_base::{Moment, Party};
use cq_frames::{Response, frame_of, read_response};
use cq_process::{PutFault, Written, arrive, standing};
use cq_process_frames::{Unput, put_piece, tell_done, tell_waiting};
use std::alloc::Global;
use std::process::Abort;
use std::test::Fail;

/// What is told of the next piece for the party; none where its link can't be opened.
fn tell(
    node: &mut Member,
    to: Party,
    out: &mut Vec<u8>,
) -> Option<Result<Result<Written, PutFault>, Unput>> {
    if node.links.open(to).is_err() {
        return None;
    }
    if !node.links.is_open(&to) {
        return None;
    }
    Some(put_piece(&mut node.links, &mut node.core, to, out, 1_000))
}

/// The first frame is a response, and what stands behind it.
fn next(alloc: Global, bytes: &[u8]) -> Result<(Response, &[u8]), Fail> {
    let (frame, rest) = frame_of(bytes)?;
    let response = match read_response(alloc, frame) {
        Ok(response) => response,
        Err(fault) => return Err(fault.into()),
    };
    Ok((response, rest))
}

fn is_first_put(response: &Response) -> bool {
    match response {
        Response::Put { to, number, piece } => {
            *to != Party::Clients && *number == first_piece(1) && !piece.as_bytes().is_empty()
        }
        _ => false,
    }
}

fn check_read(rt: &impl Abort, alloc: Global, bytes: &[u8]) -> Result<(), Fail> {
    let (first, rest) = next(alloc, bytes)?;
    assert!(rt; is_first_put(&first));
    let (second, rest) = next(alloc, rest)?;
    assert!(rt; matches!(second, Response::Waiting { .. }));
    let (third, rest) = next(alloc, rest)?;
    assert!(rt; matches!(third, Response::Done { .. }));
    assert!(rt; rest.is_empty());
    Ok(())
}

fn check_told(rt: &impl Abort, alloc: Global, head: &mut Member) -> Result<(), Fail> {
    let request = create(alloc)?;
    assert!(rt; arrive(&mut head.core, &request, Moment::zero()) == Ok(()));
    let mut out = Vec::new(alloc);
    let told = tell(head, party(2)?, &mut out);
    assert!(rt;
        told == Some(Ok(Ok(Written::Message {
            number: first_piece(1)
        })))
    );
    let length = out.len();
    let told = tell(head, party(2)?, &mut out);
    assert!(rt; told == Some(Ok(Ok(Written::Nothing))));
    assert!(rt; out.len() == length);
    out.reserve(44)?;
    tell_waiting(&mut out, &party(2)?);
    tell_done(&mut out, &standing(&head.core));
    check_read(rt, alloc, &out)
}

#[test]
fn what_is_told_is_read(rt: HostRuntime) -> Result<(), Fail> {
    let alloc = rt.alloc();
    let mut head = node(alloc, 1)?;
    check_told(&rt, alloc, &mut head)
}
