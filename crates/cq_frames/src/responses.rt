//! Responses by their kinds, each from the front of bytes. Each answers the response and the bytes behind it.
ghost use Rattle.std.specs.Prelude.{◌≡◌};
ghost use Rattle.cq_frames.specs.Reading.{done_at, put_at, refused_at, response_at, saved_at, standing_at, unread_at, waiting_at};
ghost use Rattle.cq_wire.specs.Reading.{Gives};

use crate::party::{party_of, piece_number_of, piece_of};
use crate::response::{Response, Standing};
use cq_wire::{ReadFault, WireFault, flag_of, moment_of, u32_of, u64_of};
use std::alloc::Global;

#[tactic(auto, unfolding(crate::specs::Reading::standing_at))]
fn standing_of(bytes: &[u8]) -> Result<(Standing, &[u8]), ReadFault>
    ensures { Gives (λ x. (x.0, x.1.now)) result (standing_at bytes.now) }
{
    let (count, rest) = u64_of(bytes)?;
    let (acked, rest) = u64_of(rest)?;
    let (last, rest) = match moment_of(rest) {
        Ok(read) => read,
        Err(fault) => return Err(fault),
    };
    let (is_head, rest) = flag_of(rest)?;
    let (is_acting, rest) = flag_of(rest)?;
    let (is_full, rest) = flag_of(rest)?;
    let standing = Standing {
        count,
        acked,
        last,
        is_head,
        is_acting,
        is_full,
    };
    Ok((standing, rest))
}

#[tactic(auto, unfolding(crate::specs::Reading::put_at))]
fn put_of(alloc: Global, bytes: &[u8]) -> Result<(Response, &[u8]), ReadFault>
    ensures { Gives (λ x. (x.0, x.1.now)) result (put_at bytes.now) }
{
    let (to, rest) = match party_of(bytes) {
        Ok(read) => read,
        Err(fault) => return Err(fault),
    };
    let (number, rest) = match piece_number_of(rest) {
        Ok(read) => read,
        Err(fault) => return Err(fault),
    };
    let (piece, rest) = match piece_of(alloc, rest) {
        Ok(read) => read,
        Err(fault) => return Err(fault),
    };
    Ok((Response::Put { to, number, piece }, rest))
}

#[tactic(auto, unfolding(crate::specs::Reading::refused_at))]
fn refused_of(bytes: &[u8]) -> Result<(Response, &[u8]), ReadFault>
    ensures { Gives (λ x. (x.0, x.1.now)) result (refused_at bytes.now) }
{
    let (code, rest) = u32_of(bytes)?;
    Ok((Response::Refused { code }, rest))
}

#[tactic(auto, unfolding(crate::specs::Reading::unread_at))]
fn unread_of(bytes: &[u8]) -> Result<(Response, &[u8]), ReadFault>
    ensures { Gives (λ x. (x.0, x.1.now)) result (unread_at bytes.now) }
{
    let (code, rest) = u32_of(bytes)?;
    Ok((Response::Unread { code }, rest))
}

#[tactic(auto, unfolding(crate::specs::Reading::waiting_at))]
fn waiting_of(bytes: &[u8]) -> Result<(Response, &[u8]), ReadFault>
    ensures { Gives (λ x. (x.0, x.1.now)) result (waiting_at bytes.now) }
{
    let (to, rest) = match party_of(bytes) {
        Ok(read) => read,
        Err(fault) => return Err(fault),
    };
    Ok((Response::Waiting { to }, rest))
}

#[tactic(auto, unfolding(crate::specs::Reading::saved_at))]
fn saved_of(alloc: Global, bytes: &[u8]) -> Result<(Response, &[u8]), ReadFault>
    ensures { Gives (λ x. (x.0, x.1.now)) result (saved_at bytes.now) }
{
    let (count, rest) = u64_of(bytes)?;
    let (chunk, rest) = match piece_of(alloc, rest) {
        Ok(read) => read,
        Err(fault) => return Err(fault),
    };
    Ok((Response::Saved { count, chunk }, rest))
}

#[tactic(auto, unfolding(crate::specs::Reading::done_at))]
fn done_of(bytes: &[u8]) -> Result<(Response, &[u8]), ReadFault>
    ensures { Gives (λ x. (x.0, x.1.now)) result (done_at bytes.now) }
{
    let (standing, rest) = match standing_of(bytes) {
        Ok(read) => read,
        Err(fault) => return Err(fault),
    };
    Ok((Response::Done { standing }, rest))
}

#[tactic(auto, unfolding(crate::specs::Reading::response_at))]
pub fn response_of(alloc: Global, bytes: &[u8]) -> Result<(Response, &[u8]), ReadFault>
    ensures { Gives (λ x. (x.0, x.1.now)) result (response_at bytes.now) }
{
    match bytes {
        [] => Err(ReadFault::Bad(WireFault::Truncated)),
        [0, rest @ ..] => put_of(alloc, rest),
        [1, rest @ ..] => refused_of(rest),
        [2, rest @ ..] => unread_of(rest),
        [3, rest @ ..] => waiting_of(rest),
        [4, rest @ ..] => saved_of(alloc, rest),
        [5, rest @ ..] => done_of(rest),
        [6, rest @ ..] => Ok((Response::Heard, rest)),
        [_, ..] => Err(ReadFault::Bad(WireFault::BadTag)),
    }
}
