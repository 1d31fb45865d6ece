//! Responses that are told in room that was made before.
ghost use Rattle.std.specs.Prelude.{◌≡◌, ◌+◌, ◌≤◌, ◌++◌, length, vec_capacity, vec_len};
ghost use Rattle.cq_base.specs.declared.party.Party.TheVariants as parties;
ghost use Rattle.cq_frames.specs.declared.response.Response.TheVariants as responses;
ghost use Rattle.cq_process_frames.specs.Frames.{frame};
ghost use Rattle.cq_wire.specs.Layout.{flag, number32, number64};

use cq_base::{Party, ServerId};
use cq_frames::Standing;
use cq_wire::VERSION;

/// Writes bytes for which there is room behind the others. It takes no memory.
fn append(out: &mut Vec<u8>, bytes: &[u8])
    requires { vec_len out.old + length bytes.now ≤ vec_capacity out.old }
    ensures items { out.new.items ≡ out.old.items ++ bytes.now }
    ensures len { vec_len out.new ≡ vec_len out.old + length bytes.now }
    ensures capacity { vec_capacity out.old ≤ vec_capacity out.new }
{
    match out.extend_from_slice(bytes) {
        Ok(()) => (),
        Err(_) => unreachable!(),
    }
}

#[tactic(auto, unfolding(cq_wire::specs::Layout::number32))]
fn append_u32(out: &mut Vec<u8>, number: u32)
    requires { vec_len out.old + 4 ≤ vec_capacity out.old }
    ensures items { out.new.items ≡ out.old.items ++ number32 number }
    ensures len { vec_len out.new ≡ vec_len out.old + 4 }
    ensures capacity { vec_capacity out.old ≤ vec_capacity out.new }
{
    append(out, &number.to_le_bytes());
}

#[tactic(auto, unfolding(cq_wire::specs::Layout::number64))]
fn append_u64(out: &mut Vec<u8>, number: u64)
    requires { vec_len out.old + 8 ≤ vec_capacity out.old }
    ensures items { out.new.items ≡ out.old.items ++ number64 number }
    ensures len { vec_len out.new ≡ vec_len out.old + 8 }
    ensures capacity { vec_capacity out.old ≤ vec_capacity out.new }
{
    append(out, &number.to_le_bytes());
}

#[tactic(auto, unfolding(cq_wire::specs::Layout::flag))]
fn append_flag(out: &mut Vec<u8>, is_set: bool)
    requires { vec_len out.old + 1 ≤ vec_capacity out.old }
    ensures items { out.new.items ≡ out.old.items ++ flag is_set }
    ensures len { vec_len out.new ≡ vec_len out.old + 1 }
    ensures capacity { vec_capacity out.old ≤ vec_capacity out.new }
{
    if is_set {
        append(out, &[1]);
    } else {
        append(out, &[0]);
    }
}

/// Tells that the command was refused, by the fault of that number, in room that is there: O(1).
pub fn tell_refused(out: &mut Vec<u8>, code: u32)
    requires { vec_len out.old + 10 ≤ vec_capacity out.old }
    ensures items { out.new.items ≡ out.old.items ++ frame (responses.Refused code) }
    ensures len { vec_len out.new ≡ vec_len out.old + 10 }
    ensures capacity { vec_capacity out.old ≤ vec_capacity out.new }
{
    append(out, &[6, 0, 0, 0, VERSION, 1]);
    append_u32(out, code);
}

/// Tells that the bytes of a frame are those of no command, by the fault of that number, in room that is there: O(1).
pub fn tell_unread(out: &mut Vec<u8>, code: u32)
    requires { vec_len out.old + 10 ≤ vec_capacity out.old }
    ensures items { out.new.items ≡ out.old.items ++ frame (responses.Unread code) }
    ensures len { vec_len out.new ≡ vec_len out.old + 10 }
    ensures capacity { vec_capacity out.old ≤ vec_capacity out.new }
{
    append(out, &[6, 0, 0, 0, VERSION, 2]);
    append_u32(out, code);
}

/// Tells that all that came of a command at the master was told, in room that is there: O(1).
#[tactic(auto, unfolding(cq_frames::specs::Layout::response, cq_wire::specs::Layout::whole, cq_wire::specs::Layout::text, cq_wire::specs::Layout::number32))]
pub fn tell_heard(out: &mut Vec<u8>)
    requires { vec_len out.old + 6 ≤ vec_capacity out.old }
    ensures items { out.new.items ≡ out.old.items ++ frame responses.Heard }
    ensures len { vec_len out.new ≡ vec_len out.old + 6 }
    ensures capacity { vec_capacity out.old ≤ vec_capacity out.new }
{
    append(out, &[2, 0, 0, 0, VERSION, 6]);
}

/// Tells where the server stands, in room that is there: O(1).
pub fn tell_done(out: &mut Vec<u8>, standing: &Standing)
    requires { vec_len out.old + 33 ≤ vec_capacity out.old }
    ensures items { out.new.items ≡ out.old.items ++ frame (responses.Done standing.now) }
    ensures len { vec_len out.new ≡ vec_len out.old + 33 }
    ensures capacity { vec_capacity out.old ≤ vec_capacity out.new }
{
    append(out, &[29, 0, 0, 0, VERSION, 5]);
    append_u64(out, standing.count);
    append_u64(out, standing.acked);
    append_u64(out, standing.last.get());
    append_flag(out, standing.is_head);
    append_flag(out, standing.is_acting);
    append_flag(out, standing.is_full);
}

/// Tells that a message for that server waits.
fn tell_server_waits(out: &mut Vec<u8>, id: ServerId)
    requires { vec_len out.old + 11 ≤ vec_capacity out.old }
    ensures items { out.new.items ≡ out.old.items ++ frame (responses.Waiting (parties.Server id)) }
    ensures len { vec_len out.new ≡ vec_len out.old + 11 }
    ensures capacity { vec_capacity out.old ≤ vec_capacity out.new }
{
    append(out, &[7, 0, 0, 0, VERSION, 3, 2]);
    append_u32(out, id.get());
}

/// Tells that a message for that party waits, in room that is there: O(1).
#[tactic(auto, unfolding(cq_frames::specs::Layout::party, cq_frames::specs::Layout::response, cq_wire::specs::Layout::whole, cq_wire::specs::Layout::text, cq_wire::specs::Layout::number32))]
pub fn tell_waiting(out: &mut Vec<u8>, to: &Party)
    requires { vec_len out.old + 11 ≤ vec_capacity out.old }
    ensures items { out.new.items ≡ out.old.items ++ frame (responses.Waiting to.now) }
    ensures len { vec_len out.new ≤ vec_len out.old + 11 }
    ensures capacity { vec_capacity out.old ≤ vec_capacity out.new }
{
    match to {
        Party::Master => append(out, &[3, 0, 0, 0, VERSION, 3, 0]),
        Party::Clients => append(out, &[3, 0, 0, 0, VERSION, 3, 1]),
        Party::Server(id) => tell_server_waits(out, *id),
    }
}
