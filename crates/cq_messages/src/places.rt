//! Where the slot of a sequence number is.
ghost use Rattle.std.specs.Prelude.{◌≡◌, ℕ, ◌≢◌, ◌<◌, ◌≤◌, length, get_or, IfSome, IsNone};
ghost use Rattle.cq_messages.specs.Slots.{IsAscending, gone};

use crate::slot::Slot;

/// No slot before this place has so large a sequence number: each slot has a larger one than the slot before it, so
/// the last one's tells how far from the end that number can be. O(1).
fn earliest(slots: &[Slot], sequence: u64) -> usize
    requires { IsAscending 0 slots.now }
    ensures within { result ≤ length slots.now }
    ensures below { (k : ℕ) → k < result → (get_or slots.now k gone).sequence < sequence }
{
    let len = slots.len();
    if len == 0 {
        return 0;
    }
    let last = slots[len - 1].sequence;
    if last < sequence {
        return len;
    }
    let after = last - sequence;
    if after < len as u64 {
        len - 1 - after as usize
    } else {
        0
    }
}

/// Each slot from this place on has at least so large a sequence number: as `earliest`, from the first one's. O(1).
fn latest(slots: &[Slot], sequence: u64) -> usize
    requires { IsAscending 0 slots.now }
    ensures within { result ≤ length slots.now }
    ensures above { (k : ℕ) → result ≤ k → k < length slots.now → sequence ≤ (get_or slots.now k gone).sequence }
{
    let len = slots.len();
    if len == 0 {
        return 0;
    }
    let first = slots[0].sequence;
    if sequence < first {
        return 0;
    }
    let before = sequence - first;
    if before < len as u64 {
        before as usize
    } else {
        len
    }
}

/// How many slots have a smaller sequence number: O(1) where no slot was taken out between slots that stand, or else
/// O(log slots).
pub fn count_below(slots: &[Slot], sequence: u64) -> usize
    requires { IsAscending 0 slots.now }
    ensures within { result ≤ length slots.now }
    ensures below { (k : ℕ) → k < result → (get_or slots.now k gone).sequence < sequence }
    ensures above { (k : ℕ) → result ≤ k → k < length slots.now → sequence ≤ (get_or slots.now k gone).sequence }
{
    let mut low = earliest(slots, sequence);
    let mut high = latest(slots, sequence);
    while low < high {
        let middle = low + (high - low) / 2;
        if slots[middle].sequence < sequence {
            low = middle + 1;
        } else {
            high = middle;
        }
    }
    low
}

/// The place of the slot of that sequence number: as `count_below`.
pub fn place_of(slots: &[Slot], sequence: u64) -> Option<usize>
    requires { IsAscending 0 slots.now }
    ensures within { IfSome result (λ k. k < length slots.now) }
    ensures found { IfSome result (λ k. (get_or slots.now k gone).sequence ≡ sequence) }
    ensures none { IsNone result → (k : ℕ) → k < length slots.now → (get_or slots.now k gone).sequence ≢ sequence }
{
    let place = count_below(slots, sequence);
    if place < slots.len() && slots[place].sequence == sequence {
        Some(place)
    } else {
        None
    }
}
