//! The window: the accepted sends in order, and what is known of each of their deduplication ids.
ghost use Rattle.std.specs.Prelude.{◌≡◌, ℕ, ◌+◌, ◌<◌, ◌≤◌, ◌++◌, List, [], ◌∷◌, true, false, filter, length, drop, slice_get, if◌then◌else◌, Some, None, IfOk, OnOk, OnErr};
ghost use Rattle.std.specs.Option.{option_map};
ghost use Rattle.std.specs.Str.{bytes_eq};
ghost use Rattle.std.specs.List.{find, All};
ghost use Rattle.std.specs.HashMap.{spare};
ghost use Rattle.std.specs.VecDeque.{deque_len, deque_capacity};
ghost use Rattle.cq_base.specs.queue.Incarnations.{is_recent, repeated};
ghost use Rattle.cq_queue.specs.Parts.{AreInOrder};
ghost use Rattle.cq_queue.specs.within.Windows.{has_id, IsBy, known_of, known_at, IsRising, IsWindow};

use crate::accepted::{Accepted, Known};
use cq_base::{DedupId, Moment, NoMemory};
use std::alloc::Global;
use std::collections::{HashMap, VecDeque};
use std::marker::Model;

/// Forgets what is known of an id. It takes no memory. O(1) expected.
fn forget(known: &mut HashMap<DedupId, Known>, id: &DedupId)
    ensures known { (other : List ℕ) → known_at known.new.entries other
        ≡ (if bytes_eq id.now other then None else known_at known.old.entries other) }
    ensures spare { spare known.old ≤ spare known.new }
{
    let _ = known.remove(id);
}

/// Takes the first accepted send out, and its id with it. It takes no memory. O(1) expected.
fn forget_first(accepted: &mut VecDeque<Accepted>, known: &mut HashMap<DedupId, Known>)
    requires { IsWindow accepted.old.items known.old.entries }
    ensures window { IsWindow accepted.new.items known.new.entries }
    ensures items { accepted.new.items ≡ drop 1 accepted.old.items }
    ensures capacity { deque_capacity accepted.new ≡ deque_capacity accepted.old }
    ensures spare { spare known.old ≤ spare known.new }
{
    match accepted.pop_front() {
        Some(first) => forget(known, &first.dedup),
        None => (),
    }
}

/// Forgets those whose five minutes are over at that moment. It takes no memory. O(1) expected for each of them.
fn forget_old(
    accepted: &mut VecDeque<Accepted>,
    known: &mut HashMap<DedupId, Known>,
    moment: Moment,
)
    requires { IsWindow accepted.old.items known.old.entries }
    ensures window { IsWindow accepted.new.items known.new.entries }
    ensures items { accepted.new.items ≡ filter (is_recent moment) accepted.old.items }
    ensures fewer { length accepted.new.items ≤ length accepted.old.items }
    ensures capacity { deque_capacity accepted.new ≡ deque_capacity accepted.old }
    ensures spare { spare known.old ≤ spare known.new }
{
    for _ in 0..accepted.len() {
        if accepted[0].is_recent(moment) {
            return;
        }
        forget_first(accepted, known);
    }
}

/// Makes room for one more. O(1) amortized.
fn reserve(
    accepted: &mut VecDeque<Accepted>,
    known: &mut HashMap<DedupId, Known>,
) -> Result<(), NoMemory>
    requires { IsWindow accepted.old.items known.old.entries }
    ensures window { IsWindow accepted.new.items known.new.entries }
    ensures items { accepted.new.items ≡ accepted.old.items }
    ensures places { OnOk result (deque_len accepted.new < deque_capacity accepted.new) }
    ensures spare { OnOk result (0 < spare known.new) }
{
    accepted.reserve(1)?;
    known.reserve(1)?;
    Ok(())
}

/// Writes what is known of an id. It takes no memory. O(1) expected.
fn know(known: &mut HashMap<DedupId, Known>, id: DedupId, one: Known)
    requires { 0 < spare known.old }
    ensures { (other : List ℕ) → known_at known.new.entries other
        ≡ (if bytes_eq id other then Some one else known_at known.old.entries other) }
{
    let _ = known.insert(id, one);
}

/// Adds one more, whose id isn't there. It takes no memory. O(1) expected.
fn push(
    accepted: &mut VecDeque<Accepted>,
    known: &mut HashMap<DedupId, Known>,
    one: Accepted,
    id: DedupId,
)
    requires window { IsWindow accepted.old.items known.old.entries }
    requires same { id ≡ one.dedup }
    requires new { find (has_id one.dedup) accepted.old.items ≡ None }
    requires latest { All (IsBy one.moment) accepted.old.items }
    requires places { deque_len accepted.old < deque_capacity accepted.old }
    requires spare { 0 < spare known.old }
    ensures window { IsWindow accepted.new.items known.new.entries }
    ensures items { accepted.new.items ≡ accepted.old.items ++ one ∷ [] }
{
    know(known, id, one.known());
    accepted.push_back_reserved(one);
}

/// Whether none came after that moment. O(1).
fn is_latest(accepted: &VecDeque<Accepted>, moment: Moment) -> bool
    requires { IsRising 0 accepted.now.items }
    ensures latest { result ≡ true → All (IsBy moment) accepted.now.items }
    ensures only { result ≡ false → All (IsBy moment) accepted.now.items → ⊥ }
{
    let len = accepted.len();
    len == 0 || accepted[len - 1].moment.get() <= moment.get()
}

/// Accepted sends in order of their moments, and what is known of each of their ids. Contracts see the list of
/// them, and for how many more there is room.
pub struct Window {
    accepted: VecDeque<Accepted>,
    known: HashMap<DedupId, Known>,
}

/// Written out, not derived: CONTRIBUTING.md, "Drop".
impl Drop for Window {
    fn drop(self) {
        let Window {
            accepted: _,
            known: _,
        } = self;
    }
}

impl Model for Window {
    ghost use Rattle.std.specs.Prelude.{◌-◌, min};
    ghost use Rattle.std.specs.HashMap.{spare};
    ghost use Rattle.std.specs.VecDeque.{deque_capacity, deque_len};
    ghost use Rattle.cq_queue.specs.within.Windows as spec;
    ghost use Rattle.cq_queue.specs.within.Windows.{IsWindow};

    ghost Value = { spec.WindowKept };

    ghost view = { λ w. record {
      items = w.accepted.items;
      room = min (deque_capacity w.accepted - deque_len w.accepted) (spare w.known);
    } };

    ghost invariant = { λ w. IsWindow w.accepted.items w.known.entries };
}

impl Window {
    /// No accepted sends. It takes no memory. O(1).
    pub fn new(alloc: Global) -> Window
        ensures { result.items ≡ [] }
    {
        Window {
            accepted: VecDeque::new(alloc),
            known: HashMap::new(alloc),
        }
    }

    /// How many there are. O(1).
    pub fn len(&self) -> usize
        ensures { result ≡ length self.now.items }
    {
        self.accepted.len()
    }

    /// The sequence number with which a send of that deduplication id is answered at that moment, if it
    /// repeats one of these. O(1) expected.
    pub fn repeated(&self, dedup: &DedupId, moment: Moment) -> Option<u64>
        ensures { result ≡ repeated dedup.now moment self.now.items }
    {
        match self.known.get(dedup) {
            Some(known) => known.answered(moment),
            None => None,
        }
    }

    /// Forgets those whose five minutes are over at that moment. It takes no memory. O(1) expected for each of
    /// them.
    pub fn forget_old(&mut self, moment: Moment)
        ensures items { self.new.items ≡ filter (is_recent moment) self.old.items }
    {
        forget_old(&mut self.accepted, &mut self.known, moment);
    }

    /// Makes room for one more. O(1) amortized.
    pub fn reserve(&mut self) -> Result<(), NoMemory>
        ensures items { self.new.items ≡ self.old.items }
        ensures room { OnOk result (0 < self.new.room) }
    {
        reserve(&mut self.accepted, &mut self.known)
    }

    /// Adds one more, that repeats none of these and is as late as any, and forgets those whose five minutes are
    /// over at its moment. `id` is a copy of its id. It takes no memory. O(1) expected, and for each that it
    /// forgets.
    pub fn accept(&mut self, one: Accepted, id: DedupId)
        requires same { id ≡ one.dedup }
        requires new { repeated one.dedup one.moment self.old.items ≡ None }
        requires latest { All (IsBy one.moment) self.old.items }
        requires room { 0 < self.old.room }
        ensures items { self.new.items ≡ filter (is_recent one.moment) self.old.items ++ one ∷ [] }
    {
        forget_old(&mut self.accepted, &mut self.known, one.moment);
        push(&mut self.accepted, &mut self.known, one, id);
    }

    /// The accepted send at that place. O(1).
    pub fn get(&self, index: usize) -> Option<&Accepted>
        ensures item { option_map (λ a. a.now) result ≡ slice_get self.now.items index }
        ensures order { AreInOrder self.now.items }
    {
        self.accepted.get(index)
    }

    /// Whether no accepted send has the same id, and none came after this one. O(1) expected.
    pub fn is_next(&self, one: &Accepted) -> bool
        ensures new { result ≡ true → find (has_id one.now.dedup) self.now.items ≡ None }
        ensures latest { result ≡ true → All (IsBy one.now.moment) self.now.items }
        ensures only { result ≡ false → find (has_id one.now.dedup) self.now.items ≡ None
            → All (IsBy one.now.moment) self.now.items → ⊥ }
    {
        self.known.get(&one.dedup).is_none() && is_latest(&self.accepted, one.moment)
    }

    /// Adds one more, that has an id of its own and is as late as any. `id` is a copy of its id. After `NoMemory` they are
    /// as before. O(1) expected and amortized.
    pub fn restore(&mut self, one: Accepted, id: DedupId) -> Result<(), NoMemory>
        requires same { id ≡ one.dedup }
        requires new { find (has_id one.dedup) self.old.items ≡ None }
        requires latest { All (IsBy one.moment) self.old.items }
        ensures ok { OnOk result (self.new.items ≡ self.old.items ++ one ∷ []) }
        ensures err { OnErr result (self.new.items ≡ self.old.items) }
    {
        reserve(&mut self.accepted, &mut self.known)?;
        push(&mut self.accepted, &mut self.known, one, id);
        Ok(())
    }

    /// The same accepted sends. It shares the ids: O(n) expected.
    pub fn try_copy(&self) -> Result<Window, NoMemory>
        ensures { IfOk result (λ copy. copy.items ≡ self.now.items) }
    {
        Ok(Window {
            accepted: self.accepted.clone()?,
            known: self.known.clone()?,
        })
    }
}
