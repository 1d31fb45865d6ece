//! The groups that have messages, each with the sequence numbers of these.
ghost use Rattle.std.specs.Prelude.{◌≡◌, ℕ, ◌<◌, ◌==◌, ◌++◌, [], ◌∷◌, List, filter, not, max, length, get_or, None, option_copied, if◌then◌else◌, ◌≤◌, IfOk, OnOk, OnErr};
ghost use Rattle.std.specs.Str.{bytes_eq};
ghost use Rattle.cq_messages.specs.within.Groups.{group_at, numbers_at, handed_at, without};

use cq_base::{GroupId, NoMemory};
use std::alloc::{AllocError, Global};
use std::collections::{HashMap, VecDeque};
use std::marker::Model;

/// Takes the first of the numbers that is that one out. It takes no memory.
fn take_first(numbers: &mut VecDeque<u64>, number: u64)
    ensures { numbers.new.items ≡ without number numbers.old.items }
{
    for i in 0..numbers.len() {
        if numbers[i] == number {
            numbers.remove(i);
            return;
        }
    }
}

/// What is kept of a group that has messages.
#[derive(Drop)]
pub struct Group {
    numbers: VecDeque<u64>,
    handed: u64,
}

impl Model for Group {
    ghost use Rattle.cq_messages.specs.within.Groups as spec;

    ghost Value = { spec.GroupKept };

    ghost view = { λ g. record { numbers = g.numbers.items; handed = g.handed } };
}

impl Group {
    /// The group of one message.
    fn of(alloc: Global, number: u64) -> Result<Group, NoMemory>
        ensures { IfOk result (λ g. g ≡ record { numbers = number ∷ []; handed = 0 }) }
    {
        let mut numbers = VecDeque::new(alloc);
        numbers.push_back(number)?;
        Ok(Group { numbers, handed: 0 })
    }

    /// How many messages it has.
    pub fn len(&self) -> usize
        ensures { result ≡ length self.now.numbers }
    {
        self.numbers.len()
    }

    /// The sequence number of the message at that place of the group.
    pub fn number(&self, place: usize) -> u64
        requires { place < length self.now.numbers }
        ensures { result ≡ get_or self.now.numbers place 0 }
    {
        self.numbers[place]
    }

    /// None of its messages after this one was handed out.
    pub fn handed(&self) -> u64
        ensures { result ≡ self.now.handed }
    {
        self.handed
    }

    /// Adds a message at its end.
    fn push(&mut self, number: u64) -> Result<(), NoMemory>
        ensures ok { OnOk result (self.new ≡ record { numbers = self.old.numbers ++ number ∷ []; handed = self.old.handed }) }
        ensures err { OnErr result (self.new ≡ self.old) }
    {
        self.numbers.push_back(number)?;
        Ok(())
    }

    /// Hands out the message of that number.
    fn raise(&mut self, number: u64)
        ensures { self.new ≡ record { numbers = self.old.numbers; handed = max self.old.handed number } }
    {
        self.handed = self.handed.max(number);
    }

    /// Takes a message out, and answers how many are left.
    fn take_out(&mut self, number: u64) -> usize
        ensures group { self.new ≡ record { numbers = without number self.old.numbers; handed = self.old.handed } }
        ensures left { result ≡ length self.new.numbers }
    {
        take_first(&mut self.numbers, number);
        self.numbers.len()
    }
}

/// O(messages).
impl Clone for Group {
    ghost is_clone = { λ group copy. copy ≡ group };

    fn clone(&self) -> Result<Group, AllocError> {
        Ok(Group {
            numbers: self.numbers.clone()?,
            handed: self.handed,
        })
    }
}

/// The groups that have messages, found by a hash of the id.
pub struct Groups {
    kept: HashMap<GroupId, Group>,
}

/// Written out, not derived: CONTRIBUTING.md, "Drop".
impl Drop for Groups {
    fn drop(self) {
        let Groups { kept: _ } = self;
    }
}

impl Model for Groups {
    ghost use Rattle.std.specs.Prelude.{List, ℕ};
    ghost use Rattle.cq_messages.specs.within.Groups as spec;

    ghost Value = { List (List ℕ × spec.GroupKept) };

    ghost view = { λ g. g.kept.entries };
}

impl Groups {
    /// No group has a message.
    pub fn new(alloc: Global) -> Groups
        ensures { (group : List ℕ) → group_at result group ≡ None }
    {
        Groups {
            kept: HashMap::new(alloc),
        }
    }

    /// What is kept of a group.
    pub fn get(&self, group: &GroupId) -> Option<&Group>
        ensures { option_copied result ≡ group_at self.now group.now }
    {
        self.kept.get(group)
    }

    /// The same groups. It shares the ids: O(groups and messages).
    pub fn try_copy(&self) -> Result<Groups, NoMemory>
        ensures { IfOk result (λ copy. (group : List ℕ) → group_at copy group ≡ group_at self.now group) }
    {
        Ok(Groups {
            kept: self.kept.clone()?,
        })
    }

    /// Adds a message at the end of its group.
    pub fn add(&mut self, alloc: Global, group: &GroupId, number: u64) -> Result<(), NoMemory>
        ensures numbers { OnOk result ((g : List ℕ) → numbers_at self.new g
            ≡ (if bytes_eq group.now g then numbers_at self.old g ++ number ∷ [] else numbers_at self.old g)) }
        ensures handed { OnOk result ((g : List ℕ) → handed_at self.new g ≡ handed_at self.old g) }
        ensures err { OnErr result ((g : List ℕ) → group_at self.new g ≡ group_at self.old g) }
    {
        match self.kept.get_mut(group) {
            Some(kept) => kept.push(number),
            None => {
                let kept = Group::of(alloc, number)?;
                self.kept.insert(group.try_copy()?, kept)?;
                Ok(())
            }
        }
    }

    /// Hands out the message of that number.
    pub fn raise(&mut self, group: &GroupId, number: u64)
        ensures numbers { (g : List ℕ) → numbers_at self.new g ≡ numbers_at self.old g }
        ensures others { (g : List ℕ) → handed_at self.old g ≤ handed_at self.new g }
        ensures handed { 0 < length (numbers_at self.old group.now) → number ≤ handed_at self.new group.now }
    {
        match self.kept.get_mut(group) {
            Some(kept) => kept.raise(number),
            None => (),
        }
    }

    /// Takes a message out of its group, and answers how many are left.
    fn shrink(&mut self, group: &GroupId, number: u64) -> usize
        ensures numbers { (g : List ℕ) → numbers_at self.new g
            ≡ (if bytes_eq group.now g then without number (numbers_at self.old g) else numbers_at self.old g) }
        ensures handed { (g : List ℕ) → handed_at self.new g ≡ handed_at self.old g }
        ensures left { result ≡ length (numbers_at self.new group.now) }
    {
        match self.kept.get_mut(group) {
            Some(kept) => kept.take_out(number),
            None => 0,
        }
    }

    /// Forgets a group.
    fn forget(&mut self, group: &GroupId)
        ensures { (g : List ℕ) → group_at self.new g ≡ (if bytes_eq group.now g then None else group_at self.old g) }
    {
        let _ = self.kept.remove(group);
    }

    /// Takes a message out of its group. It takes no memory.
    pub fn take_out(&mut self, group: &GroupId, number: u64)
        ensures numbers { (g : List ℕ) → numbers_at self.new g
            ≡ (if bytes_eq group.now g then without number (numbers_at self.old g) else numbers_at self.old g) }
        ensures handed { (g : List ℕ) → 0 < length (numbers_at self.new g) → handed_at self.new g ≡ handed_at self.old g }
    {
        let left = self.shrink(group, number);
        if left == 0 {
            self.forget(group);
        }
    }
}
