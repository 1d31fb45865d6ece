//! Ends over memory, for tests of nodes in one thread.
ghost use Rattle.std.specs.Prelude.{◌≡◌, [], IfOk};
ghost use Rattle.cq_link.specs.Memories.{memory_put, memory_taken};

use crate::ends::{Full, PutEnd, TakeEnd};
use crate::fault::LinkFault;
use std::alloc::Global;
use std::cell::RefCell;
use std::collections::VecDeque;
use std::rc::Rc;
use std::snapshot::Snapshot;
use std::sync::Wait;

/// Makes ends over memory.
pub struct Memory;

/// An end over memory on which one thread puts items. No clause relates its items to those of the other end.
#[derive(Drop)]
pub struct MemoryPut<T: Drop> {
    number: u64,
    items: Rc<RefCell<VecDeque<T>>>,
    capacity: usize,
    log: Vec<Snapshot<T>>,
}

/// An end over memory from which the same thread takes items.
#[derive(Drop)]
pub struct MemoryTake<T: Drop> {
    number: u64,
    items: Rc<RefCell<VecDeque<T>>>,
    log: Vec<Snapshot<T>>,
}

impl Memory {
    /// Two ends over one list, which is full at so many items. Room for an item is taken as it is put. The number tells
    /// their link from others: who makes several gives each its own.
    pub fn make<T: Drop>(
        alloc: Global,
        number: u64,
        capacity: usize,
    ) -> Result<(MemoryPut<T>, MemoryTake<T>), LinkFault>
        ensures link { IfOk result (λ ends. (ends.0.number ≡ number) × (ends.1.number ≡ number)) }
        ensures nothing { IfOk result (λ ends. (memory_put ends.0 ≡ []) × (memory_taken ends.1 ≡ [])) }
    {
        let Ok(items) = Rc::new(alloc, RefCell::new(VecDeque::new(alloc))) else {
            return Err(LinkFault::NoMemory);
        };
        let others = Rc::clone(&items)?;
        Ok((
            MemoryPut {
                number,
                items,
                capacity,
                log: Vec::new(alloc),
            },
            MemoryTake {
                number,
                items: others,
                log: Vec::new(alloc),
            },
        ))
    }
}

impl<T: Drop> PutEnd<T> for MemoryPut<T> {
    ghost use Rattle.std.specs.Prelude.{ℕ};
    ghost use Rattle.cq_link.specs.Memories.{memory_put};

    ghost Id = { ℕ };

    ghost list = { memory_put };

    ghost link = { λ end. end.number };

    fn put<R: Wait>(&mut self, _rt: &R, item: T) -> Result<(), Full<T>> {
        let Ok(()) = self.log.reserve(1) else {
            return Err(Full(item));
        };
        let seen = Snapshot::of(&item);
        match self.items.try_borrow_mut() {
            Ok(mut items) => {
                if items.len() >= self.capacity {
                    return Err(Full(item));
                }
                match items.push_back(item) {
                    Ok(()) => {
                        self.log.push_reserved(seen);
                        Ok(())
                    }
                    Err(refused) => Err(Full(refused.value)),
                }
            }
            Err(_) => Err(Full(item)),
        }
    }
}

impl<T: Drop> TakeEnd<T> for MemoryTake<T> {
    ghost use Rattle.std.specs.Prelude.{ℕ};
    ghost use Rattle.cq_link.specs.Memories.{memory_taken};

    ghost Id = { ℕ };

    ghost list = { memory_taken };

    ghost link = { λ end. end.number };

    fn take<R: Wait>(&mut self, _rt: &R) -> Option<T> {
        let Ok(()) = self.log.reserve(1) else {
            return None;
        };
        match self.items.try_borrow_mut() {
            Ok(mut items) => match items.pop_front() {
                Some(item) => {
                    self.log.push_reserved(Snapshot::of(&item));
                    Some(item)
                }
                None => None,
            },
            Err(_) => None,
        }
    }

    fn is_empty(&mut self) -> bool {
        match self.items.try_borrow() {
            Ok(items) => items.is_empty(),
            Err(_) => false,
        }
    }
}
