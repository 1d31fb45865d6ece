//! A device in memory. Each call is done at once, so a crash leaves what is there.
ghost use Rattle.std.specs.Prelude.{◌≡◌, ◌⊎◌, [], ◌∷◌, ◌++◌, true, length, drop, OnOk, OnErr};
ghost use Rattle.std.proofs.Common.{inl};
ghost use Rattle.cq_disk.specs.Past.{HadBeen, HasMore, only_bytes, had_splits, no_more, still_more};

use crate::{Device, DeviceFault, TornWrites};
use std::alloc::{AllocError, Global};

/// It keeps each of its past contents, so it serves to try programs, and not to run them.
#[derive(Drop)]
pub struct Memory {
    alloc: Global,
    bytes: Vec<u8>,
    past: Vec<Vec<u8>>,
    torn: TornWrites,
}

impl Memory {
    ghost use Rattle.cq_disk.specs.Memory.{memory_bytes, memory_torn};

    /// A device with these bytes. What is supposed of torn writes changes nothing here but what
    /// `torn_writes` answers.
    pub fn new(alloc: Global, bytes: Vec<u8>, torn: TornWrites) -> Memory
        ensures bytes { memory_bytes result ≡ bytes.items }
        ensures torn { memory_torn result ≡ torn }
    {
        Memory {
            alloc,
            bytes,
            past: Vec::new(alloc),
            torn,
        }
    }

    pub fn bytes(&self) -> &[u8]
        ensures { result.now ≡ memory_bytes self.now }
    {
        &self.bytes
    }
}

// Puts other bytes in the place of those that are there, which it keeps.
fn replace(
    alloc: Global,
    bytes: &mut Vec<u8>,
    past: &mut Vec<Vec<u8>>,
    next: Vec<u8>,
) -> Result<(), AllocError>
    ensures ok { OnOk result (bytes.new.items ≡ next.items) }
    ensures err { OnErr result (bytes.new.items ≡ bytes.old.items) }
    ensures past { OnOk result ((v : _) × (v.items ≡ bytes.old.items) × (past.new.items ≡ past.old.items ++ v ∷ [])) }
    ensures past_err { OnErr result (past.new.items ≡ past.old.items) }
{
    past.push(bytes.to_vec(alloc)?)?;
    *bytes = next;
    Ok(())
}

impl Device for Memory {
    ghost seen = { λ m. m.bytes.items };

    ghost may_leave = { λ m c. c ≡ m.bytes.items };

    ghost moment = { λ m. length m.past.items };

    ghost left_since = { λ m t c. (c ≡ m.bytes.items) ⊎ HadBeen (drop t m.past.items) c };

    ghost keeps = { λ a b. HasMore a.past.items b.past.items };

    ghost torn = { λ m. m.torn };

    ghost is_honest = { λ m. true };

    ghost faults = { λ m. 0 };

    ghost splits = { λ a b t c more le left. had_splits a.past.items b.past.items a.bytes.items b.bytes.items more t c le left };

    ghost keeps_self = { λ m. no_more m.past.items };

    ghost keeps_on = { λ a b c p q. still_more a.past.items b.past.items c.past.items p q };

    ghost counts_now = { λ m t c le now. inl now };

    ghost only_now = { λ m c left. only_bytes m.past.items m.bytes.items c left };

    fn torn_writes(&self) -> TornWrites {
        self.torn
    }

    fn len(&self) -> usize {
        self.bytes.len()
    }

    fn read_at(&mut self, at: usize, bytes: &mut [u8]) -> Result<(), DeviceFault> {
        bytes.copy_from_slice(&self.bytes[at..at + bytes.len()]);
        Ok(())
    }

    fn write_at(&mut self, at: usize, bytes: &[u8]) -> Result<(), DeviceFault> {
        let mut next = self.bytes[..at].to_vec(self.alloc)?;
        next.extend_from_slice(bytes)?;
        next.extend_from_slice(&self.bytes[at + bytes.len()..])?;
        Ok(replace(self.alloc, &mut self.bytes, &mut self.past, next)?)
    }

    fn sync(&mut self) -> Result<(), DeviceFault> {
        Ok(())
    }
}
