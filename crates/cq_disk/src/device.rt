//! Bytes that outlive a crash, as a program sees them: what a read gives, and what a crash may leave.
ghost use Rattle.std.specs.Prelude.{◌≡◌, ◌⊎◌, ◌≤◌, ◌+◌, Bool, List, ℕ, length, take, drop, IsTrue, OnOk};
ghost use Rattle.cq_disk.specs.declared.device.TornWrites.{TornWrites as Tearing};
ghost use Rattle.cq_disk.specs.Device.{Overlaid, Torn, Follows, Only, Elapses, HasCause};

use crate::DeviceFault;

/// What is supposed of a write that a crash cuts short.
#[derive(Clone, Copy, Debug, PartialEq, Eq)]
pub enum TornWrites {
    /// Each byte of the range is the one that was there or the one that was written. This holds of a device that
    /// finishes each sector which it has begun, and writes sectors in any order.
    OldOrNew,
    /// Nothing: the range may have any bytes.
    Any,
}

/// A row of bytes of fixed length, with a clock. Bytes outside a written range don't change, and what a sync
/// that ended well has covered is there after a crash. Each clause speaks of the members below, which say what
/// the bytes are and what a crash may leave of them.
pub trait Device: Drop {
    /// The bytes that reads give.
    ghost seen: { Self → List ℕ };

    /// A crash at this moment may leave these bytes.
    ghost may_leave: { Self → List ℕ → Type 0 };

    /// The moment, as a number that never falls.
    ghost moment: { Self → ℕ };

    /// A crash at some moment from that one on, inside a call or between two, might have left these bytes.
    ghost left_since: { Self → ℕ → List ℕ → Type 0 };

    /// The second comes from the first by calls, and what lies beside the device is the same, also in what a crash
    /// leaves at each moment between the two.
    ghost keeps: { Self → Self → Type 0 };

    /// What is supposed of torn writes.
    ghost torn: { Self → Tearing };

    /// No read has given other bytes than those that were seen.
    ghost is_honest: { Self → Bool };

    /// How many calls have failed.
    ghost faults: { Self → ℕ };

    fn torn_writes(&self) -> TornWrites
        ensures { result ≡ torn self.now };

    /// The number of bytes.
    fn len(&self) -> usize
        ensures { result ≡ length (seen self.now) };

    /// Reads as many bytes as the slice has, from this place on.
    fn read_at(&mut self, at: usize, bytes: &mut [u8]) -> Result<(), DeviceFault>
        requires { at + length bytes.old ≤ length (seen self.old) }
        ensures bytes { OnOk result (IsTrue (is_honest self.new) → bytes.new ≡ take (length bytes.old) (drop at (seen self.old))) }
        ensures honest { IsTrue (is_honest self.new) → IsTrue (is_honest self.old) }
        ensures seen { seen self.new ≡ seen self.old }
        ensures torn { torn self.new ≡ torn self.old }
        ensures crash { (c : List ℕ) → may_leave self.new c → may_leave self.old c }
        ensures time { Elapses (moment self.old) (moment self.new) (left_since self.old) (left_since self.new) (may_leave self.new) }
        ensures cause { HasCause (faults self.old) (faults self.new) result }
        ensures keeps { keeps self.old self.new };

    /// Writes over what is there. Until a sync has ended well, a crash may leave the write torn.
    fn write_at(&mut self, at: usize, bytes: &[u8]) -> Result<(), DeviceFault>
        requires { at + length bytes.now ≤ length (seen self.old) }
        ensures written { OnOk result (Overlaid (seen self.old) at bytes.now (seen self.new)) }
        ensures honest { is_honest self.new ≡ is_honest self.old }
        ensures length { length (seen self.new) ≡ length (seen self.old) }
        ensures range { Torn (torn self.old) at bytes.now (seen self.old) (seen self.new) }
        ensures torn { torn self.new ≡ torn self.old }
        ensures crash { Follows (Torn (torn self.old) at bytes.now) (may_leave self.old) (may_leave self.new) }
        ensures time { Elapses (moment self.old) (moment self.new) (left_since self.old) (left_since self.new) (may_leave self.new) }
        ensures cause { HasCause (faults self.old) (faults self.new) result }
        ensures keeps { keeps self.old self.new };

    /// After `Ok` a crash leaves the bytes that are seen. After a sync that failed no other ends well, since the
    /// system may have given up what was written and tell nobody again.
    fn sync(&mut self) -> Result<(), DeviceFault>
        ensures durable { OnOk result (Only (seen self.old) (may_leave self.new)) }
        ensures honest { is_honest self.new ≡ is_honest self.old }
        ensures seen { seen self.new ≡ seen self.old }
        ensures torn { torn self.new ≡ torn self.old }
        ensures crash { (c : List ℕ) → may_leave self.new c → may_leave self.old c }
        ensures time { Elapses (moment self.old) (moment self.new) (left_since self.old) (left_since self.new) (may_leave self.new) }
        ensures cause { HasCause (faults self.old) (faults self.new) result }
        ensures keeps { keeps self.old self.new };

    /// This moment is one of those since an earlier one.
    ghost counts_now: { (device : Self) (t : ℕ) (c : List ℕ) → t ≤ moment device → may_leave device c → left_since device t c };

    /// Since this moment there is no other.
    ghost only_now: { (device : Self) (c : List ℕ) → left_since device (moment device) c → may_leave device c };

    /// What a crash might have left since a moment it might have left before these calls, or since they began.
    ghost splits: { (a b : Self) (t : ℕ) (c : List ℕ) → keeps a b → t ≤ moment a → left_since b t c → left_since a t c ⊎ left_since b (moment a) c };

    /// With no call all is the same.
    ghost keeps_self: { (device : Self) → keeps device device };

    /// What each of two runs of calls keeps they keep together.
    ghost keeps_on: { (a b c : Self) → keeps a b → keeps b c → keeps a c };
}
