ghost use Rattle.std.specs.Prelude.{◌≡◌, ◌≤◌, List, ℕ, length, min, drop, take, ◌++◌, OnOk, IfOk};
ghost use Rattle.group_fields.specs.Cause.{HasCause};
ghost use Rattle.group_fields.specs.declared.counts.Counts.{Counts};
ghost use Rattle.disk_trait.specs.Disk.{Wrote, MayTear, MayNot, LeavesOnly, Passes, ReadsPart};
ghost use Rattle.disk_trait.specs.declared.disk.DiskError.TheVariants.{Failed, Memory};

use thiserror::Error;

/// Why a call of a disk failed.
#[derive(Clone, Copy, Debug, PartialEq, Eq, Error)]
pub enum DiskError {
    #[error("the disk failed")]
    Failed,
    #[error("no memory is left for the disk")]
    Memory,
}

/// One file of bytes that outlives the process, and may be cut off in the middle of a write.
///
/// Between two syncs that succeed a crash may leave any bytes in each range that was written and behind the length at
/// the last sync; it leaves every other byte as it was, and a length from that one to the greatest since. A call that
/// fails may have done any part of its work.
pub trait Disk {
    /// Whether the disk tells its content. What is said of content and of crashes holds where it does.
    ghost told: { Type 0 };

    /// The bytes that a read gives.
    ghost content: { Self → List ℕ };

    /// What a crash at this moment may leave.
    ghost image: { Self → List ℕ → Type 0 };

    /// The moment, as a number that doesn't fall.
    ghost clock: { Self → ℕ };

    /// What a crash at some moment from that one on might have left, inside a call too.
    ghost image_since: { Self → ℕ → List ℕ → Type 0 };

    /// How often it has failed, and wanted memory.
    ghost counts: { Self → Counts };

    /// The second comes of the first by calls of the disk.
    ghost follows: { Self → Self → Type 0 };

    /// The second comes of the first by one sync, with no other call before it.
    ghost syncs: { Self → Self → Type 0 } = { λ before now. Unit {0} };

    /// How many bytes there are.
    fn len(&mut self) -> Result<u64, DiskError>
        ensures length { told → IfOk result (λ n. n ≡ length (content self.old)) }
        ensures content { told → content self.new ≡ content self.old }
        ensures crash { told → MayNot (image self.old) (image self.new) }
        ensures time { told → Passes (clock self.old) (clock self.new)
            (image_since self.old) (image_since self.new) (image self.new) }
        ensures cause { HasCause Failed Memory (counts self.old) (counts self.new) result }
        ensures follows { follows self.old self.new };

    /// Fills `into` with the bytes from `at` on, and answers how many there were before the end.
    fn read(&mut self, at: u64, into: &mut [u8]) -> Result<usize, DiskError>
        ensures within { IfOk result (λ n. n ≤ length into.old) }
        ensures bytes { told → IfOk result (λ n. ReadsPart (content self.old) at n into.old into.new) }
        ensures content { told → content self.new ≡ content self.old }
        ensures crash { told → MayNot (image self.old) (image self.new) }
        ensures time { told → Passes (clock self.old) (clock self.new)
            (image_since self.old) (image_since self.new) (image self.new) }
        ensures cause { HasCause Failed Memory (counts self.old) (counts self.new) result }
        ensures follows { follows self.old self.new };

    /// Puts bytes at a place, over what is there and past the end. Until a sync, a crash may leave any bytes there.
    fn write_at(&mut self, at: u64, bytes: &[u8]) -> Result<(), DiskError>
        ensures written { told → OnOk result (Wrote at bytes.now (content self.old) (content self.new)) }
        ensures crash { told → MayTear at (length bytes.now) (image self.old) (image self.new) }
        ensures time { told → Passes (clock self.old) (clock self.new)
            (image_since self.old) (image_since self.new) (image self.new) }
        ensures cause { HasCause Failed Memory (counts self.old) (counts self.new) result }
        ensures follows { follows self.old self.new };

    /// Waits until all that was written would survive: after it a crash leaves what a read gives.
    fn sync(&mut self) -> Result<(), DiskError>
        ensures durable { told → OnOk result (LeavesOnly (content self.old) (image self.new)) }
        ensures content { told → content self.new ≡ content self.old }
        ensures crash { told → MayNot (image self.old) (image self.new) }
        ensures time { told → Passes (clock self.old) (clock self.new)
            (image_since self.old) (image_since self.new) (image self.new) }
        ensures cause { HasCause Failed Memory (counts self.old) (counts self.new) result }
        ensures follows { follows self.old self.new }
        ensures syncs { syncs self.old self.new };

    /// What a read gives is one of the images, at every moment.
    ghost content_is_image: { (disk : Self) → told → image disk (content disk) };

    /// This moment is one of those since an earlier one.
    ghost counts_now: { (disk : Self) (from : ℕ) (c : List ℕ) → told → from ≤ clock disk → image disk c
        → image_since disk from c };

    /// Since this moment there is no other.
    ghost only_now: { (disk : Self) (c : List ℕ) → told → image_since disk (clock disk) c → image disk c };

    /// No calls lead from a disk to itself, and calls after calls are calls.
    ghost follows_itself: { (disk : Self) → follows disk disk };

    ghost follows_on: { (first second third : Self) → follows first second → follows second third
        → follows first third };
}
