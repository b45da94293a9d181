ghost use Rattle.std.specs.Prelude.{◌≡◌, ◌≤◌, ◌⊎◌, ℕ, List, [], ◌++◌, Option, None, length, take, drop, IfOk, OnErr};
ghost use Rattle.group_fields.specs.Plan.{next_call};
ghost use Rattle.system_calls.specs.declared.error.CallError.{CallError};
ghost use Rattle.system_calls.specs.Errors.{CountsFailure};
ghost use Rattle.system_calls.specs.LastFailure.{TellsLast};

use crate::last::told_last;
use crate::{CallError, Plan};
use group_fields::Memory;
use std::alloc::Global;

/// Single calls of an operating system for random bytes. No call is made twice, and none goes on where fewer bytes
/// came.
pub trait RandomCalls {
    /// The opened device. It is closed where it is dropped.
    type Device: Drop;

    /// Whether the system tells its bytes. What is said of them holds where it does.
    ghost told: { Type 0 };

    /// The bytes that it has yet to give, in order.
    ghost to_come: { Self → List ℕ };

    /// How often the device was opened, or was to be.
    ghost openings: { Self → ℕ };

    /// How many calls have failed.
    ghost failures: { Self → ℕ };

    /// The last failure.
    ghost last_failure: { Self → Option CallError };

    /// Opens the device for reading.
    fn open(&mut self) -> Result<Self::Device, CallError>
        ensures to_come { told → to_come self.new ≡ to_come self.old }
        ensures openings { told → openings self.new ≡ next_call (openings self.old) }
        ensures failures { CountsFailure (failures self.old) (failures self.new) result }
        ensures last { TellsLast (last_failure self.old) (last_failure self.new) result };

    /// Reads once, and answers how many bytes came. Where it fails, `into` may hold anything.
    fn read(&mut self, device: &mut Self::Device, into: &mut [u8]) -> Result<usize, CallError>
        ensures within { IfOk result (λ n. n ≤ length into.old) }
        ensures bytes { told → IfOk result (λ n. to_come self.old ≡ take n into.new ++ to_come self.new) }
        ensures none { told → IfOk result (λ n. n ≡ 0 → (into.old ≡ []) ⊎ (to_come self.old ≡ [])) }
        ensures kept { told → OnErr result (to_come self.new ≡ to_come self.old) }
        ensures openings { told → openings self.new ≡ openings self.old }
        ensures failures { CountsFailure (failures self.old) (failures self.new) result }
        ensures last { TellsLast (last_failure self.old) (last_failure self.new) result };
}

/// The opened device of random bytes in memory.
#[derive(Debug, Drop)]
pub struct MemDevice {}

/// Random bytes in memory. Their calls fail, and give fewer bytes than are asked for, on demand.
#[derive(Debug, Drop)]
pub struct MemRandom {
    bytes: Vec<u8>,
    next: usize,
    openings: u64,
    plan: Plan,
    error: CallError,
    last: Option<CallError>,
    most: usize,
}

/// Copies bytes from a place on to the front of a buffer: at most so many, but for one.
fn copy_front(bytes: &[u8], next: usize, most: usize, into: &mut [u8]) -> usize
    ensures within { result ≤ length into.old }
    ensures left { result ≤ length (drop next bytes.now) }
    ensures bytes { take result into.new ≡ take result (drop next bytes.now) }
    ensures none { result ≡ 0 → (into.old ≡ []) ⊎ (drop next bytes.now ≡ []) }
{
    let start = next.min(bytes.len());
    let rest = &bytes[start..];
    let count = into.len().min(rest.len()).min(most.max(1));
    into[..count].copy_from_slice(&rest[..count]);
    count
}

impl MemRandom {
    ghost use Rattle.system_calls.specs.MemRandom.{bytes_to_come, openings_of, failures_of};

    /// Gives these bytes in order, and then ends. The calls of the numbers in `failing`, from 1, are to fail with the
    /// error, and one read gives at most so many bytes, but for one.
    pub fn new(
        alloc: Global,
        bytes: &[u8],
        failing: &[u32],
        error: CallError,
        most: usize,
    ) -> Result<MemRandom, Memory>
        ensures to_come { IfOk result (λ random. bytes_to_come random ≡ bytes.now) }
        ensures openings { IfOk result (λ random. openings_of random ≡ 0) }
        ensures failures { IfOk result (λ random. failures_of random ≡ 0) }
    {
        Ok(MemRandom {
            bytes: bytes.to_vec(alloc)?,
            next: 0,
            openings: 0,
            plan: Plan::new(alloc, failing)?,
            error,
            last: None,
            most,
        })
    }

    /// How often the device was opened, or was to be.
    pub fn openings(&self) -> u64
        ensures { result ≡ openings_of self.now }
    {
        self.openings
    }

    fn give(&mut self, into: &mut [u8]) -> Result<usize, CallError>
        ensures within { IfOk result (λ n. n ≤ length into.old) }
        ensures bytes { IfOk result (λ n. bytes_to_come self.old ≡ take n into.new ++ bytes_to_come self.new) }
        ensures none { IfOk result (λ n. n ≡ 0 → (into.old ≡ []) ⊎ (bytes_to_come self.old ≡ [])) }
        ensures kept { OnErr result (bytes_to_come self.new ≡ bytes_to_come self.old) }
        ensures openings { openings_of self.new ≡ openings_of self.old }
        ensures failures { CountsFailure (failures_of self.old) (failures_of self.new) result }
        ensures last { self.new.last ≡ self.old.last }
    {
        self.plan.begin_call(self.error)?;
        let count = copy_front(&self.bytes, self.next, self.most, into);
        self.next += count;
        Ok(count)
    }
}

impl RandomCalls for MemRandom {
    ghost use Rattle.system_calls.specs.MemRandom.{bytes_to_come, openings_of, failures_of};

    type Device = MemDevice;

    ghost told = { Unit {0} };

    ghost to_come = { bytes_to_come };

    ghost openings = { openings_of };

    ghost failures = { failures_of };

    ghost last_failure = { λ random. random.last };

    fn open(&mut self) -> Result<MemDevice, CallError> {
        self.openings = self.openings.saturating_add(1);
        let opened = self.plan.begin_call(self.error).map(|()| MemDevice {});
        told_last(&mut self.last, opened)
    }

    fn read(&mut self, _device: &mut MemDevice, into: &mut [u8]) -> Result<usize, CallError> {
        let given = self.give(into);
        told_last(&mut self.last, given)
    }
}
