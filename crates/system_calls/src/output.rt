ghost use Rattle.std.specs.Prelude.{◌≡◌, ◌≤◌, ◌<◌, ℕ, List, [], ◌++◌, Option, length, take, IfOk, OnErr};
ghost use Rattle.system_calls.specs.declared.error.CallError.{CallError};
ghost use Rattle.system_calls.specs.Errors.{CountsFailure};
ghost use Rattle.system_calls.specs.LastFailure.{TellsLast};

use crate::last::told_last;
use crate::{CallError, Plan};
use group_fields::Memory;
use std::alloc::Global;

/// Single calls of an operating system on an output. No call is made twice, and none goes on where fewer bytes were
/// taken.
pub trait OutputCalls {
    /// Whether the system tells what was written. What is said of that holds where it does.
    ghost told: { Type 0 };

    /// The bytes that were written.
    ghost written: { Self → List ℕ };

    /// How many calls have failed.
    ghost failures: { Self → ℕ };

    /// The last failure.
    ghost last_failure: { Self → Option CallError };

    /// Writes once, and answers how many of the bytes were taken: at least one, where there are any.
    fn write(&mut self, bytes: &[u8]) -> Result<usize, CallError>
        ensures within { IfOk result (λ n. n ≤ length bytes.now) }
        ensures some { IfOk result (λ n. 0 < length bytes.now → 0 < n) }
        ensures written { told → IfOk result (λ n. written self.new ≡ written self.old ++ take n bytes.now) }
        ensures kept { told → OnErr result (written self.new ≡ written self.old) }
        ensures failures { CountsFailure (failures self.old) (failures self.new) result }
        ensures last { TellsLast (last_failure self.old) (last_failure self.new) result };
}

/// An output in memory. Its calls fail, and take fewer bytes than they are given, on demand.
#[derive(Debug, Drop)]
pub struct MemOutput {
    bytes: Vec<u8>,
    plan: Plan,
    error: CallError,
    last: Option<CallError>,
    most: usize,
}

impl MemOutput {
    ghost use Rattle.system_calls.specs.MemOutput.{bytes_of, failures_of};

    /// Nothing is written yet. The calls of these numbers, from 1, are to fail with the error, and one write takes at
    /// most so many bytes, but for one.
    pub fn new(
        alloc: Global,
        failing: &[u32],
        error: CallError,
        most: usize,
    ) -> Result<MemOutput, Memory>
        ensures written { IfOk result (λ output. bytes_of output ≡ []) }
        ensures failures { IfOk result (λ output. failures_of output ≡ 0) }
    {
        Ok(MemOutput {
            bytes: Vec::new(alloc),
            plan: Plan::new(alloc, failing)?,
            error,
            last: None,
            most,
        })
    }

    /// What was written.
    pub fn bytes(&self) -> &[u8]
        ensures { result.now ≡ bytes_of self.now }
    {
        &self.bytes
    }

    fn append(&mut self, bytes: &[u8]) -> Result<usize, CallError>
        ensures within { IfOk result (λ n. n ≤ length bytes.now) }
        ensures some { IfOk result (λ n. 0 < length bytes.now → 0 < n) }
        ensures written { IfOk result (λ n. bytes_of self.new ≡ bytes_of self.old ++ take n bytes.now) }
        ensures kept { OnErr result (bytes_of self.new ≡ bytes_of self.old) }
        ensures failures { CountsFailure (failures_of self.old) (failures_of self.new) result }
        ensures last { self.new.last ≡ self.old.last }
    {
        self.plan.begin_call(self.error)?;
        let count = bytes.len().min(self.most.max(1));
        let taken = self.bytes.extend_from_slice(&bytes[..count]);
        self.plan
            .end_call(taken.map(|()| count).map_err(CallError::from))
    }
}

impl OutputCalls for MemOutput {
    ghost use Rattle.system_calls.specs.MemOutput.{bytes_of, failures_of};

    ghost told = { Unit {0} };

    ghost written = { bytes_of };

    ghost failures = { failures_of };

    ghost last_failure = { λ output. output.last };

    fn write(&mut self, bytes: &[u8]) -> Result<usize, CallError> {
        let taken = self.append(bytes);
        told_last(&mut self.last, taken)
    }
}
