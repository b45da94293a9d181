ghost use Rattle.std.specs.Prelude.{◌≡◌, ◌↔◌, [], IsTrue, IfOk, IfErr, OnOk, OnErr, MatchResult, Contains};
ghost use Rattle.group_fields.specs.Counts.{IsRaised};
ghost use Rattle.group_fields.specs.Plan.{FailsAsPlanned, next_call};
ghost use Rattle.system_calls.specs.Errors.{CountsFailure};

use crate::CallError;
use group_fields::{Counts, Memory};
use std::alloc::Global;

/// The calls that a device or files in memory have had, the numbers of those that are to fail, and how often one has
/// failed and wanted memory.
#[derive(Debug, Drop)]
pub struct Plan {
    failing: Vec<u32>,
    made: u64,
    counts: Counts,
}

fn is_among(numbers: &[u32], number: u64) -> bool
    ensures { IsTrue result ↔ Contains numbers.now number }
{
    numbers.iter().any(|&planned| u64::from(planned) == number)
}

impl Plan {
    ghost use Rattle.system_calls.specs.Plan.{failing_in, made_in, counts_in, failures_in};

    /// The calls of these numbers, from 1, are to fail. There was none yet.
    pub fn new(alloc: Global, failing: &[u32]) -> Result<Plan, Memory>
        ensures failing { IfOk result (λ plan. failing_in plan ≡ failing.now) }
        ensures made { IfOk result (λ plan. made_in plan ≡ 0) }
        ensures counts { IfOk result (λ plan. counts_in plan ≡ Counts.NONE) }
    {
        Ok(Plan {
            failing: failing.to_vec(alloc)?,
            made: 0,
            counts: Counts::NONE,
        })
    }

    /// No call is to fail.
    pub fn honest(alloc: Global) -> Plan
        ensures failing { failing_in result ≡ [] }
        ensures made { made_in result ≡ 0 }
        ensures counts { counts_in result ≡ Counts.NONE }
    {
        Plan {
            failing: Vec::new(alloc),
            made: 0,
            counts: Counts::NONE,
        }
    }

    /// How many calls there were, up to the greatest count.
    pub fn made(&self) -> u64
        ensures { result ≡ made_in self.now }
    {
        self.made
    }

    /// Whether the next call, which begins here, is to fail.
    fn is_next_failing(&mut self) -> bool
        ensures number { made_in self.new ≡ next_call (made_in self.old) }
        ensures due { IsTrue result ↔ Contains (failing_in self.old) (made_in self.new) }
        ensures failing { failing_in self.new ≡ failing_in self.old }
        ensures counts { counts_in self.new ≡ counts_in self.old }
    {
        self.made = self.made.saturating_add(1);
        is_among(&self.failing, self.made)
    }

    /// Begins the next call of a device. Where it is to fail it fails with this error, and is counted as a fault.
    pub fn begin<E: Copy>(&mut self, failed: E) -> Result<(), E>
        ensures planned { FailsAsPlanned failed (failing_in self.old) (made_in self.old) (made_in self.new) result }
        ensures error { IfErr result (λ error. error ≡ failed) }
        ensures failing { failing_in self.new ≡ failing_in self.old }
        ensures ok { OnOk result (counts_in self.new ≡ counts_in self.old) }
        ensures raised { OnErr result (IsRaised (counts_in self.old).faults (counts_in self.new).faults) }
        ensures wants { (counts_in self.new).wants ≡ (counts_in self.old).wants }
    {
        if self.is_next_failing() {
            return Err(self.fail(failed));
        }
        Ok(())
    }

    /// Counts a fault of a device, which the plan needn't name, and answers its error.
    pub fn fail<E>(&mut self, failed: E) -> E
        ensures error { result ≡ failed }
        ensures failing { failing_in self.new ≡ failing_in self.old }
        ensures made { made_in self.new ≡ made_in self.old }
        ensures raised { IsRaised (counts_in self.old).faults (counts_in self.new).faults }
        ensures wants { (counts_in self.new).wants ≡ (counts_in self.old).wants }
    {
        self.counts.add_fault();
        failed
    }

    /// Counts a want of memory of a device, and answers its error.
    pub fn want<E>(&mut self, memory: E) -> E
        ensures error { result ≡ memory }
        ensures failing { failing_in self.new ≡ failing_in self.old }
        ensures made { made_in self.new ≡ made_in self.old }
        ensures raised { IsRaised (counts_in self.old).wants (counts_in self.new).wants }
        ensures faults { (counts_in self.new).faults ≡ (counts_in self.old).faults }
    {
        self.counts.add_want();
        memory
    }

    /// Ends a call of a device that was not to fail. A want of memory is counted, and answered by this error.
    pub fn end<T, E: Copy>(&mut self, outcome: Result<T, Memory>, memory: E) -> Result<T, E>
        ensures answer { MatchResult outcome (λ value. result ≡ Ok value) (λ _. result ≡ Err memory) }
        ensures failing { failing_in self.new ≡ failing_in self.old }
        ensures made { made_in self.new ≡ made_in self.old }
        ensures ok { OnOk result (counts_in self.new ≡ counts_in self.old) }
        ensures raised { OnErr result (IsRaised (counts_in self.old).wants (counts_in self.new).wants) }
        ensures faults { (counts_in self.new).faults ≡ (counts_in self.old).faults }
    {
        match outcome {
            Ok(value) => Ok(value),
            Err(_) => Err(self.want(memory)),
        }
    }

    /// Begins the next single call. Where it is to fail it fails with this error, which is counted by what it is.
    pub fn begin_call(&mut self, error: CallError) -> Result<(), CallError>
        ensures planned { FailsAsPlanned error (failing_in self.old) (made_in self.old) (made_in self.new) result }
        ensures error { IfErr result (λ planned. planned ≡ error) }
        ensures failing { failing_in self.new ≡ failing_in self.old }
        ensures failures { CountsFailure (failures_in self.old) (failures_in self.new) result }
    {
        if self.is_next_failing() {
            return self.end_call(Err(error));
        }
        Ok(())
    }

    /// Ends a single call that was not to fail, and counts what it failed by itself.
    pub fn end_call<T>(&mut self, outcome: Result<T, CallError>) -> Result<T, CallError>
        ensures same { result ≡ outcome }
        ensures failing { failing_in self.new ≡ failing_in self.old }
        ensures made { made_in self.new ≡ made_in self.old }
        ensures failures { CountsFailure (failures_in self.old) (failures_in self.new) result }
    {
        match outcome {
            Err(CallError::Failed(_)) => self.counts.add_fault(),
            Err(CallError::Memory) => self.counts.add_want(),
            Err(CallError::Interrupted | CallError::Taken) | Ok(_) => {}
        }
        outcome
    }
}
