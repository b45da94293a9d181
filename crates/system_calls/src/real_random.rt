ghost use Rattle.std.specs.Prelude.{◌≡◌};
ghost use Rattle.system_calls.specs.Errors.{CountsFailure};
ghost use Rattle.system_calls.specs.LastFailure.{TellsLast};

use crate::error::counted;
use crate::last::told_last;
use crate::{CallError, RandomCalls};
use std::fs;
use std::io::Read;
use std::rt::Files;

/// The random bytes of the operating system.
#[derive(Drop)]
pub struct RealRandom<R> {
    rt: R,
    failures: u64,
    last: Option<CallError>,
}

const DEVICE: &str = "/dev/urandom";

impl<R> RealRandom<R> {
    /// Opens nothing before the first call.
    pub fn new(rt: R) -> RealRandom<R> {
        RealRandom {
            rt,
            failures: 0,
            last: None,
        }
    }

    fn ended<T>(&mut self, outcome: Result<T, CallError>) -> Result<T, CallError>
        ensures same { result ≡ outcome }
        ensures failures { CountsFailure self.old.failures self.new.failures result }
        ensures last { TellsLast self.old.last self.new.last result }
    {
        let outcome = counted(&mut self.failures, outcome);
        told_last(&mut self.last, outcome)
    }
}

impl<R: Files> RandomCalls for RealRandom<R> {
    ghost use Rattle.std.specs.Prelude.{[]};

    type Device = R::File;

    ghost told = { ⊥ };

    ghost to_come = { λ _. [] };

    ghost openings = { λ _. 0 };

    ghost failures = { λ random. random.failures };

    ghost last_failure = { λ random. random.last };

    fn open(&mut self) -> Result<R::File, CallError> {
        let opened = fs::open(&self.rt, DEVICE).map_err(CallError::from);
        self.ended(opened)
    }

    fn read(&mut self, device: &mut R::File, into: &mut [u8]) -> Result<usize, CallError> {
        let given = device.read(into).map_err(CallError::from);
        self.ended(given)
    }
}
