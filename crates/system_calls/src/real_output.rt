use crate::error::counted;
use crate::last::told_last;
use crate::{CallError, OutputCalls};
use std::io;
use std::io::{ErrorKind, Write};

/// Standard output.
#[derive(Drop)]
pub struct RealOutput<R> {
    rt: R,
    failures: u64,
    last: Option<CallError>,
}

impl<R> RealOutput<R> {
    /// Writes nothing before the first call.
    pub fn new(rt: R) -> RealOutput<R> {
        RealOutput {
            rt,
            failures: 0,
            last: None,
        }
    }
}

impl<R: Print> OutputCalls for RealOutput<R> {
    ghost use Rattle.std.specs.Prelude.{[]};

    ghost told = { ⊥ };

    ghost written = { λ _. [] };

    ghost failures = { λ output. output.failures };

    ghost last_failure = { λ output. output.last };

    fn write(&mut self, bytes: &[u8]) -> Result<usize, CallError> {
        let taken = match io::writer(&self.rt).write(bytes) {
            Ok(0) if !bytes.is_empty() => Err(CallError::Failed(ErrorKind::WriteZero)),
            Ok(count) => Ok(count),
            Err(error) => Err(CallError::from(error)),
        };
        let taken = counted(&mut self.failures, taken);
        told_last(&mut self.last, taken)
    }
}
