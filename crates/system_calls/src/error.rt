ghost use Rattle.std.specs.Prelude.{◌≡◌};
ghost use Rattle.std.specs.IoError.{error_kind};
ghost use Rattle.system_calls.specs.Errors.{error_of, kind_of, CountsFailure};
ghost use Rattle.system_calls.specs.declared.error.CallError.TheVariants.{Memory};

use std::alloc::{AllocError, AllocFailed};
use std::io;
use std::io::ErrorKind;
use thiserror::Error;

/// Why a single call failed.
#[derive(Clone, Copy, Debug, PartialEq, Eq, Error)]
pub enum CallError {
    /// A signal came before anything was done. The same call may be made again.
    #[error("the call was interrupted")]
    Interrupted,
    /// The name of a file to be made is taken.
    #[error("the name is taken")]
    Taken,
    /// No memory was left for the call.
    #[error("no memory is left for the call")]
    Memory,
    /// Any other cause.
    #[error("the call failed")]
    Failed(ErrorKind),
}

impl CallError {
    /// The kind of an error of the machine that stands for it.
    pub fn kind(self) -> ErrorKind
        ensures { result ≡ kind_of self }
    {
        match self {
            CallError::Interrupted => ErrorKind::Interrupted,
            CallError::Taken => ErrorKind::AlreadyExists,
            CallError::Memory => ErrorKind::OutOfMemory,
            CallError::Failed(kind) => kind,
        }
    }
}

impl From<io::Error> for CallError {
    ghost from_gives = { λ error failure. failure ≡ error_of (error_kind error) };

    fn from(error: io::Error) -> CallError {
        match error.kind() {
            ErrorKind::Interrupted => CallError::Interrupted,
            ErrorKind::OutOfMemory => CallError::Memory,
            kind => CallError::Failed(kind),
        }
    }
}

impl From<AllocError> for CallError {
    ghost from_gives = { λ _ failure. failure ≡ Memory };

    fn from(_error: AllocError) -> CallError {
        CallError::Memory
    }
}

impl<T: Drop> From<AllocFailed<T>> for CallError {
    ghost from_gives = { λ _ failure. failure ≡ Memory };

    fn from(_error: AllocFailed<T>) -> CallError {
        CallError::Memory
    }
}

/// The answer of a call as it stands, after its failure has been counted.
pub(crate) fn counted<T>(failures: &mut u64, outcome: Result<T, CallError>) -> Result<T, CallError>
    ensures same { result ≡ outcome }
    ensures failures { CountsFailure failures.old failures.new result }
{
    match outcome {
        Err(CallError::Memory | CallError::Failed(_)) => *failures = failures.saturating_add(1),
        _ => {}
    }
    outcome
}
