ghost use Rattle.std.specs.Prelude.{◌≡◌};
ghost use Rattle.mail_trait.specs.Failures.{mail_error};

use system_calls::CallError;
use thiserror::Error;

/// Why a call of the mail folder, of the random bytes or of the output failed.
#[derive(Clone, Copy, Debug, PartialEq, Eq, Error)]
pub enum MailError {
    #[error("the device failed")]
    Failed,
    #[error("no memory is left for the device")]
    Memory,
}

/// `Memory` exactly where the single call wanted memory.
impl From<CallError> for MailError {
    ghost from_gives = { λ error failure. failure ≡ mail_error error };

    fn from(error: CallError) -> MailError {
        match error {
            CallError::Memory => MailError::Memory,
            CallError::Interrupted | CallError::Taken | CallError::Failed(_) => MailError::Failed,
        }
    }
}
