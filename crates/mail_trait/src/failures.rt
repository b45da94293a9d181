ghost use Rattle.std.specs.Prelude.{◌≡◌, None};
ghost use Rattle.group_fields.specs.Cause.{HasCause};
ghost use Rattle.mail_trait.specs.Failures.{answer_of, reason_after};
ghost use Rattle.mail_trait.specs.declared.error.MailError.TheVariants.{Failed, Memory};

use crate::MailError;
use group_fields::Counts;
use std::io::ErrorKind;
use system_calls::CallError;

/// What a device keeps of its failures: how many there were, and the kind of the last one.
#[derive(Clone, Copy, Debug)]
pub(crate) struct Failures {
    pub(crate) counts: Counts,
    pub(crate) reason: Option<ErrorKind>,
}

impl Failures {
    pub(crate) const NONE: Failures = Failures {
        counts: Counts::NONE,
        reason: None,
    };

    /// Counts the failure of a call, and keeps its kind.
    pub(crate) fn told<T>(&mut self, outcome: Result<T, CallError>) -> Result<T, MailError>
        ensures answer { result ≡ answer_of outcome }
        ensures reason { self.new.reason ≡ reason_after self.old.reason outcome }
        ensures cause { HasCause Failed Memory self.old.counts self.new.counts result }
    {
        match outcome {
            Ok(value) => Ok(value),
            Err(error) => {
                self.reason = Some(error.kind());
                let failure = MailError::from(error);
                match failure {
                    MailError::Failed => self.counts.add_fault(),
                    MailError::Memory => self.counts.add_want(),
                }
                Err(failure)
            }
        }
    }
}
