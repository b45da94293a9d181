ghost use Rattle.std.specs.Prelude.{◌≡◌, ◌++◌, None, OnOk};
ghost use Rattle.group_fields.specs.Cause.{HasCause};
ghost use Rattle.group_fields.specs.Plan.{next_call};
ghost use Rattle.mail_trait.specs.declared.error.MailError.TheVariants.{Failed, Memory as NoMemory};

use crate::failures::Failures;
use crate::streams::fill;
use crate::{Entropy, MailError};
use group_fields::Counts;
use std::io::ErrorKind;
use system_calls::RandomCalls;

/// The random bytes of an operating system.
#[derive(Drop)]
pub struct DeviceEntropy<C> {
    calls: C,
    failures: Failures,
}

impl<C> DeviceEntropy<C> {
    ghost use Rattle.mail_trait.specs.Machine.{counts_of_source, reason_of_source, calls_of_source};

    /// The random bytes that these calls give. Each seed opens the device anew.
    pub fn new(calls: C) -> DeviceEntropy<C>
        ensures counts { counts_of_source result ≡ Counts.NONE }
        ensures reason { reason_of_source result ≡ None }
        ensures calls { calls_of_source result ≡ calls }
    {
        DeviceEntropy {
            calls,
            failures: Failures::NONE,
        }
    }

    /// The single calls.
    pub fn calls(&self) -> &C
        ensures { result.now ≡ calls_of_source self.now }
    {
        &self.calls
    }

    /// The kind of the last failure.
    pub fn reason(&self) -> Option<ErrorKind>
        ensures { result ≡ reason_of_source self.now }
    {
        self.failures.reason
    }
}

impl<C: RandomCalls> Entropy for DeviceEntropy<C> {
    ghost use Rattle.std.specs.Prelude.{[]};
    ghost use Rattle.mail_trait.specs.Failures.{Tells, EndsAs};
    ghost use Rattle.mail_trait.specs.Machine.{counts_of_source, reason_of_source, calls_of_source};
    ghost use Rattle.mail_trait.specs.Machine.{NoFewer, fewer-itself, fewer-on};
    ghost use Rattle.mail_trait.specs.Streams.{Ended};

    ghost told = { ⊥ };

    ghost given = { λ _. [] };

    ghost asked = { λ _. 0 };

    ghost counts = { counts_of_source };

    ghost follows = { λ before now. NoFewer (counts_of_source before) (counts_of_source now) };

    fn seed32(&mut self, into: &mut [u8; 32]) -> Result<(), MailError>
        // the next 32 bytes of the device, of one opening
        ensures bytes { C.told → OnOk result
            (C.to_come (calls_of_source self.old) ≡ into.new ++ C.to_come (calls_of_source self.new)) }
        ensures opened { C.told
            → C.openings (calls_of_source self.new) ≡ next_call (C.openings (calls_of_source self.old)) }
        ensures tells { Tells (EndsAs (Ended C.told (C.to_come (calls_of_source self.new)))
            (C.failures (calls_of_source self.old)) (C.failures (calls_of_source self.new))
            (C.last_failure (calls_of_source self.new)))
            (reason_of_source self.old) (reason_of_source self.new) result }
        ensures cause { HasCause Failed NoMemory (counts_of_source self.old) (counts_of_source self.new) result }
        ensures follows { NoFewer (counts_of_source self.old) (counts_of_source self.new) }
    {
        let filled = fill(&mut self.calls, into);
        self.failures.told(filled)
    }

    ghost follows_itself = { λ _. fewer-itself _ };

    ghost follows_on = { λ _ _ _ f g. fewer-on _ _ _ f g };
}
