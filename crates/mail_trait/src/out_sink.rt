ghost use Rattle.std.specs.Prelude.{◌≡◌, ◌++◌, None, OnOk};
ghost use Rattle.group_fields.specs.Cause.{HasCause};
ghost use Rattle.mail_trait.specs.Sink.{AppendsPrefix};
ghost use Rattle.mail_trait.specs.declared.error.MailError.TheVariants.{Failed, Memory as NoMemory};

use crate::failures::Failures;
use crate::streams::write_out;
use crate::{MailError, Sink};
use group_fields::Counts;
use std::io::ErrorKind;
use system_calls::OutputCalls;

/// An output of an operating system.
#[derive(Drop)]
pub struct OutSink<C> {
    calls: C,
    failures: Failures,
}

impl<C> OutSink<C> {
    ghost use Rattle.mail_trait.specs.Machine.{counts_of_sink, reason_of_sink, calls_of_sink};

    /// The output that these calls write to, which is not touched before the first call.
    pub fn new(calls: C) -> OutSink<C>
        ensures counts { counts_of_sink result ≡ Counts.NONE }
        ensures reason { reason_of_sink result ≡ None }
        ensures calls { calls_of_sink result ≡ calls }
    {
        OutSink {
            calls,
            failures: Failures::NONE,
        }
    }

    /// The single calls.
    pub fn calls(&self) -> &C
        ensures { result.now ≡ calls_of_sink self.now }
    {
        &self.calls
    }

    /// The kind of the last failure.
    pub fn reason(&self) -> Option<ErrorKind>
        ensures { result ≡ reason_of_sink self.now }
    {
        self.failures.reason
    }
}

impl<C: OutputCalls> Sink for OutSink<C> {
    ghost use Rattle.std.specs.Prelude.{[]};
    ghost use Rattle.mail_trait.specs.Failures.{Tells, EndsAs};
    ghost use Rattle.mail_trait.specs.Machine.{counts_of_sink, reason_of_sink, calls_of_sink};
    ghost use Rattle.mail_trait.specs.Machine.{NoFewer, fewer-itself, fewer-on};

    ghost told = { ⊥ };

    ghost written = { λ _. [] };

    ghost counts = { counts_of_sink };

    ghost follows = { λ before now. NoFewer (counts_of_sink before) (counts_of_sink now) };

    fn write(&mut self, bytes: &[u8]) -> Result<(), MailError>
        ensures written { C.told → OnOk result
            (C.written (calls_of_sink self.new) ≡ C.written (calls_of_sink self.old) ++ bytes.now) }
        ensures prefix { C.told →
            AppendsPrefix bytes.now (C.written (calls_of_sink self.old)) (C.written (calls_of_sink self.new)) }
        ensures tells { Tells (EndsAs (λ _. ⊥)
            (C.failures (calls_of_sink self.old)) (C.failures (calls_of_sink self.new))
            (C.last_failure (calls_of_sink self.new)))
            (reason_of_sink self.old) (reason_of_sink self.new) result }
        ensures cause { HasCause Failed NoMemory (counts_of_sink self.old) (counts_of_sink self.new) result }
        ensures follows { NoFewer (counts_of_sink self.old) (counts_of_sink self.new) }
    {
        let written = write_out(&mut self.calls, bytes);
        self.failures.told(written)
    }

    ghost follows_itself = { λ _. fewer-itself _ };

    ghost follows_on = { λ _ _ _ f g. fewer-on _ _ _ f g };
}
