ghost use Rattle.std.specs.Prelude.{◌≡◌, ◌++◌, [], OnOk, OnErr, IfOk};
ghost use Rattle.group_fields.specs.Cause.{HasCause};
ghost use Rattle.group_fields.specs.Plan.{FailsAsPlanned};
ghost use Rattle.mail_trait.specs.Sink.{AppendsPrefix};
ghost use Rattle.mail_trait.specs.declared.error.MailError.TheVariants.{Failed, Memory as NoMemory};

use crate::{MailError, Sink};
use group_fields::{Counts, Memory};
use std::alloc::Global;
use system_calls::Plan;

/// An output in memory, whose calls fail by a plan.
#[derive(Debug, Drop)]
pub struct MemSink {
    bytes: Vec<u8>,
    plan: Plan,
}

impl MemSink {
    ghost use Rattle.mail_trait.specs.MemSink.{bytes_in, failing_calls, calls_made, counts_of};

    /// Nothing is written yet. The calls of these numbers, from 1, are to fail.
    pub fn new(alloc: Global, failing: &[u32]) -> Result<MemSink, Memory>
        ensures empty { IfOk result (λ sink. bytes_in sink ≡ []) }
        ensures failing { IfOk result (λ sink. failing_calls sink ≡ failing.now) }
        ensures made { IfOk result (λ sink. calls_made sink ≡ 0) }
        ensures counts { IfOk result (λ sink. counts_of sink ≡ Counts.NONE) }
    {
        Ok(MemSink {
            bytes: Vec::new(alloc),
            plan: Plan::new(alloc, failing)?,
        })
    }

    /// Nothing is written yet, and no call is to fail.
    pub fn honest(alloc: Global) -> MemSink
        ensures empty { bytes_in result ≡ [] }
        ensures failing { failing_calls result ≡ [] }
        ensures made { calls_made result ≡ 0 }
        ensures counts { counts_of result ≡ Counts.NONE }
    {
        MemSink {
            bytes: Vec::new(alloc),
            plan: Plan::honest(alloc),
        }
    }

    /// What was written.
    pub fn bytes(&self) -> &[u8]
        ensures { result.now ≡ bytes_in self.now }
    {
        &self.bytes
    }
}

impl Sink for MemSink {
    ghost use Rattle.group_fields.specs.Plan.{keeps-itself, keeps-on};
    ghost use Rattle.mail_trait.specs.MemSink.{bytes_in, failing_calls, calls_made, counts_of, Follows};

    ghost told = { Unit {0} };

    ghost written = { bytes_in };

    ghost counts = { counts_of };

    ghost follows = { Follows };

    fn write(&mut self, bytes: &[u8]) -> Result<(), MailError>
        ensures written { OnOk result (bytes_in self.new ≡ bytes_in self.old ++ bytes.now) }
        ensures prefix { AppendsPrefix bytes.now (bytes_in self.old) (bytes_in self.new) }
        ensures unchanged { OnErr result (bytes_in self.new ≡ bytes_in self.old) }
        ensures planned { FailsAsPlanned Failed (failing_calls self.old)
            (calls_made self.old) (calls_made self.new) result }
        ensures cause { HasCause Failed NoMemory (counts_of self.old) (counts_of self.new) result }
        ensures follows { Follows self.old self.new }
    {
        self.plan.begin(MailError::Failed)?;
        let outcome = self.bytes.extend_from_slice(bytes);
        self.plan.end(outcome, MailError::Memory)
    }

    ghost follows_itself = { λ sink. keeps-itself _ _ };

    ghost follows_on = { λ a b c f g. keeps-on _ _ _ _ _ _ f g };
}
