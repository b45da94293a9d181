ghost use Rattle.std.specs.Prelude.{◌≡◌, ◌++◌, ◌∷◌, ◌⊎◌, [], OnOk, OnErr, IfOk, IsErrOf, Contains, map};
ghost use Rattle.group_fields.specs.Cause.{HasCause};
ghost use Rattle.group_fields.specs.Plan.{next_call};
ghost use Rattle.mail_trait.specs.declared.error.MailError.TheVariants.{Failed, Memory as NoMemory};

use crate::{Entropy, MailError};
use group_fields::{Counts, Memory};
use std::alloc::Global;
use system_calls::Plan;

/// Seeds from a list, whose calls fail by a plan, and after the last seed.
#[derive(Debug, Drop)]
pub struct MemEntropy {
    seeds: Vec<[u8; 32]>,
    next: usize,
    plan: Plan,
}

impl MemEntropy {
    ghost use Rattle.mail_trait.specs.MemEntropy.{seeds_given, seeds_to_come, failing_calls, calls_made, counts_of};

    /// Gives these seeds in order. The calls of the numbers in `failing`, from 1, are to fail, and give no seed.
    pub fn new(alloc: Global, seeds: &[[u8; 32]], failing: &[u32]) -> Result<MemEntropy, Memory>
        ensures given { IfOk result (λ source. seeds_given source ≡ []) }
        ensures to_come { IfOk result (λ source. seeds_to_come source ≡ seeds.now) }
        ensures failing { IfOk result (λ source. failing_calls source ≡ failing.now) }
        ensures made { IfOk result (λ source. calls_made source ≡ 0) }
        ensures counts { IfOk result (λ source. counts_of source ≡ Counts.NONE) }
    {
        Ok(MemEntropy {
            seeds: seeds.to_vec(alloc)?,
            next: 0,
            plan: Plan::new(alloc, failing)?,
        })
    }

    /// How often it was asked, up to the greatest count.
    pub fn asked(&self) -> u64
        ensures { result ≡ calls_made self.now }
    {
        self.plan.made()
    }
}

impl Entropy for MemEntropy {
    ghost use Rattle.mail_trait.specs.MemEntropy.{follows-itself, follows-on};
    ghost use Rattle.mail_trait.specs.MemEntropy.{seeds_given, seeds_to_come};
    ghost use Rattle.mail_trait.specs.MemEntropy.{failing_calls, calls_made, counts_of, Follows};

    ghost told = { Unit {0} };

    ghost given = { seeds_given };

    ghost asked = { calls_made };

    ghost counts = { counts_of };

    ghost follows = { Follows };

    fn seed32(&mut self, into: &mut [u8; 32]) -> Result<(), MailError>
        ensures given { OnOk result (seeds_given self.new ≡ seeds_given self.old ++ into.new ∷ []) }
        ensures kept { OnErr result (seeds_given self.new ≡ seeds_given self.old) }
        ensures in_order { OnOk result (seeds_to_come self.old ≡ into.new ∷ seeds_to_come self.new) }
        ensures still_to_come { OnErr result (seeds_to_come self.new ≡ seeds_to_come self.old) }
        ensures number { calls_made self.new ≡ next_call (calls_made self.old) }
        ensures fails { Contains (failing_calls self.old) (calls_made self.new) ⊎ (seeds_to_come self.old ≡ [])
            → IsErrOf result Failed }
        ensures only { IsErrOf result Failed
            → Contains (failing_calls self.old) (calls_made self.new) ⊎ (seeds_to_come self.old ≡ []) }
        ensures cause { HasCause Failed NoMemory (counts_of self.old) (counts_of self.new) result }
        ensures follows { Follows self.old self.new }
    {
        self.plan.begin(MailError::Failed)?;
        match self.seeds.get(self.next) {
            Some(seed) => {
                *into = *seed;
                self.next += 1;
                Ok(())
            }
            None => Err(self.plan.fail(MailError::Failed)),
        }
    }

    ghost follows_itself = { follows-itself };

    ghost follows_on = { follows-on };
}
