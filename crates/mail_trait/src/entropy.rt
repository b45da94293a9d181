ghost use Rattle.std.specs.Prelude.{◌≡◌, List, ℕ, [], ◌∷◌, ◌++◌, OnOk, OnErr};
ghost use Rattle.group_fields.specs.Cause.{HasCause};
ghost use Rattle.group_fields.specs.Plan.{next_call};
ghost use Rattle.group_fields.specs.declared.counts.Counts.{Counts};
ghost use Rattle.mail_trait.specs.declared.error.MailError.TheVariants.{Failed, Memory};

use crate::MailError;

/// A source of random bytes, 32 at a time.
pub trait Entropy {
    /// Whether the source tells which seeds it has given. What is said of them holds where it does.
    ghost told: { Type 0 };

    /// The seeds that it has given, the first one first.
    ghost given: { Self → List (List ℕ) };

    /// How often it was asked, up to the greatest count.
    ghost asked: { Self → ℕ };

    /// How often it has failed, and wanted memory.
    ghost counts: { Self → Counts };

    /// The second comes of the first by calls of the source.
    ghost follows: { Self → Self → Type 0 };

    /// Fills `into` with the next seed. Where it fails, `into` may hold anything.
    fn seed32(&mut self, into: &mut [u8; 32]) -> Result<(), MailError>
        ensures given { told → OnOk result (given self.new ≡ given self.old ++ into.new ∷ []) }
        ensures kept { told → OnErr result (given self.new ≡ given self.old) }
        ensures asked { told → asked self.new ≡ next_call (asked self.old) }
        ensures cause { HasCause Failed Memory (counts self.old) (counts self.new) result }
        ensures follows { follows self.old self.new };

    /// No calls lead from a source to itself, and calls after calls are calls.
    ghost follows_itself: { (source : Self) → follows source source };

    ghost follows_on: { (first second third : Self)
        → follows first second → follows second third → follows first third };
}
