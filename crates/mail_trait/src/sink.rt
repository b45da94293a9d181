ghost use Rattle.std.specs.Prelude.{◌≡◌, List, ℕ, ◌++◌, OnOk};
ghost use Rattle.group_fields.specs.Cause.{HasCause};
ghost use Rattle.group_fields.specs.declared.counts.Counts.{Counts};
ghost use Rattle.mail_trait.specs.Sink.{AppendsPrefix};
ghost use Rattle.mail_trait.specs.declared.error.MailError.TheVariants.{Failed, Memory};

use crate::MailError;

/// An output that bytes are appended to.
pub trait Sink {
    /// Whether the output tells what was written. What is said of that holds where it does.
    ghost told: { Type 0 };

    /// The bytes that were written.
    ghost written: { Self → List ℕ };

    /// How often it has failed, and wanted memory.
    ghost counts: { Self → Counts };

    /// The second comes of the first by calls of the output.
    ghost follows: { Self → Self → Type 0 };

    /// Appends the bytes. Where it fails it has appended some of them, from the first one on.
    fn write(&mut self, bytes: &[u8]) -> Result<(), MailError>
        ensures written { told → OnOk result (written self.new ≡ written self.old ++ bytes.now) }
        ensures prefix { told → AppendsPrefix bytes.now (written self.old) (written self.new) }
        ensures cause { HasCause Failed Memory (counts self.old) (counts self.new) result }
        ensures follows { follows self.old self.new };

    /// No calls lead from an output to itself, and calls after calls are calls.
    ghost follows_itself: { (sink : Self) → follows sink sink };

    ghost follows_on: { (first second third : Self)
        → follows first second → follows second third → follows first third };
}
