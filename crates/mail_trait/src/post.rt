ghost use Rattle.std.specs.Prelude.{◌≡◌, ◌≤◌, ◌⊎◌, List, ℕ, [], ◌∷◌, ◌++◌, length, take, OnOk, OnErr, IfOk, IfSome};
ghost use Rattle.std.specs.Option.{option_map};
ghost use Rattle.std.specs.Ordering.{nat_cmp};
ghost use Rattle.std.specs.Cmp.Lexicographic.{slice_cmp};
ghost use Rattle.std.specs.FinMap.{FinMap, get, insert};
ghost use Rattle.group_fields.specs.Cause.{HasCause};
ghost use Rattle.group_fields.specs.declared.counts.Counts.{Counts};
ghost use Rattle.mail_trait.specs.Post.{Put, rows_of, whole_put, failed_put, SameElsewhere};
ghost use Rattle.mail_trait.specs.declared.error.MailError.TheVariants.{Failed, Memory};

use crate::{Listing, MailError};
use group_fields::Bytes;

/// A mail folder: files of bytes, each under a name, into which others may write too.
pub trait Post {
    /// Whether the folder tells its content. What is said of files holds where it does.
    ghost told: { Type 0 };

    /// The files, from the bytes of a name to the bytes of the file.
    ghost files: { Self → FinMap (slice_cmp nat_cmp) (List ℕ) };

    /// What was put, in order, failed puts too.
    ghost puts: { Self → List Put };

    /// How often it has failed, and wanted memory.
    ghost counts: { Self → Counts };

    /// The second comes of the first by calls of the folder.
    ghost follows: { Self → Self → Type 0 };

    /// A row for each file, in the order of the bytes of the names. A length past 64 bits is given as the greatest one.
    fn list(&mut self) -> Result<Listing, MailError>
        ensures rows { told → IfOk result (λ rows. rows ≡ rows_of (files self.old)) }
        ensures files { told → files self.new ≡ files self.old }
        ensures puts { told → puts self.new ≡ puts self.old }
        ensures cause { HasCause Failed Memory (counts self.old) (counts self.new) result }
        ensures follows { follows self.old self.new };

    /// The first `limit` bytes of the file of this name, or `None` exactly where there is no such file.
    fn read(&mut self, name: &str, limit: u32) -> Result<Option<Bytes>, MailError>
        ensures within { IfOk result (λ found. IfSome found (λ bytes. length bytes ≤ limit)) }
        ensures bytes { told → IfOk result (λ found. found ≡ option_map (take limit) (get (files self.old) name.now)) }
        ensures files { told → files self.new ≡ files self.old }
        ensures puts { told → puts self.new ≡ puts self.old }
        ensures cause { HasCause Failed Memory (counts self.old) (counts self.new) result }
        ensures follows { follows self.old self.new };

    /// Puts the bytes under the name, in place of what was there. Where it fails the name may have any bytes, or none.
    /// A put that failed and left no trace need not be among those that were put.
    fn put(&mut self, name: &str, bytes: &[u8]) -> Result<(), MailError>
        ensures put { told → OnOk result (files self.new ≡ insert (files self.old) name.now bytes.now) }
        ensures others { told → SameElsewhere name.now (files self.old) (files self.new) }
        ensures seen { told → OnOk result (puts self.new ≡ puts self.old ++ whole_put name.now bytes.now ∷ []) }
        ensures failed { told → OnErr result ((puts self.new ≡ puts self.old ++ failed_put name.now bytes.now ∷ [])
            ⊎ ((puts self.new ≡ puts self.old) × (files self.new ≡ files self.old))) }
        ensures cause { HasCause Failed Memory (counts self.old) (counts self.new) result }
        ensures follows { follows self.old self.new };

    /// No calls lead from a folder to itself, and calls after calls are calls.
    ghost follows_itself: { (post : Self) → follows post post };

    ghost follows_on: { (first second third : Self)
        → follows first second → follows second third → follows first third };
}
