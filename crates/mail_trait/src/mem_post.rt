ghost use Rattle.std.specs.Prelude.{◌≡◌, ◌≤◌, ◌⊎◌, [], ◌∷◌, ◌++◌, length, take, OnOk, OnErr, IfOk, IfSome, IsErrOf};
ghost use Rattle.std.specs.Option.{option_map};
ghost use Rattle.std.specs.FinMap.{empty, get, insert};
ghost use Rattle.group_fields.specs.Cause.{HasCause};
ghost use Rattle.group_fields.specs.Counts.{IsRaised};
ghost use Rattle.group_fields.specs.Plan.{FailsAsPlanned};
ghost use Rattle.mail_trait.specs.Files.{files_of};
ghost use Rattle.mail_trait.specs.Post.{rows_of, whole_put, failed_put, SameElsewhere};
ghost use Rattle.mail_trait.specs.declared.error.MailError.TheVariants.{Failed, Memory as NoMemory};

use crate::mem_files::{read_file, rows, store};
use crate::put::note_put;
use crate::{Listing, MailError, Post, Put};
use group_fields::{Bytes, Counts, Memory};
use std::alloc::Global;
use std::collections::BTreeMap;
use system_calls::Plan;

/// A mail folder in memory, whose calls fail by a plan.
#[derive(Drop)]
pub struct MemPost {
    alloc: Global,
    files: BTreeMap<String, Vec<u8>>,
    puts: Vec<Put>,
    plan: Plan,
}

/// Puts a copy of the bytes under the name, and another at the end of the list. Where memory lacks, nothing changes.
fn put_whole(
    files: &mut BTreeMap<String, Vec<u8>>,
    puts: &mut Vec<Put>,
    alloc: Global,
    name: &str,
    bytes: &[u8],
) -> Result<(), Memory>
    ensures put { OnOk result (files_of files.new ≡ insert (files_of files.old) name.now bytes.now) }
    ensures others { SameElsewhere name.now (files_of files.old) (files_of files.new) }
    ensures seen { OnOk result (puts.new.items ≡ puts.old.items ++ whole_put name.now bytes.now ∷ []) }
    ensures unchanged { OnErr result ((files_of files.new ≡ files_of files.old) × (puts.new.items ≡ puts.old.items)) }
{
    let count = puts.len();
    note_put(puts, alloc, name, bytes, true)?;
    let stored = store(files, alloc, name, bytes);
    if stored.is_err() {
        puts.truncate(count);
    }
    stored
}

impl MemPost {
    ghost use Rattle.mail_trait.specs.MemPost.{files_in, puts_in, failing_calls, calls_made, counts_of};

    /// No file yet. The calls of these numbers, from 1, are to fail.
    pub fn new(alloc: Global, failing: &[u32]) -> Result<MemPost, Memory>
        ensures empty { IfOk result (λ post. files_in post ≡ empty) }
        ensures puts { IfOk result (λ post. puts_in post ≡ []) }
        ensures failing { IfOk result (λ post. failing_calls post ≡ failing.now) }
        ensures made { IfOk result (λ post. calls_made post ≡ 0) }
        ensures counts { IfOk result (λ post. counts_of post ≡ Counts.NONE) }
    {
        Ok(MemPost {
            alloc,
            files: BTreeMap::new(alloc),
            puts: Vec::new(alloc),
            plan: Plan::new(alloc, failing)?,
        })
    }

    /// No file yet, and no call is to fail.
    pub fn honest(alloc: Global) -> MemPost
        ensures empty { files_in result ≡ empty }
        ensures puts { puts_in result ≡ [] }
        ensures failing { failing_calls result ≡ [] }
        ensures made { calls_made result ≡ 0 }
        ensures counts { counts_of result ≡ Counts.NONE }
    {
        MemPost {
            alloc,
            files: BTreeMap::new(alloc),
            puts: Vec::new(alloc),
            plan: Plan::honest(alloc),
        }
    }

    /// What was put, in order, failed puts too.
    pub fn puts(&self) -> &[Put]
        ensures { result.now ≡ puts_in self.now }
    {
        &self.puts
    }
}

impl Post for MemPost {
    ghost use Rattle.group_fields.specs.Plan.{keeps-itself, keeps-on};
    ghost use Rattle.mail_trait.specs.MemPost.{files_in, puts_in, failing_calls, calls_made, counts_of, Follows};

    ghost told = { Unit {0} };

    ghost files = { files_in };

    ghost puts = { puts_in };

    ghost counts = { counts_of };

    ghost follows = { Follows };

    fn list(&mut self) -> Result<Listing, MailError>
        ensures rows { IfOk result (λ rows. rows ≡ rows_of (files_in self.old)) }
        ensures files { files_in self.new ≡ files_in self.old }
        ensures puts { puts_in self.new ≡ puts_in self.old }
        ensures planned { FailsAsPlanned Failed (failing_calls self.old)
            (calls_made self.old) (calls_made self.new) result }
        ensures cause { HasCause Failed NoMemory (counts_of self.old) (counts_of self.new) result }
        ensures follows { Follows self.old self.new }
    {
        self.plan.begin(MailError::Failed)?;
        let outcome = rows(self.alloc, &self.files);
        self.plan.end(outcome, MailError::Memory)
    }

    fn read(&mut self, name: &str, limit: u32) -> Result<Option<Bytes>, MailError>
        ensures within { IfOk result (λ found. IfSome found (λ bytes. length bytes ≤ limit)) }
        ensures bytes { IfOk result (λ found. found ≡ option_map (take limit) (get (files_in self.old) name.now)) }
        ensures files { files_in self.new ≡ files_in self.old }
        ensures puts { puts_in self.new ≡ puts_in self.old }
        ensures planned { FailsAsPlanned Failed (failing_calls self.old)
            (calls_made self.old) (calls_made self.new) result }
        ensures cause { HasCause Failed NoMemory (counts_of self.old) (counts_of self.new) result }
        ensures follows { Follows self.old self.new }
    {
        self.plan.begin(MailError::Failed)?;
        let outcome = read_file(self.alloc, &self.files, name, limit);
        self.plan.end(outcome, MailError::Memory)
    }

    /// A put that is to fail is noted as one that failed. Where memory lacks for that, a want is counted too.
    fn put(&mut self, name: &str, bytes: &[u8]) -> Result<(), MailError>
        ensures put { OnOk result (files_in self.new ≡ insert (files_in self.old) name.now bytes.now) }
        ensures others { SameElsewhere name.now (files_in self.old) (files_in self.new) }
        ensures unchanged { OnErr result (files_in self.new ≡ files_in self.old) }
        ensures seen { OnOk result (puts_in self.new ≡ puts_in self.old ++ whole_put name.now bytes.now ∷ []) }
        ensures failed { IsErrOf result Failed
            → (puts_in self.new ≡ puts_in self.old ++ failed_put name.now bytes.now ∷ [])
            ⊎ ((puts_in self.new ≡ puts_in self.old) × IsRaised (counts_of self.old).wants (counts_of self.new).wants) }
        ensures lacked { IsErrOf result NoMemory → puts_in self.new ≡ puts_in self.old }
        ensures planned { FailsAsPlanned Failed (failing_calls self.old)
            (calls_made self.old) (calls_made self.new) result }
        ensures cause { HasCause Failed NoMemory (counts_of self.old) (counts_of self.new) result }
        ensures follows { Follows self.old self.new }
    {
        if let Err(failed) = self.plan.begin(MailError::Failed) {
            let noted = note_put(&mut self.puts, self.alloc, name, bytes, false);
            let _ = self.plan.end(noted, MailError::Memory);
            return Err(failed);
        }
        let outcome = put_whole(&mut self.files, &mut self.puts, self.alloc, name, bytes);
        self.plan.end(outcome, MailError::Memory)
    }

    ghost follows_itself = { λ post. keeps-itself _ _ };

    ghost follows_on = { λ a b c f g. keeps-on _ _ _ _ _ _ f g };
}
