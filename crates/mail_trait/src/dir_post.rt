ghost use Rattle.std.specs.Prelude.{◌≡◌, ◌≤◌, length, false, true, Some, Ok, Err, None, IfOk, IfSome, OnOk, OnErr};
ghost use Rattle.group_fields.specs.Cause.{HasCause};
ghost use Rattle.system_calls.specs.Stored.{SameFiles, path_in};
ghost use Rattle.mail_trait.specs.FileName.{is_file_name};
ghost use Rattle.mail_trait.specs.Folder.{KeepsOthers, KeepsOrHas, Finds, Lists, lasting};
ghost use Rattle.mail_trait.specs.declared.error.MailError.TheVariants.{Failed, Memory as NoMemory};

use crate::failures::Failures;
use crate::folder::{put_file, read_file};
use crate::folder_list::list_files;
use crate::{Listing, MailError, Post};
use group_fields::{Bytes, Counts, Text};
use std::alloc::Global;
use std::io::ErrorKind;
use system_calls::FileCalls;

/// A folder of an operating system as the mail folder. It lists plain files, and passes over all else.
#[derive(Drop)]
pub struct DirPost<C> {
    alloc: Global,
    calls: C,
    folder: Text,
    failures: Failures,
}

impl<C> DirPost<C> {
    ghost use Rattle.mail_trait.specs.Machine.{counts_of_post, reason_of_post, calls_of_post, folder_of_post};

    /// The folder at this path, which is not touched before the first call.
    pub fn new(alloc: Global, calls: C, folder: Text) -> DirPost<C>
        ensures counts { counts_of_post result ≡ Counts.NONE }
        ensures reason { reason_of_post result ≡ None }
        ensures calls { calls_of_post result ≡ calls }
        ensures folder { folder_of_post result ≡ folder }
    {
        DirPost {
            alloc,
            calls,
            folder,
            failures: Failures::NONE,
        }
    }

    /// The single calls.
    pub fn calls(&self) -> &C
        ensures { result.now ≡ calls_of_post self.now }
    {
        &self.calls
    }

    /// The kind of the last failure.
    pub fn reason(&self) -> Option<ErrorKind>
        ensures { result ≡ reason_of_post self.now }
    {
        self.failures.reason
    }
}

impl<C: FileCalls> Post for DirPost<C> {
    ghost use Rattle.std.specs.Prelude.{[]};
    ghost use Rattle.std.specs.FinMap.{empty};
    ghost use Rattle.mail_trait.specs.Failures.{Tells, EndsCalm};
    ghost use Rattle.mail_trait.specs.Machine.{counts_of_post, reason_of_post, calls_of_post, folder_of_post};
    ghost use Rattle.mail_trait.specs.Machine.{NoFewer, fewer-itself, fewer-on};

    ghost told = { ⊥ };

    ghost files = { λ _. empty };

    ghost puts = { λ _. [] };

    ghost counts = { counts_of_post };

    ghost follows = { λ before now. NoFewer (counts_of_post before) (counts_of_post now) };

    /// Names that begin with `.unfinished-` are not listed.
    fn list(&mut self) -> Result<Listing, MailError>
        ensures rows { C.told → IfOk result (Lists (folder_of_post self.old) (C.file_at (calls_of_post self.old))) }
        ensures files { C.told → SameFiles (C.file_at (calls_of_post self.old)) (C.file_at (calls_of_post self.new)) }
        ensures folder { folder_of_post self.new ≡ folder_of_post self.old }
        ensures tells { Tells (EndsCalm (C.failures (calls_of_post self.old)) (C.failures (calls_of_post self.new)))
            (reason_of_post self.old) (reason_of_post self.new) result }
        ensures cause { HasCause Failed NoMemory (counts_of_post self.old) (counts_of_post self.new) result }
        ensures follows { NoFewer (counts_of_post self.old) (counts_of_post self.new) }
    {
        let listing = list_files(&mut self.calls, self.alloc, self.folder.as_str());
        self.failures.told(listing)
    }

    /// A name that no file of the folder can have is not there.
    fn read(&mut self, name: &str, limit: u32) -> Result<Option<Bytes>, MailError>
        ensures within { IfOk result (λ found. IfSome found (λ bytes. length bytes ≤ limit)) }
        ensures no_name { is_file_name name.now ≡ false → result ≡ Ok None }
        ensures found { C.told → is_file_name name.now ≡ true → IfOk result
            (Finds limit (C.file_at (calls_of_post self.old) (path_in (folder_of_post self.old) name.now))) }
        ensures files { C.told → SameFiles (C.file_at (calls_of_post self.old)) (C.file_at (calls_of_post self.new)) }
        ensures folder { folder_of_post self.new ≡ folder_of_post self.old }
        ensures tells { Tells (EndsCalm (C.failures (calls_of_post self.old)) (C.failures (calls_of_post self.new)))
            (reason_of_post self.old) (reason_of_post self.new) result }
        ensures cause { HasCause Failed NoMemory (counts_of_post self.old) (counts_of_post self.new) result }
        ensures follows { NoFewer (counts_of_post self.old) (counts_of_post self.new) }
    {
        let found = read_file(
            &mut self.calls,
            self.alloc,
            self.folder.as_str(),
            name,
            limit,
        );
        self.failures.told(found)
    }

    /// Under a name that no file of the folder can have nothing is put. Where it ends well, the file and its name would
    /// survive a loss of power.
    fn put(&mut self, name: &str, bytes: &[u8]) -> Result<(), MailError>
        ensures no_name { is_file_name name.now ≡ false → result ≡ Err Failed }
        ensures put { C.told → OnOk result
            (C.file_at (calls_of_post self.new) (path_in (folder_of_post self.old) name.now)
            ≡ Some (lasting bytes.now)) }
        ensures failed { C.told → OnErr result (KeepsOrHas (path_in (folder_of_post self.old) name.now) bytes.now
            (C.file_at (calls_of_post self.old)) (C.file_at (calls_of_post self.new))) }
        ensures others { C.told → KeepsOthers (folder_of_post self.old) (path_in (folder_of_post self.old) name.now)
            (C.file_at (calls_of_post self.old)) (C.file_at (calls_of_post self.new)) }
        ensures folder { folder_of_post self.new ≡ folder_of_post self.old }
        ensures tells { Tells (EndsCalm (C.failures (calls_of_post self.old)) (C.failures (calls_of_post self.new)))
            (reason_of_post self.old) (reason_of_post self.new) result }
        ensures cause { HasCause Failed NoMemory (counts_of_post self.old) (counts_of_post self.new) result }
        ensures follows { NoFewer (counts_of_post self.old) (counts_of_post self.new) }
    {
        let written = put_file(
            &mut self.calls,
            self.alloc,
            self.folder.as_str(),
            name,
            bytes,
        );
        self.failures.told(written)
    }

    ghost follows_itself = { λ _. fewer-itself _ };

    ghost follows_on = { λ _ _ _ f g. fewer-on _ _ _ f g };
}
