ghost use Rattle.std.specs.Prelude.{◌≡◌, ◌⊎◌, ◌≤◌, ◌<◌, ℕ, Bool, Option, List, length, if◌then◌else◌};
ghost use Rattle.std.specs.Prelude.{IsTrue, IsSomeAnd, MatchOption, IfOk, OnOk, OnErr, IsErrOf};
ghost use Rattle.std.specs.Option.{option_map};
ghost use Rattle.std.specs.BTreeMap.{get_by_text};
ghost use Rattle.system_calls.specs.declared.error.CallError.TheVariants.{Interrupted};
ghost use Rattle.system_calls.specs.declared.stored.StoredFile.{StoredFile};
ghost use Rattle.system_calls.specs.Errors.{CountsFailure};
ghost use Rattle.system_calls.specs.Stored.{SameFiles, SameElsewhere, fresh_file, synced, named, ReadsSome, WritesSome};
ghost use Rattle.system_calls.specs.Stored.{KeepsName, KeepsBytes, MayName, Moves, is_name, path_in, entry_of};

use crate::{CallError, FolderEntry};
use std::collections::BTreeMap;

/// Single calls of an operating system on its files. No call is made twice, and none goes on where the system gave
/// less.
///
/// A call on an open file whose path was renamed or removed since it was opened may fail.
pub trait FileCalls {
    /// An open file. It is closed where it is dropped.
    type File: Drop;

    /// Whether the system tells its files. What is said of them holds where it does.
    ghost told: { Type 0 };

    /// What there is under each path.
    ghost file_at: { Self → List ℕ → Option StoredFile };

    /// The path under which a file was opened or made.
    ghost path_of: { Self.File → List ℕ };

    /// Whether an open file holds the system's exclusive lock.
    ghost is_locked: { Self.File → Bool };

    /// How many calls have failed.
    ghost failures: { Self → ℕ };

    /// Opens a plain file for reading, and for writing where that is allowed. `None` where the name is missing.
    /// Anything but a plain file is an error.
    fn open(&mut self, path: &str) -> Result<Option<Self::File>, CallError>
        ensures opened { told → IfOk result (λ found. MatchOption found (file_at self.old path.now ≡ None)
            (λ file. (path_of file ≡ path.now) × IsSomeAnd (file_at self.old path.now)
            (λ stored. IsTrue stored.is_plain))) }
        ensures files { told → SameFiles (file_at self.old) (file_at self.new) }
        ensures failures { CountsFailure (failures self.old) (failures self.new) result };

    /// Makes a file and opens it: where it is private only its owner may read and write it, whatever the process's mask,
    /// and else whom that mask lets. `Taken` where there is something under the name.
    fn make(&mut self, path: &str, is_private: bool) -> Result<Self::File, CallError>
        ensures made { told → IfOk result (λ file. (path_of file ≡ path.now) × (file_at self.old path.now ≡ None)
            × (file_at self.new path.now ≡ Some (fresh_file is_private))) }
        ensures failed { told → OnErr result ((file_at self.new path.now ≡ file_at self.old path.now)
            ⊎ ((file_at self.old path.now ≡ None) × (file_at self.new path.now ≡ Some (fresh_file is_private)))) }
        ensures others { told → SameElsewhere path.now (file_at self.old) (file_at self.new) }
        ensures failures { CountsFailure (failures self.old) (failures self.new) result };

    /// Takes the system's exclusive lock on the file without waiting. It is an error where another open file has it.
    fn lock(&mut self, file: &mut Self::File) -> Result<(), CallError>
        ensures locked { told → OnOk result (IsTrue (is_locked file.new)) }
        ensures path { path_of file.new ≡ path_of file.old }
        ensures files { told → SameFiles (file_at self.old) (file_at self.new) }
        ensures failures { CountsFailure (failures self.old) (failures self.new) result };

    /// How many bytes the file has.
    fn len(&mut self, file: &mut Self::File) -> Result<u64, CallError>
        ensures length { told → IfOk result (λ n. IsSomeAnd (file_at self.old (path_of file.old))
            (λ stored. n ≡ length stored.bytes)) }
        ensures file { (path_of file.new ≡ path_of file.old) × (is_locked file.new ≡ is_locked file.old) }
        ensures files { told → SameFiles (file_at self.old) (file_at self.new) }
        ensures failures { CountsFailure (failures self.old) (failures self.new) result };

    /// Reads from a place on, once, and answers how many bytes came.
    fn read_at(
        &mut self,
        file: &mut Self::File,
        at: u64,
        into: &mut [u8],
    ) -> Result<usize, CallError>
        ensures within { IfOk result (λ n. n ≤ length into.old) }
        ensures bytes { told → IfOk result (λ n. IsSomeAnd (file_at self.old (path_of file.old))
            (λ stored. ReadsSome stored.bytes at n into.old into.new)) }
        ensures failed { told → OnErr result (into.new ≡ into.old) }
        ensures file { (path_of file.new ≡ path_of file.old) × (is_locked file.new ≡ is_locked file.old) }
        ensures files { told → SameFiles (file_at self.old) (file_at self.new) }
        ensures failures { CountsFailure (failures self.old) (failures self.new) result };

    /// Writes at a place, once, and answers how many of the bytes were taken: at least one, where there are any.
    fn write_at(&mut self, file: &mut Self::File, at: u64, bytes: &[u8]) -> Result<usize, CallError>
        ensures within { IfOk result (λ n. n ≤ length bytes.now) }
        ensures some { IfOk result (λ n. 0 < length bytes.now → 0 < n) }
        ensures written { told → IfOk result (λ n. WritesSome at n bytes.now (file_at self.old (path_of file.old))
            (file_at self.new (path_of file.old))) }
        ensures failed { told → OnErr result (KeepsName (file_at self.old (path_of file.old))
            (file_at self.new (path_of file.old))) }
        ensures interrupted { told → IsErrOf result Interrupted → SameFiles (file_at self.old) (file_at self.new) }
        ensures others { told → SameElsewhere (path_of file.old) (file_at self.old) (file_at self.new) }
        ensures file { (path_of file.new ≡ path_of file.old) × (is_locked file.new ≡ is_locked file.old) }
        ensures failures { CountsFailure (failures self.old) (failures self.new) result };

    /// Waits until the bytes of the file would survive a loss of power.
    fn sync(&mut self, file: &mut Self::File) -> Result<(), CallError>
        ensures synced { told → OnOk result (IsSomeAnd (file_at self.old (path_of file.old))
            (λ stored. file_at self.new (path_of file.old) ≡ Some (synced stored))) }
        ensures failed { told → OnErr result (KeepsBytes (file_at self.old (path_of file.old))
            (file_at self.new (path_of file.old))) }
        ensures others { told → SameElsewhere (path_of file.old) (file_at self.old) (file_at self.new) }
        ensures file { (path_of file.new ≡ path_of file.old) × (is_locked file.new ≡ is_locked file.old) }
        ensures failures { CountsFailure (failures self.old) (failures self.new) result };

    /// Waits until the name would survive a loss of power, with those of its neighbours: syncs the folder that the
    /// path's last name lies in.
    fn sync_name(&mut self, path: &str) -> Result<(), CallError>
        ensures named { told → OnOk result (file_at self.new path.now ≡ option_map named (file_at self.old path.now)) }
        ensures names { told → (other : List ℕ) → MayName (file_at self.old other) (file_at self.new other) }
        ensures failures { CountsFailure (failures self.old) (failures self.new) result };

    /// Gives a file another path, where it takes the place of what there is.
    fn rename(&mut self, from: &str, to: &str) -> Result<(), CallError>
        ensures moved { told → OnOk result (Moves from.now to.now (file_at self.old) (file_at self.new)) }
        ensures failed { told → OnErr result (SameFiles (file_at self.old) (file_at self.new)
            ⊎ Moves from.now to.now (file_at self.old) (file_at self.new)) }
        ensures failures { CountsFailure (failures self.old) (failures self.new) result };

    /// Removes the file under a path.
    fn remove(&mut self, path: &str) -> Result<(), CallError>
        ensures removed { told → OnOk result (file_at self.new path.now ≡ None) }
        ensures failed { told → OnErr result ((file_at self.new path.now ≡ file_at self.old path.now)
            ⊎ (file_at self.new path.now ≡ None)) }
        ensures others { told → SameElsewhere path.now (file_at self.old) (file_at self.new) }
        ensures failures { CountsFailure (failures self.old) (failures self.new) result };

    /// Whether a folder is there: an error where it is not, or can't be opened.
    fn find_folder(&mut self, folder: &str) -> Result<(), CallError>
        ensures files { told → SameFiles (file_at self.old) (file_at self.new) }
        ensures failures { CountsFailure (failures self.old) (failures self.new) result };

    /// The names in a folder, with what is under each. An entry that can't be given is an error.
    fn list(&mut self, folder: &str) -> Result<BTreeMap<String, FolderEntry>, CallError>
        ensures rows { told → IfOk result (λ rows. (name : List ℕ) →
            get_by_text rows name ≡ (if is_name name then option_map entry_of
            (file_at self.old (path_in folder.now name)) else None)) }
        ensures files { told → SameFiles (file_at self.old) (file_at self.new) }
        ensures failures { CountsFailure (failures self.old) (failures self.new) result };
}
