ghost use Rattle.std.specs.Prelude.{◌≡◌};
ghost use Rattle.member_journal.specs.declared.fault.JournalFault.TheVariants.{Memory as OutOfMemory};
ghost use Rattle.member_journal.specs.Fault.{fault_of};

use disk_trait::DiskError;
use std::alloc::AllocError;
use thiserror::Error;

/// Why a call of a journal did not succeed.
#[derive(Clone, Copy, Debug, PartialEq, Eq, Error)]
pub enum JournalFault {
    #[error("the disk failed")]
    Disk,
    #[error("no memory is left for the journal")]
    Memory,
    #[error("the bytes are no journal at place {0}")]
    NotJournal(u64),
}

impl From<DiskError> for JournalFault {
    ghost from_gives = { λ error fault. fault ≡ fault_of error };

    fn from(error: DiskError) -> JournalFault {
        match error {
            DiskError::Failed => JournalFault::Disk,
            DiskError::Memory => JournalFault::Memory,
        }
    }
}

impl From<AllocError> for JournalFault {
    ghost from_gives = { λ _ fault. fault ≡ OutOfMemory };

    fn from(_: AllocError) -> JournalFault {
        JournalFault::Memory
    }
}
