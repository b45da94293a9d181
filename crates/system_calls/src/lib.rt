//! Single calls on files, for random bytes and on an output, each with what it leaves: over the machine, and in memory.
#![tactic(auto)]

mod again;
mod changes;
mod error;
mod file_calls;
mod last;
mod listing;
mod mem_files;
mod output;
mod plan;
mod random;
mod real_files;
mod real_output;
mod real_random;
mod stored;
#[cfg(test)]
mod tests;

pub use again::{read_again, read_at_again, sync_again, write_again, write_at_again};
pub use error::CallError;
pub use file_calls::FileCalls;
pub use mem_files::{MemFile, MemFiles};
pub use output::{MemOutput, OutputCalls};
pub use plan::Plan;
pub use random::{MemDevice, MemRandom, RandomCalls};
pub use real_files::RealFiles;
pub use real_output::RealOutput;
pub use real_random::RealRandom;
pub use stored::{FolderEntry, StoredFile};
