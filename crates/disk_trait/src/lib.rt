//! A disk as the journal sees it: what a read gives, what a crash at each moment may leave, and why a call fails.
//! With it a disk in memory, which crashes on demand, and the adapter over a file.
#![tactic(auto)]

mod disk;
mod file;
mod locked_file;
mod memory;
mod streams;
#[cfg(test)]
mod tests;

pub use disk::{Disk, DiskError};
pub use file::FileDisk;
pub use memory::MemDisk;
