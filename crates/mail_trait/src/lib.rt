//! The outside but for the disk: the mail folder, the random bytes and the output, each as a trait with a meaning.
//! With each a form in memory, whose calls fail on demand, and an adapter over single calls of an operating system.
#![tactic(auto)]

mod device_entropy;
mod dir_post;
mod entropy;
mod error;
mod failures;
mod folder;
mod folder_list;
mod listing;
mod mem_entropy;
mod mem_files;
mod mem_post;
mod mem_sink;
mod out_sink;
mod post;
mod put;
mod sink;
mod streams;
#[cfg(test)]
mod tests;

pub use device_entropy::DeviceEntropy;
pub use dir_post::DirPost;
pub use entropy::Entropy;
pub use error::MailError;
pub use listing::{Entry, Listing};
pub use mem_entropy::MemEntropy;
pub use mem_post::MemPost;
pub use mem_sink::MemSink;
pub use out_sink::OutSink;
pub use post::Post;
pub use put::Put;
pub use sink::Sink;
