//! One member of one group: command words in, a journal and lines out.
#![tactic(auto)]

mod answer;
mod card;
mod command;
mod devices;
mod ended;
mod init;
mod laws;
mod program;
mod run;
mod step;
#[cfg(test)]
mod tests;

use crate::program::{Outcome, exit_status, failure_text, given_words, parts_of, reason_of};
pub use command::{Command, read_command};
use disk_trait::FileDisk;
pub use ended::{Ended, Refusal};
use group_fields::{Memory, Text};
pub use laws::{acknowledged_steps_last, steps_are_kept};
use mail_trait::{DeviceEntropy, DirPost, OutSink};
pub use run::run;
use std::process::ExitCode;
use std::{env, fs};
use system_calls::{RealFiles, RealOutput, RealRandom};

/// Opened for reading, so that what is written to it fails.
const NOTHING: &str = "/dev/null";

/// Runs one command. The first two words are the path of the journal and that of the mail folder, the others are those
/// of the command, and the status of the process is that of the run. Where a device failed or memory ran out, a line on
/// standard error says so.
fn main(rt: HostRuntime) -> ExitCode {
    // Where the input, the output or the standard error is closed, these take its place, so that no journal does.
    let _first = fs::open(&rt, NOTHING);
    let _second = fs::open(&rt, NOTHING);
    let _third = fs::open(&rt, NOTHING);
    let outcome = run_program(&rt);
    let status = exit_status(&outcome);
    if let Some(text) = failure_text(status) {
        let _ = match reason_of(&outcome) {
            Some(reason) => eprintln!(&rt; "{text}: {reason}"),
            None => eprintln!(&rt; "{text}"),
        };
    }
    ExitCode::from(status)
}

/// Runs the command of the words that were given.
fn run_program(rt: &HostRuntime) -> Result<Outcome, Memory> {
    let words = given_words(rt.alloc(), env::args(rt))?;
    let (journal, mail, command) = parts_of(words.as_slice());
    carry_out(rt, journal, mail, command)
}

/// Runs a command over the real machine.
fn carry_out(
    rt: &HostRuntime,
    journal: &str,
    mail: &str,
    command: &[Text],
) -> Result<Outcome, Memory> {
    let files = RealFiles::new(rt.clone()?);
    let disk = FileDisk::new(files, Text::copy_of(rt.alloc(), journal)?);
    let folder = RealFiles::new(rt.clone()?);
    let mut post = DirPost::new(rt.alloc(), folder, Text::copy_of(rt.alloc(), mail)?);
    let mut entropy = DeviceEntropy::new(RealRandom::new(rt.clone()?));
    let mut out = OutSink::new(RealOutput::new(rt.clone()?));
    let (disk, ended) = run(rt.alloc(), command, disk, &mut post, &mut entropy, &mut out);
    Ok(Outcome {
        ended,
        disk: disk.reason(),
        post: post.reason(),
        entropy: entropy.reason(),
        output: out.reason(),
    })
}
