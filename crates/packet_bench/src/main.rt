//! Times what is done with packets: `packet_bench WORK COUNT` does the work COUNT times, and prints a digest of what
//! came of it in hexadecimal digits, so that two builds can be compared.
#![tactic(auto)]

mod firsts;
mod group;
mod histories;
mod packets;
mod seeds;
mod signing;
mod texts;
mod work;

use std::process::ExitCode;
use std::{env, io};
use work::Work;

/// The work and the count that the words name.
fn request(words: &[String]) -> Option<(Work, u32)> {
    let [_, name, count] = words else {
        return None;
    };
    let work = Work::named(name.as_str())?;
    let count = count.as_str().parse::<u32>().ok()?;
    Some((work, count))
}

fn main(rt: HostRuntime) -> io::Result<ExitCode> {
    let words: Vec<String> = env::args(&rt)?.collect(rt.alloc())?;
    let Some((work, count)) = request(words.as_slice()) else {
        eprintln!(rt; "usage: packet_bench WORK COUNT")?;
        return Ok(ExitCode::from(2));
    };
    let digest = work.run(rt.alloc(), count)?;
    let digits = hex::encode(rt.alloc(), digest.as_slice())?;
    println!(rt; "{digits}")?;
    Ok(ExitCode::SUCCESS)
}
