//! `bench_jobs` does jobs that users of these crates wait for, on inputs that it makes of a seed,
//! and prints a digest of all results of each job. `bench/run` times it.
//!
//!     bench_jobs SEED COUNT JOB [COUNT JOB]..
#![tactic(auto)]

mod dense;
mod digest;
mod documents;
mod labels;
mod layers;
mod pictures;
mod random;
mod symbols;
mod words;

use crate::digest::Digest;
use crate::random::Random;
use programs::{Fault, arguments};
use std::alloc::Global;
use std::process::ExitCode;

/// Runs the jobs that the arguments name.
fn main(rt: HostRuntime) -> ExitCode {
    match arguments(&rt) {
        Ok(args) => run(&rt, &args),
        Err(_) => ExitCode::from(1),
    }
}

/// Runs the jobs that the words name, and prints a line for each. The status is 2 if the words are
/// no jobs, and 1 after an error.
fn run(rt: &HostRuntime, args: &[String]) -> ExitCode {
    let Some(seed) = number(args, 0) else {
        return ExitCode::from(2);
    };
    for n in 0..args.len() / 2 {
        let (Some(count), Some(name)) = (number(args, 2 * n + 1), args.get(2 * n + 2)) else {
            return ExitCode::from(2);
        };
        let name = name.as_str();
        let random = Random::new(seed, n as u64);
        match done(rt.alloc(), name, count, random) {
            Ok(Some(digest)) => {
                let value = digest.value();
                if println!(rt; "{name} {value}").is_err() {
                    return ExitCode::from(1);
                }
            }
            Ok(None) => return ExitCode::from(2),
            Err(_) => return ExitCode::from(1),
        }
    }
    ExitCode::SUCCESS
}

/// Returns the number that one of the words is.
fn number(args: &[String], place: usize) -> Option<u64> {
    args.get(place)?.as_str().parse::<u64>().ok()
}

/// Does a job, as many rounds as this, and returns the digest of its results; `None` for a name
/// that is no job.
fn done(alloc: Global, name: &str, count: u64, random: Random) -> Result<Option<Digest>, Fault> {
    let digest = match name {
        "labels" => labels::run(alloc, count, random)?,
        "symbols" => symbols::run(alloc, count, random)?,
        "pictures" => pictures::run(alloc, count, random)?,
        "dense" => dense::run(alloc, count, random)?,
        "documents" => documents::run(alloc, count, random)?,
        "layers" => layers::run(alloc, count, random)?,
        _ => return Ok(None),
    };
    Ok(Some(digest))
}
