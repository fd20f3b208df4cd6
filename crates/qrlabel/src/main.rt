//! `qrlabel` draws the symbol of a text, a file or its input as a picture.
//!
//! 1. Read the words, and find out what they ask for (crate `label_words`).
//! 2. Open the devices that they name (`devices`, with files in `folder` and `progress`).
//! 3. Draw the labels, and say what went wrong, if something did (crate `labels`).
#![tactic(auto)]

mod devices;
mod folder;
mod progress;

use crate::devices::run_on_devices;
use label_words::read_words;
use labels::misused;
use programs::{
    FromWriter, Gathered, held_descriptors, lent_words, report, valid_arguments, write_line,
};
use std::process::ExitCode;

/// Runs with the arguments, the input and the outputs of the process.
fn main(rt: HostRuntime) -> ExitCode {
    let _held = held_descriptors(&rt);
    let mut errors = Gathered::new(FromWriter::new(rt.stderr()));
    let args = match valid_arguments(&rt) {
        Ok(Some(args)) => args,
        Ok(None) => {
            let _ = write_line(&mut errors, "qrlabel", &["a word is not UTF-8, see --read"]);
            return ExitCode::from(2);
        }
        Err(fault) => return ExitCode::from(report(&mut errors, "qrlabel", fault)),
    };
    let words = match lent_words(rt.alloc(), &args) {
        Ok(words) => words,
        Err(error) => return ExitCode::from(report(&mut errors, "qrlabel", error.into())),
    };
    ExitCode::from(match read_words(&words) {
        Ok(values) => run_on_devices(&rt, &values, &mut errors),
        Err(misuse) => misused(&mut errors, misuse, None),
    })
}
