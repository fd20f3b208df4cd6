//! The labels of `qrlabel`, on any devices: from what the words ask for to the exit status.
//!
//! 1. Make the label of the input (`single_label`), or that of each of its lines (`lines`).
//! 2. Write them: to one output (`whole`, `lines`), as pages of a document (`document`), or each to
//!    a file (`files`, `part_files`).
//! 3. Say what went wrong, if something did (`report`, `refusal`), and return the exit status
//!    (`runs`).
#![tactic(auto)]

mod document;
mod files;
mod lines;
mod part_files;
mod pieces;
mod refusal;
mod report;
mod runs;
mod sizes;
mod stop;
mod whole;

pub use files::Files;
pub use runs::{LEFT_OUT, is_drawn, misused, run};
