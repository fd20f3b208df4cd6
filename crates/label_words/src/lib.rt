//! What the words of a call of `qrlabel` ask for.
//!
//! 1. Read the words: each option with its value, and the text (`words`).
//! 2. Find out what they ask for (`command`, with `choices`, `names`, `portion` and `settings`): a
//!    label, or `help`.
//! 3. Say what is wrong with them, if something is (`misuse`).
//!
//! ```text
//! let values = read_words(&words)?;
//! match command_of(&values, on_terminal)? { .. }
//! ```
#![tactic(auto)]

mod choices;
mod command;
mod help;
mod link_words;
mod misuse;
mod names;
mod portion;
mod settings;
mod words;

pub use command::{Command, Content, Details, Label, Portion, Turn, command_of, is_micro};
pub use help::{help_text, version_text};
pub use misuse::write_misuse;
pub use names::{Numbering, write_numbered};
pub use portion::{can_be_split, is_document};
pub use words::{Misuse, Name, Values, read_words};
