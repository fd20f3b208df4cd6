//! What a picture is to be like: its format, its size, its colours, its title and what a printer is
//! to do, from what a caller gives, and the words for all of it.
//!
//! A caller fills in `Settings` (`settings`), or has them read from the texts of a configuration
//! (`config`, by the words of `option_words`). `DrawOptions` (`draw_options`) are the options of a
//! format that are made of them, tested once. `xml` and `postscript` write the title, as they count
//! it. `qrcode_render` draws by these options, and re-exports all that callers need.
#![tactic(auto)]

pub mod bounds;
mod color_words;
pub mod colors;
pub mod config;
pub mod draw_options;
pub mod format;
pub mod laws;
pub mod option_words;
pub mod options;
pub mod postscript;
pub mod settings;
pub mod xml;
