//! The picture of a grid: its pixels as bits and as text for a terminal, and its path of lines.
//!
//! 1. A `Picture` is a borrowed grid with its scale and its quiet zone (`picture`).
//! 2. `bitmap` writes its rows of pixels as bits, and `terminal` as half blocks.
//! 3. `text` writes lines of text as such rows, by the letters of a font (`letters`).
//! 4. `path` writes a rectangle for each run of dark modules in a row, as the format of a `Pen`
//!    has it.
//!
//! `qrcode_render` makes files and documents of these, and re-exports `picture` and `terminal`.
#![tactic(auto)]

pub mod bitmap;
pub mod laws;
pub mod lettering;
pub mod letters;
mod numbers;
pub mod path;
pub mod pen;
pub mod picture;
pub mod terminal;
pub mod text;
