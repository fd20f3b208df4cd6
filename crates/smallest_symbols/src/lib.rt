//! The smallest symbols of a text and of bytes without the Kanji mode, and of a text in several
//! symbols.
//!
//! ```text
//! let options = SymbolOptions::new(EcLevel::M);
//! let symbol = smallest_text(alloc, "市北前倉東", &options)?;
//! let symbol = bytes_without_kanji(alloc, bytes, &options)?;
//! let cuts = smallest_text_cuts(alloc, text, EcLevel::M, 10)?;
//! let symbols = smallest_text_sequence(alloc, text, &cuts, EcLevel::M, 10)?;
//! ```
//!
//! 1. `text_plans`, or for bytes `byte_choice`, plans the fewest bits in a class of versions.
//! 2. The first version that holds them, after the header of a sequence or with none, is chosen
//!    (`text_choice`, `part_choice`, `byte_choice`, by `versions`), and its level may be raised.
//! 3. The header, if there is one, and the parts are pushed (`pushing`, `byte_drawing`), and
//!    `Symbol::with_bits` draws the bits.
//!
//! A text is written in the four modes, and after the ECI designators of ISO/IEC 8859, Shift JIS and
//! UTF-8. Two bytes that are a character of Shift JIS are in the Kanji mode where that takes fewer
//! bits; some readers show what is in that mode as other bytes, whatever the data are, so that bytes
//! can be written without it. The 2 to 16 symbols of a sequence are written in one manner, so that
//! each reader finds the text, whether it joins the symbols or takes each by itself.
#![tactic(auto)]

mod byte_choice;
mod byte_drawing;
pub mod byte_laws;
mod byte_needed;
mod byte_parsing;
pub mod micro_texts;
mod normal_texts;
pub mod part_choice;
mod part_symbols;
mod pushing;
pub mod sequence_laws;
mod text_choice;
pub mod text_cuts;
mod text_drawing;
pub mod text_laws;
mod text_sequences;
pub mod versions;
mod without_kanji;
mod writable;

pub use micro_texts::{MicroTextError, micro_text};
pub use normal_texts::smallest_text;
pub use text_cuts::smallest_text_cuts;
pub use text_sequences::smallest_text_sequence;
pub use without_kanji::bytes_without_kanji;
