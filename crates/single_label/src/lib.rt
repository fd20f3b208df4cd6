//! A label of `qrlabel`: from its input and what the words ask for to its bytes.
//!
//! 1. Make the symbol of the content of the input (`content`, `element`), or the symbols that carry
//!    it together (`parts`).
//! 2. Draw it (`label`, `colors`, `turned`), with its elements below it where they are asked for
//!    (`caption`), write its details (`details`, `text_details`), or make it a page of a document
//!    (`shown`, `turned`).
//! 3. Where there is no label, say why (`stop`), and how much there is room for (`room`).
//!
//! ```text
//! let label = label_bytes::<Vec<u8>>(alloc, &label, &options, &bytes)?;
//! ```
#![tactic(auto)]

mod apart;
mod caption;
mod colors;
mod content;
mod details;
mod element;
mod label;
mod other_way;
mod parts;
mod room;
mod shown;
mod stop;
mod text_details;
mod turned;
mod widths;

pub use content::most_bytes;
pub use element::element_number;
pub use label::label_bytes;
pub use parts::{Message, message_labels, message_text, most_together};
pub use shown::{PageSymbol, Said, Shown, WithDetails, are_pages, page_drawn};
pub use stop::{ElementStop, Stop, TextLength, TooLong};
pub use widths::physical_width;
