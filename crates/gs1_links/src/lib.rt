//! GS1 Digital Links: a link of elements, and the elements of a link.
//!
//! ```text
//! let link = digital_link(alloc, "(17)261231(10)ABC(01)09506000134352", "id.gs1.org")?;
//! // `link` has the bytes of "https://id.gs1.org/01/09506000134352/10/ABC?17=261231".
//! let elements = elements_of_link(alloc, link.as_slice())?;
//! // 01, 10 and 17, with their values.
//! ```
//!
//! 1. Check the text by the table, and which elements it has (`link_rules`), and write the link
//!    (`link`).
//! 2. Cut a link into its parts (`link_parts`), check the values (`link_values`) and which elements
//!    stand together (`link_together`), and return the elements (`link_read`), or the first fault
//!    (`link_error`).
#![tactic(auto)]

mod capitals;
pub mod laws;
mod link;
mod link_error;
mod link_parts;
mod link_read;
mod link_rules;
mod link_together;
mod link_values;

pub use gs1_base::domain::is_domain;
pub use gs1_base::percent::{PercentError, percent_decoded, percent_escaped};
pub use link::{capital_link, digital_link};
pub use link_error::{LinkError, LinkReadError};
pub use link_read::{LinkElement, elements_of_link};
