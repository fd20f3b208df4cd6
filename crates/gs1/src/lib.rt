//! GS1 element strings from the form in which people write elements, each identifier in brackets:
//!
//! ```text
//! let bytes = element_string(alloc, "(01)09506000134352(10)ABC123(21)7")?;
//! // `bytes` are those of "010950600013435210ABC123", the separator 1D (hex) and "217".
//! ```
//!
//! `check_element_string` checks element strings that come without brackets. The modules `check`,
//! `strings`, `table`, `together` and `values` have what links (`gs1_links`) are made by.
#![tactic(auto)]

ghost use Rattle.std.specs.Prelude.{◌≡◌, None, IfOk, OnOk, IfErr};
ghost use Rattle.gs1.specs.Elements.{written_elements, bracketed, text_fault, IsRefusedText};
ghost use Rattle.gs1.specs.Reader.{FindsOnly, AreSymbolData};
ghost use Rattle.qrcode_bits.specs.Contents.{AreElements};

mod changes;
pub mod check;
mod checked;
mod checks;
mod codes;
mod coupons;
mod dates;
mod error;
mod identifiers;
mod keys;
pub mod laws;
mod read;
mod reason;
mod refusal;
mod rows;
mod shapes;
pub mod strings;
pub mod table;
pub mod together;
pub mod values;
mod write;

pub use checked::{check_element_values, checked_element_string};
pub use error::Gs1Error;
use gs1_base::cuts::behind;
pub use identifiers::right_check_digit;
pub use read::{brackets, elements_of, scanned, string_brackets};
pub use reason::Reason;
pub use refusal::CheckError;
use std::alloc::Global;
pub use strings::{Element, check_element_string, read_element, written_element};
pub use together::{TogetherError, check_together};

/// Returns the element string of a text such as `(01)09506000134352(10)ABC123`: the elements one
/// after the other, each identifier and its value, with the separator 1D (hex) behind each whose
/// length is not predefined and that is not the last. A reader finds in it the elements that the
/// text writes, and no others.
///
/// An opening bracket begins an element wherever it stands, so no value has one; the identifier
/// goes up to the first closing bracket, and further closing brackets are characters of the value.
///
/// # Errors
///
/// `NoElements` if the text does not begin with an opening bracket, else the fault of the first
/// element that has one. An element is checked in this order: `InvalidIdentifier` (not two to four
/// digits), `UnknownIdentifier` (none with these first two digits is assigned, or they have another
/// number of digits), `EmptyValue`, `ValueTooLong` (over 90 characters), `InvalidCharacter` (none
/// of GS1's 82 characters and no `#`, or no digit where the length is predefined), `WrongLength`
/// (the predefined length is another) and `WrongCheckDigit` (of 00, 01, 02 and 410 to 417).
/// `OutOfMemory` if the text has no fault and an allocation failed.
pub fn element_string(alloc: Global, text: &str) -> Result<Vec<u8>, Gs1Error>
    // The text writes the elements, and a reader finds them.
    ensures written { OnOk result (bracketed (written_elements text.now) ≡ text.now) }
    ensures found { IfOk result (λ bytes. FindsOnly bytes.items (written_elements text.now)) }
    ensures data { IfOk result (λ bytes. AreSymbolData bytes.items) }
    // The encoder takes all of its bytes.
    ensures elements { IfOk result (λ bytes. AreElements bytes.items) }

    ensures faultless { OnOk result (text_fault text.now ≡ None) }
    ensures refusal { IfErr result (IsRefusedText text.now) }
{
    let text = text.as_bytes();
    check::check_text(text)?;
    let bytes = write::string_of(alloc, behind(text, 0))?;
    Ok(bytes)
}
