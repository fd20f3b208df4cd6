//! GS1 elements as people write them.
//!
//! 1. Check the options, and that the text is UTF-8.
//! 2. Check the elements: by the table of identifiers, and which stand together; or for what
//!    a reader needs.
//! 3. Make the symbol, write its modules to the buffer, and return its shape.
ghost use Rattle.std.specs.Prelude.{◌≡◌, None, Some, length, OnErr, OnOk, IfOk, IfErr};
ghost use Rattle.std.specs.Result.{result_err};
ghost use Rattle.qrcode_bits.specs.Contents.{AreElements};
ghost use Rattle.qrcode_bits.specs.Frame.{front_of};
ghost use Rattle.qrcode_bits.specs.declared.bits.front.Content.TheVariants.{Elements};
ghost use Rattle.gs1.specs.Elements.{written_elements};
ghost use Rattle.gs1.specs.Reader.{FindsOnly};
ghost use Rattle.qrcode_c.specs.Faults.{IsFaultRefusal};
ghost use Rattle.qrcode_c.specs.Buffers.{HoldsAsked};
ghost use Rattle.qrcode_c.specs.Written.{text_refusal, IsWrittenRefusal, WritesElements};
ghost use Rattle.qrcode_c.specs.Written.{IsTableRefusal, TellsPlace, checked_refusal, checked_place};

use crate::drawing::write;
use crate::faults::{
    ElementFault, nowhere, place_of, refusal_of, table_refusal, together_place_of, together_refusal,
};
use crate::options::{Options, options_of};
use crate::refusal::{Refusal, core_refusal};
use crate::shape::Shape;
use gs1::{check_together, checked_element_string, element_string, values};
use qrcode_core::symbol::Symbol;
use std::alloc::Global;

/// Writes the symbol of GS1 elements, written as people write them, that the options ask for, and
/// returns its shape.
pub fn written_symbol(
    alloc: Global,
    is_checked: bool,
    text: &[u8],
    options: &Options,
    modules: &mut [u8],
) -> Result<Shape, Refusal>
    ensures held { IfOk result (λ shape. WritesElements is_checked text.now (λ elements.
        HoldsAsked (front_of None Elements) elements options.now modules.old modules.new shape)) }
    ensures refusal { IfErr result
        (IsWrittenRefusal is_checked text.now options.now (length modules.old)) }
    ensures unchanged { OnErr result (modules.new ≡ modules.old) }
{
    let checked = options_of(options)?;
    let Ok(text) = str::from_utf8(text) else {
        return Err(Refusal::InvalidText);
    };
    let elements = string_of(alloc, is_checked, text)?;
    match Symbol::elements_with(alloc, &elements, &checked) {
        Ok(symbol) => write(&symbol, modules),
        Err(error) => Err(core_refusal(error)),
    }
}

/// Returns the element string of a text, if it has no fault.
fn string_of(alloc: Global, is_checked: bool, text: &str) -> Result<Vec<u8>, Refusal>
    ensures found { IfOk result (λ bytes. FindsOnly bytes.items (written_elements text.now)) }
    ensures elements { IfOk result (λ bytes. AreElements bytes.items) }
    ensures faultless { OnOk result (text_refusal is_checked text.now ≡ None) }
    ensures refusal { IfErr result (IsFaultRefusal (text_refusal is_checked text.now)) }
{
    if is_checked {
        return checked_string(alloc, text);
    }
    match element_string(alloc, text) {
        Ok(bytes) => Ok(bytes),
        Err(error) => Err(refusal_of(error)),
    }
}

/// Returns the element string of a text whose elements the table of identifiers allows, and which
/// may stand together.
fn checked_string(alloc: Global, text: &str) -> Result<Vec<u8>, Refusal>
    ensures found { IfOk result (λ bytes. FindsOnly bytes.items (written_elements text.now)) }
    ensures elements { IfOk result (λ bytes. AreElements bytes.items) }
    ensures faultless { OnOk result (checked_refusal text.now ≡ None) }
    ensures refusal { IfErr result (IsFaultRefusal (checked_refusal text.now)) }
{
    let mut fault = nowhere();
    if let Err(refusal) = check_text(text, &mut fault) {
        return Err(refusal);
    }
    match checked_element_string(alloc, text) {
        Ok(bytes) => Ok(bytes),
        // All has been tested, and only memory can run out.
        Err(_) => Err(Refusal::OutOfMemory),
    }
}

/// Checks a text by the table of identifiers, and which of its elements stand together; and writes
/// where its first fault is.
fn check_text(text: &str, fault: &mut ElementFault) -> Result<(), Refusal>
    ensures refusal { result_err result ≡ checked_refusal text.now }
    ensures place { (first : ElementFault) → checked_place text.now ≡ Some first →
        fault.new ≡ first }
{
    if let Err(error) = values::check_text(text.as_bytes()) {
        *fault = place_of(error);
        return Err(table_refusal(error));
    }
    if let Err(error) = check_together(text) {
        *fault = together_place_of(error);
        return Err(together_refusal(error));
    }
    Ok(())
}

/// Checks bytes as `qrcode_c_gs1` does, and writes where their first fault is.
pub fn check_written(text: &[u8], fault: &mut ElementFault) -> Result<(), Refusal>
    ensures faultless { OnOk result (checked_refusal text.now ≡ None) }
    ensures refusal { IfErr result (IsTableRefusal text.now) }
    ensures told { TellsPlace text.now fault.new }
{
    match str::from_utf8(text) {
        Ok(text) => check_text(text, fault),
        Err(_) => Err(Refusal::InvalidText),
    }
}
