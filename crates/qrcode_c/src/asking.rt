//! Symbols that options ask for, in a caller's buffer.
//!
//! 1. Check the options, and then what is said of the data: UTF-8, elements.
//! 2. Make the symbol, write its modules to the buffer, and return its shape.
ghost use Rattle.std.specs.Prelude.{◌≡◌, None, length, OnErr, OnOk, IfOk, IfErr};
ghost use Rattle.std.specs.Str.{IsUtf8};
ghost use Rattle.qrcode_bits.specs.Contents.{AreElements};
ghost use Rattle.qrcode_bits.specs.Frame.{front_of, no_front};
ghost use Rattle.qrcode_bits.specs.declared.bits.front.Content.TheVariants.{Elements, Text};
ghost use Rattle.qrcode_c.specs.Asking.{IsAskedRefusal, IsAskedTextRefusal, IsAskedElementsRefusal};
ghost use Rattle.qrcode_c.specs.Buffers.{HoldsAsked};

use crate::drawing::write;
use crate::options::{Options, options_of};
use crate::refusal::{Refusal, core_refusal};
use crate::shape::Shape;
use qrcode_core::symbol::Symbol;
use std::alloc::Global;

/// Writes the symbol of the bytes that the options ask for, and returns its shape.
pub fn bytes_symbol(
    alloc: Global,
    bytes: &[u8],
    options: &Options,
    modules: &mut [u8],
) -> Result<Shape, Refusal>
    ensures held { IfOk result
        (HoldsAsked no_front bytes.now options.now modules.old modules.new) }
    ensures refusal { IfErr result
        (IsAskedRefusal no_front bytes.now options.now (length modules.old)) }
    ensures unchanged { OnErr result (modules.new ≡ modules.old) }
{
    let checked = options_of(options)?;
    match Symbol::bytes_with(alloc, bytes, &checked) {
        Ok(symbol) => write(&symbol, modules),
        Err(error) => Err(core_refusal(error)),
    }
}

/// Writes the symbol of the text in UTF-8 that the options ask for, and returns its shape.
pub fn text_symbol(
    alloc: Global,
    text: &[u8],
    options: &Options,
    modules: &mut [u8],
) -> Result<Shape, Refusal>
    ensures held { IfOk result
        (HoldsAsked (front_of None Text) text.now options.now modules.old modules.new) }
    ensures valid { OnOk result (IsUtf8 text.now) }
    ensures refusal { IfErr result
        (IsAskedTextRefusal text.now options.now (length modules.old)) }
    ensures unchanged { OnErr result (modules.new ≡ modules.old) }
{
    let checked = options_of(options)?;
    let Ok(text) = str::from_utf8(text) else {
        return Err(Refusal::InvalidText);
    };
    match Symbol::text_with(alloc, text, &checked) {
        Ok(symbol) => write(&symbol, modules),
        Err(error) => Err(core_refusal(error)),
    }
}

/// Writes the symbol of the GS1 elements that the options ask for, and returns its shape.
pub fn elements_symbol(
    alloc: Global,
    elements: &[u8],
    options: &Options,
    modules: &mut [u8],
) -> Result<Shape, Refusal>
    ensures held { IfOk result
        (HoldsAsked (front_of None Elements) elements.now options.now modules.old modules.new) }
    ensures valid { OnOk result (AreElements elements.now) }
    ensures refusal { IfErr result
        (IsAskedElementsRefusal elements.now options.now (length modules.old)) }
    ensures unchanged { OnErr result (modules.new ≡ modules.old) }
{
    let checked = options_of(options)?;
    match Symbol::elements_with(alloc, elements, &checked) {
        Ok(symbol) => write(&symbol, modules),
        Err(error) => Err(core_refusal(error)),
    }
}
