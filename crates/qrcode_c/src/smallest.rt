//! The smallest symbols of texts, in a caller's buffer.
//!
//! 1. Check the options or the level, and then that the bytes are UTF-8.
//! 2. Make the symbol, write its modules to the buffer, and return its shape.
ghost use Rattle.std.specs.Prelude.{◌≡◌, length, OnErr, OnOk, IfOk, IfErr};
ghost use Rattle.std.specs.Str.{IsUtf8};
ghost use Rattle.qrcode_c.specs.Texts.{HoldsMicroText, HoldsSmallestText};
ghost use Rattle.qrcode_c.specs.Texts.{IsMicroTextStatus, IsSmallestTextStatus};

use crate::drawing::write;
use crate::options::{Options, micro_level_of, options_of};
use crate::refusal::{Refusal, core_refusal, micro_text_refusal};
use crate::shape::Shape;
use smallest_symbols::{micro_text, smallest_text};
use std::alloc::Global;

/// Writes the smallest symbol of the text in UTF-8 that the options ask for, and returns its shape.
pub fn smallest_symbol(
    alloc: Global,
    text: &[u8],
    options: &Options,
    modules: &mut [u8],
) -> Result<Shape, Refusal>
    ensures held { IfOk result
        (HoldsSmallestText text.now options.now modules.old modules.new) }
    ensures valid { OnOk result (IsUtf8 text.now) }
    ensures refusal { IfErr result
        (IsSmallestTextStatus text.now options.now (length modules.old)) }
    ensures unchanged { OnErr result (modules.new ≡ modules.old) }
{
    let checked = options_of(options)?;
    let Ok(text) = str::from_utf8(text) else {
        return Err(Refusal::InvalidText);
    };
    match smallest_text(alloc, text, &checked) {
        Ok(symbol) => write(&symbol, modules),
        Err(error) => Err(core_refusal(error)),
    }
}

/// Writes the smallest Micro symbol of the text in UTF-8, and returns its shape.
pub fn micro_text_symbol(
    alloc: Global,
    text: &[u8],
    level: i32,
    modules: &mut [u8],
) -> Result<Shape, Refusal>
    ensures held { IfOk result (HoldsMicroText text.now level modules.old modules.new) }
    ensures valid { OnOk result (IsUtf8 text.now) }
    ensures refusal { IfErr result (IsMicroTextStatus text.now level (length modules.old)) }
    ensures unchanged { OnErr result (modules.new ≡ modules.old) }
{
    let Some(level) = micro_level_of(level) else {
        return Err(Refusal::InvalidLevel);
    };
    let Ok(text) = str::from_utf8(text) else {
        return Err(Refusal::InvalidText);
    };
    match micro_text(alloc, text, level) {
        Ok(symbol) => write(&symbol, modules),
        Err(error) => Err(micro_text_refusal(error)),
    }
}
