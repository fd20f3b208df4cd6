//! Symbols in a caller's buffer.
//!
//! 1. Check the arguments, and make the symbol.
//! 2. Write its modules to the buffer, and return its shape.
ghost use Rattle.std.specs.Prelude.{◌≡◌, ◌<◌, ◌≤◌, ◌++◌, length, map, drop};
ghost use Rattle.std.specs.Prelude.{OnErr, IfOk, IfErr};
ghost use Rattle.qrcode_core.specs.Headline.{IsBestSymbol, IsBestMicroSymbol};
ghost use Rattle.qrcode_grid.specs.Penalty.{byte_of};
ghost use Rattle.qrcode_c.specs.Buffers.{Holds, HoldsBest, HoldsPart};
ghost use Rattle.qrcode_c.specs.Refusals.{IsSymbolRefusal, IsMicroRefusal, IsPartRefusal};

use crate::options::{level_of, limit_of};
use crate::refusal::{Refusal, core_refusal};
use crate::shape::{Shape, shape_of};
use qrcode_core::symbol::{Symbol, are_cuts};
use qrcode_core::traits::ModuleSource;
use qrcode_core::types::Color;
use std::alloc::Global;

/// Writes the best symbol of the bytes, and returns its shape.
pub fn symbol(alloc: Global, bytes: &[u8], level: i32, modules: &mut [u8]) -> Result<Shape, Refusal>
    ensures held { IfOk result (HoldsBest (IsBestSymbol bytes.now) level modules.old modules.new) }
    ensures refusal { IfErr result (IsSymbolRefusal bytes.now level (length modules.old)) }
    ensures unchanged { OnErr result (modules.new ≡ modules.old) }
{
    let Some(level) = level_of(level) else {
        return Err(Refusal::InvalidLevel);
    };
    match Symbol::new(alloc, bytes, level) {
        Ok(symbol) => write(&symbol, modules),
        Err(error) => Err(core_refusal(error)),
    }
}

/// Writes the best Micro symbol of the bytes, and returns its shape.
pub fn micro_symbol(
    alloc: Global,
    bytes: &[u8],
    level: i32,
    modules: &mut [u8],
) -> Result<Shape, Refusal>
    ensures held { IfOk result
        (HoldsBest (IsBestMicroSymbol bytes.now) level modules.old modules.new) }
    ensures refusal { IfErr result (IsMicroRefusal bytes.now level (length modules.old)) }
    ensures unchanged { OnErr result (modules.new ≡ modules.old) }
{
    let Some(level) = level_of(level) else {
        return Err(Refusal::InvalidLevel);
    };
    match Symbol::micro(alloc, bytes, level) {
        Ok(symbol) => write(&symbol, modules),
        Err(error) => Err(core_refusal(error)),
    }
}

/// Writes the symbol at an index of those that carry a message together, and returns its shape. The
/// other parts are tested, and not drawn.
pub fn part_symbol(
    alloc: Global,
    message: &[u8],
    cuts: &[usize],
    level: i32,
    max_version: i32,
    index: usize,
    modules: &mut [u8],
) -> Result<Shape, Refusal>
    ensures held { IfOk result
        (HoldsPart message.now cuts.now level max_version index modules.old modules.new) }
    ensures refusal { IfErr result
        (IsPartRefusal message.now cuts.now level max_version index (length modules.old)) }
    ensures unchanged { OnErr result (modules.new ≡ modules.old) }
{
    let Some(level) = level_of(level) else {
        return Err(Refusal::InvalidLevel);
    };
    if !are_cuts(cuts, message.len()) {
        return Err(Refusal::InvalidCuts);
    }
    if index > cuts.len() {
        return Err(Refusal::InvalidIndex);
    }
    let Some(limit) = limit_of(max_version) else {
        return Err(Refusal::InvalidMaxVersion);
    };
    match Symbol::sequence_part(alloc, message, cuts, level, limit, index) {
        Ok(symbol) => write(&symbol, modules),
        Err(error) => Err(core_refusal(error)),
    }
}

/// Writes the modules of a symbol to the start of a buffer, and returns the shape of the symbol.
pub fn write(symbol: &Symbol, modules: &mut [u8]) -> Result<Shape, Refusal>
    ensures held { IfOk result (Holds symbol.now modules.old modules.new) }
    ensures short { IfErr result (λ refusal. refusal ≡ Refusal.ShortBuffer) }
    ensures short_buffer { OnErr result (length modules.old < length symbol.now.modules) }
    ensures unchanged { OnErr result (modules.new ≡ modules.old) }
{
    let colors = symbol.modules();
    if modules.len() < colors.len() {
        return Err(Refusal::ShortBuffer);
    }
    write_modules(colors, modules);
    Ok(shape_of(symbol))
}

/// Writes a byte for each colour to the start of a buffer: 1 for dark, 0 for light.
pub fn write_modules(colors: &[Color], modules: &mut [u8])
    requires { length colors.now ≤ length modules.old }
    ensures { modules.new ≡ map byte_of colors.now ++ drop (length colors.now) modules.old }
{
    for (i, color) in colors.iter().enumerate() {
        modules[i] = color.select(1, 0);
    }
}
