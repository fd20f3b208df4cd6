//! All symbols that carry a message together, in a caller's buffers.
//!
//! 1. Check the arguments, and make the symbols.
//! 2. Write them, one after the other, if the buffers have room for all of them (`write_symbols`).
ghost use Rattle.std.specs.Prelude.{◌≡◌, ◌+◌, ◌<◌, ◌≤◌, ◌++◌, List, true, false, length, map};
ghost use Rattle.std.specs.Prelude.{drop, take, OnErr, OnOk, IfOk, IfErr};
ghost use Rattle.std.specs.Str.{IsUtf8};
ghost use Rattle.qrcode_bits.specs.declared.bits.front.Content.TheVariants.{Bytes, Text};
ghost use Rattle.qrcode_core.specs.Symbol.{DrawnSymbol};
ghost use Rattle.qrcode_grid.specs.Penalty.{byte_of};
ghost use Rattle.qrcode_c.specs.Shapes.{shape_of};
ghost use Rattle.qrcode_c.specs.Spread.{bytes_of_all, HoldsAll, AreSpread, IsNoRoom};
ghost use Rattle.qrcode_c.specs.Refusals.{IsTextStatus};
ghost use Rattle.qrcode_c.specs.Spread.{IsSpreadStatus};

use crate::drawing::write_modules;
use crate::options::{level_of, limit_of};
use crate::refusal::{Refusal, core_refusal};
use crate::shape::{Shape, shape_of};
use qrcode_core::symbol::{Symbol, are_cuts, are_text_cuts};
use qrcode_core::traits::ModuleSource;
use qrcode_core::types::Color;
use std::alloc::Global;

/// Writes all symbols that carry a message together, and their shapes.
pub fn spread(
    alloc: Global,
    message: &[u8],
    cuts: &[usize],
    level: i32,
    max_version: i32,
    modules: &mut [u8],
    shapes: &mut [Shape],
) -> Result<(), Refusal>
    ensures held { IfOk result (λ _. (symbols : List DrawnSymbol)
        × AreSpread Bytes message.now cuts.now level max_version symbols
        × HoldsAll symbols modules.old modules.new shapes.old shapes.new) }
    ensures refusal { IfErr result (IsSpreadStatus Bytes message.now cuts.now level max_version
        (length modules.old) (length shapes.old)) }
    ensures unchanged { OnErr result ((modules.new ≡ modules.old) × (shapes.new ≡ shapes.old)) }
{
    let Some(level) = level_of(level) else {
        return Err(Refusal::InvalidLevel);
    };
    if !are_cuts(cuts, message.len()) {
        return Err(Refusal::InvalidCuts);
    }
    let Some(limit) = limit_of(max_version) else {
        return Err(Refusal::InvalidMaxVersion);
    };
    let symbols = match Symbol::sequence(alloc, message, cuts, level, limit) {
        Ok(symbols) => symbols,
        Err(error) => return Err(core_refusal(error)),
    };
    if !write_symbols(&symbols, modules, shapes) {
        return Err(Refusal::ShortBuffer);
    }
    Ok(())
}

/// Writes all symbols that carry a text in UTF-8 together, and their shapes.
pub fn text_spread(
    alloc: Global,
    text: &[u8],
    cuts: &[usize],
    level: i32,
    max_version: i32,
    modules: &mut [u8],
    shapes: &mut [Shape],
) -> Result<(), Refusal>
    ensures held { IfOk result (λ _. (symbols : List DrawnSymbol)
        × AreSpread Text text.now cuts.now level max_version symbols
        × HoldsAll symbols modules.old modules.new shapes.old shapes.new) }
    ensures valid { OnOk result (IsUtf8 text.now) }
    ensures refusal { IfErr result (IsTextStatus text.now level (IsSpreadStatus Text text.now
        cuts.now level max_version (length modules.old) (length shapes.old))) }
    ensures unchanged { OnErr result ((modules.new ≡ modules.old) × (shapes.new ≡ shapes.old)) }
{
    let Some(_) = level_of(level) else {
        return Err(Refusal::InvalidLevel);
    };
    let Ok(text) = str::from_utf8(text) else {
        return Err(Refusal::InvalidText);
    };
    spread_text(alloc, text, cuts, level, max_version, modules, shapes)
}

/// Writes all symbols that carry a text together, and their shapes.
fn spread_text(
    alloc: Global,
    text: &str,
    cuts: &[usize],
    level: i32,
    max_version: i32,
    modules: &mut [u8],
    shapes: &mut [Shape],
) -> Result<(), Refusal>
    ensures held { IfOk result (λ _. (symbols : List DrawnSymbol)
        × AreSpread Text text.now cuts.now level max_version symbols
        × HoldsAll symbols modules.old modules.new shapes.old shapes.new) }
    ensures refusal { IfErr result (IsSpreadStatus Text text.now cuts.now level max_version
        (length modules.old) (length shapes.old)) }
    ensures unchanged { OnErr result ((modules.new ≡ modules.old) × (shapes.new ≡ shapes.old)) }
{
    let Some(level) = level_of(level) else {
        return Err(Refusal::InvalidLevel);
    };
    if !are_text_cuts(cuts, text) {
        return Err(Refusal::InvalidCuts);
    }
    let Some(limit) = limit_of(max_version) else {
        return Err(Refusal::InvalidMaxVersion);
    };
    let symbols = match Symbol::text_sequence(alloc, text, cuts, level, limit) {
        Ok(symbols) => symbols,
        Err(error) => return Err(core_refusal(error)),
    };
    if !write_symbols(&symbols, modules, shapes) {
        return Err(Refusal::ShortBuffer);
    }
    Ok(())
}

/// Writes the modules of all symbols, one symbol after the other, and their shapes, and returns
/// whether there was room for them.
fn write_symbols(symbols: &[Symbol], modules: &mut [u8], shapes: &mut [Shape]) -> bool
    ensures held { result ≡ true →
        HoldsAll symbols.now modules.old modules.new shapes.old shapes.new }
    ensures short_buffer { result ≡ false →
        IsNoRoom (length modules.old) (length shapes.old) symbols.now }
    ensures unchanged { result ≡ false → (modules.new ≡ modules.old) × (shapes.new ≡ shapes.old) }
{
    if shapes.len() < symbols.len() {
        return false;
    }
    if !has_room(symbols, modules.len()) {
        return false;
    }
    write_all(symbols, modules, shapes);
    true
}

/// Whether the modules of all symbols are at most `room`.
#[tactic(auto, using(crate::proofs::Writing::piece_length, crate::proofs::Writing::piece_within))]
fn has_room(symbols: &[Symbol], room: usize) -> bool
    ensures yes { result ≡ true → length (bytes_of_all symbols.now) ≤ room }
    ensures no { result ≡ false → room < length (bytes_of_all symbols.now) }
{
    let mut left = room;
    for symbol in symbols {
        let size = symbol.modules().len();
        if left < size {
            return false;
        }
        left -= size;
    }
    true
}

/// Writes the modules of all symbols, one symbol after the other, and their shapes.
fn write_all(symbols: &[Symbol], modules: &mut [u8], shapes: &mut [Shape])
    requires room { length (bytes_of_all symbols.now) ≤ length modules.old }
    requires places { length symbols.now ≤ length shapes.old }
    ensures { HoldsAll symbols.now modules.old modules.new shapes.old shapes.new }
{
    let mut start = 0;
    for (i, symbol) in symbols.iter().enumerate() {
        let colors = symbol.modules();
        write_at(colors, modules, start);
        shapes[i] = shape_of(symbol);
        start += colors.len();
    }
}

/// Writes a byte for each colour from a place on.
fn write_at(colors: &[Color], modules: &mut [u8], start: usize)
    requires { start + length colors.now ≤ length modules.old }
    ensures { modules.new ≡ take start modules.old
        ++ (map byte_of colors.now ++ drop (length colors.now) (drop start modules.old)) }
{
    write_modules(colors, &mut modules[start..]);
}
