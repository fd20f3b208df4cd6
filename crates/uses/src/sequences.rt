//! A message in several symbols, by `qrcode_core`.
ghost use Rattle.std.specs.Prelude.{ℕ, ◌/◌, ◌∷◌, [], List, length, map, vec_items, All, IfOk, IfSome};
ghost use Rattle.qrcode_bits.specs.declared.bits.front.Content.TheVariants.{Bytes, Text};
ghost use Rattle.qrcode_core.specs.BestCuts.{AreBestCuts};
ghost use Rattle.qrcode_core.specs.Symbol.{TellsReading, modules_of};
ghost use Rattle.qrcode_core.specs.Sequence.{AreBestSymbols};

use qrcode_core::symbol::{Symbol, are_cuts, best_text_cuts, symbol_sequence};
use qrcode_core::types::{Color, EcLevel, QrResult};
use std::alloc::Global;

/// Returns the modules of two symbols at level M, each with one half of the bytes.
pub fn halves(alloc: Global, bytes: &[u8]) -> QrResult<Vec<Vec<Color>>>
    ensures best { IfOk result (λ grids.
        AreBestSymbols Bytes bytes.now ((length bytes.now / 2) ∷ []) EcLevel.M 40
        (map vec_items grids.items)) }
{
    let cuts = [bytes.len() / 2];
    symbol_sequence(alloc, bytes, &cuts, EcLevel::M, 40)
}

/// Returns the modules of symbols at level M with the bytes cut at `cuts`, or `None` if they cannot
/// be cut there.
pub fn parts(alloc: Global, bytes: &[u8], cuts: &[usize]) -> Option<QrResult<Vec<Vec<Color>>>>
    ensures best { IfSome result (λ answer. IfOk answer (λ grids.
        AreBestSymbols Bytes bytes.now cuts.now EcLevel.M 40 (map vec_items grids.items))) }
{
    if are_cuts(cuts, bytes.len()) {
        Some(symbol_sequence(alloc, bytes, cuts, EcLevel::M, 40))
    } else {
        None
    }
}

/// Returns the symbols of a text that is too long for one, at level M, as few as can be.
pub fn sheets(alloc: Global, text: &str) -> QrResult<Vec<Symbol>>
    ensures fewest { IfOk result (λ symbols. (cuts : List ℕ)
        × AreBestCuts Text text.now EcLevel.M 40 cuts
        × AreBestSymbols Text text.now cuts EcLevel.M 40 (map modules_of symbols.items)) }
    ensures reading { IfOk result (λ symbols. All TellsReading symbols.items) }
{
    let cuts = best_text_cuts(alloc, text, EcLevel::M, 40)?;
    Symbol::text_sequence(alloc, text, &cuts, EcLevel::M, 40)
}
