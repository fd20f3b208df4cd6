//! Whole symbols: from bytes to modules in one call.
//!
//! ```text
//! let symbol = Symbol::new(alloc, b"hello", EcLevel::M)?;
//! for y in 0..symbol.height() {
//!     let row = symbol.row(y);
//! }
//! ```
//!
//! `Symbol::micro` makes a Micro symbol, `Symbol::sequence` spreads a message over several symbols,
//! and `Symbol::with_bits` draws bits of the caller's own. `symbol`, `symbol_micro` and
//! `symbol_sequence` return the modules alone.
ghost use Rattle.std.specs.Prelude.{◌≡◌, ℕ, ◌*◌, ◌≤◌, length, OnOk, IfOk, IfErr};
ghost use Rattle.qrcode_base.specs.declared.symbols.TheConstants.{LONGEST_DATA};
ghost use Rattle.qrcode_core.specs.Headline.{IsBestSymbol, IsBestMicroSymbol, IsTooLong};
ghost use Rattle.qrcode_core.specs.Headline.{IsTooLongForMicro, IsRefusal};
ghost use Rattle.qrcode_bits.specs.Push.{IsMicroRefused};

mod asked;
mod cuts;
mod owned;
mod part;
mod sequence;

pub use cuts::{best_cuts, best_text_cuts};
pub use owned::Symbol;
use qrcode_base::types::{Color, EcLevel, QrResult};
pub use sequence::{are_cuts, are_text_cuts, symbol_sequence};
use std::alloc::Global;

/// Returns the modules of the best symbol of the bytes at a level, row by row from the upper left
/// corner. The width is the square root of their number. `Symbol::new` returns the version and the
/// mask too.
///
/// The symbol has the smallest Normal version in which some way to merge the parsed segments
/// fits, the fewest payload bits of all such ways, and the first mask of least penalty. A reader
/// finds exactly the bytes in it (ISO/IEC 18004:2006, encode procedure). Where no two
/// neighbouring bytes are a pair of the Kanji mode, as in ASCII, no other symbol of the bytes is
/// smaller (`laws::none_is_better`).
///
/// # Errors
///
/// It fails with `DataTooLong` exactly where nothing fits version 40 at the level; more than 7089
/// bytes fail without an allocation. It fails with `OutOfMemory` where an allocation failed.
pub fn symbol(alloc: Global, bytes: &[u8], level: EcLevel) -> QrResult<Vec<Color>>
    ensures best { IfOk result (λ grid. IsBestSymbol bytes.now level grid.items) }
    ensures square { IfOk result (λ grid. (width : ℕ) × (length grid.items ≡ width * width)) }
    ensures fitting { OnOk result (IsTooLong bytes.now level → ⊥) }
    ensures limit { OnOk result (length bytes.now ≤ LONGEST_DATA) }
    ensures refusal { IfErr result (IsRefusal bytes.now level) }
{
    Ok(Symbol::new(alloc, bytes, level)?.into_colors())
}

/// Returns the modules of the best Micro symbol of the bytes at a level, as `symbol` does. Its
/// version is the first of M1 to M4 that has the level and the modes of the data, and in which some
/// way to merge the segments fits. `laws::none_is_better` holds of it too.
///
/// # Errors
///
/// It fails with `InvalidVersion` and `Micro(4)` for level H, which no Micro version has. Then it
/// fails with `DataTooLong` exactly where nothing fits any of the versions, and with `OutOfMemory`
/// where an allocation failed.
pub fn symbol_micro(alloc: Global, bytes: &[u8], level: EcLevel) -> QrResult<Vec<Color>>
    ensures best { IfOk result (λ grid. IsBestMicroSymbol bytes.now level grid.items) }
    ensures square { IfOk result (λ grid. (width : ℕ) × (length grid.items ≡ width * width)) }
    ensures fitting { OnOk result (IsTooLongForMicro bytes.now level → ⊥) }
    ensures limit { OnOk result (length bytes.now ≤ LONGEST_DATA) }
    ensures refusal { IfErr result (IsMicroRefused bytes.now level) }
{
    Ok(Symbol::micro(alloc, bytes, level)?.into_colors())
}
