//! GS1 elements from what people write, by `gs1` and `qrcode_core`.
ghost use Rattle.std.specs.Prelude.{◌≡◌, ℕ, List, Err, IfOk};
ghost use Rattle.gs1.specs.Elements.{written_elements};
ghost use Rattle.gs1.specs.Reader.{FindsOnly};
ghost use Rattle.qrcode_core.specs.Headline.{IsBestElements};

use gs1::{Gs1Error, element_string};
use qrcode_core::symbol::Symbol;
use qrcode_core::types::{EcLevel, QrError};
use std::alloc::Global;

/// Why there is no symbol: the text writes no elements, or no symbol holds them.
#[derive(Clone, Copy, Debug, PartialEq, Eq)]
pub enum PalletError {
    Elements(Gs1Error),
    Symbol(QrError),
}

/// Returns the symbol at level Q of a text such as `(01)09506000134352(10)ABC123`. A reader finds
/// in its bytes the elements that the text writes, and no others.
pub fn pallet(alloc: Global, text: &str) -> Result<Symbol, PalletError>
    ensures best { IfOk result (λ symbol. (bytes : List ℕ)
        × FindsOnly bytes (written_elements text.now)
        × IsBestElements bytes EcLevel.Q symbol.modules) }
    // The encoder takes all bytes of an element string.
    ensures taken { (place byte : ℕ) →
        result ≡ Err (PalletError.Symbol (QrError.InvalidCharacter place byte)) → ⊥ }
{
    let elements = match element_string(alloc, text) {
        Ok(elements) => elements,
        Err(error) => return Err(PalletError::Elements(error)),
    };
    match Symbol::elements(alloc, elements.as_slice(), EcLevel::Q) {
        Ok(symbol) => Ok(symbol),
        Err(error) => Err(PalletError::Symbol(error)),
    }
}
