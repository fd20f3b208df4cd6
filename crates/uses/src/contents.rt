//! Texts and GS1 elements, by `qrcode_core`.
ghost use Rattle.std.specs.Prelude.{None, IfOk, IfErr};
ghost use Rattle.qrcode_bits.specs.Frame.{front_of};
ghost use Rattle.qrcode_bits.specs.declared.bits.front.Content.TheVariants.{Text};
ghost use Rattle.qrcode_core.specs.Symbol.{TellsReading};
ghost use Rattle.qrcode_core.specs.Headline.{IsBestText, IsBestElements, IsElementsRefusal};
ghost use Rattle.qrcode_core.specs.Options.{IsStrongest};

use qrcode_core::options::SymbolOptions;
use qrcode_core::symbol::Symbol;
use qrcode_core::types::{EcLevel, QrResult};
use std::alloc::Global;

/// Returns the symbol of a text at level M, which is read in its own script.
pub fn sign(alloc: Global, text: &str) -> QrResult<Symbol>
    ensures best { IfOk result (λ symbol. IsBestText text.now EcLevel.M symbol.modules) }
    ensures reading { IfOk result TellsReading }
{
    Symbol::text(alloc, text, EcLevel::M)
}

/// Returns the symbol of GS1 elements at level Q.
pub fn carton(alloc: Global, elements: &[u8]) -> QrResult<Symbol>
    ensures best { IfOk result (λ symbol. IsBestElements elements.now EcLevel.Q symbol.modules) }
    ensures refusal { IfErr result (IsElementsRefusal elements.now EcLevel.Q) }
{
    Symbol::elements(alloc, elements, EcLevel::Q)
}

/// Returns the symbol of a text in version 4 or, if it does not fit, a greater one, at level M or
/// the greatest level that makes it no larger.
pub fn badge(alloc: Global, text: &str) -> QrResult<Symbol>
    ensures strongest { IfOk result (λ symbol.
        IsStrongest (front_of None Text) text.now EcLevel.M 4 40 symbol.modules) }
{
    let options = SymbolOptions::new(EcLevel::M)
        .with_min_version(4)
        .with_strongest();
    Symbol::text_with(alloc, text, &options)
}
