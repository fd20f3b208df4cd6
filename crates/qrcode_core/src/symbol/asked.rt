//! Symbols that options ask for.
//!
//! 1. Make the best symbol at the level of the options (`symbol_in`).
//! 2. If it is to be the strongest, look for a greater level, from H down, at which the data fit
//!    the same version (`stronger`).
ghost use Rattle.std.specs.Prelude.{◌≡◌, ◌+◌, ◌≤◌, length, nat_abs, None, OnOk, IfOk, IfErr, IfSome, IfNone};
ghost use Rattle.qrcode_base.specs.Symbols.{column_of_level};
ghost use Rattle.qrcode_base.specs.declared.symbols.TheConstants.{LONGEST_DATA};
ghost use Rattle.qrcode_bits.specs.Contents.{AreDataOf, AreElements};
ghost use Rattle.qrcode_bits.specs.Frame.{HasFront, front_of, no_front};
ghost use Rattle.qrcode_bits.specs.Plans.{normal};
ghost use Rattle.qrcode_bits.specs.Push.{IsRangeRefused, IsVersionRange};
ghost use Rattle.qrcode_bits.specs.declared.bits.front.Content.TheVariants.{Elements, Text};
ghost use Rattle.qrcode_core.specs.Symbol.{TellsReading};
ghost use Rattle.qrcode_core.specs.Options.{IsBestInRange, IsStronger, NoneStronger, IsAsAsked};
ghost use Rattle.qrcode_core.specs.Options.{HasVersions};
ghost use Rattle.qrcode_core.specs.Options.{IsOptionsRefusal, IsElementsOptionsRefusal};

use crate::options::SymbolOptions;
use crate::symbol::owned::{Symbol, symbol_of};
use crate::traits::QrSymbol;
use qrcode_base::types::{EcLevel, QrError, QrResult, Version};
use qrcode_bits::bits::{Content, Front, encode_within, first_no_element};
use std::alloc::Global;

/// Returns the best symbol of the data in the versions from a least one up to a greatest one.
fn symbol_in(
    alloc: Global,
    front: &Front,
    bytes: &[u8],
    level: EcLevel,
    min_version: i16,
    max_version: i16,
) -> QrResult<Symbol>
    requires front { HasFront (normal 1) front.now }
    requires suited { AreDataOf front.now.content bytes.now }
    ensures best { IfOk result (λ symbol. IsBestInRange front.now bytes.now level
        (nat_abs min_version) (nat_abs max_version) symbol.modules) }
    ensures reading { IfOk result TellsReading }
    ensures range { OnOk result (IsVersionRange min_version max_version) }
    ensures limit { OnOk result (length bytes.now ≤ LONGEST_DATA) }
    ensures refusal { IfErr result
        (IsRangeRefused front.now bytes.now level min_version max_version) }
{
    let bits = encode_within(alloc, front, bytes, level, min_version, max_version)?;
    symbol_of(alloc, bits, level)
}

/// Returns the next lower level, if there is one.
fn level_below(level: EcLevel) -> Option<EcLevel>
    ensures below { IfSome result (λ next. column_of_level next + 1 ≡ column_of_level level) }
    ensures none { IfNone result (column_of_level level ≡ 0) }
{
    match level {
        EcLevel::L => None,
        EcLevel::M => Some(EcLevel::L),
        EcLevel::Q => Some(EcLevel::M),
        EcLevel::H => Some(EcLevel::Q),
    }
}

/// Returns the best symbol at the greatest level above that of the options, and at most `level`, at
/// which the data fit a version of at most `number`; `None` if there is no such level. It fails
/// with `OutOfMemory`.
fn stronger(
    alloc: Global,
    front: &Front,
    bytes: &[u8],
    options: SymbolOptions,
    number: i16,
    level: EcLevel,
) -> QrResult<Option<Symbol>>
    requires front { HasFront (normal 1) front.now }
    requires suited { AreDataOf front.now.content bytes.now }
    requires range { IsVersionRange options.min_version number }
    ensures found { IfOk result (λ found. IfSome found (IsStronger front.now bytes.now
        options.level level (nat_abs options.min_version) (nat_abs number))) }
    ensures none { IfOk result (λ found. IfNone found (NoneStronger front.now bytes.now
        options.level level (nat_abs options.min_version) (nat_abs number))) }
    ensures memory { IfErr result (λ e. e ≡ QrError.OutOfMemory) }
{
    if level <= options.level {
        return Ok(None);
    }
    match symbol_in(alloc, front, bytes, level, options.min_version, number) {
        Ok(symbol) => return Ok(Some(symbol)),
        Err(QrError::DataTooLong) => {}
        Err(error) => return Err(error),
    }
    match level_below(level) {
        Some(next) => stronger(alloc, front, bytes, options, number, next),
        None => Ok(None),
    }
}

/// Returns the symbol of the data that the options ask for.
fn symbol_as_asked(
    alloc: Global,
    front: &Front,
    bytes: &[u8],
    options: SymbolOptions,
) -> QrResult<Symbol>
    requires front { HasFront (normal 1) front.now }
    requires suited { AreDataOf front.now.content bytes.now }
    ensures asked { IfOk result (λ symbol.
        IsAsAsked options front.now bytes.now symbol.modules) }
    ensures reading { IfOk result TellsReading }
    ensures range { OnOk result (HasVersions options) }
    ensures limit { OnOk result (length bytes.now ≤ LONGEST_DATA) }
    ensures refusal { IfErr result (IsOptionsRefusal options front.now bytes.now) }
{
    let (least, most) = (options.min_version, options.max_version);
    let usual = symbol_in(alloc, front, bytes, options.level, least, most)?;
    if !options.strongest {
        return Ok(usual);
    }
    let number = match usual.version() {
        Version::Normal(number) => number,
        Version::Micro(_) => unreachable!(),
    };
    match stronger(alloc, front, bytes, options, number, EcLevel::H)? {
        Some(symbol) => Ok(symbol),
        None => Ok(usual),
    }
}

impl Symbol {
    /// Returns the symbol of the bytes that the options ask for: the best one at their level in
    /// their versions, as `new` says, or with `strongest` the best one at the greatest level at
    /// which it is no larger.
    ///
    /// # Errors
    ///
    /// It fails with `InvalidResourceLimits` for versions that `SymbolOptions::validate` rejects,
    /// then with `DataTooLong` exactly where nothing fits the greatest version, and with
    /// `OutOfMemory` where an allocation failed.
    pub fn bytes_with(alloc: Global, bytes: &[u8], options: &SymbolOptions) -> QrResult<Symbol>
        ensures asked { IfOk result (λ symbol.
            IsAsAsked options.now no_front bytes.now symbol.modules) }
        ensures reading { IfOk result TellsReading }
        ensures range { OnOk result (HasVersions options.now) }
        ensures limit { OnOk result (length bytes.now ≤ LONGEST_DATA) }
        ensures refusal { IfErr result (IsOptionsRefusal options.now no_front bytes.now) }
    {
        symbol_as_asked(alloc, &Front::new(Content::Bytes), bytes, *options)
    }

    /// Returns the symbol of the text that the options ask for, as `text` and `bytes_with` say. It
    /// fails as `bytes_with` does.
    pub fn text_with(alloc: Global, text: &str, options: &SymbolOptions) -> QrResult<Symbol>
        ensures asked { IfOk result (λ symbol.
            IsAsAsked options.now (front_of None Text) text.now symbol.modules) }
        ensures reading { IfOk result TellsReading }
        ensures range { OnOk result (HasVersions options.now) }
        ensures limit { OnOk result (length text.now ≤ LONGEST_DATA) }
        ensures refusal { IfErr result
            (IsOptionsRefusal options.now (front_of None Text) text.now) }
    {
        symbol_as_asked(alloc, &Front::new(Content::Text), text.as_bytes(), *options)
    }

    /// Returns the symbol of the elements that the options ask for, as `elements` and `bytes_with`
    /// say. It fails as `bytes_with` does, but after the versions it looks for bytes that are no
    /// elements, and fails with `InvalidCharacter` for the first.
    pub fn elements_with(
        alloc: Global,
        elements: &[u8],
        options: &SymbolOptions,
    ) -> QrResult<Symbol>
        ensures asked { IfOk result (λ symbol.
            IsAsAsked options.now (front_of None Elements) elements.now symbol.modules) }
        ensures reading { IfOk result TellsReading }
        ensures valid { OnOk result (AreElements elements.now) }
        ensures range { OnOk result (HasVersions options.now) }
        ensures limit { OnOk result (length elements.now ≤ LONGEST_DATA) }
        ensures refusal { IfErr result
            (IsElementsOptionsRefusal options.now (front_of None Elements) elements.now) }
    {
        options.validate()?;
        if let Some((position, byte)) = first_no_element(elements) {
            return Err(QrError::InvalidCharacter { position, byte });
        }
        symbol_as_asked(alloc, &Front::new(Content::Elements), elements, *options)
    }
}
