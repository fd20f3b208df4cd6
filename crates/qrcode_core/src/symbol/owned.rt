//! `Symbol`: a symbol that owns its modules.
ghost use Rattle.std.specs.Prelude.{◌≡◌, ◌≤◌, length, None, OnOk, IfOk, IfErr};
ghost use Rattle.qrcode_base.specs.declared.symbols.TheConstants.{LONGEST_DATA};
ghost use Rattle.qrcode_base.specs.Symbols.{IsVersion, width_of};
ghost use Rattle.qrcode_core.specs.Limits.{IsBudget, IsBestWithin, IsTooLongWithin};
ghost use Rattle.qrcode_core.specs.Limits.{IsLimitedRefusal};
ghost use Rattle.qrcode_core.specs.Symbol.{TellsReading, drawn_grid, HoldsStream, IsStreamRefusal};
ghost use Rattle.qrcode_core.specs.Layers.{FillsSymbol, IsDrawnStream};
ghost use Rattle.qrcode_core.specs.Headline.{IsBestSymbol, IsBestMicroSymbol, IsTooLong};
ghost use Rattle.qrcode_core.specs.Headline.{IsTooLongForMicro, IsRefusal};
ghost use Rattle.qrcode_core.specs.Headline.{IsBestText, IsBestElements, IsTooLongAfter};
ghost use Rattle.qrcode_core.specs.Headline.{IsTextRefusal, IsElementsRefusal};
ghost use Rattle.qrcode_bits.specs.Contents.{AreElements};
ghost use Rattle.qrcode_bits.specs.Frame.{front_of};
ghost use Rattle.qrcode_bits.specs.Push.{IsMicroRefused};
ghost use Rattle.qrcode_bits.specs.declared.bits.front.Content.TheVariants.{Elements, Text};
ghost use Rattle.qrcode_core.specs.Views.{view_grid};

use crate::limits::ResourceLimits;
use crate::traits::{ModuleSource, ModuleView, QrSymbol};
use qrcode_base::symbols::symbol_width;
use qrcode_base::types::{Color, EcLevel, QrError, QrResult, Version};
use qrcode_bits::bits::{
    Bits, Content, Front, encode_auto, encode_auto_micro, encode_auto_with_max_version,
    encode_front, first_no_element,
};
use qrcode_grid::canvas::{MaskPattern, draw_symbol};
use qrcode_grid::ec::construct_codewords;
use std::alloc::Global;
use std::marker::Model;

/// A symbol that owns its modules, with its version, level and mask.
///
/// The modules are stored row by row from the upper left corner, without a quiet zone.
#[derive(Debug, Drop)]
pub struct Symbol {
    modules: Vec<Color>,
    width: usize,
    version: Version,
    level: EcLevel,
    mask: MaskPattern,
}

// Contracts see the modules, the version, the level and the mask.
impl Model for Symbol {
    ghost use Rattle.std.specs.Prelude.{◌≡◌, ◌*◌, length};
    ghost use Rattle.qrcode_base.specs.Symbols.{IsVersion, width_of};
    ghost use Rattle.qrcode_core.specs.Symbol.{DrawnSymbol};

    ghost Value = { DrawnSymbol };

    ghost view = { λ s. record { modules = s.modules.items; version = s.version; level = s.level; mask = s.mask } };

    ghost invariant = { λ s. IsVersion s.version × (s.width ≡ width_of s.version)
        × (length s.modules.items ≡ s.width * s.width) };
}

impl Symbol {
    /// Returns the best symbol of the bytes at a level (ISO/IEC 18004:2006, encode procedure). It
    /// has the smallest Normal version in which some way to merge the parsed segments fits, the
    /// fewest payload bits of all such ways, and the first mask of least penalty.
    ///
    /// A reader finds exactly the bytes in it, and the version, the level and the mask that the
    /// symbol returns. Where no two neighbouring bytes are a pair of the Kanji mode, as in ASCII,
    /// no other symbol of the bytes is smaller (`laws::none_is_better`).
    ///
    /// # Errors
    ///
    /// It fails with `DataTooLong` exactly where nothing fits version 40 at the level; more
    /// than 7089 bytes fail without an allocation. It fails with `OutOfMemory` where an
    /// allocation failed.
    pub fn new(alloc: Global, bytes: &[u8], level: EcLevel) -> QrResult<Symbol>
        ensures best { IfOk result (λ symbol. IsBestSymbol bytes.now level symbol.modules) }
        ensures reading { IfOk result TellsReading }
        ensures fitting { OnOk result (IsTooLong bytes.now level → ⊥) }
        ensures limit { OnOk result (length bytes.now ≤ LONGEST_DATA) }
        ensures refusal { IfErr result (IsRefusal bytes.now level) }
    {
        let bits = encode_auto(alloc, bytes, level)?;
        symbol_of(alloc, bits, level)
    }

    /// Returns the best symbol of a text at a level, after the ECI designator of UTF-8, so that
    /// every reader reads it in its own script (ISO/IEC 18004:2006, "Extended Channel
    /// Interpretation (ECI) mode"). It is as `new` says, of all ways to cut the text into segments
    /// but those of the Kanji mode. No other symbol of the text in UTF-8 is smaller, whatever the
    /// text (`laws::none_is_better`).
    ///
    /// # Errors
    ///
    /// It fails with `DataTooLong` exactly where nothing fits version 40 at the level; more
    /// than 7089 bytes fail without an allocation. It fails with `OutOfMemory` where an
    /// allocation failed.
    pub fn text(alloc: Global, text: &str, level: EcLevel) -> QrResult<Symbol>
        ensures best { IfOk result (λ symbol. IsBestText text.now level symbol.modules) }
        ensures reading { IfOk result TellsReading }
        ensures fitting { OnOk result (IsTooLongAfter (front_of None Text) text.now level → ⊥) }
        ensures limit { OnOk result (length text.now ≤ LONGEST_DATA) }
        ensures refusal { IfErr result (IsTextRefusal text.now level) }
    {
        let front = Front::new(Content::Text);
        let bits = encode_front(alloc, &front, text.as_bytes(), level, 40)?;
        symbol_of(alloc, bits, level)
    }

    /// Returns the best symbol of GS1 elements at a level, after FNC1 in the first position
    /// (ISO/IEC 18004:2006, "FNC1 mode"). Elements are identifiers with their values, one after the
    /// other, with the separator 1D (hex) after each whose length is not fixed, but the last; a
    /// reader finds these bytes. The symbol is as `new` says, of all ways to cut the elements into
    /// segments but those of the Kanji mode. Where they have no `%`, no other symbol of the
    /// elements is smaller (`laws::none_is_better`).
    ///
    /// # Errors
    ///
    /// It fails with `InvalidCharacter` for the first byte that is none of the 82 characters of
    /// GS1, no number sign, and no separator between two elements. Then it fails with `DataTooLong`
    /// exactly where nothing fits version 40 at the level, and with `OutOfMemory` where an
    /// allocation failed.
    pub fn elements(alloc: Global, elements: &[u8], level: EcLevel) -> QrResult<Symbol>
        ensures best { IfOk result (λ symbol. IsBestElements elements.now level symbol.modules) }
        ensures reading { IfOk result TellsReading }
        ensures valid { OnOk result (AreElements elements.now) }
        ensures fitting { OnOk result
            (IsTooLongAfter (front_of None Elements) elements.now level → ⊥) }
        ensures limit { OnOk result (length elements.now ≤ LONGEST_DATA) }
        ensures refusal { IfErr result (IsElementsRefusal elements.now level) }
    {
        if let Some((position, byte)) = first_no_element(elements) {
            return Err(QrError::InvalidCharacter { position, byte });
        }
        let front = Front::new(Content::Elements);
        let bits = encode_front(alloc, &front, elements, level, 40)?;
        symbol_of(alloc, bits, level)
    }

    /// Returns the best Micro symbol of the bytes at a level (ISO/IEC 18004:2006, "Micro QR
    /// Code"), as `new` does. Its version is the first of M1 to M4 that has the level and the
    /// modes of the data, and in which some way to merge the segments fits. `laws::none_is_better`
    /// holds of it too.
    ///
    /// # Errors
    ///
    /// It fails with `InvalidVersion` and `Micro(4)` for level H, which no Micro version has. Then
    /// it fails with `DataTooLong` exactly where nothing fits any of the versions, and with
    /// `OutOfMemory` where an allocation failed.
    pub fn micro(alloc: Global, bytes: &[u8], level: EcLevel) -> QrResult<Symbol>
        ensures best { IfOk result (λ symbol. IsBestMicroSymbol bytes.now level symbol.modules) }
        ensures reading { IfOk result TellsReading }
        ensures fitting { OnOk result (IsTooLongForMicro bytes.now level → ⊥) }
        ensures limit { OnOk result (length bytes.now ≤ LONGEST_DATA) }
        ensures refusal { IfErr result (IsMicroRefused bytes.now level) }
    {
        let bits = encode_auto_micro(alloc, bytes, level)?;
        symbol_of(alloc, bits, level)
    }

    /// Returns the best symbol of the bytes at a level, as `new` does, within limits: the version
    /// and the number of bytes are at most those of the limits. `laws::none_is_better` holds of it
    /// too. The size of a drawn symbol and the time are not checked.
    ///
    /// # Errors
    ///
    /// It fails with `InvalidResourceLimits` for limits that `ResourceLimits::validate` rejects.
    /// Then it fails with `DataTooLong` exactly where there are more bytes than the limit, or
    /// nothing fits a version within the limit, and with `OutOfMemory` where an allocation failed.
    pub fn with_limits(
        alloc: Global,
        bytes: &[u8],
        level: EcLevel,
        limits: &ResourceLimits,
    ) -> QrResult<Symbol>
        ensures best { IfOk result (λ symbol.
            IsBestWithin limits.now bytes.now level symbol.modules) }
        ensures reading { IfOk result TellsReading }
        ensures fitting { OnOk result (IsTooLongWithin limits.now bytes.now level → ⊥) }
        ensures budget { OnOk result (IsBudget limits.now) }
        ensures limit { OnOk result (length bytes.now ≤ LONGEST_DATA) }
        ensures refusal { IfErr result (IsLimitedRefusal limits.now bytes.now level) }
    {
        if limits.validate().is_err() {
            return Err(QrError::InvalidResourceLimits);
        }
        if bytes.len() > limits.max_data_length {
            return Err(QrError::DataTooLong);
        }
        let max_version = match limits.max_version {
            Version::Normal(number) => number,
            Version::Micro(_) => unreachable!(),
        };
        let bits = encode_auto_with_max_version(alloc, bytes, level, max_version)?;
        symbol_of(alloc, bits, level)
    }

    /// Returns the symbol of bits that a caller pushed (headers, an ECI designator, FNC1, segments,
    /// in any order), in the version of the bits and at a level.
    ///
    /// Terminator and padding are appended to the bits (ISO/IEC 18004:2006, "Terminator" and "Bit
    /// stream to codeword conversion"). The modules carry exactly these bits in sound blocks, under
    /// the first mask of least penalty. The call does not check what the bits mean. Bits that
    /// already end with terminator and padding are taken as they are; in M1 and M3 they can then be
    /// half a byte too long, and the call fails with `DataTooLong`.
    ///
    /// # Errors
    ///
    /// It fails with `InvalidVersion` where the version does not have the level. Then it fails with
    /// `DataTooLong` exactly where there are more bits than the capacity, and with `OutOfMemory`
    /// where an allocation failed.
    #[tactic(auto, using(crate::proofs::Best::ended_fills, crate::proofs::Best::holds_stream))]
    pub fn with_bits(alloc: Global, mut bits: Bits, level: EcLevel) -> QrResult<Symbol>
        ensures holds { IfOk result (HoldsStream bits level) }
        ensures reading { IfOk result TellsReading }
        ensures refusal { IfErr result (IsStreamRefusal bits level) }
    {
        bits.push_terminator(level)?;
        symbol_of(alloc, bits, level)
    }

    /// Returns the mask pattern of the symbol.
    pub fn mask(&self) -> MaskPattern
        ensures { result ≡ self.now.mask }
    {
        self.mask
    }

    /// Returns a view of the modules, which shows the same grid.
    pub fn module_view(&self) -> ModuleView<'_>
        ensures { view_grid result ≡ drawn_grid self.now }
    {
        match ModuleView::new(&self.modules, self.width) {
            Some(view) => view,
            None => unreachable!(),
        }
    }

    /// Returns a copy of the symbol. It fails with `OutOfMemory`.
    pub fn clone(&self, alloc: Global) -> QrResult<Symbol>
        ensures same { IfOk result (λ symbol. symbol ≡ self.now) }
        ensures memory { IfErr result (λ e. e ≡ QrError.OutOfMemory) }
    {
        let modules = Vec::from_slice(alloc, self.modules.as_slice())?;
        Ok(Symbol {
            modules,
            width: self.width,
            version: self.version,
            level: self.level,
            mask: self.mask,
        })
    }

    /// Returns the modules, row by row from the upper left corner.
    pub fn into_colors(self) -> Vec<Color>
        ensures { result.items ≡ self.modules }
    {
        self.modules
    }
}

impl ModuleSource for Symbol {
    ghost use Rattle.std.specs.Prelude.{◌≤◌};
    ghost use Rattle.qrcode_core.specs.Symbol.{drawn_grid};
    ghost use Rattle.qrcode_core.specs.Grids.{HasAllRows, IsFull};

    ghost grid = { drawn_grid };

    fn get(&self, x: usize, y: usize) -> Color {
        self.modules[y * self.width + x]
    }

    /// Returns the number of modules in a row: 21 to 177, or 11 to 17 in a Micro symbol.
    fn width(&self) -> usize
        ensures is { result ≡ (drawn_grid self.now).columns }
        ensures some { 11 ≤ result }
        ensures small { result ≤ 177 }
    {
        self.width
    }

    /// Returns the number of rows, which is also the number of columns.
    fn height(&self) -> usize
        ensures is { result ≡ (drawn_grid self.now).rows }
        ensures some { 11 ≤ result }
        ensures small { result ≤ 177 }
    {
        self.width
    }

    fn modules(&self) -> &[Color]
        ensures list { result.now ≡ (drawn_grid self.now).cells }
        ensures rows { HasAllRows (drawn_grid self.now) }
        ensures full { IsFull (drawn_grid self.now) }
    {
        self.modules.as_slice()
    }
}

impl QrSymbol for Symbol {
    ghost use Rattle.qrcode_core.specs.Symbol.{drawn_version, drawn_level};

    ghost version_of = { drawn_version };

    ghost level_of = { drawn_level };

    fn version(&self) -> Version {
        self.version
    }

    fn error_correction_level(&self) -> EcLevel {
        self.level
    }
}

/// Returns the symbol of bits that fill its data codewords, under the first mask of least penalty.
/// It fails with `OutOfMemory`.
pub fn symbol_of(alloc: Global, bits: Bits, level: EcLevel) -> QrResult<Symbol>
    requires { FillsSymbol bits level }
    ensures drawn { IfOk result (IsDrawnStream bits level) }
    ensures memory { IfErr result (λ e. e ≡ QrError.OutOfMemory) }
{
    let version = bits.version();
    let codewords = bits.into_bytes();
    let (interleaved, correction) = construct_codewords(alloc, &codewords, version, level)?;
    let (modules, mask) = draw_symbol(alloc, version, level, &interleaved, &correction)?;
    Ok(Symbol {
        modules,
        width: symbol_width(version),
        version,
        level,
        mask,
    })
}
