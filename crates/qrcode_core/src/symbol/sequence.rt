//! The symbols of a message that is spread over several of them.
//!
//! 1. Cut the message into parts (`part_at`).
//! 2. Make the best symbol of each part, with its header (`part_symbol`).
ghost use Rattle.std.specs.Prelude.{◌≡◌, ◌+◌, ◌≤◌, [], length, map, nat_abs, slice_index_or, All};
ghost use Rattle.std.specs.Prelude.{OnOk, IfOk, IfErr};
ghost use Rattle.std.specs.Prelude.{ℕ, IsTrue, List, vec_items};
ghost use Rattle.std.specs.List.Sorted.{IsNonDecreasing};
ghost use Rattle.qrcode_bits.specs.Contents.{AreDataOf};
ghost use Rattle.qrcode_bits.specs.Places.{IsCutPlace};
ghost use Rattle.qrcode_bits.specs.Plans.{normal};
ghost use Rattle.qrcode_bits.specs.Push.{IsFrontRefused};
ghost use Rattle.qrcode_bits.specs.declared.bits.front.Content.TheVariants.{Bytes, Text};
ghost use Rattle.qrcode_base.specs.Symbols.{IsNormalNumber};
ghost use Rattle.qrcode_bits.specs.Frame.{HasFront, IsTotal};
ghost use Rattle.qrcode_core.specs.Headline.{IsBestUpTo};
ghost use Rattle.qrcode_core.specs.Symbol.{TellsReading, modules_of};
ghost use Rattle.qrcode_core.specs.Sequence.{parity_of, parts_at, AreBestSymbols};
ghost use Rattle.qrcode_core.specs.Sequence.{IsSomePartTooLong};
ghost use Rattle.qrcode_core.specs.Sequence.{IsSequenceRefusal, IsTotalRefusal};

use crate::symbol::owned::{Symbol, symbol_of};
use qrcode_base::symbols::is_normal_number;
use qrcode_base::types::{Color, EcLevel, QrError, QrResult};
use qrcode_bits::bits::{Content, Front, SequenceHeader, encode_front};
use std::alloc::Global;

/// Whether a message of this length can be cut at these places: no cut is less than the one before
/// it, or greater than the length.
///
/// `symbol_sequence` requires this of its cuts.
pub fn are_cuts(cuts: &[usize], length: usize) -> bool
    ensures ordered { IsTrue result → IsNonDecreasing cuts.now }
    ensures within { IsTrue result → All (λ cut. cut ≤ length) cuts.now }
    ensures taken { IsNonDecreasing cuts.now → All (λ cut. cut ≤ length) cuts.now →
        IsTrue result }
{
    cuts.is_sorted() && cuts.iter().all(|cut| *cut <= length)
}

/// Whether a text can be cut at these places, as `are_cuts` says: each is also the start of a
/// character, or the start or the end of the text.
///
/// `Symbol::text_sequence` requires this of its cuts.
pub fn are_text_cuts(cuts: &[usize], text: &str) -> bool
    ensures ordered { IsTrue result → IsNonDecreasing cuts.now }
    ensures within { IsTrue result → All (λ cut. cut ≤ length text.now) cuts.now }
    ensures whole { IsTrue result → All (λ cut. IsCutPlace Text text.now cut) cuts.now }
    ensures taken { IsNonDecreasing cuts.now →
        All (λ cut. IsCutPlace Text text.now cut) cuts.now → IsTrue result }
{
    are_cuts(cuts, text.len())
        && cuts
            .iter()
            .all(|cut| *cut == 0 || text.is_char_boundary(*cut))
}

impl Symbol {
    /// Returns the 2 to 16 symbols that carry a message together, in the order of its parts
    /// (ISO/IEC 18004:2006, "Structured Append"). `symbol_sequence` says what the parts and the
    /// symbols are, and how the call fails. A reader finds in each symbol the version, the level
    /// and the mask that the symbol returns.
    pub fn sequence(
        alloc: Global,
        bytes: &[u8],
        cuts: &[usize],
        level: EcLevel,
        max_version: i16,
    ) -> QrResult<Vec<Symbol>>
        requires ordered { IsNonDecreasing cuts.now }
        requires within { All (λ cut. cut ≤ length bytes.now) cuts.now }
        ensures best { IfOk result (λ symbols. AreBestSymbols Bytes bytes.now cuts.now level
            (nat_abs max_version) (map modules_of symbols.items)) }
        ensures reading { IfOk result (λ symbols. All TellsReading symbols.items) }
        ensures fitting { OnOk result (IsSomePartTooLong Bytes bytes.now cuts.now level
            (nat_abs max_version) → ⊥) }
        ensures limit { OnOk result (IsNormalNumber max_version) }
        ensures refusal { IfErr result
            (IsSequenceRefusal Bytes bytes.now cuts.now level max_version) }
    {
        symbols_of(alloc, Content::Bytes, bytes, cuts, level, max_version)
    }

    /// Returns the 2 to 16 symbols that carry a text together, as `sequence` does, each with the
    /// ECI designator of UTF-8 after its header. Each cut is between two characters, so that each
    /// symbol has whole ones. `are_text_cuts` tests cuts, and `best_text_cuts` finds them.
    pub fn text_sequence(
        alloc: Global,
        text: &str,
        cuts: &[usize],
        level: EcLevel,
        max_version: i16,
    ) -> QrResult<Vec<Symbol>>
        requires ordered { IsNonDecreasing cuts.now }
        requires within { All (λ cut. cut ≤ length text.now) cuts.now }
        requires whole { All (λ cut. IsCutPlace Text text.now cut) cuts.now }
        ensures best { IfOk result (λ symbols. AreBestSymbols Text text.now cuts.now level
            (nat_abs max_version) (map modules_of symbols.items)) }
        ensures reading { IfOk result (λ symbols. All TellsReading symbols.items) }
        ensures fitting { OnOk result (IsSomePartTooLong Text text.now cuts.now level
            (nat_abs max_version) → ⊥) }
        ensures limit { OnOk result (IsNormalNumber max_version) }
        ensures refusal { IfErr result
            (IsSequenceRefusal Text text.now cuts.now level max_version) }
    {
        symbols_of(
            alloc,
            Content::Text,
            text.as_bytes(),
            cuts,
            level,
            max_version,
        )
    }
}

/// Returns the symbols that carry data of a content together, in the order of their parts. Any part
/// of the data may be data of the content.
fn symbols_of(
    alloc: Global,
    content: Content,
    bytes: &[u8],
    cuts: &[usize],
    level: EcLevel,
    max_version: i16,
) -> QrResult<Vec<Symbol>>
    requires ordered { IsNonDecreasing cuts.now }
    requires within { All (λ cut. cut ≤ length bytes.now) cuts.now }
    requires suited { (part : List ℕ) → AreDataOf content part }
    ensures best { IfOk result (λ symbols. AreBestSymbols content bytes.now cuts.now level
        (nat_abs max_version) (map modules_of symbols.items)) }
    ensures reading { IfOk result (λ symbols. All TellsReading symbols.items) }
    ensures fitting { OnOk result (IsSomePartTooLong content bytes.now cuts.now level
        (nat_abs max_version) → ⊥) }
    ensures limit { OnOk result (IsNormalNumber max_version) }
    ensures refusal { IfErr result
        (IsSequenceRefusal content bytes.now cuts.now level max_version) }
{
    let total = total_of(cuts, max_version)?;
    let parity = parity_of(bytes);
    let mut symbols = Vec::new(alloc);
    for index in 0..total {
        let part = part_at(bytes, cuts, usize::from(index));
        let header = SequenceHeader::new(index + 1, total, parity);
        let front = Front::with_header(header, content);
        let symbol = part_symbol(alloc, &front, part, level, max_version);
        symbols.push(symbol?)?;
    }
    Ok(symbols)
}

/// Returns the number of parts. It fails with `InvalidResourceLimits` if the greatest version is
/// not 1 to 40, and then with `InvalidStructuredAppend` if the number is not 2 to 16.
pub(crate) fn total_of(cuts: &[usize], max_version: i16) -> QrResult<u8>
    ensures total { IfOk result (λ total. total ≡ length cuts.now + 1) }
    ensures few { OnOk result (IsTotal (length cuts.now + 1)) }
    ensures limit { OnOk result (IsNormalNumber max_version) }
    ensures refusal { IfErr result (IsTotalRefusal (length cuts.now + 1) max_version) }
{
    if !is_normal_number(max_version) {
        return Err(QrError::InvalidResourceLimits);
    }
    let total = cuts.len().min(254) as u8 + 1;
    if total < 2 || total > 16 {
        return Err(QrError::InvalidStructuredAppend { value: total });
    }
    Ok(total)
}

/// Returns the modules of 2 to 16 symbols that carry a message together, in the order of its parts
/// (ISO/IEC 18004:2006, "Structured Append").
///
/// The parts lie between the start of the message, the cuts in order, and its end; they may be
/// empty. Each symbol begins with a header, which holds its position, the number of symbols, and
/// the exclusive or of all bytes of the message. It is the best symbol of its part (as `symbol`
/// returns it) in the versions 1 to `max_version`, where the header takes 20 bits. Read in any
/// order, the symbols give the message. Where no two neighbouring bytes of a part are a pair of the
/// Kanji mode, no other symbol of the part with this header is smaller (`laws::none_is_better`).
///
/// # Errors
///
/// It fails with `InvalidResourceLimits` if `max_version` is outside 1 to 40. Then it fails with
/// `InvalidStructuredAppend` if the number of parts is not 2 to 16; the error holds that number, at
/// most 255. Then it fails with `DataTooLong` exactly where some part fits none of the versions,
/// and with `OutOfMemory` where an allocation failed. A call that fails returns no symbol.
pub fn symbol_sequence(
    alloc: Global,
    bytes: &[u8],
    cuts: &[usize],
    level: EcLevel,
    max_version: i16,
) -> QrResult<Vec<Vec<Color>>>
    requires ordered { IsNonDecreasing cuts.now }
    requires within { All (λ cut. cut ≤ length bytes.now) cuts.now }
    ensures best { IfOk result (λ grids. AreBestSymbols Bytes bytes.now cuts.now level
        (nat_abs max_version) (map vec_items grids.items)) }
    ensures fitting { OnOk result (IsSomePartTooLong Bytes bytes.now cuts.now level
        (nat_abs max_version) → ⊥) }
    ensures limit { OnOk result (IsNormalNumber max_version) }
    ensures refusal { IfErr result
        (IsSequenceRefusal Bytes bytes.now cuts.now level max_version) }
{
    let symbols = Symbol::sequence(alloc, bytes, cuts, level, max_version)?;
    colors_of_all(alloc, symbols)
}

/// Returns the modules of each symbol, in order. It fails with `OutOfMemory`.
fn colors_of_all(alloc: Global, symbols: Vec<Symbol>) -> QrResult<Vec<Vec<Color>>>
    ensures all { IfOk result (λ grids. map vec_items grids.items ≡ map modules_of symbols.items) }
    ensures memory { IfErr result (λ e. e ≡ QrError.OutOfMemory) }
{
    let mut grids = Vec::new(alloc);
    for symbol in symbols {
        grids.push(symbol.into_colors())?;
    }
    Ok(grids)
}

/// Returns the exclusive or of the bytes.
pub(crate) fn parity_of(bytes: &[u8]) -> u8
    ensures { result ≡ parity_of bytes.now }
{
    bytes.iter().fold(0, |sum, byte| sum ^ *byte)
}

/// Returns part `index` of the message, which begins at the start or a cut, and ends before the
/// next cut or at the end.
pub(crate) fn part_at<'a>(bytes: &'a [u8], cuts: &[usize], index: usize) -> &'a [u8]
    requires ordered { IsNonDecreasing cuts.now }
    requires within { All (λ cut. cut ≤ length bytes.now) cuts.now }
    requires exists { index ≤ length cuts.now }
    ensures { result.now ≡ slice_index_or (parts_at cuts.now bytes.now) index [] }
{
    let start = if index == 0 { 0 } else { cuts[index - 1] };
    let end = if index == cuts.len() {
        bytes.len()
    } else {
        cuts[index]
    };
    &bytes[start..end]
}

/// Returns the best symbol of a part after its front.
pub(crate) fn part_symbol(
    alloc: Global,
    front: &Front,
    part: &[u8],
    level: EcLevel,
    max_version: i16,
) -> QrResult<Symbol>
    requires front { HasFront (normal 1) front.now }
    requires suited { AreDataOf front.now.content part.now }
    ensures best { IfOk result (λ symbol.
        IsBestUpTo front.now part.now level (nat_abs max_version) symbol.modules) }
    ensures reading { IfOk result TellsReading }
    ensures refusal { IfErr result (IsFrontRefused front.now part.now level max_version) }
{
    let bits = encode_front(alloc, front, part, level, max_version)?;
    symbol_of(alloc, bits, level)
}
