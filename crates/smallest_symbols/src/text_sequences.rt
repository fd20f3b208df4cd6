//! The symbols of a text that is spread over several of them.
//!
//! 1. Cut the text into parts (`text_part`).
//! 2. Make the smallest symbol of each part, after its header (`part_symbol`), in the first manner in
//!    which there is one of each part (`symbols_in`).
ghost use Rattle.std.specs.Prelude.{◌≡◌, ◌+◌, ◌≤◌, [], length, map, nat_abs, slice_index_or, All};
ghost use Rattle.std.specs.Prelude.{OnOk, IfOk, IfErr};
ghost use Rattle.std.specs.List.Sorted.{IsNonDecreasing};
ghost use Rattle.qrcode_base.specs.Symbols.{IsNormalNumber};
ghost use Rattle.qrcode_bits.specs.Frame.{IsTotal};
ghost use Rattle.qrcode_bits.specs.Places.{IsCutPlace};
ghost use Rattle.qrcode_bits.specs.declared.bits.front.Content.TheVariants.{Text};
ghost use Rattle.qrcode_core.specs.Sequence.{IsTotalRefusal, parity_of, parts_at};
ghost use Rattle.qrcode_core.specs.Symbol.{modules_of};
ghost use Rattle.smallest_symbols.specs.TextHeadline.{TellsTextReading};
ghost use Rattle.smallest_symbols.specs.TextMessages.{AreSmallestTextSymbols, AreSymbolsIn};
ghost use Rattle.smallest_symbols.specs.TextMessages.{HasNoSymbols, HasNoSymbolsIn};
ghost use Rattle.smallest_symbols.specs.TextMessages.{IsTextSequenceRefusal};
ghost use Rattle.smallest_symbols.specs.TextParts.{IsSomePartTooLongIn, IsSomeTextPartTooLong};
ghost use Rattle.text_plans.specs.declared.rules.Manner.TheVariants.{Ascii};

use crate::part_symbols::part_symbol;
use crate::pushing::PieceHeader;
use qrcode_base::symbols::is_normal_number;
use qrcode_base::types::{EcLevel, QrError, QrResult};
use qrcode_core::symbol::Symbol;
use std::alloc::Global;
use text_plans::Manner;

/// Returns the 2 to 16 symbols that carry a text together, in the order of its parts, each the
/// smallest of its part (ISO/IEC 18004:2006, "Structured Append").
///
/// The parts lie between the start of the text, the cuts in order, and its end; they may be empty.
/// Each cut is between two characters, so that each symbol has whole ones: `are_text_cuts` of
/// `qrcode_core` tests cuts. Each symbol begins with a header, which holds its position, the number
/// of symbols, and the exclusive or of all bytes of the text in UTF-8. It is the smallest symbol of
/// its part in the versions 1 to `max_version`, where the header takes 20 bits, of those that are
/// written in one manner. Read in any order, the symbols give the text, both to a reader that takes
/// each by itself and to one that joins them, in which a designator stays in force from one symbol to
/// the next. A reader finds in each symbol the version, the level and the mask that the symbol
/// returns.
///
/// The manner is the first of three in which each part has a symbol: without designators and Kanji
/// segments; without designators, where bytes are those characters of ASCII alone that are the same
/// in JIS X 0201; and with a designator in front of each symbol.
///
/// # Errors
///
/// It fails with `InvalidResourceLimits` if `max_version` is outside 1 to 40. Then it fails with
/// `InvalidStructuredAppend` if the number of parts is not 2 to 16; the error holds that number, at
/// most 255. Then it fails with `DataTooLong` only where in each manner nothing that is read as some
/// part fits any of the versions, and with `OutOfMemory` where an allocation failed. A call that
/// fails returns no symbol.
pub fn smallest_text_sequence(
    alloc: Global,
    text: &str,
    cuts: &[usize],
    level: EcLevel,
    max_version: i16,
) -> QrResult<Vec<Symbol>>
    requires ordered { IsNonDecreasing cuts.now }
    requires within { All (λ cut. cut ≤ length text.now) cuts.now }
    requires whole { All (λ cut. IsCutPlace Text text.now cut) cuts.now }
    ensures smallest { IfOk result (λ symbols. AreSmallestTextSymbols text.now cuts.now level
        (nat_abs max_version) (map modules_of symbols.items)) }
    ensures reading { IfOk result (λ symbols. All TellsTextReading symbols.items) }
    ensures fitting { OnOk result (IsSomeTextPartTooLong text.now cuts.now level
        (nat_abs max_version) → ⊥) }
    ensures limit { OnOk result (IsNormalNumber max_version) }
    ensures refusal { IfErr result
        (IsTextSequenceRefusal text.now cuts.now level max_version) }
{
    let total = total_of(cuts, max_version)?;
    let limit = number_of(max_version);
    match symbols_in(alloc, text, cuts, Manner::Ascii, level, limit, total) {
        Ok(symbols) => Ok(symbols),
        Err(QrError::DataTooLong) => beyond_ascii(alloc, text, cuts, level, limit, total),
        Err(error) => Err(error),
    }
}

/// Returns what `smallest_text_sequence` does, of parts of which some is too long without
/// designators and Kanji segments.
fn beyond_ascii(
    alloc: Global,
    text: &str,
    cuts: &[usize],
    level: EcLevel,
    limit: usize,
    total: u8,
) -> QrResult<Vec<Symbol>>
    requires ordered { IsNonDecreasing cuts.now }
    requires within { All (λ cut. cut ≤ length text.now) cuts.now }
    requires whole { All (λ cut. IsCutPlace Text text.now cut) cuts.now }
    requires total { total ≡ length cuts.now + 1 }
    requires few { IsTotal total }
    requires some { 1 ≤ limit }
    requires last { limit ≤ 40 }
    requires long { IsSomePartTooLongIn Ascii text.now cuts.now level limit }
    ensures smallest { IfOk result (λ symbols. AreSmallestTextSymbols text.now cuts.now level limit
        (map modules_of symbols.items)) }
    ensures reading { IfOk result (λ symbols. All TellsTextReading symbols.items) }
    ensures refusal { IfErr result (HasNoSymbols text.now cuts.now level limit) }
{
    match symbols_in(alloc, text, cuts, Manner::Paired, level, limit, total) {
        Ok(symbols) => Ok(symbols),
        Err(QrError::DataTooLong) => {
            symbols_in(alloc, text, cuts, Manner::Designated, level, limit, total)
        }
        Err(error) => Err(error),
    }
}

/// Returns the symbols of all parts, each the smallest of its part in a manner. It fails with
/// `DataTooLong` only where some part is too long in the manner, and with `OutOfMemory`.
fn symbols_in(
    alloc: Global,
    text: &str,
    cuts: &[usize],
    manner: Manner,
    level: EcLevel,
    limit: usize,
    total: u8,
) -> QrResult<Vec<Symbol>>
    requires ordered { IsNonDecreasing cuts.now }
    requires within { All (λ cut. cut ≤ length text.now) cuts.now }
    requires whole { All (λ cut. IsCutPlace Text text.now cut) cuts.now }
    requires total { total ≡ length cuts.now + 1 }
    requires few { IsTotal total }
    requires some { 1 ≤ limit }
    requires last { limit ≤ 40 }
    ensures smallest { IfOk result (λ symbols. AreSymbolsIn manner text.now cuts.now level limit
        (map modules_of symbols.items)) }
    ensures reading { IfOk result (λ symbols. All TellsTextReading symbols.items) }
    ensures refusal { IfErr result (HasNoSymbolsIn manner text.now cuts.now level limit) }
{
    let parity = parity_of(text.as_bytes());
    let mut symbols = Vec::new(alloc);
    for index in 0..total {
        let part = text_part(text, cuts, usize::from(index));
        let header = PieceHeader::new(index + 1, total, parity);
        let symbol = part_symbol(alloc, header, part, manner, level, limit);
        symbols.push(symbol?)?;
    }
    Ok(symbols)
}

/// Returns the number of parts. It fails with `InvalidResourceLimits` if the greatest version is
/// not 1 to 40, and then with `InvalidStructuredAppend` if the number is not 2 to 16.
fn total_of(cuts: &[usize], max_version: i16) -> QrResult<u8>
    ensures total { IfOk result (λ total. total ≡ length cuts.now + 1) }
    ensures few { OnOk result (IsTotal (length cuts.now + 1)) }
    ensures limit { OnOk result (IsNormalNumber max_version) }
    ensures refusal { IfErr result (IsTotalRefusal (length cuts.now + 1) max_version) }
{
    if !is_normal_number(max_version) {
        return Err(QrError::InvalidResourceLimits);
    }
    let total = cuts.len().min(254) as u8 + 1;
    if total < 2 || total > 16 {
        return Err(QrError::InvalidStructuredAppend { value: total });
    }
    Ok(total)
}

/// Returns the number of a Normal version.
fn number_of(version: i16) -> usize
    requires { IsNormalNumber version }
    ensures number { result ≡ nat_abs version }
    ensures some { 1 ≤ result }
    ensures last { result ≤ 40 }
{
    version as usize
}

/// Returns the exclusive or of the bytes.
fn parity_of(bytes: &[u8]) -> u8
    ensures { result ≡ parity_of bytes.now }
{
    bytes.iter().fold(0, |sum, byte| sum ^ *byte)
}

/// Returns part `index` of the text, which begins at the start or a cut, and ends before the next
/// cut or at the end.
fn text_part<'a>(text: &'a str, cuts: &[usize], index: usize) -> &'a str
    requires ordered { IsNonDecreasing cuts.now }
    requires within { All (λ cut. cut ≤ length text.now) cuts.now }
    requires whole { All (λ cut. IsCutPlace Text text.now cut) cuts.now }
    requires exists { index ≤ length cuts.now }
    ensures { result.now ≡ slice_index_or (parts_at cuts.now text.now) index [] }
{
    let start = if index == 0 { 0 } else { cuts[index - 1] };
    let end = if index == cuts.len() {
        text.len()
    } else {
        cuts[index]
    };
    &text[start..end]
}
