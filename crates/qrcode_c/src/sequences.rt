//! The functions for C that carry a message by several symbols.
ghost use Rattle.std.specs.Prelude.{◌≡◌, ◌≢◌, length, List};
ghost use Rattle.std.specs.Str.{IsUtf8};
ghost use Rattle.qrcode_bits.specs.declared.bits.front.Content.TheVariants.{Bytes, Text};
ghost use Rattle.qrcode_core.specs.Symbol.{DrawnSymbol};
ghost use Rattle.qrcode_c.specs.Cuts.{HoldsCuts, IsCutsStatus};
ghost use Rattle.qrcode_c.specs.Buffers.{HoldsPart};
ghost use Rattle.qrcode_c.specs.Refusals.{IsStatusOf, IsPartRefusal, IsTextStatus};
ghost use Rattle.qrcode_c.specs.Spread.{AreSpread, HoldsAll, IsSpreadStatus};

use crate::DONE;
use crate::cuts::{cuts_of, text_cuts_of};
use crate::drawing::part_symbol;
use crate::shape::Shape;
use crate::spread::{spread, text_spread};
use std::alloc::Global;

/// Writes one of the 2 to 16 symbols that carry a message together (ISO/IEC 18004:2006, "Structured
/// Append"): the one at an index, counted from 0. The parts of the message lie between its start,
/// the cuts in order, and its end. The other parts are tested, and not drawn. Returns `DONE`.
///
/// # Errors
///
/// On an error nothing is written. The status is, in this order: `InvalidLevel`; `InvalidCuts` if
/// a cut is less than the one before it, or greater than the length; `InvalidIndex` if the index
/// is not less than the number of parts; `InvalidMaxVersion` if the greatest version is not 1 to
/// 40; `InvalidPartCount` if the number of parts is not 2 to 16; `DataTooLong` exactly where some
/// part and its header fit no version up to the greatest; `OutOfMemory` where an allocation
/// failed; `ShortBuffer`.
#[unsafe(no_mangle)]
pub extern "C" fn qrcode_c_part_symbol(
    alloc: Global,
    message: &[u8],
    cuts: &[usize],
    level: i32,
    max_version: i32,
    index: usize,
    modules: &mut [u8],
    shape: &mut Shape,
) -> i32
    ensures done { result ≡ DONE →
        HoldsPart message.now cuts.now level max_version index modules.old modules.new shape.new }
    ensures refusal { result ≢ DONE →
        IsStatusOf
        (IsPartRefusal message.now cuts.now level max_version index (length modules.old)) result }
    ensures unchanged { result ≢ DONE → (modules.new ≡ modules.old) × (shape.new ≡ shape.old) }
{
    match part_symbol(alloc, message, cuts, level, max_version, index, modules) {
        Ok(drawn) => {
            *shape = drawn;
            DONE
        }
        Err(refusal) => refusal.status(),
    }
}

/// Writes all symbols that carry a message together, as `qrcode_c_part_symbol` has them: their
/// modules one symbol after the other, and their shapes. Each is drawn once. What comes after these
/// in `modules` and `shapes` keeps its values. Returns `DONE`.
///
/// # Errors
///
/// On an error nothing is written. The status is, in this order: `InvalidLevel`; `InvalidCuts`;
/// `InvalidMaxVersion`; `InvalidPartCount`; `DataTooLong` exactly where some part and its header
/// fit no version up to the greatest; `OutOfMemory` where an allocation failed; `ShortBuffer` if
/// there are fewer shapes than parts, or fewer bytes than modules.
#[unsafe(no_mangle)]
pub extern "C" fn qrcode_c_sequence(
    alloc: Global,
    message: &[u8],
    cuts: &[usize],
    level: i32,
    max_version: i32,
    modules: &mut [u8],
    shapes: &mut [Shape],
) -> i32
    ensures done { result ≡ DONE → (symbols : List DrawnSymbol)
        × AreSpread Bytes message.now cuts.now level max_version symbols
        × HoldsAll symbols modules.old modules.new shapes.old shapes.new }
    ensures refusal { result ≢ DONE → IsStatusOf (IsSpreadStatus Bytes message.now cuts.now level
        max_version (length modules.old) (length shapes.old)) result }
    ensures unchanged { result ≢ DONE → (modules.new ≡ modules.old) × (shapes.new ≡ shapes.old) }
{
    match spread(alloc, message, cuts, level, max_version, modules, shapes) {
        Ok(()) => DONE,
        Err(refusal) => refusal.status(),
    }
}

/// Writes all symbols that carry a text in UTF-8 together, as `qrcode_c_sequence` does, each with
/// the ECI designator of UTF-8 after its header. After the level the text is tested, and is
/// `InvalidText` where it is not UTF-8. A cut that is not between two characters is also
/// `InvalidCuts`.
#[unsafe(no_mangle)]
pub extern "C" fn qrcode_c_text_sequence(
    alloc: Global,
    text: &[u8],
    cuts: &[usize],
    level: i32,
    max_version: i32,
    modules: &mut [u8],
    shapes: &mut [Shape],
) -> i32
    ensures done { result ≡ DONE → (symbols : List DrawnSymbol)
        × AreSpread Text text.now cuts.now level max_version symbols
        × HoldsAll symbols modules.old modules.new shapes.old shapes.new }
    ensures valid { result ≡ DONE → IsUtf8 text.now }
    ensures refusal { result ≢ DONE → IsStatusOf (IsTextStatus text.now level
        (IsSpreadStatus Text text.now cuts.now level max_version (length modules.old)
        (length shapes.old))) result }
    ensures unchanged { result ≢ DONE → (modules.new ≡ modules.old) × (shapes.new ≡ shapes.old) }
{
    match text_spread(alloc, text, cuts, level, max_version, modules, shapes) {
        Ok(()) => DONE,
        Err(refusal) => refusal.status(),
    }
}

/// Writes the places at which to cut a message so that `qrcode_c_part_symbol` draws it in the
/// fewest symbols of versions up to the greatest, and their number. The numbers of `cuts` after
/// these keep their values. A message that fits one symbol after a header has no cuts, and there
/// are at most 15. Returns `DONE`.
///
/// # Errors
///
/// On an error nothing is written. The status is, in this order: `InvalidLevel`;
/// `InvalidMaxVersion`; `DataTooLong` exactly where no cuts make at most 16 parts that fit;
/// `OutOfMemory` where an allocation failed; `ShortBuffer`.
#[unsafe(no_mangle)]
pub extern "C" fn qrcode_c_cuts(
    alloc: Global,
    message: &[u8],
    level: i32,
    max_version: i32,
    cuts: &mut [usize],
    count: &mut usize,
) -> i32
    ensures done { result ≡ DONE →
        HoldsCuts Bytes message.now level max_version cuts.old cuts.new count.new }
    ensures refusal { result ≢ DONE → IsStatusOf
        (IsCutsStatus Bytes message.now level max_version (length cuts.old)) result }
    ensures unchanged { result ≢ DONE → (cuts.new ≡ cuts.old) × (count.new ≡ count.old) }
{
    match cuts_of(alloc, message, level, max_version, cuts) {
        Ok(found) => {
            *count = found;
            DONE
        }
        Err(refusal) => refusal.status(),
    }
}

/// Writes the places at which to cut a text in UTF-8 so that `qrcode_c_text_sequence` draws it in
/// the fewest symbols, as `qrcode_c_cuts` does: each is between two characters. After the level the
/// text is tested, and is `InvalidText` where it is not UTF-8.
#[unsafe(no_mangle)]
pub extern "C" fn qrcode_c_text_cuts(
    alloc: Global,
    text: &[u8],
    level: i32,
    max_version: i32,
    cuts: &mut [usize],
    count: &mut usize,
) -> i32
    ensures done { result ≡ DONE →
        HoldsCuts Text text.now level max_version cuts.old cuts.new count.new }
    ensures valid { result ≡ DONE → IsUtf8 text.now }
    ensures refusal { result ≢ DONE → IsStatusOf (IsTextStatus text.now level
        (IsCutsStatus Text text.now level max_version (length cuts.old))) result }
    ensures unchanged { result ≢ DONE → (cuts.new ≡ cuts.old) × (count.new ≡ count.old) }
{
    match text_cuts_of(alloc, text, level, max_version, cuts) {
        Ok(found) => {
            *count = found;
            DONE
        }
        Err(refusal) => refusal.status(),
    }
}
