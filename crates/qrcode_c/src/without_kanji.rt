//! The call for bytes without the Kanji mode.
ghost use Rattle.std.specs.Prelude.{◌≡◌, ◌≢◌, length, OnErr, IfOk, IfErr};
ghost use Rattle.qrcode_c.specs.BytesWithoutKanji.{HoldsBytesWithoutKanji};
ghost use Rattle.qrcode_c.specs.BytesWithoutKanji.{IsWithoutKanjiStatus};
ghost use Rattle.qrcode_c.specs.Refusals.{IsStatusOf};

use crate::DONE;
use crate::drawing::write;
use crate::options::{Options, options_of};
use crate::refusal::{Refusal, core_refusal};
use crate::shape::Shape;
use smallest_symbols::bytes_without_kanji;
use std::alloc::Global;

/// Writes the symbol of the bytes without the Kanji mode that the options ask for, as
/// `qrcode_c_bytes` writes its modules: the smallest one of which no segment is in the Kanji mode.
/// Returns `DONE`.
///
/// # Errors
///
/// On an error nothing is written. The status is, in this order: `InvalidLevel`; `InvalidVersions`;
/// `DataTooLong` only where the bytes, in segments of the other modes, fit no version up to the
/// greatest at the level; `OutOfMemory` where an allocation failed; `ShortBuffer`.
#[unsafe(no_mangle)]
pub extern "C" fn qrcode_c_bytes_without_kanji(
    alloc: Global,
    bytes: &[u8],
    options: &Options,
    modules: &mut [u8],
    shape: &mut Shape,
) -> i32
    ensures done { result ≡ DONE →
        HoldsBytesWithoutKanji bytes.now options.now modules.old modules.new shape.new }
    ensures refusal { result ≢ DONE →
        IsStatusOf (IsWithoutKanjiStatus bytes.now options.now (length modules.old)) result }
    ensures unchanged { result ≢ DONE → (modules.new ≡ modules.old) × (shape.new ≡ shape.old) }
{
    match symbol_without_kanji(alloc, bytes, options, modules) {
        Ok(drawn) => {
            *shape = drawn;
            DONE
        }
        Err(refusal) => refusal.status(),
    }
}

/// Writes the symbol of the bytes without the Kanji mode that the options ask for, and returns its
/// shape.
fn symbol_without_kanji(
    alloc: Global,
    bytes: &[u8],
    options: &Options,
    modules: &mut [u8],
) -> Result<Shape, Refusal>
    ensures held { IfOk result
        (HoldsBytesWithoutKanji bytes.now options.now modules.old modules.new) }
    ensures refusal { IfErr result
        (IsWithoutKanjiStatus bytes.now options.now (length modules.old)) }
    ensures unchanged { OnErr result (modules.new ≡ modules.old) }
{
    let checked = options_of(options)?;
    match bytes_without_kanji(alloc, bytes, &checked) {
        Ok(symbol) => write(&symbol, modules),
        Err(error) => Err(core_refusal(error)),
    }
}
