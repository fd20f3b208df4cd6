//! The calls for the smallest symbols of texts.
ghost use Rattle.std.specs.Prelude.{◌≡◌, ◌≢◌, length};
ghost use Rattle.std.specs.Str.{IsUtf8};
ghost use Rattle.qrcode_c.specs.Refusals.{IsStatusOf};
ghost use Rattle.qrcode_c.specs.Texts.{HoldsMicroText, HoldsSmallestText};
ghost use Rattle.qrcode_c.specs.Texts.{IsMicroTextStatus, IsSmallestTextStatus};

use crate::options::Options;
use crate::shape::Shape;
use crate::{DONE, smallest};
use std::alloc::Global;

/// Writes the smallest symbol of the text in UTF-8 that the options ask for, as `qrcode_c_bytes`
/// writes its modules: in their versions at their level, or with `strongest` at the greatest level
/// at which it is no larger. The text is written in the modes, and after the ECI designators, that
/// take the fewest bits. Returns `DONE`.
///
/// # Errors
///
/// On an error nothing is written. The status is, in this order: `InvalidLevel`; `InvalidVersions`;
/// `InvalidText` where the bytes are not UTF-8; `DataTooLong` only where nothing that is read as
/// the text fits a version up to the greatest at the level; `OutOfMemory` where an allocation
/// failed; `ShortBuffer`.
#[unsafe(no_mangle)]
pub extern "C" fn qrcode_c_smallest_text(
    alloc: Global,
    text: &[u8],
    options: &Options,
    modules: &mut [u8],
    shape: &mut Shape,
) -> i32
    ensures done { result ≡ DONE →
        HoldsSmallestText text.now options.now modules.old modules.new shape.new }
    ensures valid { result ≡ DONE → IsUtf8 text.now }
    ensures refusal { result ≢ DONE →
        IsStatusOf (IsSmallestTextStatus text.now options.now (length modules.old)) result }
    ensures unchanged { result ≢ DONE → (modules.new ≡ modules.old) × (shape.new ≡ shape.old) }
{
    match smallest::smallest_symbol(alloc, text, options, modules) {
        Ok(drawn) => {
            *shape = drawn;
            DONE
        }
        Err(refusal) => refusal.status(),
    }
}

/// Writes the smallest Micro symbol of the text in UTF-8 at a level, as `qrcode_c_micro_symbol`
/// writes its modules, in the versions M1 to M4. It has no ECI designators: its characters are
/// those of ASCII alone, or those of the Kanji mode and of ASCII but `\` and `~`. Returns `DONE`.
///
/// # Errors
///
/// On an error nothing is written. The status is, in this order: `InvalidLevel`, also for level H;
/// `InvalidText` where the bytes are not UTF-8; `UnwritableText` only where no Micro symbol is
/// read as the text; `DataTooLong` only where nothing that is read as it fits any of the
/// versions at the level; `OutOfMemory` where an allocation failed; `ShortBuffer`.
#[unsafe(no_mangle)]
pub extern "C" fn qrcode_c_micro_text(
    alloc: Global,
    text: &[u8],
    level: i32,
    modules: &mut [u8],
    shape: &mut Shape,
) -> i32
    ensures done { result ≡ DONE →
        HoldsMicroText text.now level modules.old modules.new shape.new }
    ensures valid { result ≡ DONE → IsUtf8 text.now }
    ensures refusal { result ≢ DONE →
        IsStatusOf (IsMicroTextStatus text.now level (length modules.old)) result }
    ensures unchanged { result ≢ DONE → (modules.new ≡ modules.old) × (shape.new ≡ shape.old) }
{
    match smallest::micro_text_symbol(alloc, text, level, modules) {
        Ok(drawn) => {
            *shape = drawn;
            DONE
        }
        Err(refusal) => refusal.status(),
    }
}
