//! The functions of `libsicklespan.a` for C. `bindings/c/sicklespan.h` declares the functions that
//! a program calls; they check the pointers first, and then call these. docs/BINDINGS.md says what
//! they promise.
//!
//! No function has a `requires`, since nothing checks one for a caller in C: each invalid argument
//! has a status. Calls share no state, and each frees all memory that it allocates.
#![tactic(auto)]

ghost use Rattle.std.specs.Prelude.{◌≡◌, ◌≢◌, ◌*◌, pos, length, None};
ghost use Rattle.std.specs.Str.{IsUtf8};
ghost use Rattle.qrcode_bits.specs.Contents.{AreElements};
ghost use Rattle.qrcode_bits.specs.Frame.{front_of, no_front};
ghost use Rattle.qrcode_bits.specs.declared.bits.front.Content.TheVariants.{Elements, Text};
ghost use Rattle.qrcode_core.specs.Headline.{IsBestSymbol, IsBestMicroSymbol};
ghost use Rattle.qrcode_base.specs.declared.types.Version.{Version};
ghost use Rattle.qrcode_base.specs.Symbols.{IsVersion, width_of};
ghost use Rattle.qrcode_c.specs.Asking.{IsAskedRefusal, IsAskedTextRefusal, IsAskedElementsRefusal};
ghost use Rattle.qrcode_c.specs.Buffers.{HoldsAsked, HoldsBest};
ghost use Rattle.qrcode_c.specs.Pictures.{HoldsPicture, IsPictureRefusal};
ghost use Rattle.qrcode_c.specs.Statuses.{status_of};
ghost use Rattle.qrcode_c.specs.Refusals.{IsStatusOf};
ghost use Rattle.qrcode_c.specs.Refusals.{IsSymbolRefusal, IsMicroRefusal};
ghost use Rattle.qrcode_c.specs.Shapes.{IsNumberAtWidth};

pub use elements::{
    qrcode_c_gs1, qrcode_c_gs1_fault, qrcode_c_gs1_unchecked, qrcode_c_link, qrcode_c_link_fault,
    qrcode_c_link_text,
};
pub use faults::ElementFault;
pub use options::Options;
use qrcode_core::types::Version;
pub use refusal::Refusal;
pub use sequences::{
    qrcode_c_cuts, qrcode_c_part_symbol, qrcode_c_sequence, qrcode_c_text_cuts,
    qrcode_c_text_sequence,
};
pub use settings::PictureSettings;
pub use shape::Shape;
use std::alloc::Global;
pub use texts::{qrcode_c_micro_text, qrcode_c_smallest_text};
pub use without_kanji::qrcode_c_bytes_without_kanji;

mod asking;
mod cuts;
mod drawing;
mod elements;
mod faults;
mod linked;
mod options;
mod picture;
mod refusal;
mod sequences;
mod settings;
mod shape;
mod smallest;
mod spread;
mod texts;
mod without_kanji;
mod written;

/// The status of success. Each other status is the number of a `Refusal`.
pub const DONE: i32 = 0;

/// Writes the best symbol of the bytes at a level, one byte per module, row by row from the upper
/// left corner: 1 for a dark module, 0 for a light one. The levels L, M, Q and H are 0 to 3. The
/// bytes of `modules` after these keep their values. Returns `DONE`.
///
/// # Errors
///
/// On an error nothing is written. The status is, in this order: `InvalidLevel`; `DataTooLong`
/// exactly where the bytes fit no version at the level; `OutOfMemory` where an allocation
/// failed; `ShortBuffer`.
#[unsafe(no_mangle)]
pub extern "C" fn qrcode_c_symbol(
    alloc: Global,
    bytes: &[u8],
    level: i32,
    modules: &mut [u8],
    shape: &mut Shape,
) -> i32
    ensures done { result ≡ DONE →
        HoldsBest (IsBestSymbol bytes.now) level modules.old modules.new shape.new }
    ensures refusal { result ≢ DONE →
        IsStatusOf (IsSymbolRefusal bytes.now level (length modules.old)) result }
    ensures unchanged { result ≢ DONE → (modules.new ≡ modules.old) × (shape.new ≡ shape.old) }
{
    match drawing::symbol(alloc, bytes, level, modules) {
        Ok(drawn) => {
            *shape = drawn;
            DONE
        }
        Err(refusal) => refusal.status(),
    }
}

/// Writes the symbol of the bytes that the options ask for, one byte per module, row by row from
/// the upper left corner: 1 for a dark module, 0 for a light one. It is the best one at their level
/// in their versions, or with `strongest` the best one at the greatest level at which it is no
/// larger. The bytes of `modules` after these keep their values. Returns `DONE`.
///
/// # Errors
///
/// On an error nothing is written. The status is, in this order: `InvalidLevel`; `InvalidVersions`;
/// `DataTooLong` exactly where the bytes fit no version up to the greatest at the level;
/// `OutOfMemory` where an allocation failed; `ShortBuffer`.
#[unsafe(no_mangle)]
pub extern "C" fn qrcode_c_bytes(
    alloc: Global,
    bytes: &[u8],
    options: &Options,
    modules: &mut [u8],
    shape: &mut Shape,
) -> i32
    ensures done { result ≡ DONE →
        HoldsAsked no_front bytes.now options.now modules.old modules.new shape.new }
    ensures refusal { result ≢ DONE → IsStatusOf
        (IsAskedRefusal no_front bytes.now options.now (length modules.old)) result }
    ensures unchanged { result ≢ DONE → (modules.new ≡ modules.old) × (shape.new ≡ shape.old) }
{
    match asking::bytes_symbol(alloc, bytes, options, modules) {
        Ok(drawn) => {
            *shape = drawn;
            DONE
        }
        Err(refusal) => refusal.status(),
    }
}

/// Writes the symbol of the text in UTF-8 that the options ask for, as `qrcode_c_bytes` does, after
/// the ECI designator of UTF-8. After the versions the text is tested, and is `InvalidText` where
/// it is not UTF-8.
#[unsafe(no_mangle)]
pub extern "C" fn qrcode_c_text(
    alloc: Global,
    text: &[u8],
    options: &Options,
    modules: &mut [u8],
    shape: &mut Shape,
) -> i32
    ensures done { result ≡ DONE →
        HoldsAsked (front_of None Text) text.now options.now modules.old modules.new shape.new }
    ensures valid { result ≡ DONE → IsUtf8 text.now }
    ensures refusal { result ≢ DONE →
        IsStatusOf (IsAskedTextRefusal text.now options.now (length modules.old)) result }
    ensures unchanged { result ≢ DONE → (modules.new ≡ modules.old) × (shape.new ≡ shape.old) }
{
    match asking::text_symbol(alloc, text, options, modules) {
        Ok(drawn) => {
            *shape = drawn;
            DONE
        }
        Err(refusal) => refusal.status(),
    }
}

/// Writes the symbol of the GS1 elements that the options ask for, as `qrcode_c_bytes` does, after
/// FNC1 in the first position. After the versions the bytes are tested, and are `InvalidCharacter`
/// where one is none of GS1's 82 characters, no number sign, and no separator 1D (hex) between two
/// elements.
#[unsafe(no_mangle)]
pub extern "C" fn qrcode_c_elements(
    alloc: Global,
    elements: &[u8],
    options: &Options,
    modules: &mut [u8],
    shape: &mut Shape,
) -> i32
    ensures done { result ≡ DONE → HoldsAsked (front_of None Elements) elements.now options.now
        modules.old modules.new shape.new }
    ensures valid { result ≡ DONE → AreElements elements.now }
    ensures refusal { result ≢ DONE →
        IsStatusOf (IsAskedElementsRefusal elements.now options.now (length modules.old)) result }
    ensures unchanged { result ≢ DONE → (modules.new ≡ modules.old) × (shape.new ≡ shape.old) }
{
    match asking::elements_symbol(alloc, elements, options, modules) {
        Ok(drawn) => {
            *shape = drawn;
            DONE
        }
        Err(refusal) => refusal.status(),
    }
}

/// Writes the best Micro symbol of the bytes at a level, as `qrcode_c_symbol` does, in the versions
/// M1 to M4. Level H, which none of them has, is `InvalidLevel`.
#[unsafe(no_mangle)]
pub extern "C" fn qrcode_c_micro_symbol(
    alloc: Global,
    bytes: &[u8],
    level: i32,
    modules: &mut [u8],
    shape: &mut Shape,
) -> i32
    ensures done { result ≡ DONE →
        HoldsBest (IsBestMicroSymbol bytes.now) level modules.old modules.new shape.new }
    ensures refusal { result ≢ DONE →
        IsStatusOf (IsMicroRefusal bytes.now level (length modules.old)) result }
    ensures unchanged { result ≢ DONE → (modules.new ≡ modules.old) × (shape.new ≡ shape.old) }
{
    match drawing::micro_symbol(alloc, bytes, level, modules) {
        Ok(drawn) => {
            *shape = drawn;
            DONE
        }
        Err(refusal) => refusal.status(),
    }
}

/// Writes the picture of a symbol in a format, and the number of its bytes. The modules are those
/// of the symbol, row by row: 0 for a light one, and any other number for a dark one. The formats
/// have the numbers 0 to 7 in the order of `Format`. The bytes of `buffer` after the picture keep
/// their values. Returns `DONE`.
///
/// # Errors
///
/// On an error nothing is written, except that a `ShortBuffer` writes the number of bytes that the
/// picture has. The status is, in this order: `InvalidWidth` if no symbol has the width, or another
/// number of modules; `InvalidFormat`; `InvalidSetting` if a setting is out of its bounds, or the
/// format does not have it; `OutOfMemory` where an allocation failed; `ShortBuffer`.
#[unsafe(no_mangle)]
pub extern "C" fn qrcode_c_picture(
    alloc: Global,
    modules: &[u8],
    width: usize,
    format: i32,
    settings: &PictureSettings,
    buffer: &mut [u8],
    size: &mut usize,
) -> i32
    ensures done { result ≡ DONE → HoldsPicture modules.now width format settings.now
        buffer.old buffer.new size.new }
    ensures refusal { result ≢ DONE → IsStatusOf (IsPictureRefusal modules.now width format
        settings.now (length buffer.old) size.new) result }
    ensures unchanged { result ≢ DONE → buffer.new ≡ buffer.old }
    ensures sized { result ≢ DONE → result ≢ status_of Refusal.ShortBuffer →
        size.new ≡ size.old }
{
    match picture::write_picture(alloc, modules, width, format, settings, buffer, size) {
        Ok(()) => DONE,
        Err(refusal) => refusal.status(),
    }
}

/// Returns the number of modules of the largest symbol: a buffer of this many bytes
/// always suffices.
#[unsafe(no_mangle)]
pub extern "C" fn qrcode_c_greatest_size() -> usize
    ensures { result ≡ 177 * 177 }
{
    177 * 177
}

/// Returns the number of the version whose symbols have this width in modules: 1 to 40, or 1 to 4
/// for a Micro version, whose widths are below 21. Returns 0 if no version has the width.
#[unsafe(no_mangle)]
pub extern "C" fn qrcode_c_version_of_width(width: usize) -> i32
    ensures version { result ≢ pos 0 → IsNumberAtWidth result width }
    ensures none { result ≡ pos 0 →
        (version : Version) → IsVersion version → width_of version ≢ width }
{
    match Version::of_width(width) {
        Some(Version::Normal(number)) => i32::from(number),
        Some(Version::Micro(number)) => i32::from(number),
        None => 0,
    }
}
