//! The cuts of a message, in a caller's buffer.
ghost use Rattle.std.specs.Prelude.{◌≡◌, ◌<◌, ◌++◌, true, false, length, drop};
ghost use Rattle.std.specs.Prelude.{OnErr, OnOk, IfOk, IfErr};
ghost use Rattle.std.specs.Str.{IsUtf8};
ghost use Rattle.qrcode_bits.specs.declared.bits.front.Content.TheVariants.{Bytes, Text};
ghost use Rattle.qrcode_c.specs.Cuts.{HoldsCuts, IsCutsStatus};
ghost use Rattle.qrcode_c.specs.Refusals.{IsTextStatus};

use crate::options::{level_of, limit_of};
use crate::refusal::{Refusal, core_refusal};
use qrcode_core::symbol::{best_cuts, best_text_cuts};
use std::alloc::Global;

/// Writes the cuts of the message into the fewest parts, and returns their number.
pub fn cuts_of(
    alloc: Global,
    message: &[u8],
    level: i32,
    max_version: i32,
    cuts: &mut [usize],
) -> Result<usize, Refusal>
    ensures held { IfOk result
        (HoldsCuts Bytes message.now level max_version cuts.old cuts.new) }
    ensures refusal { IfErr result
        (IsCutsStatus Bytes message.now level max_version (length cuts.old)) }
    ensures unchanged { OnErr result (cuts.new ≡ cuts.old) }
{
    let Some(level) = level_of(level) else {
        return Err(Refusal::InvalidLevel);
    };
    let Some(limit) = limit_of(max_version) else {
        return Err(Refusal::InvalidMaxVersion);
    };
    let found = match best_cuts(alloc, message, level, limit) {
        Ok(found) => found,
        Err(error) => return Err(core_refusal(error)),
    };
    if !write_cuts(&found, cuts) {
        return Err(Refusal::ShortBuffer);
    }
    Ok(found.len())
}

/// Writes the cuts of a text in UTF-8 into the fewest parts, and returns their number.
pub fn text_cuts_of(
    alloc: Global,
    text: &[u8],
    level: i32,
    max_version: i32,
    cuts: &mut [usize],
) -> Result<usize, Refusal>
    ensures held { IfOk result
        (HoldsCuts Text text.now level max_version cuts.old cuts.new) }
    ensures valid { OnOk result (IsUtf8 text.now) }
    ensures refusal { IfErr result (IsTextStatus text.now level
        (IsCutsStatus Text text.now level max_version (length cuts.old))) }
    ensures unchanged { OnErr result (cuts.new ≡ cuts.old) }
{
    let Some(_) = level_of(level) else {
        return Err(Refusal::InvalidLevel);
    };
    let Ok(text) = str::from_utf8(text) else {
        return Err(Refusal::InvalidText);
    };
    cuts_of_text(alloc, text, level, max_version, cuts)
}

/// Writes the cuts of a text into the fewest parts, and returns their number.
fn cuts_of_text(
    alloc: Global,
    text: &str,
    level: i32,
    max_version: i32,
    cuts: &mut [usize],
) -> Result<usize, Refusal>
    ensures held { IfOk result
        (HoldsCuts Text text.now level max_version cuts.old cuts.new) }
    ensures refusal { IfErr result
        (IsCutsStatus Text text.now level max_version (length cuts.old)) }
    ensures unchanged { OnErr result (cuts.new ≡ cuts.old) }
{
    let Some(level) = level_of(level) else {
        return Err(Refusal::InvalidLevel);
    };
    let Some(limit) = limit_of(max_version) else {
        return Err(Refusal::InvalidMaxVersion);
    };
    let found = match best_text_cuts(alloc, text, level, limit) {
        Ok(found) => found,
        Err(error) => return Err(core_refusal(error)),
    };
    if !write_cuts(&found, cuts) {
        return Err(Refusal::ShortBuffer);
    }
    Ok(found.len())
}

/// Writes the cuts to the start of a buffer, and returns whether there was room for them.
fn write_cuts(found: &[usize], cuts: &mut [usize]) -> bool
    ensures written { result ≡ true → cuts.new ≡ found.now ++ drop (length found.now) cuts.old }
    ensures short_buffer { result ≡ false → length cuts.old < length found.now }
    ensures unchanged { result ≡ false → cuts.new ≡ cuts.old }
{
    if cuts.len() < found.len() {
        return false;
    }
    for (i, cut) in found.iter().enumerate() {
        cuts[i] = *cut;
    }
    true
}
