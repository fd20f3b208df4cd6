//! The fewest bits that parsed segments can take, by which versions that hold fewer are left out
//! before anything is planned for them.
ghost use Rattle.std.specs.Prelude.{◌≡◌};
ghost use Rattle.qrcode_base.specs.declared.types.Mode.TheVariants.{Numeric, Alphanumeric};
ghost use Rattle.qrcode_base.specs.declared.types.Mode.TheVariants.{Byte, Kanji};
ghost use Rattle.smallest_symbols.specs.ByteChoices.{AreNeeded, AreParsed};

use qrcode_base::types::Mode;
use qrcode_bits::optimize::Segment;

/// Returns six times the bits of a byte in a mode, rounded down; pairs do not count.
fn sixths(mode: Mode) -> usize
    ensures { result ≡ elim mode [ Numeric ↦ 20 | Alphanumeric ↦ 33 | Byte ↦ 48 | Kanji ↦ 0 ] }
{
    match mode {
        Mode::Numeric => 20,
        Mode::Alphanumeric => 33,
        Mode::Byte => 48,
        Mode::Kanji => 0,
    }
}

/// Returns a number of bits that each plan of parsed segments takes at least: those of the bytes of
/// each segment in its mode, without headers.
pub fn needed_bits(segments: &[Segment]) -> usize
    requires { AreParsed segments.now }
    ensures { AreNeeded segments.now result }
{
    let mut sum = 0;
    for s in segments {
        sum += sixths(s.mode) * (s.end - s.begin);
    }
    sum / 6
}
