//! Streams of bits, by `qrcode_bits`.
ghost use Rattle.std.specs.Prelude.{◌≡◌, pos, IfOk, IfErr};
ghost use Rattle.qrcode_base.specs.declared.types.EcLevel.TheVariants.{M};
ghost use Rattle.qrcode_base.specs.declared.types.Version.TheVariants.{Normal};
ghost use Rattle.qrcode_bits.specs.Frame.{no_front};
ghost use Rattle.qrcode_bits.specs.Plans.{normal};
ghost use Rattle.qrcode_bits.specs.Push.{IsEncoding, IsUnencodable};

use qrcode_base::types::{EcLevel, QrResult, Version};
use qrcode_bits::bits::{Bits, encode_auto};
use std::alloc::Global;

/// Returns the bits of a text in UTF-8, after the ECI designator of UTF-8, in version 5 at level M.
pub fn label(alloc: Global, text: &[u8]) -> QrResult<Bits>
    ensures { IfOk result (λ bits. bits.version ≡ Normal (pos 5)) }
{
    let mut bits = Bits::new(alloc, Version::Normal(5));
    bits.push_eci_designator(26)?;
    bits.push_byte_data(text)?;
    bits.push_terminator(EcLevel::M)?;
    Ok(bits)
}

/// Returns the bits of the smallest symbol for a text at level M.
pub fn ticket(alloc: Global, text: &[u8]) -> QrResult<Bits>
    ensures ok { IfOk result (λ bits. IsEncoding normal no_front text.now M 40 bits) }
    ensures err { IfErr result (λ e. IsUnencodable normal 0 text.now M 40 e) }
{
    encode_auto(alloc, text, EcLevel::M)
}
