//! How the bytes are parsed: as a text is, with no pairs of the Kanji mode.
ghost use Rattle.std.specs.Prelude.{◌≡◌, IfErr, IfOk};
ghost use Rattle.qrcode_bits.specs.Contents.{parsed_byte, parsed_bytes};
ghost use Rattle.qrcode_bits.specs.Parsing.{parsed};
ghost use Rattle.qrcode_bits.specs.declared.bits.front.Content.TheVariants.{Text};

use qrcode_base::types::{QrError, QrResult};
use qrcode_bits::optimize::{Parser, Segment};
use std::alloc::Global;

/// Returns the byte as which a byte is parsed: bytes from 80 (hex) on, some of which begin a pair,
/// as 0, which only the Byte mode has.
fn parsed_byte(byte: u8) -> u8
    ensures { result ≡ parsed_byte Text byte }
{
    if byte < 0x80 { byte } else { 0 }
}

/// Returns the bytes as which bytes are parsed. It fails with `OutOfMemory`.
fn parsed_bytes(alloc: Global, bytes: &[u8]) -> QrResult<Vec<u8>>
    ensures ok { IfOk result (λ parsed. parsed.items ≡ parsed_bytes Text bytes.now) }
    ensures memory { IfErr result (λ e. e ≡ QrError.OutOfMemory) }
{
    let mut parsed = Vec::with_capacity(alloc, bytes.len())?;
    for byte in bytes {
        parsed.push(parsed_byte(*byte))?;
    }
    Ok(parsed)
}

/// Returns the parsed segments, of which none is in the Kanji mode. It fails with `OutOfMemory`.
pub fn parsed_segments(alloc: Global, bytes: &[u8]) -> QrResult<Vec<Segment>>
    ensures ok { IfOk result (λ segments.
        segments.items ≡ parsed (parsed_bytes Text bytes.now)) }
    ensures memory { IfErr result (λ e. e ≡ QrError.OutOfMemory) }
{
    let parsed = parsed_bytes(alloc, bytes)?;
    let mut segments = Vec::new(alloc);
    for segment in Parser::new(parsed.as_slice()) {
        segments.push(segment)?;
    }
    Ok(segments)
}
