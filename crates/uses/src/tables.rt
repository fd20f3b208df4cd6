//! Digits and the table of blocks, by `qrcode_base`.
ghost use Rattle.std.specs.Prelude.{◌≡◌, ◌*◌, ◌^◌, ◌<◌, ◌↔◌, length, Some, option_map, IsSome, IfSome, IfOk, IfErr};
ghost use Rattle.qrcode_base.specs.Characters.{IsValid};
ghost use Rattle.qrcode_base.specs.Modes.{data_bits};
ghost use Rattle.qrcode_base.specs.Symbols.{blocks_of, data_bytes};
ghost use Rattle.qrcode_base.specs.declared.types.Mode.TheVariants.{Numeric};
ghost use Rattle.qrcode_base.specs.declared.types.errors.QrError.TheVariants.{InvalidVersion};

use qrcode_base::laws::valid_where_no_invalid_character;
use qrcode_base::mode::{EncodingMode, NumericMode};
use qrcode_base::symbols::block_layout;
use qrcode_base::types::{EcLevel, Mode, QrError, QrResult, Version};

/// Returns how many bits digits take as data, or `None` if some byte is no digit.
pub fn bits_of_digits(bytes: &[u8]) -> Option<usize>
    requires { 13 * length bytes.now < 2 ^ 64 }
    ensures digits { IsSome result ↔ IsValid Numeric bytes.now }
    ensures bits { IfSome result (λ n. n ≡ data_bits Numeric (length bytes.now)) }
{
    valid_where_no_invalid_character();
    if NumericMode::validate(bytes) {
        Some(Mode::Numeric.data_bits_count(bytes.len()))
    } else {
        None
    }
}

/// Returns the number of data codewords of a symbol, or `InvalidVersion` if the version lacks
/// the level.
pub fn data_codewords(version: Version, ec_level: EcLevel) -> QrResult<usize>
    ensures codewords { IfOk result (λ n.
        option_map data_bytes (blocks_of version ec_level) ≡ Some n) }
    ensures refusal { IfErr result (λ e. e ≡ InvalidVersion version ec_level) }
{
    match block_layout(version, ec_level) {
        Some(layout) => Ok(layout.data_bytes()),
        None => Err(QrError::InvalidVersion { version, ec_level }),
    }
}
