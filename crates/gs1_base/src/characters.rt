//! Characters of ASCII.
ghost use Rattle.std.specs.Prelude.{◌≡◌};
ghost use Rattle.std.specs.List.{list_all};
ghost use Rattle.gs1_base.specs.Characters.{is_decimal_digit};

/// Returns whether all bytes are digits.
pub fn are_digits(bytes: &[u8]) -> bool
    ensures { result ≡ list_all is_decimal_digit bytes.now }
{
    bytes.iter().all(|digit| matches!(digit, b'0'..=b'9'))
}
