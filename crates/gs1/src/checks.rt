//! What components have to satisfy, but for dates.
ghost use Rattle.std.specs.Prelude.{◌≡◌, ◌<◌, ◌+◌, ◌^◌, ◌==◌};
ghost use Rattle.std.specs.List.{list_all};
ghost use Rattle.std.specs.Result.{result_err};
ghost use Rattle.gs1.specs.Checks.{three_digits, country_fault, country_or_any_fault, letters_fault};
ghost use Rattle.gs1.specs.Checks.{currency_fault, flag_fault, piece_count_fault, winding_fault};
ghost use Rattle.gs1.specs.Checks.{zero_fault, nonzero_fault, leading_zero_fault, are_zeros};
ghost use Rattle.gs1.specs.Checks.{coordinate_fault, minus_fault, media_fault, sex_fault};
ghost use Rattle.gs1.specs.Checks.{sequence_fault, importer_fault, is_importer, key_fault};
ghost use Rattle.gs1.specs.Checks.{escapes_fault, is_wrong_escape, is_digit_at, padding_fault};
ghost use Rattle.gs1_base.specs.Characters.{is_hexadecimal};

use crate::codes::{is_country, is_country_letters, is_currency};
use crate::dates::{decimal_at, two_digits};
use crate::reason::{Fault, Reason, fault_if};
use gs1_base::cuts::{behind, byte, first_of};

/// Returns the number that three digits write.
fn three_digits(piece: &[u8]) -> usize
    ensures { result ≡ three_digits piece.now }
{
    10 * two_digits(piece, 0) + decimal_at(piece, 2)
}

/// Checks the number of a country.
pub(crate) fn check_country(place: usize, piece: &[u8]) -> Result<(), Fault>
    ensures { result_err result ≡ country_fault place piece.now }
{
    let wrong = !is_country(three_digits(piece));
    fault_if(wrong, place, Reason::WrongCountry)
}

/// Checks the number of a country, or 999.
pub(crate) fn check_country_or_any(place: usize, piece: &[u8]) -> Result<(), Fault>
    ensures { result_err result ≡ country_or_any_fault place piece.now }
{
    if three_digits(piece) == 999 {
        return Ok(());
    }
    check_country(place, piece)
}

/// Checks the letters of a country.
pub(crate) fn check_letters(place: usize, piece: &[u8]) -> Result<(), Fault>
    ensures { result_err result ≡ letters_fault place piece.now }
{
    let letters = 256 * usize::from(byte(piece, 0)) + usize::from(byte(piece, 1));
    fault_if(!is_country_letters(letters), place, Reason::WrongCountry)
}

/// Checks the number of a currency.
pub(crate) fn check_currency(place: usize, piece: &[u8]) -> Result<(), Fault>
    ensures { result_err result ≡ currency_fault place piece.now }
{
    let wrong = !is_currency(three_digits(piece));
    fault_if(wrong, place, Reason::WrongCurrency)
}

/// Checks a flag.
pub(crate) fn check_flag(place: usize, piece: &[u8]) -> Result<(), Fault>
    ensures { result_err result ≡ flag_fault place piece.now }
{
    fault_if(1 < decimal_at(piece, 0), place, Reason::WrongFlag)
}

/// Checks the number of a piece and how many there are.
pub(crate) fn check_piece_count(place: usize, piece: &[u8]) -> Result<(), Fault>
    requires { place < 2 ^ 63 }
    ensures { result_err result ≡ piece_count_fault place piece.now }
{
    let number = two_digits(piece, 0);
    let total = two_digits(piece, 2);
    fault_if(number == 0, place, Reason::WrongPiece)?;
    fault_if(total < number, place + 2, Reason::WrongPiece)
}

/// Checks a direction of winding.
pub(crate) fn check_winding(place: usize, piece: &[u8]) -> Result<(), Fault>
    ensures { result_err result ≡ winding_fault place piece.now }
{
    let direction = decimal_at(piece, 0);
    let wrong = 1 < direction && direction != 9;
    fault_if(wrong, place, Reason::WrongWinding)
}

/// Returns whether all bytes are zeros.
fn are_zeros(piece: &[u8]) -> bool
    ensures { result ≡ are_zeros piece.now }
{
    piece.iter().all(|c| *c == b'0')
}

/// Checks that zeros stand where they have to.
pub(crate) fn check_zero(place: usize, piece: &[u8]) -> Result<(), Fault>
    ensures { result_err result ≡ zero_fault place piece.now }
{
    fault_if(!are_zeros(piece), place, Reason::NoZero)
}

/// Checks that there is another digit than zero.
pub(crate) fn check_nonzero(place: usize, piece: &[u8]) -> Result<(), Fault>
    ensures { result_err result ≡ nonzero_fault place piece.now }
{
    fault_if(are_zeros(piece), place, Reason::OnlyZeros)
}

/// Checks that no zero stands before other digits.
pub(crate) fn check_leading_zero(place: usize, piece: &[u8]) -> Result<(), Fault>
    ensures { result_err result ≡ leading_zero_fault place piece.now }
{
    let wrong = byte(piece, 0) == b'0' && 1 < piece.len();
    fault_if(wrong, place, Reason::LeadingZero)
}

/// Checks a coordinate, whose greatest begins with this number.
pub(crate) fn check_coordinate(
    most: usize,
    reason: Reason,
    place: usize,
    piece: &[u8],
) -> Result<(), Fault>
    ensures { result_err result ≡ coordinate_fault most reason place piece.now }
{
    let front = two_digits(piece, 0);
    let wrong = most < front || front == most && !are_zeros(behind(piece, 1));
    fault_if(wrong, place, reason)
}

/// Checks a minus sign.
pub(crate) fn check_minus(place: usize, piece: &[u8]) -> Result<(), Fault>
    ensures { result_err result ≡ minus_fault place piece.now }
{
    fault_if(byte(piece, 0) != b'-', place, Reason::NoMinus)
}

/// Checks a media type.
pub(crate) fn check_media(place: usize, piece: &[u8]) -> Result<(), Fault>
    ensures { result_err result ≡ media_fault place piece.now }
{
    let media = two_digits(piece, 0);
    let wrong = media < 1 || 10 < media && media < 80;
    fault_if(wrong, place, Reason::WrongMedia)
}

/// Checks a sex.
pub(crate) fn check_sex(place: usize, piece: &[u8]) -> Result<(), Fault>
    ensures { result_err result ≡ sex_fault place piece.now }
{
    let sex = decimal_at(piece, 0);
    let wrong = 2 < sex && sex != 9;
    fault_if(wrong, place, Reason::WrongSex)
}

/// Returns whether a digit stands at a place.
pub(crate) fn is_digit_at(piece: &[u8], place: usize) -> bool
    ensures { result ≡ is_digit_at piece.now place }
{
    matches!(byte(piece, place), b'0'..=b'9')
}

/// Checks a place in a sequence.
pub(crate) fn check_sequence(place: usize, piece: &[u8]) -> Result<(), Fault>
    ensures { result_err result ≡ sequence_fault place piece.now }
{
    let are_digits = is_digit_at(piece, 0) && is_digit_at(piece, 2);
    let in_order = 1 <= decimal_at(piece, 0) && decimal_at(piece, 0) <= decimal_at(piece, 2);
    let right = are_digits && byte(piece, 1) == b'/' && in_order;
    fault_if(!right, place, Reason::WrongSequence)
}

/// Returns whether a character is an importer index.
fn is_importer(c: u8) -> bool
    ensures { result ≡ is_importer c }
{
    matches!(c, b'-' | b'0'..=b'9' | b'A'..=b'Z' | b'_' | b'a'..=b'z')
}

/// Checks an importer index.
pub(crate) fn check_importer(place: usize, piece: &[u8]) -> Result<(), Fault>
    ensures { result_err result ≡ importer_fault place piece.now }
{
    fault_if(!is_importer(byte(piece, 0)), place, Reason::WrongImporter)
}

/// Checks that a key begins with four digits.
pub(crate) fn check_key(place: usize, piece: &[u8]) -> Result<(), Fault>
    requires { place < 2 ^ 63 }
    ensures { result_err result ≡ key_fault place piece.now }
{
    fault_if(!is_digit_at(piece, 0), place, Reason::NoCompanyPrefix)?;
    fault_if(!is_digit_at(piece, 1), place + 1, Reason::NoCompanyPrefix)?;
    fault_if(!is_digit_at(piece, 2), place + 2, Reason::NoCompanyPrefix)?;
    fault_if(!is_digit_at(piece, 3), place + 3, Reason::NoCompanyPrefix)
}

/// Returns whether a character is a hexadecimal digit.
fn is_hexadecimal(c: u8) -> bool
    ensures { result ≡ is_hexadecimal c }
{
    matches!(c, b'0'..=b'9' | b'A'..=b'F' | b'a'..=b'f')
}

/// Returns whether the bytes begin with a percent sign that begins no escape.
fn is_wrong_escape(rest: &[u8]) -> bool
    ensures { result ≡ is_wrong_escape rest.now }
{
    let has_digits = is_hexadecimal(byte(rest, 1)) && is_hexadecimal(byte(rest, 2));
    byte(rest, 0) == b'%' && !has_digits
}

/// Checks that each percent sign begins an escape.
pub(crate) fn check_escapes(place: usize, piece: &[u8]) -> Result<(), Fault>
    requires { place < 2 ^ 63 }
    ensures { result_err result ≡ escapes_fault place piece.now }
{
    for at in 0..piece.len() {
        let wrong = is_wrong_escape(&piece[at..]);
        fault_if(wrong, place + at, Reason::WrongEscape)?;
    }
    Ok(())
}

/// Returns whether all bytes are equals signs.
fn are_equals_signs(piece: &[u8]) -> bool
    ensures { result ≡ list_all (λ c. c == 0x3d) piece.now }
{
    piece.iter().all(|c| *c == b'=')
}

/// Checks that equals signs stand at the end alone, and that they are at most two.
pub(crate) fn check_padding(place: usize, piece: &[u8]) -> Result<(), Fault>
    requires { place < 2 ^ 63 }
    ensures { result_err result ≡ padding_fault place piece.now }
{
    let at = first_of(piece, b'=');
    let padding = &piece[at..];
    let wrong = 2 < padding.len() || !are_equals_signs(padding);
    fault_if(wrong, place + at, Reason::WrongCharacter { byte: b'=' })
}
