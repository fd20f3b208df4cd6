//! Check digits, pairs of check characters and check digits of bank accounts.
ghost use Rattle.std.specs.Prelude.{◌≡◌, ◌+◌, ◌-◌, ◌<◌, ◌^◌, length};
ghost use Rattle.std.specs.Result.{result_err};
ghost use Rattle.gs1.specs.Keys.{right_digit, check_digit_fault, character_value, pair_sum};
ghost use Rattle.gs1.specs.Keys.{pair_fault, model_fault, remainder_more, remainder, iban_fault};
ghost use Rattle.gs1.specs.Keys.{digits_alone_fault};

use crate::checks::{check_key, check_letters, is_digit_at};
use crate::dates::decimal_at;
use crate::identifiers::{has_right_check_digit, weighted_sum};
use crate::reason::{Fault, Reason, fault_if};
use gs1_base::characters::are_digits;
use gs1_base::cuts::{behind, byte};

/// The weights of a pair of check characters, from the right.
static PRIMES: [u8; 23] = [
    2, 3, 5, 7, 11, 13, 17, 19, 23, 29, 31, 37, 41, 43, 47, 53, 59, 61, 67, 71, 73, 79, 83,
];

/// The characters of a pair.
static PAIR_CHARACTERS: [u8; 32] = *b"23456789ABCDEFGHJKLMNPQRSTUVWXYZ";

/// Returns the check digit of a value, from 0 to 9, whatever its last digit is.
#[tactic(auto, using(crate::proofs::Digits::sum_with_last))]
fn right_digit(value: &[u8]) -> u8
    requires { length value.now < 2 ^ 16 }
    ensures { result ≡ right_digit value.now }
{
    let last = decimal_at(value, value.len().saturating_sub(1));
    ((10 - (weighted_sum(value) - last) % 10) % 10) as u8
}

/// Checks a check digit.
pub(crate) fn check_digit(place: usize, value: &[u8]) -> Result<(), Fault>
    requires place { place < 2 ^ 63 }
    requires few { length value.now < 2 ^ 16 }
    ensures { result_err result ≡ check_digit_fault place value.now }
{
    let right = right_digit(value);
    let reason = Reason::WrongCheckDigit { right };
    let last = value.len().saturating_sub(1);
    fault_if(!has_right_check_digit(value), place + last, reason)
}

/// Returns the place of a character among the 82.
fn character_value(c: u8) -> u8
    ensures { result ≡ character_value c }
{
    match c {
        0x21..=0x22 => c - 0x21,
        0x25..=0x3f => c - 0x23,
        b'A'..=b'Z' => c - 0x24,
        b'_' => 55,
        _ => c.saturating_sub(0x29),
    }
}

/// Returns the weighted sum of characters.
#[tactic(auto, using(crate::proofs::KeySums::pair_sum_more))]
fn pair_sum(characters: &[u8]) -> usize
    requires { length characters.now < 2 ^ 16 }
    ensures { result ≡ pair_sum characters.now }
{
    let mut sum = 0;
    for (place, c) in characters.iter().enumerate() {
        let weight = byte(&PRIMES, characters.len() - 1 - place);
        sum += usize::from(weight) * usize::from(character_value(*c));
    }
    sum
}

/// Checks a pair of check characters.
fn check_pair(place: usize, value: &[u8]) -> Result<(), Fault>
    requires place { place < 2 ^ 63 }
    requires few { length value.now < 2 ^ 16 }
    ensures { result_err result ≡ pair_fault place value.now }
{
    let end = value.len().saturating_sub(2);
    let sum = pair_sum(&value[..end]) % 1021;
    let first = byte(&PAIR_CHARACTERS, sum / 32);
    let second = byte(&PAIR_CHARACTERS, sum % 32);
    let is_second = byte(value, value.len().saturating_sub(1)) == second;
    let right = byte(value, end) == first && is_second;
    let reason = Reason::WrongCheckPair { first, second };
    fault_if(!right, place + end, reason)
}

/// Checks that a value has a character that is no digit.
fn check_some_letter(place: usize, value: &[u8]) -> Result<(), Fault>
    requires { place < 2 ^ 63 }
    ensures { result_err result ≡ digits_alone_fault place value.now }
{
    let last = value.len().saturating_sub(1);
    let reason = Reason::WrongCharacter {
        byte: byte(value, last),
    };
    fault_if(are_digits(value), place + last, reason)
}

/// Checks a model number.
pub(crate) fn check_model(place: usize, value: &[u8]) -> Result<(), Fault>
    requires place { place < 2 ^ 63 }
    requires few { length value.now < 2 ^ 16 }
    ensures { result_err result ≡ model_fault place value.now }
{
    check_key(place, value)?;
    check_pair(place, value)?;
    check_some_letter(place, value)
}

/// Returns the remainder modulo 97 with one character more.
fn remainder_more(rest: usize, c: u8) -> usize
    requires { rest < 97 }
    ensures value { result ≡ remainder_more rest c }
    ensures few { result < 97 }
{
    if matches!(c, b'0'..=b'9') {
        return (10 * rest + usize::from(c - b'0')) % 97;
    }
    (100 * rest + usize::from(c.saturating_sub(0x37))) % 97
}

/// Returns the remainder modulo 97 with these characters more.
#[tactic(auto, using(crate::proofs::KeySums::remainder_at))]
fn remainder(start: usize, characters: &[u8]) -> usize
    requires { start < 97 }
    ensures value { result ≡ remainder start characters.now }
    ensures few { result < 97 }
{
    let mut rest = start;
    for c in characters {
        rest = remainder_more(rest, *c);
    }
    rest
}

/// Checks an International Bank Account Number.
pub(crate) fn check_iban(place: usize, value: &[u8]) -> Result<(), Fault>
    requires { place < 2 ^ 63 }
    ensures { result_err result ≡ iban_fault place value.now }
{
    check_letters(place, value)?;
    let are_digits = is_digit_at(value, 2) && is_digit_at(value, 3);
    fault_if(!are_digits, place + 2, Reason::WrongIban)?;
    let front = &value[..value.len().min(4)];
    let rest = remainder(remainder(0, behind(value, 3)), front);
    fault_if(rest != 1, place + 2, Reason::WrongIban)
}
