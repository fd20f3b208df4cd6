//! Coupon codes: how their digits are cut into fields, and which digits these have.
ghost use Rattle.std.specs.Prelude.{◌≡◌, ◌<◌, ◌+◌, ◌^◌, length};
ghost use Rattle.std.specs.Result.{result_err};
ghost use Rattle.gs1.specs.Coupons.{first_fields, group_of, wrong_digit, field_fault, more_digits};
ghost use Rattle.gs1.specs.Coupons.{group_fault, step_fault, fields_after, left_after};
ghost use Rattle.gs1.specs.Coupons.{coupon_fault};

use crate::dates::{check_date, decimal_at};
use crate::reason::{Fault, Reason, fault_if};
use Field::{AtMost, AtMostOrNine, Company, Counted, Date, Digits, SaveValue};
use gs1_base::cuts::{behind, byte};

/// A field of a coupon code.
#[derive(Clone, Copy)]
pub(crate) enum Field {
    /// This many digits.
    Digits(u8),
    /// One digit, at most this one.
    AtMost(u8),
    /// One digit, at most this one, or 9.
    AtMostOrNine(u8),
    /// One digit, 0, 1, 2, 5 or 6.
    SaveValue,
    /// A date YYMMDD, whose day may be 00.
    Date,
    /// One digit from the second number to the third, then as many digits as it says, and the first
    /// number more.
    Counted(u8, u8, u8),
    /// One digit up to 6, then as many digits as it says, and six more; or 9 alone.
    Company,
}

/// Returns the fields with which a coupon code begins, or those of an offer.
#[tactic(auto, unfolding(crate::specs::Coupons::first_fields))]
fn first_fields(is_coupon: bool) -> &'static [Field]
    ensures { result.now ≡ first_fields is_coupon }
{
    if is_coupon {
        return &[
            Counted(6, 0, 6),
            Digits(6),
            Counted(0, 1, 5),
            Counted(0, 1, 5),
            AtMostOrNine(5),
            Digits(3),
        ];
    }
    &[AtMost(1), Counted(6, 0, 6), Digits(6), Counted(6, 0, 9)]
}

/// Returns the fields after a digit that says which optional data follow.
#[tactic(auto, unfolding(crate::specs::Coupons::group_of))]
fn group_of(digit: usize) -> &'static [Field]
    ensures { result.now ≡ group_of digit }
{
    match digit {
        1 => &[
            AtMost(3),
            Counted(0, 1, 5),
            AtMostOrNine(4),
            Digits(3),
            Company,
        ],
        2 => &[Counted(0, 1, 5), AtMostOrNine(4), Digits(3), Company],
        3 | 4 => &[Date],
        5 => &[Counted(6, 0, 9)],
        6 => &[Counted(6, 1, 7)],
        9 => &[SaveValue, AtMost(2), Digits(1), AtMost(1)],
        _ => &[],
    }
}

/// Refuses the first digit of what is left, if it is wrong.
fn check_digit(wrong: bool, place: usize, rest: &[u8]) -> Result<(), Fault>
    ensures { result_err result ≡ wrong_digit wrong place rest.now }
{
    fault_if(
        wrong,
        place,
        Reason::WrongCharacter {
            byte: byte(rest, 0),
        },
    )
}

/// Checks a field whose first digit is the first of what is left.
fn check_field(field: Field, place: usize, rest: &[u8]) -> Result<(), Fault>
    requires { place < 2 ^ 63 + 2 ^ 16 }
    ensures { result_err result ≡ field_fault field place rest.now }
{
    let digit = decimal_at(rest, 0);
    match field {
        Digits(_) => Ok(()),
        AtMost(greatest) => check_digit(usize::from(greatest) < digit, place, rest),
        AtMostOrNine(greatest) => {
            check_digit(usize::from(greatest) < digit && digit != 9, place, rest)
        }
        SaveValue => check_digit(2 < digit && digit != 5 && digit != 6, place, rest),
        Date if rest.len() < 6 => Ok(()),
        Date => check_date(0, place, rest),
        Counted(_, least, greatest) => {
            let wrong = digit < usize::from(least) || usize::from(greatest) < digit;
            check_digit(wrong, place, rest)
        }
        Company => check_digit(6 < digit && digit != 9, place, rest),
    }
}

/// Returns how many digits of a field follow its first, which is this one.
fn more_digits(field: Field, digit: usize) -> usize
    requires { digit < 256 }
    ensures { result ≡ more_digits field digit }
{
    match field {
        Digits(count) => usize::from(count).saturating_sub(1),
        AtMost(_) | AtMostOrNine(_) | SaveValue => 0,
        Date => 5,
        Counted(more, _, _) => usize::from(more) + digit,
        Company => { if digit == 9 { 0 } else { 6 + digit } }
    }
}

/// Checks a digit that says which optional data follow. An offer has none.
fn check_group(is_coupon: bool, place: usize, rest: &[u8]) -> Result<(), Fault>
    ensures { result_err result ≡ group_fault is_coupon place rest.now }
{
    if !is_coupon {
        return fault_if(true, place, Reason::TooLong);
    }
    check_digit(group_of(decimal_at(rest, 0)).is_empty(), place, rest)
}

/// Checks the first digit of what is left, before these fields and behind a field of which this
/// many digits are left.
fn check_step(
    is_coupon: bool,
    fields: &[Field],
    left: usize,
    place: usize,
    rest: &[u8],
) -> Result<(), Fault>
    requires { place < 2 ^ 63 + 2 ^ 16 }
    ensures { result_err result ≡ step_fault is_coupon fields.now left place rest.now }
{
    if 0 < left {
        return Ok(());
    }
    match fields.first() {
        Some(field) => check_field(*field, place, rest),
        None => check_group(is_coupon, place, rest),
    }
}

/// Returns the fields after a digit.
fn fields_after(fields: &'static [Field], left: usize, digit: usize) -> &'static [Field]
    ensures { result.now ≡ fields_after fields.now left digit }
{
    if 0 < left {
        return fields;
    }
    if fields.is_empty() {
        return group_of(digit);
    }
    &fields[1..]
}

/// Returns how many digits of a field are left after a digit.
fn left_after(fields: &[Field], left: usize, digit: usize) -> usize
    requires { digit < 256 }
    ensures { result ≡ left_after fields.now left digit }
{
    if 0 < left {
        return left - 1;
    }
    match fields.first() {
        Some(field) => more_digits(*field, digit),
        None => 0,
    }
}

/// Checks a coupon code, or an offer.
pub(crate) fn check_coupon(is_coupon: bool, place: usize, piece: &[u8]) -> Result<(), Fault>
    requires place { place < 2 ^ 63 }
    requires few { length piece.now < 2 ^ 16 }
    ensures { result_err result
        ≡ coupon_fault is_coupon (first_fields is_coupon) 0 place piece.now }
{
    let mut fields = first_fields(is_coupon);
    let mut left = 0;
    let mut at = place;
    let mut rest = piece;
    while !rest.is_empty() {
        check_step(is_coupon, fields, left, at, rest)?;
        let digit = decimal_at(rest, 0);
        let more = left_after(fields, left, digit);
        fields = fields_after(fields, left, digit);
        left = more;
        at += 1;
        rest = behind(rest, 0);
    }
    fault_if(0 < left || !fields.is_empty(), at, Reason::TooShort)
}
