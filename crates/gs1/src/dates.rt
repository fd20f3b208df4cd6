//! Dates and times of values.
ghost use Rattle.std.specs.Prelude.{◌≡◌, ◌<◌, ◌-◌, ◌*◌, ◌+◌, ◌^◌};
ghost use Rattle.std.specs.Result.{result_err};
ghost use Rattle.gs1.specs.Checks.{decimal_at, two_digits, days_of, is_leap};
ghost use Rattle.gs1.specs.Checks.{month_day_fault, date_fault, long_date_fault, hour_fault};
ghost use Rattle.gs1.specs.Checks.{minute_fault, second_fault, hour_minute_fault};

use crate::reason::{Fault, Reason, fault_if};

/// Returns the digit at a place, or 0.
pub(crate) fn decimal_at(piece: &[u8], place: usize) -> usize
    ensures value { result ≡ decimal_at piece.now place }
    ensures few { result < 256 }
{
    match piece.get(place) {
        Some(byte) => usize::from(byte.saturating_sub(b'0')),
        None => 0,
    }
}

/// Returns the number that two digits write.
pub(crate) fn two_digits(piece: &[u8], place: usize) -> usize
    requires { place < 2 ^ 63 }
    ensures number { result ≡ two_digits piece.now place }
    ensures few { result < 2816 }
{
    10 * decimal_at(piece, place) + decimal_at(piece, place + 1)
}

/// Returns how many days a month has.
fn days_of(leap: bool, month: usize) -> usize
    ensures { result ≡ days_of leap month }
{
    match month {
        2 => { if leap { 29 } else { 28 } }
        4 | 6 | 9 | 11 => 30,
        _ => 31,
    }
}

/// Checks a month and a day, the month at this place.
fn check_month_day(
    leap: bool,
    first_day: usize,
    place: usize,
    month: usize,
    day: usize,
) -> Result<(), Fault>
    requires { place < 2 ^ 63 + 2 ^ 17 }
    ensures { result_err result ≡ month_day_fault leap first_day place month day }
{
    fault_if(month < 1 || 12 < month, place, Reason::WrongMonth)?;
    let wrong = day < first_day || days_of(leap, month) < day;
    fault_if(wrong, place + 2, Reason::WrongDay)
}

/// Checks a date YYMMDD whose least day is this one.
pub(crate) fn check_date(first_day: usize, place: usize, piece: &[u8]) -> Result<(), Fault>
    requires { place < 2 ^ 63 + 2 ^ 16 }
    ensures { result_err result ≡ date_fault first_day place piece.now }
{
    let leap = two_digits(piece, 0) % 4 == 0;
    check_month_day(
        leap,
        first_day,
        place + 2,
        two_digits(piece, 2),
        two_digits(piece, 4),
    )
}

/// Returns whether a year is a leap year.
fn is_leap(year: usize) -> bool
    ensures { result ≡ is_leap year }
{
    year % 4 == 0 && year % 100 != 0 || year % 400 == 0
}

/// Checks a date YYYYMMDD.
pub(crate) fn check_long_date(place: usize, piece: &[u8]) -> Result<(), Fault>
    requires { place < 2 ^ 63 }
    ensures { result_err result ≡ long_date_fault place piece.now }
{
    let leap = is_leap(100 * two_digits(piece, 0) + two_digits(piece, 2));
    check_month_day(
        leap,
        1,
        place + 4,
        two_digits(piece, 4),
        two_digits(piece, 6),
    )
}

/// Checks an hour.
pub(crate) fn check_hour(place: usize, piece: &[u8]) -> Result<(), Fault>
    ensures { result_err result ≡ hour_fault place piece.now }
{
    fault_if(23 < two_digits(piece, 0), place, Reason::WrongHour)
}

/// Checks a minute.
pub(crate) fn check_minute(place: usize, piece: &[u8]) -> Result<(), Fault>
    ensures { result_err result ≡ minute_fault place piece.now }
{
    fault_if(59 < two_digits(piece, 0), place, Reason::WrongMinute)
}

/// Checks a second.
pub(crate) fn check_second(place: usize, piece: &[u8]) -> Result<(), Fault>
    ensures { result_err result ≡ second_fault place piece.now }
{
    fault_if(59 < two_digits(piece, 0), place, Reason::WrongSecond)
}

/// Checks an hour and a minute.
pub(crate) fn check_hour_minute(place: usize, piece: &[u8]) -> Result<(), Fault>
    requires { place < 2 ^ 63 }
    ensures { result_err result ≡ hour_minute_fault place piece.now }
{
    check_hour(place, piece)?;
    fault_if(59 < two_digits(piece, 2), place + 2, Reason::WrongMinute)
}
