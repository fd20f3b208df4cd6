//! Which versions and levels hold a number of bits, and what options ask of them (ISO/IEC
//! 18004:2006, table 7).
//!
//! Crates that plan the bits of a symbol by themselves choose its version and its level by these
//! functions. A plan takes the same number of bits in each version of a class, 1 to 9, 10 to 26 or
//! 27 to 40, so that the plan for the last version of a class is that of the class.
ghost use Rattle.std.specs.Prelude.{◌≡◌, ◌-◌, ◌≤◌, ◌↔◌, ◌⊎◌, nat_abs, IfNone, IfOk, IfSome, IsOk};
ghost use Rattle.std.specs.Prelude.{IsOkUnless, IsTrue};
ghost use Rattle.qrcode_base.specs.declared.types.errors.QrError.TheVariants.{InvalidResourceLimits};
ghost use Rattle.qrcode_bits.specs.Plans.{IsClass};
ghost use Rattle.qrcode_core.specs.Options.{HasVersions};
ghost use Rattle.smallest_symbols.specs.Holding.{HoldsBits, IsFirstHolding, IsGreatestLevel};
ghost use Rattle.smallest_symbols.specs.Holding.{IsLevelAsked, NoneHoldsBefore};

use qrcode_base::types::{EcLevel, QrResult, Version};
use qrcode_bits::bits::data_capacity_bits;
use qrcode_core::SymbolOptions;

/// Returns the last version of the class of a version, or the limit if that is less.
pub fn last_of_class(first: usize, limit: usize) -> usize
    requires some { 1 ≤ first }
    requires order { first ≤ limit }
    requires last { limit ≤ 40 }
    ensures class { IsClass (first - 1) result }
    ensures from { first ≤ result }
    ensures to { result ≤ limit }
    ensures last { (result ≡ limit) ⊎ ((result ≡ 9) ⊎ (result ≡ 26)) }
{
    let end = if first <= 9 {
        9
    } else if first <= 26 {
        26
    } else {
        40
    };
    end.min(limit)
}

/// Returns whether a version holds a number of bits at a level.
pub fn holds(bits: usize, number: usize, level: EcLevel) -> bool
    requires { number ≤ 40 }
    ensures { IsTrue result ↔ HoldsBits bits number level }
{
    match data_capacity_bits(Version::Normal(number as i16), level) {
        Ok(limit) => bits <= limit,
        Err(_) => false,
    }
}

/// Returns the first version from one number on, and before another, that holds a number of bits at
/// a level, if there is one.
pub fn first_holding(bits: usize, level: EcLevel, first: usize, end: usize) -> Option<usize>
    requires { end ≤ 41 }
    ensures found { IfSome result (IsFirstHolding bits level first end) }
    ensures none { IfNone result (NoneHoldsBefore bits level first end) }
{
    for number in first..end {
        if holds(bits, number, level) {
            return Some(number);
        }
    }
    None
}

/// Returns the greatest level at which a version holds a number of bits, or L.
fn greatest_level(bits: usize, number: usize) -> EcLevel
    requires { number ≤ 40 }
    ensures { IsGreatestLevel bits number result }
{
    if holds(bits, number, EcLevel::H) {
        EcLevel::H
    } else if holds(bits, number, EcLevel::Q) {
        EcLevel::Q
    } else if holds(bits, number, EcLevel::M) {
        EcLevel::M
    } else {
        EcLevel::L
    }
}

/// Returns the level of the symbol that options ask for, of a number of bits in a version: with
/// `strongest` the greatest at which the version holds the bits.
pub fn level_of(options: &SymbolOptions, bits: usize, number: usize) -> EcLevel
    requires { number ≤ 40 }
    ensures { IsLevelAsked options.now.strongest options.now.level bits number result }
{
    if options.strongest {
        greatest_level(bits, number)
    } else {
        options.level
    }
}

/// Returns the numbers of the least and the greatest version of options. It fails with
/// `InvalidResourceLimits` for versions that `SymbolOptions::validate` rejects.
pub fn versions_of(options: &SymbolOptions) -> QrResult<(usize, usize)>
    ensures range { IsOk result ↔ HasVersions options.now }
    ensures least { IfOk result (λ range. range.0 ≡ nat_abs options.now.min_version) }
    ensures greatest { IfOk result (λ range. range.1 ≡ nat_abs options.now.max_version) }
    ensures refusal { IsOkUnless result InvalidResourceLimits }
{
    options.validate()?;
    Ok((options.min_version as usize, options.max_version as usize))
}
