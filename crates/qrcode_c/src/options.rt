//! What a caller asks of a symbol beside its data.
ghost use Rattle.std.specs.Prelude.{◌≡◌, ◌≢◌, ◌↔◌, pos, true, IfOk, IfErr, IfSome, IfNone};
ghost use Rattle.qrcode_base.specs.Symbols.{IsNormalNumber};
ghost use Rattle.qrcode_core.specs.Options.{HasVersions};
ghost use Rattle.qrcode_c.specs.Levels.{level_argument, IsNoLevel, IsNoMicroLevel};
ghost use Rattle.qrcode_c.specs.Asking.{Means, IsAskRefusal};

use crate::refusal::Refusal;
use qrcode_base::symbols::is_normal_number;
use qrcode_core::SymbolOptions;
use qrcode_core::types::EcLevel;

/// The options of a symbol, which may be any numbers; each call checks them.
#[repr(C)]
#[derive(Clone, Copy, Debug, PartialEq, Eq)]
pub struct Options {
    /// The number of the level, or with `strongest` of the least level: 0 to 3.
    pub level: i32,
    /// The number of the least version that the symbol may have: 1 to 40.
    pub min_version: i32,
    /// The number of the greatest version that the symbol may have: 1 to 40.
    pub max_version: i32,
    /// If it is not 0, the symbol has the greatest level at which it is no larger.
    pub strongest: i32,
}

/// Returns the options that the numbers mean.
///
/// # Errors
///
/// `InvalidLevel`, then `InvalidVersions`.
pub fn options_of(options: &Options) -> Result<SymbolOptions, Refusal>
    ensures means { IfOk result (Means options.now) }
    ensures range { IfOk result HasVersions }
    ensures refusal { IfErr result (IsAskRefusal options.now) }
{
    let Some(level) = level_of(options.level) else {
        return Err(Refusal::InvalidLevel);
    };
    let Some(min_version) = limit_of(options.min_version) else {
        return Err(Refusal::InvalidVersions);
    };
    let Some(max_version) = limit_of(options.max_version) else {
        return Err(Refusal::InvalidVersions);
    };
    if min_version > max_version {
        return Err(Refusal::InvalidVersions);
    }
    Ok(SymbolOptions {
        level,
        min_version,
        max_version,
        strongest: is_set(options.strongest),
    })
}

/// Returns whether a number is not 0.
pub fn is_set(number: i32) -> bool
    ensures { (result ≡ true) ↔ (number ≢ pos 0) }
{
    match number {
        0 => false,
        _ => true,
    }
}

/// Returns the level of a number, 0 to 3.
pub fn level_of(number: i32) -> Option<EcLevel>
    ensures level { IfSome result (λ level. number ≡ level_argument level) }
    ensures none { IfNone result (IsNoLevel number) }
{
    match number {
        0 => Some(EcLevel::L),
        1 => Some(EcLevel::M),
        2 => Some(EcLevel::Q),
        3 => Some(EcLevel::H),
        _ => None,
    }
}

/// Returns the level of a number that Micro versions have, 0 to 2.
pub fn micro_level_of(number: i32) -> Option<EcLevel>
    ensures level { IfSome result (λ level. number ≡ level_argument level) }
    ensures micro { IfSome result (λ level. level ≢ EcLevel.H) }
    ensures none { IfNone result (IsNoMicroLevel number) }
{
    let level = level_of(number)?;
    if level == EcLevel::H {
        None
    } else {
        Some(level)
    }
}

/// Returns the version of a number, 1 to 40.
pub fn limit_of(number: i32) -> Option<i16>
    ensures limit { IfSome result (λ limit. (limit ≡ number) × IsNormalNumber limit) }
    ensures none { IfNone result (IsNormalNumber number → ⊥) }
{
    let limit = i16::try_from(number).ok()?;
    if is_normal_number(limit) {
        Some(limit)
    } else {
        None
    }
}
