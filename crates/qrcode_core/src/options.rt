//! What a caller asks of a symbol beside its data.
//!
//! ```text
//! let options = SymbolOptions::new(EcLevel::M).with_max_version(10).with_strongest();
//! let symbol = Symbol::text_with(alloc, "Gr\u{fc}\u{df}e", &options)?;
//! ```
ghost use Rattle.std.specs.Prelude.{◌≡◌, true, false, pos, IsOk, ◌↔◌, IfOk, IsOkUnless};
ghost use Rattle.qrcode_base.specs.declared.types.errors.QrError.TheVariants.{InvalidResourceLimits};
ghost use Rattle.qrcode_base.specs.declared.types.Version.TheVariants.{Normal};
ghost use Rattle.qrcode_core.specs.Limits.{IsBudget};
ghost use Rattle.qrcode_core.specs.Options.{HasVersions};

use crate::limits::ResourceLimits;
use qrcode_base::symbols::is_normal_number;
use qrcode_base::types::{EcLevel, QrError, QrResult, Version};

/// What a caller asks of a symbol: its level, the versions that it may have, and whether it is to
/// have the greatest level that costs no module. Each field may have any value; `validate` says
/// whether the versions are a range.
#[derive(Clone, Copy, Debug, PartialEq, Eq)]
pub struct SymbolOptions {
    /// The level, or with `strongest` the least level.
    pub level: EcLevel,
    /// The number of the least version that the symbol may have. Labels with the same least version
    /// that their data fit have one size.
    pub min_version: i16,
    /// The number of the greatest version that the symbol may have.
    pub max_version: i16,
    /// Whether the symbol has the greatest level at which it is no larger.
    pub strongest: bool,
}

impl SymbolOptions {
    /// Returns the options of a level, with the versions 1 to 40.
    pub fn new(level: EcLevel) -> Self
        ensures level { result.level ≡ level }
        ensures least { result.min_version ≡ pos 1 }
        ensures greatest { result.max_version ≡ pos 40 }
        ensures strongest { result.strongest ≡ false }
    {
        SymbolOptions {
            level,
            min_version: 1,
            max_version: 40,
            strongest: false,
        }
    }

    /// Returns the options of a level, with the versions 1 to the greatest of the limits. It fails
    /// with `InvalidResourceLimits` for limits that `ResourceLimits::validate` rejects. The limits
    /// of the data and of the picture are for the caller to keep.
    pub fn within(level: EcLevel, limits: &ResourceLimits) -> QrResult<Self>
        ensures valid { IsOk result ↔ IsBudget limits.now }
        ensures level { IfOk result (λ options. options.level ≡ level) }
        ensures least { IfOk result (λ options. options.min_version ≡ pos 1) }
        ensures greatest { IfOk result (λ options.
            limits.now.max_version ≡ Normal options.max_version) }
        ensures strongest { IfOk result (λ options. options.strongest ≡ false) }
        ensures refusal { IsOkUnless result InvalidResourceLimits }
    {
        limits.validate()?;
        match limits.max_version {
            Version::Normal(number) => Ok(SymbolOptions::new(level).with_max_version(number)),
            Version::Micro(_) => Err(QrError::InvalidResourceLimits),
        }
    }

    /// Returns the same options with another least version.
    pub fn with_min_version(mut self, min_version: i16) -> Self
        ensures { result ≡ record self { min_version = min_version } }
    {
        self.min_version = min_version;
        self
    }

    /// Returns the same options with another greatest version.
    pub fn with_max_version(mut self, max_version: i16) -> Self
        ensures { result ≡ record self { max_version = max_version } }
    {
        self.max_version = max_version;
        self
    }

    /// Returns the same options, with the greatest level at which the symbol is no larger.
    pub fn with_strongest(mut self) -> Self
        ensures { result ≡ record self { strongest = true } }
    {
        self.strongest = true;
        self
    }

    /// Returns `Ok` where both versions are 1 to 40, and the least is at most the greatest.
    /// Otherwise it fails with `InvalidResourceLimits`.
    pub fn validate(self) -> QrResult<()>
        ensures valid { IsOk result ↔ HasVersions self }
        ensures refusal { IsOkUnless result InvalidResourceLimits }
    {
        let are_normal = is_normal_number(self.min_version) && is_normal_number(self.max_version);
        if are_normal && self.min_version <= self.max_version {
            Ok(())
        } else {
            Err(QrError::InvalidResourceLimits)
        }
    }
}
