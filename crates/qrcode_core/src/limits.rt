//! Limits that a caller puts on an encoding.
//!
//! ```text
//! let limits = ResourceLimits::new(1000, Version::Normal(10), DEFAULT_MAX_RENDER_SIZE);
//! let symbol = Symbol::with_limits(alloc, bytes, EcLevel::M, &limits)?;
//! ```
ghost use Rattle.std.specs.Prelude.{◌≡◌, Some, None, IsOk, ◌↔◌, IsOkUnless};
ghost use Rattle.qrcode_base.specs.declared.types.Version.TheVariants.{Normal};
ghost use Rattle.qrcode_base.specs.declared.types.errors.QrError.TheVariants.{};
ghost use Rattle.qrcode_base.specs.declared.types.errors.QrError.TheVariants.{InvalidResourceLimits};
ghost use Rattle.qrcode_core.specs.Limits.{IsBudget};

use qrcode_base::symbols::{LONGEST_DATA, is_normal_number};
use qrcode_base::types::{QrError, QrResult, Version};

/// The default limit of the input, in bytes: version 40 holds this many digits at level L.
pub const DEFAULT_MAX_DATA_LENGTH: usize = LONGEST_DATA;

/// The default limit of the width and the height of a drawn symbol.
pub const DEFAULT_MAX_RENDER_SIZE: (u32, u32) = (4096, 4096);

/// Limits that a caller puts on an encoding. Each field may have any value; `validate` says whether
/// an encoding can keep to the limits.
#[derive(Clone, Copy, Debug, PartialEq, Eq)]
pub struct ResourceLimits {
    /// The greatest length of the input, in bytes.
    pub max_data_length: usize,
    /// The greatest version that an encoding may choose.
    pub max_version: Version,
    /// The greatest width and height of the drawn symbol. It is for renderers to keep; no encoding
    /// reads it.
    pub max_render_size: (u32, u32),
    /// The time that an encoding may take, in milliseconds; `None` for any time. It is for the
    /// caller to keep; no encoding reads it.
    pub encoding_timeout: Option<u64>,
}

impl ResourceLimits {
    /// Returns these limits, without a limit of time.
    pub fn new(max_data_length: usize, max_version: Version, max_render_size: (u32, u32)) -> Self
        ensures length { result.max_data_length ≡ max_data_length }
        ensures version { result.max_version ≡ max_version }
        ensures size { result.max_render_size ≡ max_render_size }
        ensures time { result.encoding_timeout ≡ None }
    {
        ResourceLimits {
            max_data_length,
            max_version,
            max_render_size,
            encoding_timeout: None,
        }
    }

    /// Returns the same limits with a limit of time, in milliseconds.
    pub fn with_encoding_timeout_millis(mut self, timeout_ms: u64) -> Self
        ensures { result ≡ record self { encoding_timeout = Some timeout_ms } }
    {
        self.encoding_timeout = Some(timeout_ms);
        self
    }

    /// Returns `Ok` where an encoding can keep to the limits: the version is one of Normal
    /// 1 to 40, neither side of the size is 0, and the time is not 0. Otherwise it fails
    /// with `InvalidResourceLimits`.
    pub fn validate(self) -> QrResult<()>
        ensures valid { IsOk result ↔ IsBudget self }
        ensures refusal { IsOkUnless result InvalidResourceLimits }
    {
        let is_normal = match self.max_version {
            Version::Normal(n) => is_normal_number(n),
            Version::Micro(_) => false,
        };
        let (width, height) = self.max_render_size;
        if is_normal && width != 0 && height != 0 && self.encoding_timeout != Some(0) {
            Ok(())
        } else {
            Err(QrError::InvalidResourceLimits)
        }
    }
}

impl Default for ResourceLimits {
    ghost use Rattle.qrcode_core.specs.Limits.{default_budget};

    ghost is_default = { λ limits. limits ≡ default_budget };

    /// Returns the default length and size, version 40, and no limit of time.
    fn default() -> Self {
        ResourceLimits {
            max_data_length: DEFAULT_MAX_DATA_LENGTH,
            max_version: Version::Normal(40),
            max_render_size: DEFAULT_MAX_RENDER_SIZE,
            encoding_timeout: None,
        }
    }
}
