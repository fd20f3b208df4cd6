//! QR codes and Micro QR codes: from bytes to a grid of light and dark modules, with views of grids
//! and a registry of renderers.
//!
//! `Symbol::new` makes a whole symbol in one call:
//!
//! ```text
//! let symbol = Symbol::new(alloc, b"hello", EcLevel::M)?;
//! let color = symbol.get(0, 0);
//! ```
//!
//! Each step is public too. `bits` encodes the data, `ec` adds the error correction codewords, and
//! `canvas` draws the modules. `traits` lends a grid to renderers, and `plugin` registers renderers
//! by name.
#![tactic(auto)]

pub use qrcode_base::{cast, mode, types, version};
pub use qrcode_bits::{bits, optimize};
pub use qrcode_grid::{canvas, ec};

pub mod laws;
pub mod limits;
pub mod options;
pub mod plugin;
pub mod symbol;
pub mod traits;

pub use limits::{DEFAULT_MAX_DATA_LENGTH, DEFAULT_MAX_RENDER_SIZE, ResourceLimits};
pub use options::SymbolOptions;
pub use plugin::{
    DynEncoder, DynRenderer, EncodeConfig, EncodedOutput, ModuleGrid, Names, PluginError,
    PluginRegistry, PostProcessor, QrPlugin, RenderConfig, RenderOutput,
};
pub use qrcode_base::cast::{As, Truncate};
pub use qrcode_base::mode::{AlphanumericMode, ByteMode, EncodingMode, KanjiMode, NumericMode};
pub use qrcode_base::types::{Color, EcLevel, Mode, QrError, QrResult, Version};
pub use qrcode_base::version::{ConstVersion, StaticVersion};
pub use qrcode_bits::bits::EncodingModes;
pub use traits::{
    Builder, Encoder, ModuleSource, ModuleStorage, ModuleView, QrCodeRef, QrSymbol, Renderer,
};
