//! Pictures of QR codes: SVG, PNG, EPS, PDF, portable bitmaps and text for a terminal, and ESC/POS
//! and ZPL for ticket and label printers.
//!
//! 1. Fill in what the picture is to be like (`settings`).
//! 2. Make the options of a format from it, which are tested once (`draw_options`). The error is
//!    the `Setting` that is wrong.
//! 3. Draw the symbol.
//!
//! ```text
//! let settings = Settings { scale: Some(4), ..Settings::default() };
//! let options = DrawOptions::new(alloc, Format::Png, &settings)?;
//! let bytes = draw(alloc, &symbol, &options)?;
//! ```
//!
//! Each format has a function of its own, over a `Picture`. `renderers` has the same for a registry
//! of `qrcode_core`, by the options of a `RenderConfig`.
#![tactic(auto)]

mod block;
pub mod caption;
mod compressed;
mod drawing;
pub mod eps;
pub mod escpos;
pub mod laws;
mod lines;
pub mod pbm;
pub mod pdf;
mod pdf_caption;
mod pdf_page;
pub mod pdf_pages;
mod pdf_text;
pub mod png_file;
pub mod png_text;
pub mod renderers;
pub mod svg;
pub mod zpl;
mod zpl_text;

pub use drawing::{draw, draw_grid};
pub use grid_pictures::picture::Picture;
pub use grid_pictures::{picture, terminal};
pub use pdf_pages::{PdfError, PdfPages};
pub use picture_settings::colors::{Colors, Ground, Rgb};
pub use picture_settings::draw_options::DrawOptions;
pub use picture_settings::format::Format;
pub use picture_settings::options::RenderOptions;
pub use picture_settings::settings::{Setting, Settings};
pub use picture_settings::{
    bounds, colors, config, draw_options, format, option_words, options, settings,
};
pub use renderers::{Eps, EscPos, Pbm, Pdf, Png, Svg, Terminal, Zpl};
