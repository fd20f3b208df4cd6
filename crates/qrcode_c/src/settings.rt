//! What a caller asks of a picture: its format, and settings.
ghost use Rattle.std.specs.Prelude.{◌≡◌, IfSome, IfNone};
ghost use Rattle.qrcode_c.specs.Formats.{format_argument, given, tenfold, corner, IsNoFormat};
ghost use Rattle.qrcode_c.specs.Formats.{MeansSettings};

use crate::options::is_set;
use qrcode_render::colors::NO_COLORS;
use qrcode_render::{Format, Settings};

/// The settings of a picture, which may be any numbers; the call checks them. A number below 0
/// stands for the default.
#[repr(C)]
#[derive(Clone, Copy, Debug, PartialEq, Eq)]
pub struct PictureSettings {
    /// The width of a module in pixels: 1 to 64.
    pub scale: i32,
    /// The width of the quiet zone in modules: 0 to 16.
    pub quiet: i32,
    /// The width of a module in hundredths of a millimetre, 5 to 1,000: of SVG, PNG, EPS and
    /// PDF.
    pub module_mm: i32,
    /// The number of pixels in an inch, 50 to 2,400: of PNG, and not beside `module_mm`.
    pub dpi: i32,
    /// If it is not 0, the light pixels are filled, for a dark screen: of text.
    pub inverted: i32,
    /// The column of the upper left corner on the label in dots, 0 to 18,000: of ZPL.
    pub at_x: i32,
    /// The row of the upper left corner on the label in dots, 0 to 18,000: of ZPL.
    pub at_y: i32,
}

/// Returns the format of a number, 0 to 7.
pub fn format_of(number: i32) -> Option<Format>
    ensures format { IfSome result (λ format. number ≡ format_argument format) }
    ensures none { IfNone result (IsNoFormat number) }
{
    match number {
        0 => Some(Format::Terminal),
        1 => Some(Format::Svg),
        2 => Some(Format::Png),
        3 => Some(Format::Pbm),
        4 => Some(Format::Eps),
        5 => Some(Format::EscPos),
        6 => Some(Format::Zpl),
        7 => Some(Format::Pdf),
        _ => None,
    }
}

/// Returns the settings that the numbers mean.
pub fn settings_of(asked: &PictureSettings) -> Settings<'_>
    ensures { MeansSettings asked.now result }
{
    Settings {
        scale: given(asked.scale),
        quiet: given(asked.quiet),
        module_um: tenfold(asked.module_mm),
        dpi_tenths: tenfold(asked.dpi),
        inverted: is_set(asked.inverted),
        title: None,
        caption: None,
        at: corner(given(asked.at_x), given(asked.at_y)),
        copies: None,
        compressed: false,
        feed: None,
        cut: false,
        colors: NO_COLORS,
        any_colors: false,
    }
}

/// Returns a number, or `None` if it is below 0.
fn given(number: i32) -> Option<usize>
    ensures { result ≡ given number }
{
    usize::try_from(number).ok()
}

/// Returns ten times a number, or `None` if it is below 0.
fn tenfold(number: i32) -> Option<usize>
    ensures { result ≡ tenfold number }
{
    match u32::try_from(number) {
        Ok(n) => Some(10 * n as usize),
        Err(_) => None,
    }
}

/// Returns the position whose parts are given. A part that is not given beside the other is 0.
fn corner(x: Option<usize>, y: Option<usize>) -> Option<(usize, usize)>
    ensures { result ≡ corner x y }
{
    match (x, y) {
        (None, None) => None,
        _ => Some((x.unwrap_or(0), y.unwrap_or(0))),
    }
}
