//! Pictures as content streams of PDF.
ghost use Rattle.std.specs.Prelude.{◌≡◌, ◌≤◌, IfOk};
ghost use Rattle.std.specs.Option.{ForSome, option_copied};
ghost use Rattle.std.specs.String.{string_bytes};
ghost use Rattle.picture_settings.specs.declared.bounds.TheConstants.{MAX_HIGH, MAX_MODULE_UM};
ghost use Rattle.picture_settings.specs.declared.bounds.TheConstants.{MAX_SCALE};
ghost use Rattle.grid_pictures.specs.Picture.{shown};
ghost use Rattle.qrcode_render.specs.Pdf.{color_part, millionths, module_width, page_side};
ghost use Rattle.qrcode_render.specs.Pdf.{pdf_color, pdf_fill, pdf_ground, pdf_ink, pdf_units};
ghost use Rattle.qrcode_render.specs.Pdf.{captioned_page};
ghost use Rattle.qrcode_render.specs.PdfPages.{page_of};

use crate::caption::{block_below, high};
use crate::eps::{exact_side, thousandths};
use crate::pdf_caption::push_end;
use grid_pictures::path::push_path;
use grid_pictures::pen::Pen;
use grid_pictures::picture::Picture;
use picture_settings::colors::{Colors, Ground, Rgb};
use std::alloc::{AllocError, Global};

/// A page: its sides in points, whether it has text, and what its content stream has.
#[derive(Debug, Drop)]
pub(crate) struct Page {
    pub width: String,
    pub height: String,
    pub has_text: bool,
    pub content: String,
}

/// Returns the page of a picture, with the width of a module in micrometres, with a text below it
/// and with colours, if they are given.
pub(crate) fn draw_page(
    alloc: Global,
    picture: &Picture,
    module_um: Option<usize>,
    caption: Option<&str>,
    colors: Colors,
) -> Result<Page, AllocError>
    requires { ForSome module_um (λ n. n ≤ MAX_MODULE_UM) }
    ensures { IfOk result (λ page. page_of page
        ≡ captioned_page module_um (option_copied caption.entry) colors (shown picture.now)) }
{
    let caption = block_below(alloc, caption, picture, module_um)?;
    let (scale, columns) = (picture.scale(), picture.columns());
    let width = page_side(alloc, module_um, scale, columns)?;
    let height = page_side(alloc, module_um, scale, high(&caption, picture.rows()))?;
    let mut content = ground(alloc, colors.light, &width, &height)?;
    let ink = ink(alloc, colors.dark)?;
    content.push_str(ink.as_str())?;
    let unit = module_width(alloc, module_um, scale)?;
    let units = units(alloc, &unit, &height)?;
    content.push_str(units.as_str())?;
    push_path(&mut content, picture, Pen::Pdf)?;
    push_end(alloc, &mut content, &caption, columns, picture.rows())?;
    Ok(Page {
        width,
        height,
        has_text: caption.is_some(),
        content,
    })
}

/// Returns a side of the page in points.
fn page_side(
    alloc: Global,
    module_um: Option<usize>,
    scale: usize,
    modules: usize,
) -> Result<String, AllocError>
    requires small { ForSome module_um (λ n. n ≤ MAX_MODULE_UM) }
    requires small_scale { scale ≤ MAX_SCALE }
    requires few { modules ≤ MAX_HIGH }
    ensures { IfOk result (λ text. string_bytes text ≡ page_side module_um scale modules) }
{
    match module_um {
        Some(module_um) => exact_side(alloc, module_um, modules),
        None => {
            let side = modules * scale;
            format!(in alloc; "{side}")
        }
    }
}

/// Returns the width of a module in points.
fn module_width(alloc: Global, module_um: Option<usize>, scale: usize) -> Result<String, AllocError>
    requires { ForSome module_um (λ n. n ≤ MAX_MODULE_UM) }
    ensures { IfOk result (λ text. string_bytes text ≡ module_width module_um scale) }
{
    match module_um {
        Some(module_um) => millionths(alloc, (2 * (module_um * 18_000_000) + 6350) / 12_700),
        None => format!(in alloc; "{scale}"),
    }
}

/// Returns millionths as a decimal number.
#[tactic(auto, unfolding(crate::specs::Pdf::millionths))]
fn millionths(alloc: Global, n: usize) -> Result<String, AllocError>
    ensures { IfOk result (λ text. string_bytes text ≡ millionths n) }
{
    let (whole, a, b) = (n / 1_000_000, n / 100_000 % 10, n / 10_000 % 10);
    let (c, d, e, f) = (n / 1000 % 10, n / 100 % 10, n / 10 % 10, n % 10);
    format!(in alloc; "{whole}.{a}{b}{c}{d}{e}{f}")
}

/// Returns the ground: nothing, or a background.
fn ground(
    alloc: Global,
    light: Option<Ground>,
    width: &str,
    height: &str,
) -> Result<String, AllocError>
    ensures { IfOk result (λ text. string_bytes text ≡ pdf_ground light width.now height.now) }
{
    match light {
        None => fill(alloc, "1 g", width, height),
        Some(Ground::Transparent) => Ok(String::new(alloc)),
        Some(Ground::Color(color)) => {
            let color = pdf_color(alloc, color)?;
            fill(alloc, &color, width, height)
        }
    }
}

/// Returns the rectangle of the ground.
#[tactic(auto, unfolding(crate::specs::Pdf::pdf_fill))]
fn fill(alloc: Global, color: &str, width: &str, height: &str) -> Result<String, AllocError>
    ensures { IfOk result (λ text.
        string_bytes text ≡ pdf_fill color.now width.now height.now) }
{
    format!(in alloc; "{color} 0 0 {width} {height} re f\n")
}

/// Returns the colour of the path.
fn ink(alloc: Global, dark: Option<Rgb>) -> Result<String, AllocError>
    ensures { IfOk result (λ text. string_bytes text ≡ pdf_ink dark) }
{
    match dark {
        None => String::from_str(alloc, "0 g\n"),
        Some(color) => {
            let mut text = pdf_color(alloc, color)?;
            text.push_str("\n")?;
            Ok(text)
        }
    }
}

/// Returns a colour.
#[tactic(auto, unfolding(crate::specs::Pdf::pdf_color))]
fn pdf_color(alloc: Global, color: Rgb) -> Result<String, AllocError>
    ensures { IfOk result (λ text. string_bytes text ≡ pdf_color color) }
{
    let red = color_part(alloc, color.red)?;
    let green = color_part(alloc, color.green)?;
    let blue = color_part(alloc, color.blue)?;
    format!(in alloc; "{red} {green} {blue} rg")
}

/// Returns a part of a colour as its share of 255, to the nearest thousandth.
fn color_part(alloc: Global, value: u8) -> Result<String, AllocError>
    ensures { IfOk result (λ text. string_bytes text ≡ color_part value) }
{
    thousandths(alloc, (2 * (1000 * usize::from(value)) + 255) / 510)
}

/// Returns the units, which are modules, the rows counted from the top.
#[tactic(auto, unfolding(crate::specs::Pdf::pdf_units))]
fn units(alloc: Global, unit: &str, height: &str) -> Result<String, AllocError>
    ensures { IfOk result (λ text. string_bytes text ≡ pdf_units unit.now height.now) }
{
    format!(in alloc; "{unit} 0 0 -{unit} 0 {height} cm\n")
}
