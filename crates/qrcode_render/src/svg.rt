//! Pictures as SVG: a light background, and one path with a line for each run of dark modules.
ghost use Rattle.std.specs.Prelude.{◌≡◌, ◌<◌, ◌≤◌, ◌++◌, [], ◌∷◌, None, IfOk, OnOk};
ghost use Rattle.std.specs.Option.{ForSome, option_copied};
ghost use Rattle.std.specs.String.{string_bytes};
ghost use Rattle.picture_settings.specs.declared.bounds.TheConstants.{MAX_COLUMNS, MAX_HIGH, MAX_MODULE_UM};
ghost use Rattle.grid_pictures.specs.Picture.{shown};
ghost use Rattle.qrcode_render.specs.Svg.{background, hex_color, millimetres, path_start, stroke};
ghost use Rattle.qrcode_render.specs.Svg.{svg_colored, svg_document, svg_ground, svg_side};
ghost use Rattle.qrcode_render.specs.CaptionTypes.{block_of, option_block};
ghost use Rattle.qrcode_render.specs.Svg.{caption_elements, caption_tag, svg_captioned, svg_end};
ghost use Rattle.qrcode_render.specs.Svg.{svg_tag, tagged};
ghost use Rattle.qrcode_render.specs.Svg.{svg_text, title_element};
ghost use Rattle.qrcode_render.specs.Zpl.{hex_digit, hex_pair};

use crate::block::Caption;
use crate::caption::{Texts, block_below, high, high_pixels, hundredths};
use grid_pictures::path::push_path;
use grid_pictures::pen::Pen;
use grid_pictures::picture::Picture;
use picture_settings::colors::{Colors, Ground, NO_COLORS, Rgb};
use picture_settings::xml::push_escaped;
use std::alloc::{AllocError, Global};

/// Returns the picture as SVG, with its size in pixels and no title: a light background, and one
/// path with a line, as wide as a module, for each run of dark modules in a row. It fails only for
/// lack of memory.
pub fn svg(alloc: Global, picture: &Picture) -> Result<String, AllocError>
    ensures { IfOk result (λ text. string_bytes text ≡ svg_text (shown picture.now)) }
{
    svg_document(alloc, picture, None, None)
}

/// Returns the picture as SVG, with the width of a module in micrometres and with a title, if they
/// are given. A reader finds exactly the title, if XML allows its characters
/// (`laws::texts_are_read`). It fails only for lack of memory.
pub fn svg_document(
    alloc: Global,
    picture: &Picture,
    module_um: Option<usize>,
    title: Option<&str>,
) -> Result<String, AllocError>
    requires { ForSome module_um (λ n. n ≤ MAX_MODULE_UM) }
    ensures { IfOk result (λ text. string_bytes text ≡
        svg_document module_um (option_copied title.entry) (shown picture.now)) }
{
    svg_colored(alloc, picture, module_um, title, NO_COLORS)
}

/// Returns the picture as `svg_document` has it, with the path and the background in colours, if
/// they are given. A transparent ground is no background. It fails only for lack of memory.
pub fn svg_colored(
    alloc: Global,
    picture: &Picture,
    module_um: Option<usize>,
    title: Option<&str>,
    colors: Colors,
) -> Result<String, AllocError>
    requires { ForSome module_um (λ n. n ≤ MAX_MODULE_UM) }
    ensures { IfOk result (λ text. string_bytes text ≡
        svg_colored module_um (option_copied title.entry) colors (shown picture.now)) }
{
    let texts = Texts {
        title,
        caption: None,
    };
    svg_captioned(alloc, picture, module_um, texts, colors)
}

/// Returns the picture as `svg_colored` has it, with a text below it, in rows of its own, if it is
/// given. It fails only for lack of memory.
pub fn svg_captioned(
    alloc: Global,
    picture: &Picture,
    module_um: Option<usize>,
    texts: Texts,
    colors: Colors,
) -> Result<String, AllocError>
    requires { ForSome module_um (λ n. n ≤ MAX_MODULE_UM) }
    ensures { IfOk result (λ text. string_bytes text ≡
        svg_captioned module_um (option_copied texts.entry.title)
        (option_copied texts.entry.caption) colors (shown picture.now)) }
{
    let caption = block_below(alloc, texts.caption, picture, module_um)?;
    let columns = picture.columns();
    let rows = high(&caption, picture.rows());
    let width = side(alloc, module_um, columns, picture.width())?;
    let height = side(alloc, module_um, rows, high_pixels(&caption, picture))?;
    let mut text = tag(alloc, &width, &height, columns, rows)?;
    push_title(&mut text, texts.title)?;
    let ground = ground(alloc, colors.light, columns, rows)?;
    text.push_str(ground.as_str())?;
    let start = path_start(alloc, colors.dark)?;
    text.push_str(start.as_str())?;
    push_path(&mut text, picture, Pen::Svg)?;
    push_end(alloc, &mut text, &caption, colors.dark, picture.rows())?;
    Ok(text)
}

/// Appends the end of the document, with the text below the picture, if there is one.
fn push_end(
    alloc: Global,
    text: &mut String,
    caption: &Option<Caption>,
    dark: Option<Rgb>,
    rows: usize,
) -> Result<(), AllocError>
    requires { rows ≤ MAX_COLUMNS }
    ensures { OnOk result (string_bytes text.new ≡ string_bytes text.old
        ++ svg_end (option_block caption.now) dark rows) }
{
    let Some(caption) = caption else {
        return text.push_str("\"/>\n</svg>\n");
    };
    text.push_str("\"/>\n")?;
    push_caption(alloc, text, caption, dark, rows)?;
    text.push_str("</svg>\n")
}

/// Appends the lines of the text below the picture.
fn push_caption(
    alloc: Global,
    text: &mut String,
    caption: &Caption,
    dark: Option<Rgb>,
    rows: usize,
) -> Result<(), AllocError>
    requires { rows ≤ MAX_COLUMNS }
    ensures { OnOk result (string_bytes text.new ≡ string_bytes text.old
        ++ caption_elements (block_of caption.now) dark rows) }
{
    let lines = caption.lines();
    let size = hundredths(alloc, caption.size())?;
    let color = stroke(alloc, dark)?;
    for n in 0..lines.len() {
        let tag = caption_tag(alloc, caption.line_row(rows, n), &size, &color)?;
        push_line(text, &tag, &lines[n])?;
    }
    Ok(())
}

/// Appends a line of the text below the picture, after its tag.
fn push_line(text: &mut String, tag: &str, line: &str) -> Result<(), AllocError>
    ensures { OnOk result (string_bytes text.new
        ≡ string_bytes text.old ++ tagged tag.now line.now) }
{
    text.push_str(tag)?;
    push_escaped(text, line)?;
    text.push_str("</text>\n")
}

/// Returns the first tag of a line of the text below the picture.
#[tactic(auto, unfolding(crate::specs::Svg::caption_tag))]
fn caption_tag(alloc: Global, y: usize, size: &str, color: &str) -> Result<String, AllocError>
    ensures { IfOk result (λ text. string_bytes text ≡ caption_tag y size.now color.now) }
{
    format!(in alloc;
        r##"<text x="50%" y="{y}" text-anchor="middle" font-family="monospace" font-size="{size}" fill="{color}">"##
    )
}

/// Returns a side of the picture, in pixels or in millimetres.
#[tactic(auto, unfolding(crate::specs::Svg::millimetres))]
fn side(
    alloc: Global,
    module_um: Option<usize>,
    modules: usize,
    pixels: usize,
) -> Result<String, AllocError>
    requires small { ForSome module_um (λ n. n ≤ MAX_MODULE_UM) }
    requires few { modules ≤ MAX_HIGH }
    ensures { IfOk result (λ text. string_bytes text ≡ svg_side module_um modules pixels) }
{
    let Some(module_um) = module_um else {
        return format!(in alloc; "{pixels}");
    };
    let size = modules * module_um;
    let (whole, tenths) = (size / 1000, size / 100 % 10);
    let (hundredths, rest) = (size / 10 % 10, size % 10);
    if rest == 0 {
        format!(in alloc; "{whole}.{tenths}{hundredths}mm")
    } else {
        format!(in alloc; "{whole}.{tenths}{hundredths}{rest}mm")
    }
}

/// Returns the first tag.
#[tactic(auto, unfolding(crate::specs::Svg::svg_tag))]
fn tag(
    alloc: Global,
    width: &str,
    height: &str,
    columns: usize,
    rows: usize,
) -> Result<String, AllocError>
    ensures { IfOk result (λ text.
        string_bytes text ≡ svg_tag width.now height.now columns rows) }
{
    format!(in alloc;
        r##"<svg xmlns="http://www.w3.org/2000/svg" width="{width}" height="{height}" viewBox="0 0 {columns} {rows}">
"##
    )
}

/// Appends the title, if there is one.
fn push_title(text: &mut String, title: Option<&str>) -> Result<(), AllocError>
    ensures { OnOk result (string_bytes text.new ≡
        string_bytes text.old ++ title_element (option_copied title.entry)) }
{
    if let Some(title) = title {
        text.push_str("<title>")?;
        push_escaped(text, title)?;
        text.push_str("</title>\n")?;
    }
    Ok(())
}

/// Returns the ground: nothing, or a background.
fn ground(
    alloc: Global,
    light: Option<Ground>,
    columns: usize,
    rows: usize,
) -> Result<String, AllocError>
    ensures { IfOk result (λ text. string_bytes text ≡ svg_ground light columns rows) }
{
    match light {
        None => background(alloc, "#fff", columns, rows),
        Some(Ground::Transparent) => Ok(String::new(alloc)),
        Some(Ground::Color(color)) => {
            let color = hex_color(alloc, color)?;
            background(alloc, &color, columns, rows)
        }
    }
}

/// Returns the rectangle of the ground.
#[tactic(auto, unfolding(crate::specs::Svg::background))]
fn background(alloc: Global, color: &str, columns: usize, rows: usize) -> Result<String, AllocError>
    ensures { IfOk result (λ text. string_bytes text ≡ background color.now columns rows) }
{
    format!(in alloc;
        r##"<rect width="{columns}" height="{rows}" fill="{color}"/>
"##
    )
}

/// Returns the path up to its data.
fn path_start(alloc: Global, dark: Option<Rgb>) -> Result<String, AllocError>
    ensures { IfOk result (λ text. string_bytes text ≡ path_start (stroke dark)) }
{
    let color = stroke(alloc, dark)?;
    path_of(alloc, &color)
}

/// Returns the colour of the path.
fn stroke(alloc: Global, dark: Option<Rgb>) -> Result<String, AllocError>
    ensures { IfOk result (λ text. string_bytes text ≡ stroke dark) }
{
    match dark {
        None => String::from_str(alloc, "#000"),
        Some(color) => hex_color(alloc, color),
    }
}

/// Returns the path of a colour up to its data.
#[tactic(auto, unfolding(crate::specs::Svg::path_start))]
fn path_of(alloc: Global, color: &str) -> Result<String, AllocError>
    ensures { IfOk result (λ text. string_bytes text ≡ path_start color.now) }
{
    format!(in alloc;
        r##"<path stroke="{color}" transform="translate(0,.5)" shape-rendering="crispEdges" d=""##
    )
}

/// Returns a colour as SVG has it.
#[tactic(auto, unfolding(crate::specs::Svg::hex_color))]
fn hex_color(alloc: Global, color: Rgb) -> Result<String, AllocError>
    ensures { IfOk result (λ text. string_bytes text ≡ hex_color color) }
{
    let mut text = String::from_str(alloc, "#")?;
    push_byte(&mut text, color.red)?;
    push_byte(&mut text, color.green)?;
    push_byte(&mut text, color.blue)?;
    Ok(text)
}

/// Appends the two hexadecimal digits of a byte.
pub(crate) fn push_byte(text: &mut String, byte: u8) -> Result<(), AllocError>
    ensures { OnOk result (string_bytes text.new ≡ string_bytes text.old ++ hex_pair byte) }
{
    push_digit(text, byte / 16)?;
    push_digit(text, byte % 16)
}

/// Appends a hexadecimal digit.
fn push_digit(text: &mut String, digit: u8) -> Result<(), AllocError>
    requires { digit < 16 }
    ensures { OnOk result
        (string_bytes text.new ≡ string_bytes text.old ++ (hex_digit digit ∷ [])) }
{
    if digit < 10 {
        text.push(char::from(b'0' + digit))
    } else {
        text.push(char::from(b'A' + (digit - 10)))
    }
}
