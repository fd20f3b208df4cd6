//! Pictures as Encapsulated PostScript.
ghost use Rattle.std.specs.Prelude.{◌≡◌, ◌≤◌, ◌++◌, None, Some, IfOk, OnOk};
ghost use Rattle.std.specs.Option.{ForSome, option_copied};
ghost use Rattle.std.specs.String.{string_bytes};
ghost use Rattle.picture_settings.specs.declared.bounds.TheConstants.{MAX_COLUMNS, MAX_HIGH, MAX_MODULE_UM};
ghost use Rattle.picture_settings.specs.declared.bounds.TheConstants.{MAX_SCALE};
ghost use Rattle.grid_pictures.specs.Picture.{shown};
ghost use Rattle.qrcode_render.specs.Eps.{box_side, eps_document, eps_head, eps_setup, eps_text};
ghost use Rattle.qrcode_render.specs.Eps.{eps_fill, eps_ground, eps_ink, ps_color};
ghost use Rattle.qrcode_render.specs.Eps.{eps_comments, exact_comment, exact_line, exact_side};
ghost use Rattle.qrcode_render.specs.Eps.{module_points, thousandths, title_comment};
ghost use Rattle.qrcode_render.specs.CaptionTypes.{block_of, option_block};
ghost use Rattle.qrcode_render.specs.Eps.{caption_end, caption_font, eps_caption, eps_captioned};
ghost use Rattle.qrcode_render.specs.Eps.{eps_finish, eps_shown};

use crate::block::Caption;
use crate::caption::{Texts, block_below, high, hundredths};
use grid_pictures::path::push_path;
use grid_pictures::pen::Pen;
use grid_pictures::picture::Picture;
use picture_settings::colors::{Colors, Ground, NO_COLORS, Rgb};
use picture_settings::postscript::push_string;
use std::alloc::{AllocError, Global};

/// Returns the picture as Encapsulated PostScript: a light background, and one path with a
/// rectangle for each run of dark modules in a row. A module is `scale` points wide, or has the
/// width in micrometres that is given. It fails only for lack of memory.
pub fn eps(alloc: Global, picture: &Picture, module_um: Option<usize>) -> Result<String, AllocError>
    requires { ForSome module_um (λ n. n ≤ MAX_MODULE_UM) }
    ensures { IfOk result (λ text. string_bytes text ≡ eps_text module_um (shown picture.now)) }
{
    eps_document(alloc, picture, module_um, None, NO_COLORS)
}

/// Returns the picture as Encapsulated PostScript, with the width of a module in micrometres, with
/// a title and with colours, if they are given. A reader of PostScript finds exactly the bytes of
/// the title (`laws::strings_are_read`). A transparent ground is no background. It fails only for
/// lack of memory.
pub fn eps_document(
    alloc: Global,
    picture: &Picture,
    module_um: Option<usize>,
    title: Option<&str>,
    colors: Colors,
) -> Result<String, AllocError>
    requires { ForSome module_um (λ n. n ≤ MAX_MODULE_UM) }
    ensures { IfOk result (λ text. string_bytes text ≡
        eps_document module_um (option_copied title.entry) colors (shown picture.now)) }
{
    let texts = Texts {
        title,
        caption: None,
    };
    eps_captioned(alloc, picture, module_um, texts, colors)
}

/// Returns the picture as `eps_document` has it, with a text below it, in rows of its own, if it is
/// given. It fails only for lack of memory.
pub fn eps_captioned(
    alloc: Global,
    picture: &Picture,
    module_um: Option<usize>,
    texts: Texts,
    colors: Colors,
) -> Result<String, AllocError>
    requires { ForSome module_um (λ n. n ≤ MAX_MODULE_UM) }
    ensures { IfOk result (λ text. string_bytes text ≡
        eps_captioned module_um (option_copied texts.entry.title)
        (option_copied texts.entry.caption) colors (shown picture.now)) }
{
    let caption = block_below(alloc, texts.caption, picture, module_um)?;
    let (columns, scale) = (picture.columns(), picture.scale());
    let rows = high(&caption, picture.rows());
    let mut text = comments(alloc, module_um, scale, columns, rows)?;
    push_title(&mut text, texts.title)?;
    let points = module_points(alloc, module_um, scale)?;
    let setup = setup(alloc, &points, rows)?;
    text.push_str(setup.as_str())?;
    let ground = ground(alloc, colors.light, columns, rows)?;
    text.push_str(ground.as_str())?;
    let ink = ink(alloc, colors.dark)?;
    text.push_str(ink.as_str())?;
    push_path(&mut text, picture, Pen::Eps)?;
    push_end(alloc, &mut text, &caption, columns, picture.rows())?;
    Ok(text)
}

/// Appends the end of the document, with the text below the picture, if there is one.
fn push_end(
    alloc: Global,
    text: &mut String,
    caption: &Option<Caption>,
    columns: usize,
    rows: usize,
) -> Result<(), AllocError>
    requires { rows ≤ MAX_COLUMNS }
    ensures { OnOk result (string_bytes text.new ≡ string_bytes text.old
        ++ eps_finish (option_block caption.now) columns rows) }
{
    let Some(caption) = caption else {
        return text.push_str("fill\nshowpage\n%%EOF\n");
    };
    text.push_str("fill\n")?;
    push_caption(alloc, text, caption, columns, rows)?;
    text.push_str("showpage\n%%EOF\n")
}

/// Appends the font and the lines of the text below the picture.
fn push_caption(
    alloc: Global,
    text: &mut String,
    caption: &Caption,
    columns: usize,
    rows: usize,
) -> Result<(), AllocError>
    requires { rows ≤ MAX_COLUMNS }
    ensures { OnOk result (string_bytes text.new
        ≡ string_bytes text.old ++ eps_caption (block_of caption.now) columns rows) }
{
    let lines = caption.lines();
    let size = hundredths(alloc, caption.size())?;
    let font = caption_font(alloc, &size)?;
    text.push_str(font.as_str())?;
    for n in 0..lines.len() {
        let end = caption_end(alloc, columns, caption.line_row(rows, n))?;
        push_line(text, &lines[n], &end)?;
    }
    Ok(())
}

/// Appends a line of the text below the picture, before what shows it.
fn push_line(text: &mut String, line: &str, end: &str) -> Result<(), AllocError>
    ensures { OnOk result (string_bytes text.new
        ≡ string_bytes text.old ++ eps_shown line.now end.now) }
{
    text.push_str("(")?;
    push_string(text, line)?;
    text.push_str(end)
}

/// Returns what sets the font of the text below the picture.
#[tactic(auto, unfolding(crate::specs::Eps::caption_font))]
fn caption_font(alloc: Global, size: &str) -> Result<String, AllocError>
    ensures { IfOk result (λ text. string_bytes text ≡ caption_font size.now) }
{
    format!(in alloc; "/Courier findfont[{size} 0 0 -{size} 0 0]makefont setfont\n")
}

/// Returns what shows a line, in the middle of these columns.
#[tactic(auto, unfolding(crate::specs::Eps::caption_end))]
fn caption_end(alloc: Global, columns: usize, y: usize) -> Result<String, AllocError>
    ensures { IfOk result (λ text. string_bytes text ≡ caption_end columns y) }
{
    format!(in alloc; ")\ndup stringwidth pop {columns} exch sub 2 div {y} moveto show\n")
}

/// Returns the comments up to the sides of the picture.
fn comments(
    alloc: Global,
    module_um: Option<usize>,
    scale: usize,
    columns: usize,
    rows: usize,
) -> Result<String, AllocError>
    requires small { ForSome module_um (λ n. n ≤ MAX_MODULE_UM) }
    requires small_scale { scale ≤ MAX_SCALE }
    requires few_columns { columns ≤ MAX_COLUMNS }
    requires few_rows { rows ≤ MAX_HIGH }
    ensures { IfOk result (λ text.
        string_bytes text ≡ eps_comments module_um scale columns rows) }
{
    let (width, height) = (
        box_side(module_um, scale, columns),
        box_side(module_um, scale, rows),
    );
    let mut text = head(alloc, width, height)?;
    if let Some(module_um) = module_um {
        push_exact(alloc, &mut text, module_um, columns, rows)?;
    }
    Ok(text)
}

/// Appends the sides of the picture, by the size of a module.
fn push_exact(
    alloc: Global,
    text: &mut String,
    module_um: usize,
    columns: usize,
    rows: usize,
) -> Result<(), AllocError>
    requires small { module_um ≤ MAX_MODULE_UM }
    requires few_columns { columns ≤ MAX_COLUMNS }
    requires few_rows { rows ≤ MAX_HIGH }
    ensures { OnOk result (string_bytes text.new ≡
        string_bytes text.old ++ exact_comment (Some module_um) columns rows) }
{
    let width = exact_side(alloc, module_um, columns)?;
    let height = exact_side(alloc, module_um, rows)?;
    let line = exact_line(alloc, width.as_str(), height.as_str())?;
    text.push_str(line.as_str())
}

/// Returns the comment that has the sides of the picture.
#[tactic(auto, unfolding(crate::specs::Eps::exact_line))]
fn exact_line(alloc: Global, width: &str, height: &str) -> Result<String, AllocError>
    ensures { IfOk result (λ text. string_bytes text ≡ exact_line width.now height.now) }
{
    format!(in alloc; "%%HiResBoundingBox: 0 0 {width} {height}\n")
}

/// Returns a side of the picture in points, rounded up to thousandths.
pub(crate) fn exact_side(
    alloc: Global,
    module_um: usize,
    modules: usize,
) -> Result<String, AllocError>
    requires small { module_um ≤ MAX_MODULE_UM }
    requires few { modules ≤ MAX_HIGH }
    ensures { IfOk result (λ text. string_bytes text ≡ exact_side module_um modules) }
{
    thousandths(alloc, (modules * module_um * 18_000).div_ceil(6350))
}

/// Returns thousandths as a decimal number.
#[tactic(auto, unfolding(crate::specs::Eps::thousandths))]
pub(crate) fn thousandths(alloc: Global, n: usize) -> Result<String, AllocError>
    ensures { IfOk result (λ text. string_bytes text ≡ thousandths n) }
{
    let (whole, tenths, hundredths, rest) = (n / 1000, n / 100 % 10, n / 10 % 10, n % 10);
    format!(in alloc; "{whole}.{tenths}{hundredths}{rest}")
}

/// Appends the title, if there is one.
fn push_title(text: &mut String, title: Option<&str>) -> Result<(), AllocError>
    ensures { OnOk result (string_bytes text.new ≡
        string_bytes text.old ++ title_comment (option_copied title.entry)) }
{
    if let Some(title) = title {
        text.push_str("%%Title: (")?;
        push_string(text, title)?;
        text.push_str(")\n")?;
    }
    Ok(())
}

/// Returns a side of the bounding box in points.
fn box_side(module_um: Option<usize>, scale: usize, modules: usize) -> usize
    requires small { ForSome module_um (λ n. n ≤ MAX_MODULE_UM) }
    requires small_scale { scale ≤ MAX_SCALE }
    requires few { modules ≤ MAX_HIGH }
    ensures { result ≡ box_side module_um scale modules }
{
    match module_um {
        Some(module_um) => (modules * module_um * 18).div_ceil(6350),
        None => modules * scale,
    }
}

/// Returns the width of a module in points, as PostScript computes it.
fn module_points(
    alloc: Global,
    module_um: Option<usize>,
    scale: usize,
) -> Result<String, AllocError>
    ensures { IfOk result (λ text. string_bytes text ≡ module_points module_um scale) }
{
    match module_um {
        Some(module_um) => format!(in alloc; "{module_um} 18 mul 6350 div"),
        None => format!(in alloc; "{scale}"),
    }
}

/// Returns the comments at the head, with the sides of the bounding box.
#[tactic(auto, unfolding(crate::specs::Eps::eps_head))]
fn head(alloc: Global, width: usize, height: usize) -> Result<String, AllocError>
    ensures { IfOk result (λ text. string_bytes text ≡ eps_head width height) }
{
    format!(in alloc;
        "%!PS-Adobe-3.0 EPSF-3.0
%%BoundingBox: 0 0 {width} {height}
"
    )
}

/// Returns the ground: nothing, or a background.
fn ground(
    alloc: Global,
    light: Option<Ground>,
    columns: usize,
    rows: usize,
) -> Result<String, AllocError>
    ensures { IfOk result (λ text. string_bytes text ≡ eps_ground light columns rows) }
{
    match light {
        None => fill(alloc, "1 setgray", columns, rows),
        Some(Ground::Transparent) => Ok(String::new(alloc)),
        Some(Ground::Color(color)) => {
            let color = ps_color(alloc, color)?;
            fill(alloc, &color, columns, rows)
        }
    }
}

/// Returns the rectangle of the ground.
#[tactic(auto, unfolding(crate::specs::Eps::eps_fill))]
fn fill(alloc: Global, color: &str, columns: usize, rows: usize) -> Result<String, AllocError>
    ensures { IfOk result (λ text. string_bytes text ≡ eps_fill color.now columns rows) }
{
    format!(in alloc; "{color} 0 0 {columns} {rows} rectfill ")
}

/// Returns the colour of the path.
fn ink(alloc: Global, dark: Option<Rgb>) -> Result<String, AllocError>
    ensures { IfOk result (λ text. string_bytes text ≡ eps_ink dark) }
{
    match dark {
        None => String::from_str(alloc, "0 setgray\n"),
        Some(color) => {
            let mut text = ps_color(alloc, color)?;
            text.push_str("\n")?;
            Ok(text)
        }
    }
}

/// Returns a colour as PostScript has it.
#[tactic(auto, unfolding(crate::specs::Eps::ps_color))]
fn ps_color(alloc: Global, color: Rgb) -> Result<String, AllocError>
    ensures { IfOk result (λ text. string_bytes text ≡ ps_color color) }
{
    let (red, green, blue) = (color.red, color.green, color.blue);
    format!(in alloc; "{red} 255 div {green} 255 div {blue} 255 div setrgbcolor")
}

/// Returns the end of the comments, the procedure and the units.
#[tactic(auto, unfolding(crate::specs::Eps::eps_setup))]
fn setup(alloc: Global, points: &str, rows: usize) -> Result<String, AllocError>
    ensures { IfOk result (λ text. string_bytes text ≡ eps_setup points.now rows) }
{
    format!(in alloc;
        "%%LanguageLevel: 2
%%EndComments
/r{{moveto dup 0 rlineto 0 1 rlineto neg 0 rlineto closepath}}bind def
{points} dup scale 0 {rows} translate 1 -1 scale
"
    )
}
