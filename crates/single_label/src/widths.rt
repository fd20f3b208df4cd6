//! The size of a symbol in its details: the number of its modules, and widths in millimetres.
ghost use Rattle.std.specs.Prelude.{◌≡◌, ◌++◌, ◌<◌, ◌≤◌, ◌^◌, OnOk};
ghost use Rattle.std.specs.String.{string_bytes};
ghost use Rattle.single_label.specs.Details.{nearest_to, width_of_dots, physical_width};
ghost use Rattle.single_label.specs.Details.{millimetres_text, width_piece, size_text};

use crate::details::push_number;
use label_words::Label;
use qrcode_core::symbol::Symbol;
use qrcode_core::traits::ModuleSource;
use qrcode_render::DrawOptions;
use qrcode_render::bounds::MAX_DPI_TENTHS;
use std::alloc::AllocError;

/// Returns the whole number that is nearest to a quotient.
fn nearest_to(dividend: usize, divisor: usize) -> usize
    requires some { 0 < divisor }
    requires small { dividend < 2 ^ 32 }
    requires few { divisor < 2 ^ 32 }
    ensures { result ≡ nearest_to dividend divisor }
{
    (2 * dividend + divisor) / (2 * divisor)
}

/// Returns the width of modules of `scale` dots, in micrometres, if the dots of ten inches are
/// known.
fn width_of_dots(modules: usize, scale: usize, dpi_tenths: Option<usize>) -> Option<usize>
    requires modules { modules ≤ 177 }
    requires scale { scale ≤ 64 }
    ensures { result ≡ width_of_dots modules scale dpi_tenths }
{
    match dpi_tenths {
        None | Some(0) => None,
        Some(dpi_tenths) if dpi_tenths > MAX_DPI_TENTHS => None,
        Some(dpi_tenths) => Some(nearest_to(modules * scale * 254_000, dpi_tenths)),
    }
}

/// Returns the width of modules in micrometres, if it is known.
pub fn physical_width(modules: usize, label: &Label, options: &DrawOptions) -> Option<usize>
    requires { modules ≤ 177 }
    ensures { result ≡ physical_width modules label.now options.now }
{
    match options.module_um {
        Some(module) => Some(modules * module),
        None => width_of_dots(modules, options.scale, label.dpi_tenths),
    }
}

/// Appends micrometres as millimetres.
fn push_millimetres(text: &mut String, n: usize) -> Result<(), AllocError>
    ensures { OnOk result (string_bytes text.new ≡ string_bytes text.old ++ millimetres_text n) }
{
    push_number(text, n / 1000)?;
    text.push_str(".")?;
    push_number(text, n / 100 % 10)?;
    push_number(text, n / 10 % 10)?;
    push_number(text, n % 10)?;
    text.push_str(" mm")
}

/// Appends a width after other words, if it is known.
fn push_width(text: &mut String, words: &str, width: Option<usize>) -> Result<(), AllocError>
    ensures { OnOk result
        (string_bytes text.new ≡ string_bytes text.old ++ width_piece words.now width) }
{
    let Some(width) = width else {
        return Ok(());
    };
    text.push_str(words)?;
    push_millimetres(text, width)
}

/// Appends the number of modules, their width and that of the symbol if they are known, and a
/// newline.
pub fn push_size(
    text: &mut String,
    label: &Label,
    options: &DrawOptions,
    symbol: &Symbol,
) -> Result<(), AllocError>
    ensures { OnOk result (string_bytes text.new
        ≡ string_bytes text.old ++ size_text label.now options.now symbol.now) }
{
    let modules = symbol.width();
    text.push_str(", ")?;
    push_number(text, modules)?;
    text.push_str(" modules")?;
    push_width(text, " of ", physical_width(1, label, options))?;
    push_width(text, ", ", physical_width(modules, label, options))?;
    text.push_str("\n")
}
