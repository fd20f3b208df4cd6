//! How wide modules of whole dots are, where that is not what was asked for.
ghost use Rattle.std.specs.Prelude.{◌≡◌, IsTrue, IsFalse};
ghost use Rattle.programs.specs.Devices.{output, Writes};
ghost use Rattle.labels.specs.Sizes.{difference, far_off, other_width, size_line, size_report};

use itoa::Buffer;
use label_words::Label;
use programs::{Fault, Sink, write_line};
use qrcode_render::DrawOptions;
use single_label::physical_width;

/// Returns by how much two widths differ.
fn difference(real: usize, asked: usize) -> usize
    ensures { result ≡ difference real asked }
{
    if asked <= real {
        real - asked
    } else {
        asked - real
    }
}

/// Returns both widths, if they differ by more than 5 in 100 of the one that was asked for.
fn far_off(real: usize, asked: usize) -> Option<(usize, usize)>
    ensures { result ≡ far_off real asked }
{
    if difference(real, asked) > asked / 20 {
        Some((real, asked))
    } else {
        None
    }
}

/// Returns the width of a module and the one that was asked for, in micrometres, if they differ by
/// more than 5 in 100.
fn other_width(label: &Label, options: &DrawOptions) -> Option<(usize, usize)>
    ensures { result ≡ other_width label.now options.now }
{
    let asked = label.asked_um?;
    far_off(physical_width(1, label, options)?, asked)
}

/// Writes the line of both widths.
#[tactic(auto, unfolding(crate::specs::Sizes::size_line))]
fn write_size<E: Sink>(errors: &mut E, real: usize, asked: usize) -> Result<(), Fault>
    requires { IsFalse (E.state errors.old).failed }
    ensures { Writes (output (E.state errors.old) (E.state errors.new)) (size_line real asked) }
{
    let (mut whole, mut tenths) = (Buffer::new(), Buffer::new());
    let (mut hundredths, mut rest) = (Buffer::new(), Buffer::new());
    let (mut asked_whole, mut asked_tenths) = (Buffer::new(), Buffer::new());
    let (mut asked_hundredths, mut asked_rest) = (Buffer::new(), Buffer::new());
    write_line(
        errors,
        "qrlabel",
        &[
            "in whole dots a module is ",
            whole.format(real / 1000),
            ".",
            tenths.format(real / 100 % 10),
            hundredths.format(real / 10 % 10),
            rest.format(real % 10),
            " mm wide, and not ",
            asked_whole.format(asked / 1000),
            ".",
            asked_tenths.format(asked / 100 % 10),
            asked_hundredths.format(asked / 10 % 10),
            asked_rest.format(asked % 10),
            " mm",
        ],
    )
}

/// Writes how wide a module is, if that differs by more than 5 in 100 from what was asked for, and
/// the sink has not failed.
pub fn report_size<E: Sink>(errors: &mut E, label: &Label, options: &DrawOptions)
    ensures silent { IsTrue (E.state errors.old).failed → errors.new ≡ errors.old }
    ensures reported { IsFalse (E.state errors.old).failed →
        Writes (output (E.state errors.old) (E.state errors.new))
        (size_report label.now options.now) }
{
    if errors.failed() {
        return;
    }
    if let Some((real, asked)) = other_width(label, options) {
        let _ = write_size(errors, real, asked);
    }
}
