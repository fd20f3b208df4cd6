//! Labels of the whole input: one, or those of the symbols that carry it together.
ghost use Rattle.std.specs.Prelude.{◌≡◌, ◌+◌, IsFalse};
ghost use Rattle.programs.specs.Devices.{input, output, ReadsWithin, Writes};
ghost use Rattle.labels.specs.Stop.{made_of};
ghost use Rattle.label_words.specs.Numberings.{numbering_of};
ghost use Rattle.labels.specs.Devices.{devices_of};
ghost use Rattle.labels.specs.Runs.{one_of, message_of, IsLabelOutcome, ServesLabel, ServesParts};
ghost use Rattle.labels.specs.Runs.{label_status, label_report};
ghost use Rattle.single_label.specs.Contents.{most_bytes};
ghost use Rattle.single_label.specs.Parts.{most_together};

use crate::files::Files;
use crate::lines::Made;
use crate::part_files::put_message;
use crate::report::report_stop;
use crate::stop::Devices;
use label_words::{Label, Numbering};
use programs::{ReportingSink, ReportingSource, Sink, Source, read_up_to, write_all};
use qrcode_render::DrawOptions;
use single_label::{Stop, WithDetails, label_bytes, message_text, most_bytes, most_together};
use std::alloc::Global;

/// Reads to the end, writes the label of all bytes that were read, and flushes. It reads at most one
/// byte more than `most_bytes`.
fn draw_label<R: Source, W: Sink>(
    alloc: Global,
    label: &Label,
    options: &DrawOptions,
    reader: &mut R,
    writer: &mut W,
) -> Made
    requires reader_sound { IsFalse (R.state reader.old).failed }
    requires writer_sound { IsFalse (W.state writer.old).failed }
    ensures outcome { IsLabelOutcome (one_of label.now options.now)
        (input (R.state reader.old) (R.state reader.new))
        (output (W.state writer.old) (W.state writer.new)) (made_of result) }
    ensures within { ReadsWithin (most_bytes label.now.content + 1)
        (input (R.state reader.old) (R.state reader.new)) }
{
    let bytes = read_up_to(alloc, most_bytes(label.content), reader)?;
    let both = match label_bytes::<WithDetails>(alloc, label, options, &bytes) {
        Ok(both) => both,
        Err(stop) => return Err(stop),
    };
    match write_all(writer, &both.drawing) {
        Ok(()) => Ok(both.details),
        Err(fault) => Err(Stop::from(fault)),
    }
}

/// Reads to the end, writes the labels of the symbols that carry all bytes together, one after the
/// other, and flushes. It reads at most one byte more than `most_together`.
fn draw_message<R: Source, W: Sink>(
    alloc: Global,
    label: &Label,
    options: &DrawOptions,
    reader: &mut R,
    writer: &mut W,
) -> Made
    requires reader_sound { IsFalse (R.state reader.old).failed }
    requires writer_sound { IsFalse (W.state writer.old).failed }
    ensures outcome { IsLabelOutcome (message_of label.now options.now)
        (input (R.state reader.old) (R.state reader.new))
        (output (W.state writer.old) (W.state writer.new)) (made_of result) }
    ensures within { ReadsWithin (most_together label.now.content + 1)
        (input (R.state reader.old) (R.state reader.new)) }
{
    let bytes = read_up_to(alloc, most_together(label.content), reader)?;
    let both = match message_text(alloc, label, options, &bytes) {
        Ok(both) => both,
        Err(stop) => return Err(stop),
    };
    match write_all(writer, &both.drawing) {
        Ok(()) => Ok(both.details),
        Err(fault) => Err(Stop::from(fault)),
    }
}

/// Returns the exit status of an outcome: 0 on success, after the details were written on `errors`,
/// else 1, and a line on `errors` says why, or 141 without a line if a pipe was closed.
fn label_status<E: Sink>(errors: &mut E, devices: &Devices, outcome: Made) -> u8
    requires sound { IsFalse (E.state errors.old).failed }
    ensures status { result ≡ label_status (devices_of devices.now) (made_of outcome) }
    ensures reported { Writes (output (E.state errors.old) (E.state errors.new))
        (label_report (devices_of devices.now) (made_of outcome)) }
{
    match outcome {
        Ok(details) => {
            let _ = write_all(errors, &details);
            0
        }
        Err(stop) => report_stop(errors, "qrlabel", devices, stop),
    }
}

/// Draws the label of the whole input, and returns the exit status.
pub fn serve_label<R: ReportingSource, W: ReportingSink, E: Sink>(
    alloc: Global,
    label: &Label,
    options: &DrawOptions,
    reader: &mut R,
    writer: &mut W,
    errors: &mut E,
) -> u8
    requires reader_sound { IsFalse (R.state reader.old).failed }
    requires writer_sound { IsFalse (W.state writer.old).failed }
    requires errors_sound { IsFalse (E.state errors.old).failed }
    ensures { ServesLabel (one_of label.now options.now) label.now
        (input (R.state reader.old) (R.state reader.new))
        (output (W.state writer.old) (W.state writer.new))
        (output (E.state errors.old) (E.state errors.new)) result }
{
    let outcome = draw_label(alloc, label, options, reader, writer);
    let devices = Devices {
        source: label.source,
        not_read: reader.reason(),
        target: label.target,
        not_written: writer.reason(),
    };
    label_status(errors, &devices, outcome)
}

/// Draws the labels of the symbols that carry the whole input together, one after the other, and
/// returns the exit status.
pub fn serve_message<R: ReportingSource, W: ReportingSink, E: Sink>(
    alloc: Global,
    label: &Label,
    options: &DrawOptions,
    reader: &mut R,
    writer: &mut W,
    errors: &mut E,
) -> u8
    requires reader_sound { IsFalse (R.state reader.old).failed }
    requires writer_sound { IsFalse (W.state writer.old).failed }
    requires errors_sound { IsFalse (E.state errors.old).failed }
    ensures { ServesLabel (message_of label.now options.now) label.now
        (input (R.state reader.old) (R.state reader.new))
        (output (W.state writer.old) (W.state writer.new))
        (output (E.state errors.old) (E.state errors.new)) result }
{
    let outcome = draw_message(alloc, label, options, reader, writer);
    let devices = Devices {
        source: label.source,
        not_read: reader.reason(),
        target: label.target,
        not_written: writer.reason(),
    };
    label_status(errors, &devices, outcome)
}

/// Draws the label of each symbol that carries a part of the whole input in a file of its own, and
/// returns the exit status.
pub fn serve_parts<R: ReportingSource, F: Files, E: Sink>(
    alloc: Global,
    label: &Label,
    options: &DrawOptions,
    name: &Numbering,
    reader: &mut R,
    files: &mut F,
    errors: &mut E,
) -> u8
    requires reader_sound { IsFalse (R.state reader.old).failed }
    requires files_sound { IsFalse (F.state files.old).failed }
    requires errors_sound { IsFalse (E.state errors.old).failed }
    ensures { ServesParts label.now options.now
        (input (R.state reader.old) (R.state reader.new)) (F.state files.old) (F.state files.new)
        (numbering_of name.now) (output (E.state errors.old) (E.state errors.new)) result }
{
    let mut path = String::new(alloc);
    let outcome = put_message(alloc, label, options, name, &mut path, reader, files);
    let (target, not_written) = (path.as_str(), files.reason());
    let devices = Devices {
        source: label.source,
        not_read: reader.reason(),
        target,
        not_written,
    };
    label_status(errors, &devices, outcome)
}
