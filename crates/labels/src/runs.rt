//! From what the words say to the exit status.
//!
//! 1. Find out what is asked for (`command_of`).
//! 2. Write the help or the version (`show`), or draw labels (`run_label`): those of lines, or
//!    those of the whole input (`whole`).
ghost use Rattle.std.specs.Prelude.{◌≡◌, true, IsTrue, IsFalse, if◌then◌else◌, []};
ghost use Rattle.std.specs.Option.{option_copied};
ghost use Rattle.programs.specs.Devices.{input, output, Writes};
ghost use Rattle.label_words.specs.Commands.{command_asked};
ghost use Rattle.label_words.specs.Misuses.{wrong_line};
ghost use Rattle.labels.specs.Documents.{document};
ghost use Rattle.labels.specs.Folders.{folder};
ghost use Rattle.labels.specs.Runs.{ServesPortion};
ghost use Rattle.labels.specs.Lines.{stream};
ghost use Rattle.label_words.specs.Names.{numbered};
ghost use Rattle.single_label.specs.Pages.{are_pages};
ghost use Rattle.label_words.specs.Numberings.{numbering_of};
ghost use Rattle.labels.specs.Devices.{devices_of};
ghost use Rattle.labels.specs.Runs.{ServesLines, lines_status, lines_reported};
ghost use Rattle.labels.specs.Runs.{Shows, RunsLabel, Runs, is_drawn};
ghost use Rattle.labels.specs.Sizes.{size_report};
ghost use Rattle.label_words.specs.Values.{said, wrong_of};
ghost use Rattle.label_words.specs.Settings.{setting_option, setting_wrong};
ghost use Rattle.label_words.specs.Words.{value_said};

use crate::document::draw_pages;
use crate::files::{Files, draw_files};
use crate::lines::draw_lines;
use crate::report::report_end;
use crate::sizes::report_size;
use crate::stop::{Devices, LineStop};
use crate::whole::{serve_label, serve_message, serve_parts};
use label_words::{
    Command, Label, Misuse, Name, Numbering, Portion, Values, command_of, help_text, version_text,
    write_misuse,
};
use programs::{ReportingSink, ReportingSource, Sink, report_device, write_all};
use qrcode_render::{DrawOptions, Format, Setting};
use single_label::are_pages;
use std::alloc::Global;

/// The status where lines were left out, and the labels of all others were written.
pub const LEFT_OUT: u8 = 3;

/// Returns the exit status for the labels of lines: 0 if there is one of each, `LEFT_OUT` if there
/// is one of each line that is not left out. If they end at a line, a line on `errors` says why.
fn lines_status<E: Sink>(errors: &mut E, devices: &Devices, outcome: Result<bool, LineStop>) -> u8
    ensures status { result ≡ lines_status (devices_of devices.now) outcome }
    ensures reported { Writes (output (E.state errors.old) (E.state errors.new))
        (lines_reported (devices_of devices.now) outcome) }
    ensures failed { IsTrue (E.state errors.old).failed → IsTrue (E.state errors.new).failed }
{
    match outcome {
        Ok(true) => 0,
        Ok(false) => LEFT_OUT,
        Err(at) => report_end(errors, devices, at),
    }
}

/// Draws the labels of the lines of the input in one output, and returns the exit status.
fn serve_lines<R: ReportingSource, W: ReportingSink, E: Sink>(
    alloc: Global,
    label: &Label,
    options: &DrawOptions,
    reader: &mut R,
    writer: &mut W,
    errors: &mut E,
) -> u8
    requires reader_sound { IsFalse (R.state reader.old).failed }
    requires writer_sound { IsFalse (W.state writer.old).failed }
    ensures { ServesLines label.now options.now
        (input (R.state reader.old) (R.state reader.new))
        (stream (output (W.state writer.old) (W.state writer.new)) label.now.first)
        (λ number. label.now.target.now)
        (output (E.state errors.old) (E.state errors.new)) result }
{
    let outcome = draw_lines(alloc, label, options, reader, writer, errors);
    let devices = Devices {
        source: label.source,
        not_read: reader.reason(),
        target: label.target,
        not_written: writer.reason(),
    };
    lines_status(errors, &devices, outcome)
}

/// Draws the labels of the lines of the input as the pages of one document, and returns the
/// exit status.
fn serve_pages<R: ReportingSource, W: ReportingSink, E: Sink>(
    alloc: Global,
    label: &Label,
    options: &DrawOptions,
    reader: &mut R,
    writer: &mut W,
    errors: &mut E,
) -> u8
    requires pages { are_pages label.now options.now ≡ true }
    requires reader_sound { IsFalse (R.state reader.old).failed }
    requires writer_sound { IsFalse (W.state writer.old).failed }
    ensures { ServesLines label.now options.now
        (input (R.state reader.old) (R.state reader.new))
        (document (option_copied options.now.title)
        (output (W.state writer.old) (W.state writer.new)) label.now.first)
        (λ number. label.now.target.now)
        (output (E.state errors.old) (E.state errors.new)) result }
{
    let outcome = draw_pages(alloc, label, options, reader, writer, errors);
    let devices = Devices {
        source: label.source,
        not_read: reader.reason(),
        target: label.target,
        not_written: writer.reason(),
    };
    lines_status(errors, &devices, outcome)
}

/// Draws each label of a line of the input in a file of its own, and returns the exit status.
fn serve_files<R: ReportingSource, F: Files, E: Sink>(
    alloc: Global,
    label: &Label,
    options: &DrawOptions,
    name: &Numbering,
    reader: &mut R,
    files: &mut F,
    errors: &mut E,
) -> u8
    requires reader_sound { IsFalse (R.state reader.old).failed }
    requires files_sound { IsFalse (F.state files.old).failed }
    ensures { ServesLines label.now options.now
        (input (R.state reader.old) (R.state reader.new))
        (folder (F.state files.old) (F.state files.new) label.now.first (numbering_of name.now))
        (numbered (numbering_of name.now))
        (output (E.state errors.old) (E.state errors.new)) result }
{
    let mut path = String::new(alloc);
    let outcome = draw_files(
        alloc, label, options, name, &mut path, reader, files, errors,
    );
    let devices = Devices {
        source: label.source,
        not_read: reader.reason(),
        target: path.as_str(),
        not_written: files.reason(),
    };
    lines_status(errors, &devices, outcome)
}

/// Draws the label of the whole input or those of its lines, and returns the exit status: 0 if all
/// labels were written, 1 if they were not, which one line on `errors` explains, and 141 without a
/// line if a pipe was closed.
fn serve<R: ReportingSource, W: ReportingSink, F: Files, E: Sink>(
    alloc: Global,
    label: &Label,
    options: &DrawOptions,
    reader: &mut R,
    writer: &mut W,
    files: &mut F,
    errors: &mut E,
) -> u8
    requires reader_sound { IsFalse (R.state reader.old).failed }
    requires writer_sound { IsFalse (W.state writer.old).failed }
    requires files_sound { IsFalse (F.state files.old).failed }
    requires errors_sound { IsFalse (E.state errors.old).failed }
    ensures served { ServesPortion label.now.portion label.now options.now
        (input (R.state reader.old) (R.state reader.new))
        (output (W.state writer.old) (W.state writer.new))
        (record { old = F.state files.old; new = F.state files.new })
        (output (E.state errors.old) (E.state errors.new)) result }
{
    match label.portion {
        Portion::Whole => serve_label(alloc, label, options, reader, writer, errors),
        Portion::Lines if are_pages(label, options) => {
            serve_pages(alloc, label, options, reader, writer, errors)
        }
        Portion::Lines => serve_lines(alloc, label, options, reader, writer, errors),
        Portion::Files(name) => serve_files(alloc, label, options, &name, reader, files, errors),
        Portion::Split => serve_message(alloc, label, options, reader, writer, errors),
        Portion::Parts(name) => serve_parts(alloc, label, options, &name, reader, files, errors),
    }
}

/// Writes what is wrong with the words, and returns the status 2. `value` is the value of the option
/// that is wrong, if it is known.
pub fn misused<E: Sink>(errors: &mut E, misuse: Misuse, value: Option<&str>) -> u8
    requires sound { IsFalse (E.state errors.old).failed }
    ensures status { result ≡ 2 }
    ensures reported { Writes (output (E.state errors.old) (E.state errors.new))
        (wrong_line (option_copied value.entry) (wrong_of misuse.entry)) }
{
    let _ = write_misuse(errors, misuse, value);
    2
}

/// Writes a text, and returns the exit status.
fn show<W: ReportingSink, E: Sink>(text: &str, writer: &mut W, errors: &mut E) -> u8
    requires writer_sound { IsFalse (W.state writer.old).failed }
    requires errors_sound { IsFalse (E.state errors.old).failed }
    ensures { Shows text.now (output (W.state writer.old) (W.state writer.new))
        (output (E.state errors.old) (E.state errors.new)) result }
{
    match write_all(writer, text.as_bytes()) {
        Ok(()) => 0,
        Err(_) => report_device(
            errors,
            "qrlabel",
            "write",
            "standard output",
            writer.reason(),
        ),
    }
}

/// Returns the option that gives a setting of the picture.
fn setting_option(setting: Setting) -> Name
    ensures { result ≡ setting_option setting }
{
    match setting {
        Setting::Scale => Name::Scale,
        Setting::Quiet => Name::Quiet,
        Setting::ModuleMm => Name::ModuleMm,
        Setting::Dpi => Name::Dpi,
        Setting::Inverted => Name::Inverted,
        Setting::Title => Name::Title,
        Setting::Caption => Name::Hri,
        Setting::At => Name::At,
        Setting::Copies => Name::Copies,
        Setting::Compressed => Name::Compressed,
        Setting::Feed => Name::Feed,
        Setting::Cut => Name::Cut,
        Setting::Dark => Name::Dark,
        Setting::Light => Name::Light,
        Setting::AnyColors => Name::AnyColors,
    }
}

/// Returns what is wrong with the words where a setting is not valid in a format.
fn setting_misuse<'a>(values: &Values<'a>, format: Format, setting: Setting) -> Misuse<'a>
    ensures { wrong_of result ≡ setting_wrong (said values.now) format setting }
{
    match setting {
        Setting::Title if format.has_title() => Misuse::LongTitle,
        Setting::Dpi if values.has(Name::Dpmm) => Misuse::Invalid(Name::Dpmm),
        setting => Misuse::Invalid(setting_option(setting)),
    }
}

/// Writes that a setting is not valid, by its option, and returns the status 2.
fn wrong_setting<E: Sink>(errors: &mut E, values: &Values, format: Format, setting: Setting) -> u8
    requires sound { IsFalse (E.state errors.old).failed }
    ensures status { result ≡ 2 }
    ensures reported { Writes (output (E.state errors.old) (E.state errors.new))
        (wrong_line (value_said (said values.now) (setting_wrong (said values.now) format setting))
        (setting_wrong (said values.now) format setting)) }
{
    let misuse = setting_misuse(values, format, setting);
    misused(errors, misuse, values.wrong_value(misuse))
}

/// Whether there are labels by an exit status of `run`: of all, or of each line that was not left
/// out.
pub fn is_drawn(status: u8) -> bool
    ensures { result ≡ is_drawn status }
{
    status == 0 || status == LEFT_OUT
}

/// Writes how wide a module is, if there are labels and it is not what was asked for.
fn last_report<E: Sink>(errors: &mut E, status: u8, label: &Label, options: &DrawOptions)
    ensures failed { IsTrue (E.state errors.old).failed → IsTrue (E.state errors.new).failed }
    ensures reported { Writes (output (E.state errors.old) (E.state errors.new))
        (if is_drawn status then size_report label.now options.now else []) }
{
    if is_drawn(status) {
        report_size(errors, label, options);
    }
}

/// Draws the label, and returns the exit status: that of `serve`, or 2 if a setting of the picture
/// is not valid.
fn run_label<R: ReportingSource, W: ReportingSink, F: Files, E: Sink>(
    alloc: Global,
    values: &Values,
    label: &Label,
    reader: &mut R,
    writer: &mut W,
    files: &mut F,
    errors: &mut E,
) -> u8
    requires reader_sound { IsFalse (R.state reader.old).failed }
    requires writer_sound { IsFalse (W.state writer.old).failed }
    requires files_sound { IsFalse (F.state files.old).failed }
    requires errors_sound { IsFalse (E.state errors.old).failed }
    ensures { RunsLabel (said values.now) label.now
        ((reader.new ≡ reader.old) × (writer.new ≡ writer.old) × (files.new ≡ files.old))
        (input (R.state reader.old) (R.state reader.new))
        (output (W.state writer.old) (W.state writer.new))
        (record { old = F.state files.old; new = F.state files.new })
        (output (E.state errors.old) (E.state errors.new)) result }
{
    match DrawOptions::new(alloc, label.format, &label.settings) {
        Ok(options) => {
            let status = serve(alloc, label, &options, reader, writer, files, errors);
            last_report(errors, status, label, &options);
            status
        }
        Err(setting) => wrong_setting(errors, values, label.format, setting),
    }
}

/// Does what the words ask for, and returns the exit status: 0 if all was written, 1 after an
/// error, 2 if the words are wrong, 141 if a pipe was closed, and `LEFT_OUT`. An error of `errors`
/// itself is ignored.
pub fn run<R: ReportingSource, W: ReportingSink, F: Files, E: Sink>(
    alloc: Global,
    values: &Values,
    on_terminal: bool,
    reader: &mut R,
    writer: &mut W,
    files: &mut F,
    errors: &mut E,
) -> u8
    requires reader_sound { IsFalse (R.state reader.old).failed }
    requires writer_sound { IsFalse (W.state writer.old).failed }
    requires files_sound { IsFalse (F.state files.old).failed }
    requires errors_sound { IsFalse (E.state errors.old).failed }
    ensures { Runs (said values.now) (command_asked on_terminal (said values.now))
        ((reader.new ≡ reader.old) × (writer.new ≡ writer.old) × (files.new ≡ files.old))
        (input (R.state reader.old) (R.state reader.new))
        (output (W.state writer.old) (W.state writer.new))
        (record { old = F.state files.old; new = F.state files.new })
        (output (E.state errors.old) (E.state errors.new)) result }
{
    match command_of(values, on_terminal) {
        Ok(Command::Help) => show(help_text(), writer, errors),
        Ok(Command::Version) => show(version_text(), writer, errors),
        Ok(Command::Label(label)) => {
            run_label(alloc, values, &label, reader, writer, files, errors)
        }
        Err(misuse) => misused(errors, misuse, values.wrong_value(misuse)),
    }
}
