//! The devices that the words name: files, and the input and output of the process.
//!
//! Which file has a name, and what it has, no contract can say. So the contracts here are those of
//! `run` for some devices, and say what becomes of the status and of standard error.
ghost use Rattle.std.specs.Prelude.{◌≡◌, if◌then◌else◌, IsTrue, IsFalse, None, Some};
ghost use Rattle.programs.specs.Devices.{input, output};
ghost use Rattle.label_words.specs.CommandOutcomes.{is_document};
ghost use Rattle.label_words.specs.Values.{said};
ghost use Rattle.labels.specs.Runs.{is_drawn};
ghost use Rattle.qrlabel.specs.Exits.{exit_status, lacks_page, Ends, Exits, Finishes, Stays};
ghost use Rattle.qrlabel.specs.Exits.{DeliversTo, RunsDevice, RunsInput, RunsOn, Serves};

use crate::folder::Folder;
use crate::progress::Counting;
use label_words::{Command, Label, Name, Portion, Values, command_of, is_document};
use labels::{LEFT_OUT, is_drawn, misused, run};
use programs::{
    Fault, FromReader, FromWriter, Gathered, ReportingSink, ReportingSource, Sink, WholeFile, Word,
    report, report_device, write_word_line,
};
use std::alloc::AllocError;
use std::fs::File;
use std::io::{BufReader, ErrorKind, IsTerminal, Read, Stderr};

/// Where the numbers of labels are written.
type Numbers = Gathered<FromWriter<Stderr>>;

/// Does what the words ask for with the devices that they name, and returns the exit status, which
/// is 1 if lines were left out.
pub fn run_on_devices<E: Sink>(rt: &HostRuntime, values: &Values, errors: &mut E) -> u8
    requires sound { IsFalse (E.state errors.old).failed }
    ensures { Exits (said values.now) (E.state errors.old) (E.state errors.new) result }
{
    exit_status(run_command(rt, values, errors))
}

/// Returns the exit status of the process: 1 if lines were left out, else the status of `run`.
fn exit_status(status: u8) -> u8
    ensures { result ≡ exit_status status }
{
    match status {
        LEFT_OUT => 1,
        status => status,
    }
}

/// Does what the words ask for with the devices that they name, and returns the status of `run`, or
/// that of an error of a device.
fn run_command<E: Sink>(rt: &HostRuntime, values: &Values, errors: &mut E) -> u8
    requires sound { IsFalse (E.state errors.old).failed }
    ensures { Serves (said values.now) (E.state errors.old) (E.state errors.new) result }
{
    let mut stdout = rt.stdout();
    let on_terminal = stdout.is_terminal();
    let mut writer = counting(rt, FromWriter::new(stdout), on_terminal);
    match (command_of(values, on_terminal), values.file(Name::Output)) {
        (Err(misuse), _) => misused(errors, misuse, values.wrong_value(misuse)),
        (Ok(Command::Label(label)), Some(path)) if is_one_output(&label) => {
            into_named(rt, values, &label, path, &mut writer, errors)
        }
        (Ok(Command::Label(label)), _) => {
            let status = from_input(rt, values, on_terminal, &mut writer, errors);
            paged(&label, &writer, status, errors)
        }
        (Ok(_), _) => from_input(rt, values, on_terminal, &mut writer, errors),
    }
}

/// Whether all labels have one output.
fn is_one_output(label: &Label) -> bool {
    match label.portion {
        Portion::Whole | Portion::Lines | Portion::Split => true,
        Portion::Files(_) | Portion::Parts(_) => false,
    }
}

/// Returns the status of `run`, or 1 where the labels of lines are the pages of a document that has
/// none, which standard error says.
fn paged<W, E: Sink>(label: &Label, writer: &Counting<W, Numbers>, status: u8, errors: &mut E) -> u8
    ensures status { result ≡ (if lacks_page status label.now writer.now.count then 1 else status) }
    ensures ends { Ends label.now None (E.state errors.old) (E.state errors.new) status result }
{
    if !is_drawn(status) || !is_document(label) || !writer.is_unused() {
        return status;
    }
    if !errors.failed() {
        let word = Word {
            text: label.target,
            in_quotes: false,
        };
        let after = &[": no line has a label"];
        let _ = write_word_line(errors, "qrlabel", &["cannot write "], word, after);
    }
    1
}

/// Returns the place for labels as one that writes on standard error how many there are, if this is
/// a terminal, and the labels themselves are not written on one.
fn counting<T>(rt: &HostRuntime, labels: T, on_terminal: bool) -> Counting<T, Numbers>
    ensures { result.labels ≡ labels }
{
    let mut stderr = rt.stderr();
    let is_shown = stderr.is_terminal() && !on_terminal;
    Counting::new(labels, Gathered::new(FromWriter::new(stderr)), is_shown)
}

/// Draws from the text of the words, from the file that they name, or from standard input.
fn from_input<W: ReportingSink, E: Sink>(
    rt: &HostRuntime,
    values: &Values,
    on_terminal: bool,
    writer: &mut W,
    errors: &mut E,
) -> u8
    requires writer_sound { IsFalse (W.state writer.old).failed }
    requires errors_sound { IsFalse (E.state errors.old).failed }
    ensures { RunsInput (said values.now) on_terminal
        (output (W.state writer.old) (W.state writer.new))
        (output (E.state errors.old) (E.state errors.new)) result }
{
    if let Some(text) = values.get(Name::Text) {
        let mut bytes = text.as_bytes();
        let mut reader = FromReader::new(&mut bytes);
        return run_from(rt, values, on_terminal, &mut reader, writer, errors);
    }
    let Some(path) = values.file(Name::Read) else {
        return from_device(rt, values, on_terminal, rt.stdin(), writer, errors);
    };
    match open(rt, path) {
        Ok(file) => from_device(rt, values, on_terminal, file, writer, errors),
        Err(reason) => report_device(errors, "qrlabel", "read", path, Some(reason)),
    }
}

/// Opens a file to be read, or returns the reason why it can't be.
fn open(rt: &HostRuntime, path: &str) -> Result<File, ErrorKind> {
    let file = File::open(rt, path).map_err(|error| error.kind())?;
    match file.metadata() {
        Ok(metadata) if metadata.is_dir() => Err(ErrorKind::IsADirectory),
        _ => Ok(file),
    }
}

/// Draws from a device. Lines are read through a buffer, since each byte of them is asked for.
fn from_device<R: Read + Drop, W: ReportingSink, E: Sink>(
    rt: &HostRuntime,
    values: &Values,
    on_terminal: bool,
    device: R,
    writer: &mut W,
    errors: &mut E,
) -> u8
    requires writer_sound { IsFalse (W.state writer.old).failed }
    requires errors_sound { IsFalse (E.state errors.old).failed }
    ensures { RunsDevice (said values.now) on_terminal
        (output (W.state writer.old) (W.state writer.new))
        (output (E.state errors.old) (E.state errors.new)) result }
{
    if !values.has(Name::Lines) {
        let mut reader = FromReader::new(device);
        return run_from(rt, values, on_terminal, &mut reader, writer, errors);
    }
    match BufReader::new(rt.alloc(), device) {
        Ok(buffered) => {
            let mut reader = FromReader::new(buffered);
            run_from(rt, values, on_terminal, &mut reader, writer, errors)
        }
        Err(_) => report(errors, "qrlabel", Fault::from(AllocError)),
    }
}

/// Draws from a source, and writes the files that have numbers to where their names say.
fn run_from<R: ReportingSource, W: ReportingSink, E: Sink>(
    rt: &HostRuntime,
    values: &Values,
    on_terminal: bool,
    reader: &mut R,
    writer: &mut W,
    errors: &mut E,
) -> u8
    requires reader_sound { IsFalse (R.state reader.old).failed }
    requires writer_sound { IsFalse (W.state writer.old).failed }
    requires errors_sound { IsFalse (E.state errors.old).failed }
    ensures { RunsOn (said values.now) on_terminal
        (input (R.state reader.old) (R.state reader.new))
        (output (W.state writer.old) (W.state writer.new))
        (output (E.state errors.old) (E.state errors.new)) result }
{
    let mut files = counting(rt, Folder::new(rt), false);
    run(
        rt.alloc(),
        values,
        on_terminal,
        reader,
        writer,
        &mut files,
        errors,
    )
}

/// Draws into what a name stands for: an output of the process, which is written from where it is,
/// or a file.
fn into_named<W: ReportingSink, E: Sink>(
    rt: &HostRuntime,
    values: &Values,
    label: &Label,
    path: &str,
    stdout: &mut Counting<W, Numbers>,
    errors: &mut E,
) -> u8
    requires stdout_sound { IsFalse (W.state stdout.old.labels).failed }
    requires errors_sound { IsFalse (E.state errors.old).failed }
    ensures { DeliversTo (said values.now) label.now (Some path.now)
        (E.state errors.old) (E.state errors.new) result }
{
    match path {
        "/dev/stdout" | "/dev/fd/1" | "/proc/self/fd/1" => {
            let status = from_input(rt, values, false, stdout, errors);
            paged(label, stdout, status, errors)
        }
        "/dev/stderr" | "/dev/fd/2" | "/proc/self/fd/2" => {
            let mut stderr = counting(rt, FromWriter::new(rt.stderr()), true);
            let status = from_input(rt, values, false, &mut stderr, errors);
            paged(label, &stderr, status, errors)
        }
        _ => into_file(rt, values, label, path, errors),
    }
}

/// Draws into a file, which has the label when it is whole. What is not a regular file is written
/// as it is.
fn into_file<E: Sink>(
    rt: &HostRuntime,
    values: &Values,
    label: &Label,
    path: &str,
    errors: &mut E,
) -> u8
    requires { IsFalse (E.state errors.old).failed }
    ensures { DeliversTo (said values.now) label.now (Some path.now)
        (E.state errors.old) (E.state errors.new) result }
{
    let whole = match WholeFile::create(rt, path, "qrlabel") {
        Ok(whole) => whole,
        Err(reason) => return report_device(errors, "qrlabel", "write", path, Some(reason)),
    };
    let status = {
        let mut writer = counting(rt, FromWriter::new(whole.file()), false);
        let status = from_input(rt, values, false, &mut writer, errors);
        paged(label, &writer, status, errors)
    };
    close(whole, status, path, errors)
}

/// Ends a file after the status of `run`, and returns that status, or that of an error of the file.
/// The file gets its name only if there are labels.
fn close<E: Sink>(whole: WholeFile, status: u8, path: &str, errors: &mut E) -> u8
    ensures discarded { IsFalse (is_drawn status) →
        Stays (E.state errors.old) (E.state errors.new) status result }
    ensures finished { IsTrue (is_drawn status) →
        Finishes path.now (E.state errors.old) (E.state errors.new) status result }
{
    if !is_drawn(status) {
        whole.discard();
        return status;
    }
    finish(whole, status, path, errors)
}

/// Gives a file that is whole its name, and returns the status, or that of an error. No file gets
/// its name after a status without labels.
fn finish<E: Sink>(whole: WholeFile, status: u8, path: &str, errors: &mut E) -> u8
    requires labels { IsTrue (is_drawn status) }
    ensures { Finishes path.now (E.state errors.old) (E.state errors.new) status result }
{
    match whole.finish() {
        Ok(()) => status,
        Err(_) if errors.failed() => 1,
        Err(reason) => report_device(errors, "qrlabel", "write", path, Some(reason)),
    }
}
