//! From the lines of an input to their labels.
ghost use Rattle.std.specs.Prelude.{◌≡◌, ◌↔◌, [], ◌∷◌, IsTrue, IsFalse, IsErrOf, IfOk, IfErr};
ghost use Rattle.std.specs.Prelude.{MatchOption, OnOk, IsOk, is_ok};
ghost use Rattle.programs.specs.Devices.{input, output, Writes};
ghost use Rattle.programs.specs.declared.Fault.TheVariants.{Read, Write};
ghost use Rattle.single_label.specs.declared.stop.Stop.TheVariants.{Fault as FaultStop};
ghost use Rattle.labels.specs.Lines.{IsLinesOutcome, AreLabels, IsEnded, StopsNext, stream};
ghost use Rattle.labels.specs.Lines.{is_of_line};
ghost use Rattle.labels.specs.Stop.{made_as};
ghost use Rattle.labels.specs.Reports.{Reports};
ghost use Rattle.labels.specs.Stops.{numbered_line};

use crate::report::report_left_out;
use crate::stop::LineStop;
use gs1::{CheckError, Gs1Error};
use gs1_links::LinkError;
use label_words::Label;
use programs::{Fault, Sink, Source, read_line, skip_line, write_all};
use qrcode_core::types::QrError;
use qrcode_render::DrawOptions;
use single_label::{Shown, Stop, label_bytes, most_bytes};
use std::alloc::Global;

/// What comes of a line: its label, or the reason why it has none.
pub type Made = Result<Vec<u8>, Stop>;

/// Whether the line is the reason, and not a device or a lack of memory.
fn is_of_line(stop: Stop) -> bool
    ensures { result ≡ is_of_line stop }
{
    match stop {
        Stop::Fault(Fault::Symbol(error)) => error != QrError::OutOfMemory,
        Stop::Fault(Fault::Read | Fault::Write) | Stop::TooManyPages => false,
        Stop::Elements(at) => at.error != Gs1Error::OutOfMemory,
        Stop::NotAllowed(error) => error != CheckError::OutOfMemory,
        Stop::NoLink(error) => error != LinkError::OutOfMemory,
        Stop::Empty | Stop::NoMicroText | Stop::TooLong(_) | Stop::TooManyParts => true,
    }
}

/// Reads the next line into `line`, and returns its label, or `None` if there is no more line. The
/// reason why there is no label is returned in its place where lines are to be left out, and the
/// whole line was read then; else it is the error.
pub fn next_made<S: Shown, R: Source>(
    alloc: Global,
    label: &Label,
    options: &DrawOptions,
    line: &mut Vec<u8>,
    reader: &mut R,
) -> Result<Option<Result<S, Stop>>, Stop>
    requires sound { IsFalse (R.state reader.old).failed }
    requires allowed { S.allowed label.now options.now }
    ensures made { IfOk result (λ found. MatchOption found
        (IsEnded (R.state reader.old).left (R.state reader.new).left)
        (λ made. AreLabels label.now options.now
        (R.state reader.old).left (R.state reader.new).left
        (made_as (S.drawing label.now options.now) made ∷ []))) }
    ensures refusal { IfErr result
        (StopsNext label.now (R.state reader.old).left (R.state reader.new).left) }
    ensures failure { IsErrOf result (FaultStop Read) ↔ IsTrue (R.state reader.new).failed }
{
    let most = most_bytes(label.content);
    if !read_line(reader, most, line)? {
        return Ok(None);
    }
    match label_bytes(alloc, label, options, line) {
        Ok(drawing) => Ok(Some(Ok(drawing))),
        Err(stop) if label.keeps_going && is_of_line(stop) => {
            if line.len() > most + 1 {
                skip_line(reader)?;
            }
            Ok(Some(Err(stop)))
        }
        Err(stop) => Err(stop),
    }
}

/// Writes the label of the line of this number, and flushes, or reports why the line is left out.
/// It returns whether there is a label, and fails if the writer failed.
fn write_made<W: Sink, E: Sink>(
    made: Made,
    number: usize,
    writer: &mut W,
    errors: &mut E,
) -> Result<bool, LineStop>
    requires { IsFalse (W.state writer.old).failed }
    ensures drawn { IfOk result (λ is_drawn. is_drawn ≡ is_ok made) }
    ensures sound { OnOk result (IsFalse (W.state writer.new).failed) }
    ensures written { IfOk made (λ drawing. (E.state errors.new ≡ E.state errors.old)
        × Writes (output (W.state writer.old) (W.state writer.new)) drawing.items) }
    ensures flushed { OnOk result (OnOk made
        ((W.state writer.new).flushed ≡ (W.state writer.new).written)) }
    ensures left_out { IfErr made (λ stop. (W.state writer.new ≡ W.state writer.old)
        × Reports (E.state errors.old) (E.state errors.new)
        (numbered_line (record { number = number; stop = stop }))) }
    ensures broken { IfErr result (λ at. (at ≡ record { number = number; stop = FaultStop Write })
        × IsTrue (W.state writer.new).failed × IsOk made) }
{
    match made {
        Ok(drawing) => {
            if write_all(writer, &drawing).is_err() {
                let stop = Stop::Fault(Fault::Write);
                return Err(LineStop { number, stop });
            }
            Ok(true)
        }
        Err(stop) => {
            report_left_out(errors, LineStop { number, stop });
            Ok(false)
        }
    }
}

/// Writes the labels of all lines in their order, and flushes after each. It returns whether there
/// is a label of each line: others are left out, if the label says so, and reported on `errors`.
/// Else it fails at the first line that has no label, with its number and the reason;
/// `OutOfMemory` is also the reason at line 2^64 - 1, which has the greatest number.
#[tactic(auto, using(crate::proofs::LabelLemmas::drawn))]
pub fn draw_lines<R: Source, W: Sink, E: Sink>(
    alloc: Global,
    label: &Label,
    options: &DrawOptions,
    reader: &mut R,
    writer: &mut W,
    errors: &mut E,
) -> Result<bool, LineStop>
    requires reader_sound { IsFalse (R.state reader.old).failed }
    requires writer_sound { IsFalse (W.state writer.old).failed }
    ensures { IsLinesOutcome label.now options.now
        (input (R.state reader.old) (R.state reader.new))
        (stream (output (W.state writer.old) (W.state writer.new)) label.now.first
        (output (E.state errors.old) (E.state errors.new))) result }
{
    let mut line = Vec::new(alloc);
    let mut every = true;
    'lines: for number in label.first..usize::MAX {
        match next_made::<Vec<u8>, R>(alloc, label, options, &mut line, reader) {
            Ok(None) => return Ok(every),
            Err(stop) => return Err(LineStop { number, stop }),
            Ok(Some(made)) => match write_made(made, number, writer, errors) {
                Ok(is_drawn) => every &= is_drawn,
                Err(at) => return Err(at),
            },
        }
    }
    Err(LineStop {
        number: usize::MAX,
        stop: Stop::Fault(Fault::Symbol(QrError::OutOfMemory)),
    })
}
