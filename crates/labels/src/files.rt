//! Places for files, and labels of lines in files of their own.
ghost use Rattle.std.specs.Prelude.{◌≡◌, ◌⊎◌, [], ◌∷◌, not, if◌then◌else◌, IsTrue, IsFalse};
ghost use Rattle.std.specs.Prelude.{IfOk, IfErr, OnOk, IsOk, is_ok, is_some};
ghost use Rattle.std.specs.String.{string_bytes};
ghost use Rattle.programs.specs.Devices.{input, output};
ghost use Rattle.labels.specs.FileStates.{FilesState, AddsFiles};
ghost use Rattle.labels.specs.Folders.{folder};
ghost use Rattle.labels.specs.Lines.{IsLinesOutcome};
ghost use Rattle.programs.specs.declared.Fault.TheVariants.{Symbol, Write};
ghost use Rattle.qrcode_core.specs.declared.types.errors.QrError.TheVariants.{OutOfMemory};
ghost use Rattle.label_words.specs.Names.{numbered};
ghost use Rattle.label_words.specs.Numberings.{numbering_of};
ghost use Rattle.labels.specs.Reports.{Reports};
ghost use Rattle.labels.specs.Stops.{numbered_line};
ghost use Rattle.single_label.specs.declared.stop.Stop.TheVariants.{Fault as FaultStop};

use crate::lines::{Made, next_made};
use crate::report::report_left_out;
use crate::stop::LineStop;
use label_words::{Label, Numbering, write_numbered};
use programs::{Fault, Sink, Source};
use qrcode_core::types::QrError;
use qrcode_render::DrawOptions;
use single_label::Stop;
use std::alloc::Global;
use std::io::ErrorKind;

/// A place for files.
pub trait Files {
    ghost state: { Self → FilesState };

    /// Writes a file, which has its name when it is whole, and returns whether this succeeded.
    fn put(&mut self, name: &str, content: &[u8]) -> bool
        requires { IsFalse (state self.old).failed }
        ensures files { AddsFiles (state self.old).files (state self.new).files
            (if result then (name.now, content.now) ∷ [] else []) }
        ensures failure { (state self.new).failed ≡ not result };

    /// Returns why a file could not be written, and `None` if each was.
    fn reason(&self) -> Option<ErrorKind>
        ensures { result ≡ (state self.now).reason };

    // There is a reason exactly if a file could not be written.
    ghost reason_of_failure: { (s : Self) → is_some (state s).reason ≡ (state s).failed };
}

/// Writes the label of the line of this number into a file, whose name has the number, or reports
/// why the line is left out. It returns whether there is a label. It fails if the file could not be
/// written, and for lack of memory. `path` is the name of the file then.
fn put_made<F: Files, E: Sink>(
    made: Made,
    name: &Numbering,
    number: usize,
    path: &mut String,
    files: &mut F,
    errors: &mut E,
) -> Result<bool, LineStop>
    requires { IsFalse (F.state files.old).failed }
    ensures drawn { IfOk result (λ is_drawn. is_drawn ≡ is_ok made) }
    ensures sound { OnOk result (IsFalse (F.state files.new).failed) }
    ensures put { OnOk result (IfOk made (λ drawing. (E.state errors.new ≡ E.state errors.old)
        × AddsFiles (F.state files.old).files (F.state files.new).files
        ((numbered (numbering_of name.now) number, drawing.items) ∷ []))) }
    ensures left_out { IfErr made (λ stop. (F.state files.new ≡ F.state files.old)
        × Reports (E.state errors.old) (E.state errors.new)
        (numbered_line (record { number = number; stop = stop }))) }
    ensures broken { IfErr result (λ at. (at.number ≡ number) × IsOk made
        × (E.state errors.new ≡ E.state errors.old)
        × AddsFiles (F.state files.old).files (F.state files.new).files []
        × (((at.stop ≡ FaultStop Write) × IsTrue (F.state files.new).failed)
        ⊎ ((at.stop ≡ FaultStop (Symbol OutOfMemory)) × (F.state files.new ≡ F.state files.old)))) }
    ensures numbered { IfErr result (λ at. at.stop ≡ FaultStop Write →
        string_bytes path.new ≡ numbered (numbering_of name.now) number) }
{
    match made {
        Ok(drawing) => {
            if write_numbered(path, name, number).is_err() {
                let stop = Stop::Fault(Fault::Symbol(QrError::OutOfMemory));
                return Err(LineStop { number, stop });
            }
            if !files.put(path, &drawing) {
                let stop = Stop::Fault(Fault::Write);
                return Err(LineStop { number, stop });
            }
            Ok(true)
        }
        Err(stop) => {
            report_left_out(errors, LineStop { number, stop });
            Ok(false)
        }
    }
}

/// Writes the label of each line into a file of its own, whose name has the number of the
/// line. It returns and fails as `draw_lines` does. `path` is the name of the file that could
/// not be written.
#[tactic(auto, using(crate::proofs::LabelLemmas::drawn))]
pub fn draw_files<R: Source, F: Files, E: Sink>(
    alloc: Global,
    label: &Label,
    options: &DrawOptions,
    name: &Numbering,
    path: &mut String,
    reader: &mut R,
    files: &mut F,
    errors: &mut E,
) -> Result<bool, LineStop>
    requires reader_sound { IsFalse (R.state reader.old).failed }
    requires files_sound { IsFalse (F.state files.old).failed }
    ensures outcome { IsLinesOutcome label.now options.now
        (input (R.state reader.old) (R.state reader.new))
        (folder (F.state files.old) (F.state files.new) label.now.first (numbering_of name.now)
        (output (E.state errors.old) (E.state errors.new))) result }
    ensures numbered { IfErr result (λ at. at.stop ≡ FaultStop Write →
        string_bytes path.new ≡ numbered (numbering_of name.now) at.number) }
{
    let mut line = Vec::new(alloc);
    let mut every = true;
    'lines: for number in label.first..usize::MAX {
        match next_made::<Vec<u8>, R>(alloc, label, options, &mut line, reader) {
            Ok(None) => return Ok(every),
            Err(stop) => return Err(LineStop { number, stop }),
            Ok(Some(made)) => match put_made(made, name, number, path, files, errors) {
                Ok(is_drawn) => every &= is_drawn,
                Err(at) => return Err(at),
            },
        }
    }
    Err(LineStop {
        number: usize::MAX,
        stop: Stop::Fault(Fault::Symbol(QrError::OutOfMemory)),
    })
}
