//! The labels of the symbols that carry a message together, each in a file of its own.
ghost use Rattle.std.specs.Prelude.{◌≡◌, ◌⊎◌, ◌+◌, ◌<◌, [], ◌∷◌, map, vec_items};
ghost use Rattle.std.specs.Prelude.{IfErr, OnOk, IsTrue, IsFalse};
ghost use Rattle.std.specs.String.{string_bytes};
ghost use Rattle.programs.specs.Devices.{input, ReadsWithin};
ghost use Rattle.programs.specs.declared.Fault.TheVariants.{Symbol, Write};
ghost use Rattle.qrcode_core.specs.declared.types.errors.QrError.TheVariants.{OutOfMemory};
ghost use Rattle.labels.specs.FileStates.{AddsFiles};
ghost use Rattle.labels.specs.Folders.{part_files, PutsSome};
ghost use Rattle.labels.specs.Stop.{made_of};
ghost use Rattle.label_words.specs.Names.{numbered};
ghost use Rattle.label_words.specs.Numberings.{numbering_of};
ghost use Rattle.labels.specs.Runs.{IsPartsOutcome};
ghost use Rattle.single_label.specs.Parts.{most_together};
ghost use Rattle.single_label.specs.declared.stop.Stop.TheVariants.{Fault as FaultStop};

use crate::files::Files;
use crate::lines::Made;
use label_words::{Label, Numbering, write_numbered};
use programs::{Fault, Source, read_up_to};
use qrcode_core::types::QrError;
use qrcode_render::DrawOptions;
use single_label::{Stop, message_labels, most_together};
use std::alloc::Global;

/// Writes a drawing into the file of this number. It fails if the file could not be written, whose
/// name `path` is then, and for lack of memory.
fn put_part<F: Files>(
    drawing: &[u8],
    name: &Numbering,
    number: usize,
    path: &mut String,
    files: &mut F,
) -> Result<(), Stop>
    requires { IsFalse (F.state files.old).failed }
    ensures sound { OnOk result (IsFalse (F.state files.new).failed) }
    ensures put { OnOk result (AddsFiles (F.state files.old).files (F.state files.new).files
        ((numbered (numbering_of name.now) number, drawing.now) ∷ [])) }
    ensures nothing { IfErr result (λ stop.
        AddsFiles (F.state files.old).files (F.state files.new).files []) }
    ensures why { IfErr result (λ stop. ((stop ≡ FaultStop Write)
        × IsTrue (F.state files.new).failed
        × (string_bytes path.new ≡ numbered (numbering_of name.now) number))
        ⊎ ((stop ≡ FaultStop (Symbol OutOfMemory)) × IsFalse (F.state files.new).failed)) }
{
    if write_numbered(path, name, number).is_err() {
        return Err(Stop::Fault(Fault::Symbol(QrError::OutOfMemory)));
    }
    if files.put(path, drawing) {
        Ok(())
    } else {
        Err(Stop::Fault(Fault::Write))
    }
}

/// Writes each drawing into the file of its number, counted from 1. It fails as `put_part` does.
fn put_parts<F: Files>(
    drawings: &[Vec<u8>],
    name: &Numbering,
    path: &mut String,
    files: &mut F,
) -> Result<(), Stop>
    requires { IsFalse (F.state files.old).failed }
    ensures sound { OnOk result (IsFalse (F.state files.new).failed) }
    ensures put { OnOk result (AddsFiles (F.state files.old).files (F.state files.new).files
        (part_files (numbering_of name.now) 1 (map vec_items drawings.now))) }
    ensures begun { IfErr result (λ stop. PutsSome (numbering_of name.now)
        (map vec_items drawings.now) (F.state files.old) (F.state files.new) stop
        (string_bytes path.new)) }
{
    'parts: for index in 0..drawings.len() {
        match put_part(&drawings[index], name, index + 1, path, files) {
            Ok(()) => {}
            Err(stop) => return Err(stop),
        }
    }
    Ok(())
}

/// Reads to the end, and writes the label of each symbol that carries a part of all bytes into a
/// file of its own, whose name has its number, counted from 1. It reads at most one byte more than
/// `most_together`. `path` is the name of the file that could not be written.
pub fn put_message<R: Source, F: Files>(
    alloc: Global,
    label: &Label,
    options: &DrawOptions,
    name: &Numbering,
    path: &mut String,
    reader: &mut R,
    files: &mut F,
) -> Made
    requires reader_sound { IsFalse (R.state reader.old).failed }
    requires files_sound { IsFalse (F.state files.old).failed }
    ensures outcome { IsPartsOutcome label.now options.now
        (input (R.state reader.old) (R.state reader.new)) (F.state files.old) (F.state files.new)
        (numbering_of name.now) (string_bytes path.new) (made_of result) }
    ensures within { ReadsWithin (most_together label.now.content + 1)
        (input (R.state reader.old) (R.state reader.new)) }
{
    let bytes = read_up_to(alloc, most_together(label.content), reader)?;
    let message = match message_labels(alloc, label, options, &bytes) {
        Ok(message) => message,
        Err(stop) => return Err(stop),
    };
    match put_parts(&message.drawings, name, path, files) {
        Ok(()) => Ok(message.details),
        Err(stop) => Err(stop),
    }
}
