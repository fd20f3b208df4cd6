//! What the programs share: the arguments of the process, devices to read from and write to,
//! reading and writing all of something, and how they report an error.
//!
//! ```text
//! let mut reader = FromReader::new(stdin);
//! let mut writer = FromWriter::new(stdout);
//! let bytes = read_all(alloc, &mut reader)?;
//! write_all(&mut writer, text)?;
//! ```
#![tactic(auto)]

ghost use Rattle.std.specs.Prelude.{◌≡◌, ◌+◌, ◌^◌, ◌<◌, ◌↔◌, ◌⊎◌, map, Some};
ghost use Rattle.std.specs.Prelude.{IsTrue, IsFalse, IfOk, IfErr, OnOk, IsErrOf, is_err};
ghost use Rattle.std.specs.String.{string_bytes};
ghost use Rattle.qrcode_base.specs.declared.symbols.TheConstants.{LONGEST_DATA};
ghost use Rattle.qrcode_base.specs.declared.types.errors.QrError.TheVariants.{OutOfMemory};
ghost use Rattle.programs.specs.Devices.{input, output, ReadsEnough, ReadsUpTo, ReadsWithin, Writes};
ghost use Rattle.programs.specs.Outcome.{fault_text};
ghost use Rattle.programs.specs.declared.Fault.TheVariants.{Symbol};

use qrcode_base::symbols::LONGEST_DATA;
use qrcode_base::types::QrError;
use std::alloc::{AllocError, Global};
use std::io::ErrorKind;
use std::{env, fmt};

mod descriptors;
mod devices;
mod files;
mod gathered;
mod lines;
mod quotes;
mod reasons;
mod reports;

pub use descriptors::held_descriptors;
pub use devices::{FromReader, FromWriter, ReportingSink, ReportingSource, Sink, Source};
pub use files::{WholeFile, put_file};
pub use gathered::Gathered;
pub use lines::{read_line, skip_line};
pub use quotes::{Word, has_control, write_word_line};
pub use reasons::{CLOSED_PIPE, is_closed_pipe, reason_text, report_device};
pub use reports::{report, write_line};

/// Returns the arguments of the process without the program's name. There are none if one of them
/// is not valid UTF-8. It fails only for lack of memory.
pub fn arguments(rt: &HostRuntime) -> Result<Vec<String>, Fault> {
    match valid_arguments(rt)? {
        Some(words) => Ok(words),
        None => Ok(Vec::new(rt.alloc())),
    }
}

/// Returns the arguments of the process without the program's name, or `None` if one of them is not
/// valid UTF-8. It fails only for lack of memory.
pub fn valid_arguments(rt: &HostRuntime) -> Result<Option<Vec<String>>, Fault> {
    let args = match env::args(rt) {
        Ok(args) => args,
        Err(error) if error.kind() == ErrorKind::OutOfMemory => return Err(Fault::from(AllocError)),
        Err(_) => return Ok(None),
    };
    let mut words = Vec::with_capacity(rt.alloc(), args.len())?;
    for arg in args.skip(1) {
        words.push(arg).map_err(AllocError::from)?;
    }
    Ok(Some(words))
}

/// Returns the strings as borrowed texts.
pub fn lent_words(alloc: Global, words: &[String]) -> Result<Vec<&str>, AllocError>
    ensures { IfOk result (λ lent. map (λ word. word.now) lent.items ≡ map string_bytes words.now) }
{
    let mut lent = Vec::with_capacity(alloc, words.len())?;
    for word in words {
        lent.push(word.as_str())?;
    }
    Ok(lent)
}

/// Why nothing, or not everything, was drawn: an error of the symbol's call, or of a device.
#[derive(Clone, Copy, Debug, PartialEq, Eq)]
pub enum Fault {
    Symbol(QrError),
    Read,
    Write,
}

impl fmt::Display for Fault {
    ghost output = { λ error. Some (fault_text error) };

    fn fmt<W: fmt::Write>(&self, f: &mut fmt::Formatter<W>) -> fmt::Result {
        match *self {
            Fault::Symbol(error) => write!(f, "{error}"),
            Fault::Read => write!(f, "read failed"),
            Fault::Write => write!(f, "write failed"),
        }
    }
}

impl From<AllocError> for Fault {
    ghost from_gives = { λ _ e. e ≡ Symbol OutOfMemory };

    fn from(_error: AllocError) -> Fault {
        Fault::Symbol(QrError::OutOfMemory)
    }
}

impl From<QrError> for Fault {
    ghost from_gives = { λ error e. e ≡ Symbol error };

    fn from(error: QrError) -> Fault {
        Fault::Symbol(error)
    }
}

/// Reads to the end, or until there are 7090 bytes, which no symbol holds. It fails with `Read` if
/// the reader failed, and with `OutOfMemory`.
pub fn read_all<R: Source>(alloc: Global, reader: &mut R) -> Result<Vec<u8>, Fault>
    requires { IsFalse (R.state reader.old).failed }
    ensures read { IfOk result (λ bytes.
        ReadsEnough (input (R.state reader.old) (R.state reader.new)) bytes.items) }
    ensures within { ReadsWithin (LONGEST_DATA + 1)
        (input (R.state reader.old) (R.state reader.new)) }
    ensures failure { IsErrOf result Fault.Read ↔ IsTrue (R.state reader.new).failed }
    ensures fault { IfErr result (λ e. (e ≡ Fault.Read) ⊎ (e ≡ Fault.Symbol QrError.OutOfMemory)) }
{
    read_up_to(alloc, LONGEST_DATA, reader)
}

/// Reads to the end, or until there is one byte more than `most`. It fails with `Read` if the
/// reader failed, and with `OutOfMemory`.
#[tactic(auto, using(crate::proofs::DeviceLemmas::reading))]
pub fn read_up_to<R: Source>(alloc: Global, most: usize, reader: &mut R) -> Result<Vec<u8>, Fault>
    requires sound { IsFalse (R.state reader.old).failed }
    requires bound { most < 2 ^ 32 }
    ensures read { IfOk result (λ bytes.
        ReadsUpTo most (input (R.state reader.old) (R.state reader.new)) bytes.items) }
    ensures within { ReadsWithin (most + 1) (input (R.state reader.old) (R.state reader.new)) }
    ensures failure { IsErrOf result Fault.Read ↔ IsTrue (R.state reader.new).failed }
    ensures fault { IfErr result (λ e. (e ≡ Fault.Read) ⊎ (e ≡ Fault.Symbol QrError.OutOfMemory)) }
{
    let mut bytes = Vec::new(alloc);
    let mut buf = [0u8; 512];
    let too_many = most + 1;
    'reading: while bytes.len() < too_many {
        let room = buf.len().min(too_many - bytes.len());
        let Some(n) = reader.pull(&mut buf[..room]) else {
            return Err(Fault::Read);
        };
        if n == 0 {
            return Ok(bytes);
        }
        bytes.extend_from_slice(&buf[..n])?;
    }
    Ok(bytes)
}

/// Writes the whole text, and flushes. It fails with `Write` if the writer failed.
pub fn write_all<W: Sink>(writer: &mut W, text: &[u8]) -> Result<(), Fault>
    requires { IsFalse (W.state writer.old).failed }
    ensures writes { Writes (output (W.state writer.old) (W.state writer.new)) text.now }
    ensures flushed { OnOk result ((W.state writer.new).flushed ≡ (W.state writer.new).written) }
    ensures failure { (W.state writer.new).failed ≡ is_err result }
    ensures fault { IfErr result (λ e. e ≡ Fault.Write) }
{
    push_all(writer, text)?;
    if writer.flush() {
        Ok(())
    } else {
        Err(Fault::Write)
    }
}

/// Writes the whole text, without a flush. It fails with `Write` if the writer failed.
#[tactic(auto, using(crate::proofs::DeviceLemmas::writing))]
pub fn push_all<W: Sink>(writer: &mut W, text: &[u8]) -> Result<(), Fault>
    requires { IsFalse (W.state writer.old).failed }
    ensures writes { Writes (output (W.state writer.old) (W.state writer.new)) text.now }
    ensures failure { (W.state writer.new).failed ≡ is_err result }
    ensures fault { IfErr result (λ e. e ≡ Fault.Write) }
{
    let mut done = 0;
    'writing: while done < text.len() {
        let Some(n) = writer.push(&text[done..]) else {
            return Err(Fault::Write);
        };
        done += n;
    }
    Ok(())
}
