//! Lines of an input, one after the other.
ghost use Rattle.std.specs.Prelude.{◌≡◌, ◌<◌, ◌^◌, ◌↔◌, ◌⊎◌, [], Ok, true, false};
ghost use Rattle.std.specs.Prelude.{IsTrue, IsFalse, IfErr, OnOk, OnErr, IsErrOf};
ghost use Rattle.std.specs.Io.BufRead.{strip_last, DropsThrough};
ghost use Rattle.std.specs.Io.KnownBytes.{IsAtEnd};
ghost use Rattle.programs.specs.Lines.{ReadsLine, ReadsLines, BeginsLine};

use crate::{Fault, Source};
use qrcode_base::types::QrError;
use std::alloc::AllocError;

/// Reads the next line into `line`, in place of what is there, without its newline and a carriage
/// return before this, and returns `true`. At the end of the input it returns `false`. Of a line of
/// more than `most + 1` bytes it reads `most + 2`, which are too many, a carriage return at the end
/// included. It fails with `Read` if the reader failed, and with `OutOfMemory`.
pub fn read_line<R: Source>(reader: &mut R, most: usize, line: &mut Vec<u8>) -> Result<bool, Fault>
    requires sound { IsFalse (R.state reader.old).failed }
    requires bound { most < 2 ^ 32 }
    ensures line { result ≡ Ok true →
        ReadsLine most (R.state reader.old).left (R.state reader.new).left line.new.items }
    ensures none { result ≡ Ok false →
        ReadsLines (R.state reader.old).left (R.state reader.new).left []
        × IsAtEnd (R.state reader.new).left }
    ensures beginning { OnErr result
        (BeginsLine (R.state reader.old).left (R.state reader.new).left) }
    ensures failure { IsErrOf result Fault.Read ↔ IsTrue (R.state reader.new).failed }
    ensures fault { IfErr result (λ e. (e ≡ Fault.Read) ⊎ (e ≡ Fault.Symbol QrError.OutOfMemory)) }
{
    line.clear();
    let mut byte = [0u8; 1];
    let too_many = most + 2;
    'reading: while line.len() < too_many {
        match reader.pull(&mut byte) {
            None => return Err(Fault::Read),
            Some(0) => return Ok(!line.is_empty()),
            Some(_) => {}
        }
        if byte[0] == b'\n' {
            strip_return(line);
            return Ok(true);
        }
        line.push(byte[0]).map_err(AllocError::from)?;
    }
    Ok(true)
}

/// Reads up to the end of the line, and its newline. It fails with `Read` if the reader failed, and
/// with `OutOfMemory` after 2^64 - 1 bytes.
pub fn skip_line<R: Source>(reader: &mut R) -> Result<(), Fault>
    requires { IsFalse (R.state reader.old).failed }
    ensures rest { OnOk result
        (DropsThrough (R.state reader.old).left (R.state reader.new).left 10) }
    ensures beginning { OnErr result
        (BeginsLine (R.state reader.old).left (R.state reader.new).left) }
    ensures failure { IsErrOf result Fault.Read ↔ IsTrue (R.state reader.new).failed }
    ensures fault { IfErr result (λ e. (e ≡ Fault.Read) ⊎ (e ≡ Fault.Symbol QrError.OutOfMemory)) }
{
    let mut byte = [0u8; 1];
    'skipping: for _ in 0..u64::MAX {
        match reader.pull(&mut byte) {
            None => return Err(Fault::Read),
            Some(0) => return Ok(()),
            Some(_) => {}
        }
        if byte[0] == b'\n' {
            return Ok(());
        }
    }
    Err(Fault::from(AllocError))
}

/// Takes off a carriage return at the end.
fn strip_return(line: &mut Vec<u8>)
    ensures { line.new.items ≡ strip_last 13 line.old.items }
{
    let length = line.len();
    if length > 0 && line[length - 1] == b'\r' {
        line.truncate(length - 1);
    }
}
