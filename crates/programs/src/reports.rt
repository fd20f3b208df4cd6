//! An error as one line, written piece by piece: it needs no memory, and its beginning was written
//! even if the sink fails, of which `Display` says nothing.
ghost use Rattle.std.specs.Prelude.{◌≡◌, ◌/◌, ◌%◌, ◌<◌, [], ◌∷◌, ◌++◌, flat_map, codes, decimal};
ghost use Rattle.std.specs.Prelude.{IsFalse, is_err, false};
ghost use Rattle.std.specs.Fmt.{digit_glyph, signed_decimal};
ghost use Rattle.qrcode_base.specs.Names.{level_text};
ghost use Rattle.qrcode_base.specs.declared.types.errors.QrError.TheVariants.{InvalidCharacter};
ghost use Rattle.qrcode_base.specs.declared.types.errors.QrError.TheVariants.{InvalidVersion};
ghost use Rattle.qrcode_base.specs.declared.types.errors.QrError.TheVariants.{InvalidDataLength};
ghost use Rattle.qrcode_base.specs.declared.types.errors.QrError.TheVariants.{RenderSizeExceeded};
ghost use Rattle.programs.specs.Devices.{output, Writes};
ghost use Rattle.programs.specs.Outcome.{error_line};
ghost use Rattle.programs.specs.declared.Fault.TheVariants.{Symbol};

use crate::{Fault, Sink, push_all, write_all};
use itoa::Buffer;
use qrcode_base::types::{EcLevel, QrError, Version};

/// Writes an error as one line after the program's name, without an allocation, and returns the
/// status 1.
pub fn report<E: Sink>(errors: &mut E, program: &str, fault: Fault) -> u8
    requires sound { IsFalse (E.state errors.old).failed }
    ensures status { result ≡ 1 }
    ensures reported { Writes (output (E.state errors.old) (E.state errors.new))
        (error_line program.now fault) }
{
    let _ = match fault {
        Fault::Symbol(error) => write_error(errors, program, error),
        Fault::Read => write_line(errors, program, &["read failed"]),
        Fault::Write => write_line(errors, program, &["write failed"]),
    };
    1
}

/// Writes the line of an error of the symbol's call.
fn write_error<E: Sink>(errors: &mut E, program: &str, error: QrError) -> Result<(), Fault>
    requires { IsFalse (E.state errors.old).failed }
    ensures { Writes (output (E.state errors.old) (E.state errors.new))
        (error_line program.now (Symbol error)) }
{
    let text = match error {
        QrError::InvalidVersion { version, ec_level } => {
            return write_version(errors, program, version, ec_level);
        }
        QrError::InvalidEciDesignator { value } => {
            let (before, after) = ("invalid ECI designator ", " (must be 0..=999999)");
            return write_number(errors, program, before, u64::from(value), after);
        }
        QrError::InvalidCharacter { position, byte } => {
            return write_character(errors, program, position, byte);
        }
        QrError::InvalidStructuredAppend { value } => {
            let before = "invalid Structured Append parameter ";
            let after = " (symbols must be 2..=16, position 1..=total)";
            return write_number(errors, program, before, u64::from(value), after);
        }
        QrError::RenderSizeExceeded {
            width,
            height,
            max_width,
            max_height,
        } => return write_sizes(errors, program, (width, height), (max_width, max_height)),
        QrError::InvalidDataLength { expected, actual } => {
            return write_lengths(errors, program, expected, actual);
        }
        QrError::DataTooLong => "data too long to encode",
        QrError::UnsupportedCharacterSet => "unsupported character set for this version",
        QrError::InvalidResourceLimits => "invalid resource limits",
        QrError::EncodingTimeout => "encoding exceeded configured timeout",
        QrError::OutOfMemory => "out of memory",
    };
    write_line(errors, program, &[text])
}

/// Writes that a version does not have a level, or is no version.
fn write_version<E: Sink>(
    errors: &mut E,
    program: &str,
    version: Version,
    level: EcLevel,
) -> Result<(), Fault>
    requires { IsFalse (E.state errors.old).failed }
    ensures { Writes (output (E.state errors.old) (E.state errors.new))
        (error_line program.now (Symbol (InvalidVersion version level))) }
{
    match version {
        Version::Normal(number) => {
            write_version_number(errors, program, "invalid version Normal(", number, level)
        }
        Version::Micro(number) => {
            write_version_number(errors, program, "invalid version Micro(", number, level)
        }
    }
}

/// Writes the number of a version after `head`, which ends in the kind of the version, and the
/// level that it does not have.
fn write_version_number<E: Sink>(
    errors: &mut E,
    program: &str,
    head: &'static str,
    number: i16,
    level: EcLevel,
) -> Result<(), Fault>
    requires { IsFalse (E.state errors.old).failed }
    ensures { Writes (output (E.state errors.old) (E.state errors.new))
        (program.now ++ (codes ": " ++ ((head.now ++ (signed_decimal number
        ++ (codes ") for error correction level " ++ level_text level))) ++ 10 ∷ []))) }
{
    let mut buffer = Buffer::new();
    let number = buffer.format(number);
    let level = level_word(level);
    let middle = ") for error correction level ";
    write_line(errors, program, &[head, number, middle, level])
}

/// Writes a number between two parts of a text.
fn write_number<E: Sink>(
    errors: &mut E,
    program: &str,
    before: &str,
    number: u64,
    after: &str,
) -> Result<(), Fault>
    requires { IsFalse (E.state errors.old).failed }
    ensures { Writes (output (E.state errors.old) (E.state errors.new))
        (program.now ++ (codes ": " ++ ((before.now ++ (decimal number ++ after.now))
        ++ 10 ∷ []))) }
{
    let mut buffer = Buffer::new();
    write_line(errors, program, &[before, buffer.format(number), after])
}

/// Writes that a byte is invalid at a position.
fn write_character<E: Sink>(
    errors: &mut E,
    program: &str,
    position: usize,
    byte: u8,
) -> Result<(), Fault>
    requires { IsFalse (E.state errors.old).failed }
    ensures { Writes (output (E.state errors.old) (E.state errors.new))
        (error_line program.now (Symbol (InvalidCharacter position byte))) }
{
    let mut buffer = Buffer::new();
    let position = buffer.format(position);
    let (high, low) = (hex_digit(byte / 16), hex_digit(byte % 16));
    write_line(
        errors,
        program,
        &[
            "invalid character byte 0x",
            high,
            low,
            " at position ",
            position,
        ],
    )
}

/// Writes that a symbol is larger than allowed, with the width and height of both.
fn write_sizes<E: Sink>(
    errors: &mut E,
    program: &str,
    size: (u32, u32),
    most: (u32, u32),
) -> Result<(), Fault>
    requires { IsFalse (E.state errors.old).failed }
    ensures { Writes (output (E.state errors.old) (E.state errors.new))
        (error_line program.now (Symbol (RenderSizeExceeded size.0 size.1 most.0 most.1))) }
{
    let (mut width, mut height) = (Buffer::new(), Buffer::new());
    let (mut max_width, mut max_height) = (Buffer::new(), Buffer::new());
    write_line(
        errors,
        program,
        &[
            "rendered symbol size ",
            width.format(size.0),
            "x",
            height.format(size.1),
            " exceeds configured maximum ",
            max_width.format(most.0),
            "x",
            max_height.format(most.1),
        ],
    )
}

/// Writes that data have another length than the version has room for.
fn write_lengths<E: Sink>(
    errors: &mut E,
    program: &str,
    expected: usize,
    actual: usize,
) -> Result<(), Fault>
    requires { IsFalse (E.state errors.old).failed }
    ensures { Writes (output (E.state errors.old) (E.state errors.new))
        (error_line program.now (Symbol (InvalidDataLength expected actual))) }
{
    let (mut wanted, mut found) = (Buffer::new(), Buffer::new());
    write_line(
        errors,
        program,
        &[
            "invalid encoded data length: expected ",
            wanted.format(expected),
            " bytes, got ",
            found.format(actual),
        ],
    )
}

/// Returns the letter of a level.
fn level_word(level: EcLevel) -> &'static str
    ensures { result.now ≡ level_text level }
{
    match level {
        EcLevel::L => "L",
        EcLevel::M => "M",
        EcLevel::Q => "Q",
        EcLevel::H => "H",
    }
}

/// Returns a hexadecimal digit in lower case.
fn hex_digit(n: u8) -> &'static str
    requires { n < 16 }
    ensures { result.now ≡ digit_glyph false n ∷ [] }
{
    match n {
        0 => "0",
        1 => "1",
        2 => "2",
        3 => "3",
        4 => "4",
        5 => "5",
        6 => "6",
        7 => "7",
        8 => "8",
        9 => "9",
        10 => "a",
        11 => "b",
        12 => "c",
        13 => "d",
        14 => "e",
        _ => "f",
    }
}

/// Writes the name of the program, the pieces of a text and a newline, and flushes. It fails with
/// `Write` if the sink failed.
pub fn write_line<E: Sink>(errors: &mut E, program: &str, pieces: &[&str]) -> Result<(), Fault>
    requires { IsFalse (E.state errors.old).failed }
    ensures { Writes (output (E.state errors.old) (E.state errors.new))
        (program.now ++ (codes ": " ++ (flat_map (λ piece. piece.now) pieces.now ++ 10 ∷ []))) }
{
    push_all(errors, program.as_bytes())?;
    push_all(errors, b": ")?;
    push_pieces(errors, pieces)?;
    write_all(errors, b"\n")
}

/// Writes the pieces of a text one after the other, without a flush.
pub(crate) fn push_pieces<E: Sink>(errors: &mut E, pieces: &[&str]) -> Result<(), Fault>
    requires { IsFalse (E.state errors.old).failed }
    ensures writes { Writes (output (E.state errors.old) (E.state errors.new))
        (flat_map (λ piece. piece.now) pieces.now) }
    ensures failure { (E.state errors.new).failed ≡ is_err result }
{
    for piece in pieces {
        push_all(errors, piece.as_bytes())?;
    }
    Ok(())
}
