//! Why there is no label, as a line on standard error.
ghost use Rattle.std.specs.Prelude.{◌≡◌, IsTrue, IsFalse, true};
ghost use Rattle.programs.specs.Devices.{output, Writes};
ghost use Rattle.labels.specs.Devices.{devices_of};
ghost use Rattle.labels.specs.Stops.{element_text, stop_line, element_line};
ghost use Rattle.labels.specs.Stops.{numbered_line, is_silent, stop_status, stop_report};
ghost use Rattle.labels.specs.Stops.{is_silent_fault, fault_status, fault_report};
ghost use Rattle.labels.specs.Stops.{end_report, long_line, room_line, bits_line, level_piece};
ghost use Rattle.labels.specs.Stops.{printed_version, fits_piece, rest_piece, many_text};

use crate::pieces::{NO_ELEMENTS, WOULD_BE, digit_text, unless_zero};
use crate::refusal::{write_no_link, write_refusal};
use crate::stop::{Devices, LineStop};
use gs1::Gs1Error;
use itoa::Buffer;
use programs::{
    CLOSED_PIPE, Fault, Sink, is_closed_pipe, push_all, report, report_device, write_line,
};
use qrcode_base::symbols::LONGEST_DATA;
use qrcode_core::types::{EcLevel, Version};
use single_label::{ElementStop, Stop, TextLength, TooLong, element_number};

/// A text that no Micro symbol is read as.
const NO_MICRO_TEXT: &str = "no Micro symbol is read as this text, see -c micro-bytes";

/// More bytes than one label takes.
const TOO_MANY: &str = "data too long: more than 7089 bytes";

/// The same, where several symbols can carry them together.
const TOO_MANY_FOR_ONE: &str = "data too long: more than 7089 bytes; see --split";

/// More bytes than the symbols of a sequence hold.
const TOO_MANY_PARTS: &str =
    "data too long: no 16 symbols hold it at this level up to --max-version";

/// More pages than a document has room for.
const TOO_MANY_PAGES: &str = "no room for the page: a PDF document has at most 9999999999 bytes";

/// Writes why there is no label, as one line after a name.
#[tactic(auto, unfolding(crate::specs::Stops::stop_line))]
fn write_stop<E: Sink>(errors: &mut E, name: &str, stop: Stop)
    requires { IsFalse (E.state errors.old).failed }
    ensures { Writes (output (E.state errors.old) (E.state errors.new)) (stop_line name.now stop) }
{
    let _ = match stop {
        Stop::Fault(fault) => {
            let _ = report(errors, name, fault);
            return;
        }
        Stop::Elements(at) => write_element(errors, name, at),
        Stop::NotAllowed(error) => write_refusal(errors, name, error),
        Stop::NoLink(error) => write_no_link(errors, name, error),
        Stop::Empty => write_line(errors, name, &["empty input, see --allow-empty"]),
        Stop::NoMicroText => write_line(errors, name, &[NO_MICRO_TEXT]),
        Stop::TooLong(long) => write_too_long(errors, name, long),
        Stop::TooManyParts => write_line(errors, name, &[TOO_MANY_PARTS]),
        Stop::TooManyPages => write_line(errors, name, &[TOO_MANY_PAGES]),
    };
}

/// Writes why there is no label, as one line after a name, and returns the exit status. Of a
/// device the line has the name and the reason; of a pipe that nobody reads from any more nothing
/// is written.
pub fn report_stop<E: Sink>(errors: &mut E, name: &str, devices: &Devices, stop: Stop) -> u8
    requires sound { IsFalse (E.state errors.old).failed }
    ensures status { result ≡ stop_status (devices_of devices.now) stop }
    ensures reported { Writes (output (E.state errors.old) (E.state errors.new))
        (stop_report name.now (devices_of devices.now) stop) }
{
    match stop {
        Stop::Fault(fault) => report_fault(errors, name, devices, fault),
        Stop::Elements(_) | Stop::NotAllowed(_) | Stop::NoLink(_) => {
            write_stop(errors, name, stop);
            1
        }
        Stop::Empty | Stop::NoMicroText | Stop::TooLong(_) => {
            write_stop(errors, name, stop);
            1
        }
        Stop::TooManyParts | Stop::TooManyPages => {
            write_stop(errors, name, stop);
            1
        }
    }
}

/// Writes why there is no label as `report_stop` does.
fn report_fault<E: Sink>(errors: &mut E, name: &str, devices: &Devices, fault: Fault) -> u8
    requires sound { IsFalse (E.state errors.old).failed }
    ensures status { result ≡ fault_status (devices_of devices.now) fault }
    ensures reported { Writes (output (E.state errors.old) (E.state errors.new))
        (fault_report name.now (devices_of devices.now) fault) }
{
    let Devices {
        source,
        not_read,
        target,
        not_written,
    } = *devices;
    match fault {
        Fault::Read => report_device(errors, name, "read", source, not_read),
        Fault::Write => report_device(errors, name, "write", target, not_written),
        Fault::Symbol(_) => report(errors, name, fault),
    }
}

/// Whether nothing is written of it: a pipe was closed.
fn is_silent(devices: &Devices, stop: Stop) -> bool
    ensures { result ≡ is_silent (devices_of devices.now) stop }
{
    match stop {
        Stop::Fault(fault) => is_silent_fault(devices, fault),
        Stop::Elements(_) | Stop::NotAllowed(_) | Stop::NoLink(_) => false,
        Stop::Empty | Stop::NoMicroText | Stop::TooLong(_) => false,
        Stop::TooManyParts | Stop::TooManyPages => false,
    }
}

/// Whether nothing is written of a fault.
fn is_silent_fault(devices: &Devices, fault: Fault) -> bool
    ensures { result ≡ is_silent_fault (devices_of devices.now) fault }
{
    match fault {
        Fault::Read => is_closed_pipe(devices.not_read),
        Fault::Write => is_closed_pipe(devices.not_written),
        Fault::Symbol(_) => false,
    }
}

/// Writes why the labels end at a line of the input, as one line with the number, and returns the
/// exit status.
fn report_line<E: Sink>(errors: &mut E, devices: &Devices, at: LineStop) -> u8
    requires sound { IsFalse (E.state errors.old).failed }
    requires said { IsFalse (is_silent (devices_of devices.now) at.stop) }
    ensures status { result ≡ 1 }
    ensures reported { Writes (output (E.state errors.old) (E.state errors.new))
        (end_report (devices_of devices.now) at) }
{
    if push_all(errors, b"qrlabel: line ").is_err() {
        return 1;
    }
    let mut buffer = Buffer::new();
    report_stop(errors, buffer.format(at.number), devices, at.stop)
}

/// Writes why the labels end at a line of the input, as one line with the number, if the sink has
/// not failed, and returns the exit status.
pub fn report_end<E: Sink>(errors: &mut E, devices: &Devices, at: LineStop) -> u8
    ensures status { result ≡ stop_status (devices_of devices.now) at.stop }
    ensures silent { IsTrue (E.state errors.old).failed → errors.new ≡ errors.old }
    ensures reported { IsFalse (E.state errors.old).failed →
        Writes (output (E.state errors.old) (E.state errors.new))
        (end_report (devices_of devices.now) at) }
{
    if is_silent(devices, at.stop) {
        CLOSED_PIPE
    } else if errors.failed() {
        1
    } else {
        report_line(errors, devices, at)
    }
}

/// Writes why a line of the input is left out, as one line with the number.
fn write_left_out<E: Sink>(errors: &mut E, at: LineStop)
    requires { IsFalse (E.state errors.old).failed }
    ensures { Writes (output (E.state errors.old) (E.state errors.new)) (numbered_line at) }
{
    if push_all(errors, b"qrlabel: line ").is_err() {
        return;
    }
    let mut buffer = Buffer::new();
    write_stop(errors, buffer.format(at.number), at.stop);
}

/// Writes why a line of the input is left out, if the sink has not failed.
pub fn report_left_out<E: Sink>(errors: &mut E, at: LineStop)
    ensures silent { IsTrue (E.state errors.old).failed → errors.new ≡ errors.old }
    ensures reported { IsFalse (E.state errors.old).failed →
        Writes (output (E.state errors.old) (E.state errors.new)) (numbered_line at) }
{
    if !errors.failed() {
        write_left_out(errors, at);
    }
}

/// Writes the line of a text that gives no elements: the element by its identifier and its number,
/// counted from 1, what is wrong, and what would be right.
#[tactic(auto, unfolding(crate::specs::Stops::element_line))]
fn write_element<E: Sink>(errors: &mut E, name: &str, at: ElementStop) -> Result<(), Fault>
    requires { IsFalse (E.state errors.old).failed }
    ensures { Writes (output (E.state errors.old) (E.state errors.new)) (element_line name.now at) }
{
    let text = element_text(at.error);
    match element_number(at.error) {
        Some(number) => {
            let mut buffer = Buffer::new();
            let number = buffer.format(number.saturating_add(1));
            write_line(
                errors,
                name,
                &[
                    unless_zero(at.identifier[0], "("),
                    digit_text(at.identifier[0]),
                    digit_text(at.identifier[1]),
                    digit_text(at.identifier[2]),
                    digit_text(at.identifier[3]),
                    unless_zero(at.identifier[0], "), "),
                    "element ",
                    number,
                    ": ",
                    text,
                    unless_zero(at.digit, WOULD_BE),
                    digit_text(at.digit),
                ],
            )
        }
        None => write_line(errors, name, &[text]),
    }
}

/// Writes the line of a content that is too long.
#[tactic(auto, unfolding(crate::specs::Stops::long_line))]
fn write_too_long<E: Sink>(errors: &mut E, name: &str, long: TooLong) -> Result<(), Fault>
    requires { IsFalse (E.state errors.old).failed }
    ensures { Writes (output (E.state errors.old) (E.state errors.new)) (long_line name.now long) }
{
    match long.text {
        Some(found) => write_bits(errors, name, long, found),
        None if long.length > LONGEST_DATA => {
            write_line(errors, name, &[many_text(long.can_be_split)])
        }
        None => write_room(errors, name, long),
    }
}

/// Writes the line of a text beyond ASCII that is too long at its level: the bits that it takes,
/// and how many there is room for.
#[tactic(auto, unfolding(crate::specs::Stops::bits_line))]
fn write_bits<E: Sink>(
    errors: &mut E,
    name: &str,
    long: TooLong,
    found: TextLength,
) -> Result<(), Fault>
    requires { IsFalse (E.state errors.old).failed }
    ensures { Writes (output (E.state errors.old) (E.state errors.new))
        (bits_line name.now long found) }
{
    let (mut bits, mut version, mut room) = (Buffer::new(), Buffer::new(), Buffer::new());
    write_line(
        errors,
        name,
        &[
            "data too long: ",
            bits.format(found.bits),
            " bits",
            level_text(long.level, long.version),
            version.format(version_number(long.version)),
            " has room for ",
            room.format(found.room),
            " bits",
            rest_text(long.fits, long.can_be_split),
        ],
    )
}

/// Writes the line of a content that is too long at its level: its length, and how much there is
/// room for.
#[tactic(auto, unfolding(crate::specs::Stops::room_line))]
fn write_room<E: Sink>(errors: &mut E, name: &str, long: TooLong) -> Result<(), Fault>
    requires { IsFalse (E.state errors.old).failed }
    ensures { Writes (output (E.state errors.old) (E.state errors.new)) (room_line name.now long) }
{
    let (mut length, mut version) = (Buffer::new(), Buffer::new());
    let (mut bytes, mut digits) = (Buffer::new(), Buffer::new());
    write_line(
        errors,
        name,
        &[
            "data too long: ",
            length.format(long.length),
            " bytes",
            level_text(long.level, long.version),
            version.format(version_number(long.version)),
            " has room for ",
            bytes.format(long.bytes),
            " bytes or ",
            digits.format(long.digits),
            " digits",
            rest_text(long.fits, long.can_be_split),
        ],
    )
}

/// Returns what stands between the length and the number of the greatest version.
fn level_text(level: EcLevel, version: Version) -> &'static str
    ensures { result.now ≡ level_piece level version }
{
    match version {
        Version::Normal(_) => match level {
            EcLevel::L => ", and level L up to version ",
            EcLevel::M => ", and level M up to version ",
            EcLevel::Q => ", and level Q up to version ",
            EcLevel::H => ", and level H up to version ",
        },
        Version::Micro(_) => match level {
            EcLevel::L => ", and level L up to version M",
            EcLevel::M => ", and level M up to version M",
            EcLevel::Q => ", and level Q up to version M",
            EcLevel::H => ", and level H up to version M",
        },
    }
}

/// Returns the number of a version.
fn version_number(version: Version) -> u16
    ensures { result ≡ printed_version version }
{
    match version {
        Version::Normal(number) => number.unsigned_abs(),
        Version::Micro(number) => number.unsigned_abs(),
    }
}

/// Returns that there are more bytes than one label takes.
fn many_text(splits: bool) -> &'static str
    ensures { result.now ≡ many_text splits }
{
    if splits { TOO_MANY_FOR_ONE } else { TOO_MANY }
}

/// Returns what stands after the room: the level at which a content fits, if any, and whether
/// several symbols can carry it.
fn rest_text(fits: Option<EcLevel>, splits: bool) -> &'static str
    ensures { result.now ≡ rest_piece fits splits }
{
    if splits {
        split_text(fits)
    } else {
        fits_text(fits)
    }
}

/// Returns what stands after the room, where several symbols can carry the content.
fn split_text(fits: Option<EcLevel>) -> &'static str
    ensures { result.now ≡ rest_piece fits true }
{
    match fits {
        None => "; see --split",
        Some(EcLevel::L) => "; it fits level L; see --split",
        Some(EcLevel::M) => "; it fits level M; see --split",
        Some(EcLevel::Q) => "; it fits level Q; see --split",
        Some(EcLevel::H) => "; it fits level H; see --split",
    }
}

/// Returns what stands after the room: the level at which a content fits, if any.
fn fits_text(fits: Option<EcLevel>) -> &'static str
    ensures { result.now ≡ fits_piece fits }
{
    match fits {
        None => "",
        Some(EcLevel::L) => "; it fits level L",
        Some(EcLevel::M) => "; it fits level M",
        Some(EcLevel::Q) => "; it fits level Q",
        Some(EcLevel::H) => "; it fits level H",
    }
}

/// Returns what is wrong with an element.
fn element_text(error: Gs1Error) -> &'static str
    ensures { result.now ≡ element_text error }
{
    match error {
        Gs1Error::NoElements => NO_ELEMENTS,
        Gs1Error::InvalidIdentifier { .. } =>
            "the identifier is cut short, or not two to four digits",
        Gs1Error::UnknownIdentifier { .. } => "unknown identifier",
        Gs1Error::EmptyValue { .. } => "the value is empty, or a bracket is not closed",
        Gs1Error::ValueTooLong { .. } => "the value has more than 90 characters",
        Gs1Error::InvalidCharacter { .. } => "a character of the value is not allowed there",
        Gs1Error::WrongLength { .. } => "the length of the value is wrong",
        Gs1Error::WrongCheckDigit { .. } => "wrong check digit",
        Gs1Error::OutOfMemory => "out of memory",
    }
}
