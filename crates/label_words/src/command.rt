//! What the words ask for: help, the version, or a label.
//!
//! 1. Read each option by its value (`level_of`, `content_of`, `format_of`, ..).
//! 2. Put them together (`label_of`, `command_of`).
ghost use Rattle.std.specs.Prelude.{◌≡◌, unwrap_or};
ghost use Rattle.label_words.specs.Values.{said};
ghost use Rattle.label_words.specs.Commands.{found_or};
ghost use Rattle.label_words.specs.Commands.{level_asked, content_asked, kind_asked, format_asked, version_asked};
ghost use Rattle.label_words.specs.Commands.{symbol_asked, micro_asked, is_trimmed};
ghost use Rattle.label_words.specs.Choices.{is_micro_content};
ghost use Rattle.label_words.specs.Commands.{first_asked, keeps_going_asked, trims_asked};
ghost use Rattle.label_words.specs.Commands.{turn_asked, colored_asked, label_asked, command_asked};
ghost use Rattle.label_words.specs.Words.{file_of};
ghost use Rattle.label_words.specs.CommandOutcomes.{outcome, label_outcome, command_outcome};

use crate::choices::{content_named, format_named, format_of_ending, level_named, turn_named};
use crate::link_words::{domain_of, upper_of};
use crate::names::Numbering;
use crate::portion::{check_terminal, details_of, portion_of};
use crate::settings::{hri_of, in_dots, settings_of, zoned};
use crate::words::{Misuse, Name, Values};
use picture_settings::format::Format;
use picture_settings::option_words::number_of_word;
use picture_settings::settings::Settings;
use qrcode_core::options::SymbolOptions;
use qrcode_core::types::EcLevel;

/// What a symbol says.
#[derive(Clone, Copy, Debug, PartialEq, Eq)]
pub enum Content {
    /// The text in the fewest bits, if the input is UTF-8 and not ASCII, else bytes.
    Auto,
    /// Text in UTF-8, after its ECI designator.
    Text,
    /// Bytes as they are.
    Bytes,
    /// Bytes as they are, none of them in the Kanji mode.
    BytesWithoutKanji,
    /// GS1 elements, bracketed or as an element string, that the table of identifiers allows.
    Gs1,
    /// The same, of which only what a reader needs is tested.
    UncheckedGs1,
    /// The GS1 Digital Link of bracketed elements.
    Link,
    /// A text of ASCII or of ASCII and Kanji in a Micro QR symbol, which has no designators.
    Micro,
    /// Bytes as they are in a Micro QR symbol.
    MicroBytes,
}

/// What of the input a label shows.
#[derive(Clone, Copy, Debug, PartialEq, Eq)]
pub enum Portion<'a> {
    /// One label shows all of it.
    Whole,
    /// A label shows each line, and they have one output.
    Lines,
    /// A label shows each line, and each has a file of its own.
    Files(Numbering<'a>),
    /// As many labels as it takes show all of it, and they have one output.
    Split,
    /// As many labels as it takes show all of it, and each has a file of its own.
    Parts(Numbering<'a>),
}

/// By how much a symbol is turned, clockwise.
#[derive(Clone, Copy, Debug, PartialEq, Eq)]
pub enum Turn {
    /// Not at all.
    Upright,
    /// By 90 degrees.
    Right,
    /// By 180 degrees.
    Over,
    /// By 270 degrees.
    Left,
}

/// Where the details of a symbol are written: version, level, mask, segments and size.
#[derive(Clone, Copy, Debug, PartialEq, Eq)]
pub enum Details {
    /// They are not.
    Nothing,
    /// They are, on standard error, and the symbol is drawn.
    Beside,
    /// They are, and nothing is drawn.
    Alone,
}

/// A label: what its symbol says, how the symbol is chosen, and its picture.
#[derive(Clone, Copy, Debug, PartialEq, Eq)]
pub struct Label<'a> {
    pub content: Content,
    /// The domain of a link.
    pub domain: &'a str,
    /// Whether the scheme and the host of a link are in capitals.
    pub upper: bool,
    pub symbol: SymbolOptions,
    pub format: Format,
    pub settings: Settings<'a>,
    /// Whether an input with no bytes is drawn.
    pub allow_empty: bool,
    /// Whether a byte order mark at the start and a newline at the end are no part of a text.
    pub trims: bool,
    pub portion: Portion<'a>,
    /// The number of the first line.
    pub first: usize,
    /// Whether a line that has no label is left out.
    pub keeps_going: bool,
    /// How errors call the input.
    pub source: &'a str,
    /// How errors call the output, if it is one for all labels.
    pub target: &'a str,
    /// Whether a text for a terminal has colors of its own.
    pub colored: bool,
    /// By how much the symbol is turned.
    pub turn: Turn,
    /// Where the details of its symbol are written.
    pub details: Details,
    /// The dots of ten inches, if they are given.
    pub dpi_tenths: Option<usize>,
    /// The width of a module in micrometres, if it is given. Modules of whole dots may have another.
    pub asked_um: Option<usize>,
    /// Whether the elements are written below the symbol.
    pub hri: bool,
}

/// The greatest number of a first line.
pub const MAX_FIRST: usize = 1_000_000_000;

/// What the words ask for.
#[derive(Clone, Copy, Debug, PartialEq, Eq)]
pub enum Command<'a> {
    Help,
    Version,
    Label(Label<'a>),
}

/// Returns what was found for an option, or `Invalid` with its name.
fn found<'a, T>(thing: Option<T>, name: Name) -> Result<T, Misuse<'a>>
    ensures { outcome result ≡ found_or thing name }
{
    match thing {
        Some(thing) => Ok(thing),
        None => Err(Misuse::Invalid(name)),
    }
}

/// Returns the level, or M.
fn level_of<'a>(values: &Values<'a>) -> Result<EcLevel, Misuse<'a>>
    ensures { outcome result ≡ level_asked (said values.now) }
{
    match values.get(Name::Level) {
        Some(word) => found(level_named(word), Name::Level),
        None => Ok(EcLevel::M),
    }
}

/// Returns the content by its name, or `Auto`.
fn kind_of<'a>(values: &Values<'a>) -> Result<Content, Misuse<'a>>
    ensures { outcome result ≡ kind_asked (said values.now) }
{
    match values.get(Name::Content) {
        Some(word) => found(content_named(word), Name::Content),
        None => Ok(Content::Auto),
    }
}

/// Returns the content. Of the contents bytes have a form without the Kanji mode.
fn content_of<'a>(values: &Values<'a>) -> Result<Content, Misuse<'a>>
    ensures { outcome result ≡ content_asked (said values.now) }
{
    let content = kind_of(values)?;
    match content {
        _ if !values.has(Name::NoKanji) => Ok(content),
        Content::Bytes => Ok(Content::BytesWithoutKanji),
        _ => Err(Misuse::Invalid(Name::NoKanji)),
    }
}

/// Returns the turn, or `Upright`.
fn turn_of<'a>(values: &Values<'a>) -> Result<Turn, Misuse<'a>>
    ensures { outcome result ≡ turn_asked (said values.now) }
{
    match values.get(Name::Rotate) {
        Some(word) => found(turn_named(word), Name::Rotate),
        None => Ok(Turn::Upright),
    }
}

/// Returns the format: that of its name, or of the ending of the output's name; else text for a
/// terminal if the output is one, and SVG if not.
fn format_of<'a>(values: &Values<'a>, on_terminal: bool) -> Result<Format, Misuse<'a>>
    ensures { outcome result ≡ format_asked on_terminal (said values.now) }
{
    match (values.get(Name::Format), values.file(Name::Output)) {
        (Some(word), _) => found(format_named(word), Name::Format),
        (None, Some(name)) => found(format_of_ending(name), Name::Output),
        (None, None) if on_terminal => Ok(Format::Terminal),
        (None, None) => Ok(Format::Svg),
    }
}

/// Returns the number of a Normal version, or the default.
fn version<'a>(values: &Values<'a>, name: Name, default: i16) -> Result<i16, Misuse<'a>>
    ensures { outcome result ≡ version_asked name default (said values.now) }
{
    match values.get(name) {
        Some(word) => match number_of_word(word) {
            Some(n) if 1 <= n && n <= 40 => Ok(n as i16),
            _ => Err(Misuse::Invalid(name)),
        },
        None => Ok(default),
    }
}

/// Returns the options of the symbol.
fn symbol_of<'a>(values: &Values<'a>) -> Result<SymbolOptions, Misuse<'a>>
    ensures { outcome result ≡ symbol_asked (said values.now) }
{
    let level = level_of(values)?;
    let min_version = version(values, Name::MinVersion, 1)?;
    let max_version = version(values, Name::MaxVersion, 40)?;
    if min_version > max_version {
        return Err(Misuse::Invalid(Name::MaxVersion));
    }
    Ok(SymbolOptions {
        level,
        min_version,
        max_version,
        strongest: values.has(Name::Strongest),
    })
}

/// Whether the symbol is a Micro QR symbol.
pub fn is_micro(content: Content) -> bool
    ensures { result ≡ is_micro_content content }
{
    match content {
        Content::Micro | Content::MicroBytes => true,
        Content::Auto | Content::Text => false,
        Content::Bytes | Content::BytesWithoutKanji => false,
        Content::Gs1 | Content::UncheckedGs1 | Content::Link => false,
    }
}

/// Checks that no level or option is given that a Micro symbol does not have, if the content asks
/// for one.
fn check_micro<'a>(values: &Values<'a>, content: Content, level: EcLevel) -> Result<(), Misuse<'a>>
    ensures { outcome result ≡ micro_asked content level (said values.now) }
{
    if !is_micro(content) {
        Ok(())
    } else if level == EcLevel::H {
        Err(Misuse::Invalid(Name::Level))
    } else if values.has(Name::Strongest) {
        Err(Misuse::Invalid(Name::Strongest))
    } else if values.has(Name::MinVersion) {
        Err(Misuse::Invalid(Name::MinVersion))
    } else if values.has(Name::MaxVersion) {
        Err(Misuse::Invalid(Name::MaxVersion))
    } else {
        Ok(())
    }
}

/// Whether a text of this content has no byte order mark and no newline at its end. Bytes are
/// drawn as they are.
fn is_trimmed(content: Content) -> bool
    ensures { result ≡ is_trimmed content }
{
    match content {
        Content::Auto | Content::Text | Content::Micro => true,
        Content::Gs1 | Content::UncheckedGs1 | Content::Link => true,
        Content::Bytes | Content::BytesWithoutKanji | Content::MicroBytes => false,
    }
}

/// Returns the number of the first line, or 1.
fn first_of<'a>(values: &Values<'a>) -> Result<usize, Misuse<'a>>
    ensures { outcome result ≡ first_asked (said values.now) }
{
    match values.get(Name::First) {
        Some(word) => match number_of_word(word) {
            Some(n) if n <= MAX_FIRST && values.has(Name::Lines) => Ok(n),
            _ => Err(Misuse::Invalid(Name::First)),
        },
        None => Ok(1),
    }
}

/// Returns whether a line that has no label is left out.
fn keeps_going_of<'a>(values: &Values<'a>) -> Result<bool, Misuse<'a>>
    ensures { outcome result ≡ keeps_going_asked (said values.now) }
{
    if values.has(Name::KeepGoing) && !values.has(Name::Lines) {
        return Err(Misuse::Invalid(Name::KeepGoing));
    }
    Ok(values.has(Name::KeepGoing))
}

/// Returns whether a text is trimmed: one that is read, unless its newline is to be kept.
fn trims_of<'a>(values: &Values<'a>, content: Content) -> bool
    ensures { result ≡ trims_asked content (said values.now) }
{
    is_trimmed(content) && !values.has(Name::Text) && !values.has(Name::KeepNewline)
}

/// Whether a text is drawn in colors of its own: on a terminal, unless it is to be inverted, or the
/// words name the output.
fn colored_of<'a>(values: &Values<'a>, on_terminal: bool, format: Format) -> bool
    ensures { result ≡ colored_asked on_terminal format (said values.now) }
{
    on_terminal
        && format == Format::Terminal
        && !values.has(Name::Output)
        && !values.has(Name::Inverted)
}

/// Returns how errors call the file that an option gives, or the device in its place.
fn device_name<'a>(values: &Values<'a>, name: Name, device: &'a str) -> &'a str
    ensures { result.now ≡ unwrap_or (file_of (said values.now) name) device.now }
{
    match values.file(name) {
        Some(path) => path,
        None => device,
    }
}

/// Returns the label.
fn label_of<'a>(values: &Values<'a>, on_terminal: bool) -> Result<Label<'a>, Misuse<'a>>
    ensures { label_outcome result ≡ label_asked on_terminal (said values.now) }
{
    let content = content_of(values)?;
    let domain = domain_of(values, content)?;
    let upper = upper_of(values, content)?;
    let symbol = symbol_of(values)?;
    check_micro(values, content, symbol.level)?;
    let format = format_of(values, on_terminal)?;
    check_terminal(values, on_terminal, format)?;
    let portion = portion_of(values, content, format)?;
    let first = first_of(values)?;
    let keeps_going = keeps_going_of(values)?;
    let turn = turn_of(values)?;
    let details = details_of(values)?;
    let hri = hri_of(values, content, format)?;
    let settings = settings_of(values)?;
    Ok(Label {
        content,
        domain,
        upper,
        symbol,
        format,
        settings: zoned(content, in_dots(format, settings)?),
        allow_empty: values.has(Name::AllowEmpty),
        trims: trims_of(values, content),
        portion,
        first,
        keeps_going,
        source: device_name(values, Name::Read, "standard input"),
        target: device_name(values, Name::Output, "standard output"),
        colored: colored_of(values, on_terminal, format),
        turn,
        details,
        dpi_tenths: settings.dpi_tenths,
        asked_um: settings.module_um,
        hri,
    })
}

/// Returns what the words ask for.
pub fn command_of<'a>(values: &Values<'a>, on_terminal: bool) -> Result<Command<'a>, Misuse<'a>>
    ensures { command_outcome result ≡ command_asked on_terminal (said values.now) }
{
    if values.has(Name::Help) {
        return Ok(Command::Help);
    }
    if values.has(Name::Version) {
        return Ok(Command::Version);
    }
    if values.has(Name::Text) && values.has(Name::Read) {
        return Err(Misuse::Invalid(Name::Read));
    }
    Ok(Command::Label(label_of(values, on_terminal)?))
}
