//! What of the input labels show, and where they are written.
ghost use Rattle.std.specs.Prelude.{◌≡◌, option_map};
ghost use Rattle.label_words.specs.CommandOutcomes.{outcome, portion_outcome, is_document};
ghost use Rattle.label_words.specs.Choices.{can_be_split};
ghost use Rattle.label_words.specs.Portions.{can_follow, lines_can_follow, has_percent, numbered_output};
ghost use Rattle.label_words.specs.Portions.{portion_asked, split_asked, details_asked, terminal_asked};
ghost use Rattle.label_words.specs.Numberings.{numbering_of};
ghost use Rattle.label_words.specs.Values.{said};

use crate::command::{Content, Details, Label, Portion};
use crate::names::{Numbering, numbering_in};
use crate::words::{Misuse, Name, Values};
use picture_settings::format::Format;

/// Returns the name of the output as one with a number in it, if it is one.
fn numbered_output<'a>(values: &Values<'a>) -> Option<Numbering<'a>>
    ensures { option_map numbering_of result ≡ numbered_output (said values.now) }
{
    numbering_in(values.get(Name::Output)?)
}

/// Whether the name of the output has a percent sign.
fn has_percent<'a>(values: &Values<'a>) -> bool
    ensures { result ≡ has_percent (said values.now) }
{
    match values.get(Name::Output) {
        Some(name) => name.split_once('%').is_some(),
        None => false,
    }
}

/// Returns where the details of the symbol are written.
pub fn details_of<'a>(values: &Values<'a>) -> Result<Details, Misuse<'a>>
    ensures { outcome result ≡ details_asked (said values.now) }
{
    if values.has(Name::Info) {
        return match values.file(Name::Output) {
            Some(_) => Err(Misuse::Invalid(Name::Info)),
            None => Ok(Details::Alone),
        };
    }
    if !values.has(Name::Verbose) {
        Ok(Details::Nothing)
    } else if values.has(Name::Lines) {
        Err(Misuse::Invalid(Name::Verbose))
    } else {
        Ok(Details::Beside)
    }
}

/// Whether labels can follow each other in one output: the details of symbols always can.
fn can_follow<'a>(values: &Values<'a>, format: Format) -> bool
    ensures { result ≡ can_follow format (said values.now) }
{
    format.is_stream() || values.has(Name::Info)
}

/// Whether the labels of lines can: they can be the pages of a document, too.
fn lines_can_follow<'a>(values: &Values<'a>, format: Format) -> bool
    ensures { result ≡ lines_can_follow format (said values.now) }
{
    format == Format::Pdf || can_follow(values, format)
}

/// Whether a message of this content can be spread over several symbols.
pub fn can_be_split(content: Content) -> bool
    ensures { result ≡ can_be_split content }
{
    match content {
        Content::Auto | Content::Text | Content::Bytes => true,
        Content::Gs1 | Content::UncheckedGs1 | Content::Link => false,
        Content::BytesWithoutKanji | Content::Micro | Content::MicroBytes => false,
    }
}

/// Returns that as many labels as it takes show the input. Each has a file if the output's name has
/// a number, else their pictures follow each other.
fn split_of<'a>(
    values: &Values<'a>,
    content: Content,
    format: Format,
) -> Result<Portion<'a>, Misuse<'a>>
    ensures { portion_outcome result ≡ split_asked content format (said values.now) }
{
    if values.has(Name::Lines) || values.has(Name::Strongest) || values.has(Name::MinVersion) {
        return Err(Misuse::Invalid(Name::Split));
    }
    if !can_be_split(content) {
        return Err(Misuse::Invalid(Name::Split));
    }
    match numbered_output(values) {
        Some(name) => Ok(Portion::Parts(name)),
        None if has_percent(values) => Err(Misuse::Invalid(Name::Output)),
        None if can_follow(values, format) => Ok(Portion::Split),
        None => Err(Misuse::NeedsStream),
    }
}

/// Returns what of the input a label shows. Lines are those of an input, and not of a text. Each
/// has a file if the output's name has a number, else their pictures follow each other, or are the
/// pages of a document.
pub fn portion_of<'a>(
    values: &Values<'a>,
    content: Content,
    format: Format,
) -> Result<Portion<'a>, Misuse<'a>>
    ensures { portion_outcome result ≡ portion_asked content format (said values.now) }
{
    if values.has(Name::Split) {
        return split_of(values, content, format);
    }
    let numbered = numbered_output(values);
    if !values.has(Name::Lines) {
        return match numbered {
            Some(_) => Err(Misuse::Invalid(Name::Output)),
            None => Ok(Portion::Whole),
        };
    }
    if values.has(Name::Text) {
        return Err(Misuse::Invalid(Name::Lines));
    }
    match numbered {
        Some(name) => Ok(Portion::Files(name)),
        None if has_percent(values) => Err(Misuse::Invalid(Name::Output)),
        None if lines_can_follow(values, format) => Ok(Portion::Lines),
        None => Err(Misuse::NeedsStream),
    }
}

/// Checks that no bytes but a text are written on a terminal, unless the words name the output.
pub fn check_terminal<'a>(
    values: &Values<'a>,
    on_terminal: bool,
    format: Format,
) -> Result<(), Misuse<'a>>
    ensures { outcome result ≡ terminal_asked on_terminal format (said values.now) }
{
    let has_info = values.has(Name::Info);
    if on_terminal && !format.can_be_shown() && !values.has(Name::Output) && !has_info {
        Err(Misuse::NeedsFile)
    } else {
        Ok(())
    }
}

/// Whether the labels of lines are the pages of one document.
pub fn is_document(label: &Label) -> bool
    ensures { result ≡ is_document label.now }
{
    let is_pdf = label.format == Format::Pdf && label.details != Details::Alone;
    matches!(label.portion, Portion::Lines) && is_pdf
}
