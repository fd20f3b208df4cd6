//! What is wrong with the words, as a line on standard error.
ghost use Rattle.std.specs.Prelude.{◌≡◌, [], ◌∷◌, false, IsFalse};
ghost use Rattle.std.specs.Option.{option_copied};
ghost use Rattle.programs.specs.Devices.{output, Writes};
ghost use Rattle.programs.specs.Quotes.{shown_word};
ghost use Rattle.label_words.specs.Misuses.{picture_word, option_word, values_text, wrong_line};
ghost use Rattle.label_words.specs.Misuses.{named_line, invalid_line, advice};
ghost use Rattle.label_words.specs.Values.{wrong_of};

use crate::words::{Misuse, Name};
use programs::{Fault, Sink, Word, write_line, write_word_line};

/// The second line.
const ADVICE: &str = "\ntry qrlabel --help";

/// What the size of a module can be.
const MODULE: &str = "\
0.05 to 10, at most three decimals, for svg, png, eps and pdf; \
with --dpi or --dpmm for png, zpl and escpos, 1 to 64 whole dots";

/// What the number of dots of an inch can be.
const DPI: &str =
    "50 to 2400, at most one decimal, for png and zpl; with --module-mm for escpos, too";

/// What the number of dots of a millimetre can be.
const DPMM: &str = "2 to 94, not with --dpi, for png and zpl; with --module-mm for escpos, too";

/// What the name of the output can be.
const OUTPUT: &str = "\
with -f any name, else one that ends with .txt, .svg, .png, .pbm, .eps, .pdf, .escpos or .zpl; \
for --lines and --split alone with a number, %d or %0Nd, N from 1 to 9";

/// What the labels of lines, or of the parts of a message, need.
const NEEDS_STREAM: &str = "\
--lines and --split need -f terminal, pbm, escpos or zpl, or --lines -f pdf, \
or files as in -o label-%05d.png";

/// Where a message can't be spread over several symbols.
const SPLIT: &str = "\
not with --lines, --strongest, --min-version, --no-kanji, or -c gs1, gs1-unchecked, link, micro \
or micro-bytes";

/// What the color of dark modules can be.
const DARK: &str =
    "#rrggbb or one of CSS's sixteen names, for svg, png, eps and pdf; lighter colors need --any-colors";

/// What the ground can be.
const LIGHT: &str =
    "as --dark, or transparent; in a contrast of 3 at least, unless --any-colors is given";

/// What is wrong with a title that has a line of text without control characters.
const LONG_TITLE: &str = "\
invalid --title: too long: for png and pdf it has at most 1000000 bytes, for eps at most 244 \
characters, of which one beyond ASCII counts 8 to 16";

/// What bytes that are no text need on a terminal.
const NEEDS_FILE: &str = "png, pbm, pdf and escpos are not for a terminal: give -o FILE, or -o -";

/// Writes what is wrong with the words, and where help is. `value` is the value of the option that
/// is wrong, if it is known. It fails with `Write` if the sink failed.
pub fn write_misuse<E: Sink>(
    errors: &mut E,
    misuse: Misuse,
    value: Option<&str>,
) -> Result<(), Fault>
    requires { IsFalse (E.state errors.old).failed }
    ensures { Writes (output (E.state errors.old) (E.state errors.new))
        (wrong_line (option_copied value.entry) (wrong_of misuse.entry)) }
{
    match misuse {
        Misuse::Unknown(word) => write_word(errors, "no option ", word),
        Misuse::NoValue(name) => {
            let option = option_word(name);
            write_line(errors, "qrlabel", &["no value after ", option, ADVICE])
        }
        Misuse::SecondText(word) => write_word(errors, "more than one text: ", word),
        Misuse::Invalid(name) => write_invalid(errors, name, value),
        Misuse::LongTitle => write_line(errors, "qrlabel", &[LONG_TITLE, ADVICE]),
        Misuse::NeedsStream => write_line(errors, "qrlabel", &[NEEDS_STREAM, ADVICE]),
        Misuse::NeedsFile => write_line(errors, "qrlabel", &[NEEDS_FILE, ADVICE]),
    }
}

/// Writes what is wrong with a word after it.
fn write_word<E: Sink>(errors: &mut E, what: &str, text: &str) -> Result<(), Fault>
    requires { IsFalse (E.state errors.old).failed }
    ensures { Writes (output (E.state errors.old) (E.state errors.new))
        (named_line (what.now ∷ []) (shown_word false text.now) (advice ∷ [])) }
{
    let word = Word {
        text,
        in_quotes: false,
    };
    write_word_line(errors, "qrlabel", &[what], word, &[ADVICE])
}

/// Writes that an option has a value that it can't have, and the value, if it is known.
fn write_invalid<E: Sink>(errors: &mut E, name: Name, value: Option<&str>) -> Result<(), Fault>
    requires { IsFalse (E.state errors.old).failed }
    ensures { Writes (output (E.state errors.old) (E.state errors.new))
        (invalid_line (option_copied value.entry) name) }
{
    let (option, values) = (option_word(name), values_text(name));
    match value {
        None => write_line(
            errors,
            "qrlabel",
            &["invalid ", option, ": ", values, ADVICE],
        ),
        Some(text) => {
            let word = Word {
                text,
                in_quotes: true,
            };
            let after = &[": ", values, ADVICE];
            write_word_line(errors, "qrlabel", &["invalid ", option, " "], word, after)
        }
    }
}

/// Returns the word of an option.
fn option_word(name: Name) -> &'static str
    ensures { result.now ≡ option_word name }
{
    match name {
        Name::Text => "--",
        Name::Format => "--format",
        Name::Content => "--content",
        Name::Level => "--level",
        Name::Strongest => "--strongest",
        Name::MinVersion => "--min-version",
        Name::MaxVersion => "--max-version",
        Name::Read => "--read",
        Name::Output => "--output",
        Name::AllowEmpty => "--allow-empty",
        Name::Help => "--help",
        Name::Version => "--version",
        Name::Lines => "--lines",
        Name::First => "--first",
        Name::KeepGoing => "--keep-going",
        Name::KeepNewline => "--keep-newline",
        Name::Split => "--split",
        Name::Verbose => "--verbose",
        Name::Info => "--info",
        Name::Domain => "--domain",
        Name::NoKanji => "--no-kanji",
        Name::Upper => "--upper",
        _ => picture_word(name),
    }
}

/// Returns the word of an option of a picture.
fn picture_word(name: Name) -> &'static str
    ensures { result.now ≡ picture_word name }
{
    match name {
        Name::Scale => "--scale",
        Name::Quiet => "--quiet",
        Name::ModuleMm => "--module-mm",
        Name::Dpi => "--dpi",
        Name::Dpmm => "--dpmm",
        Name::Inverted => "--inverted",
        Name::Title => "--title",
        Name::At => "--at",
        Name::Copies => "--copies",
        Name::Compressed => "--compressed",
        Name::Feed => "--feed",
        Name::Cut => "--cut",
        Name::Rotate => "--rotate",
        Name::Dark => "--dark",
        Name::Light => "--light",
        Name::AnyColors => "--any-colors",
        Name::Hri => "--hri",
        _ => "",
    }
}

/// Returns what the value of an option can be, and where the option can't be given.
fn values_text(name: Name) -> &'static str
    ensures { result.now ≡ values_text name }
{
    match name {
        Name::Format => "terminal, svg, png, pbm, eps, pdf, escpos or zpl",
        Name::Content => "auto, text, bytes, gs1, gs1-unchecked, link, micro or micro-bytes",
        Name::Level => "L, M, Q or H; for a Micro symbol L, M or Q",
        Name::Domain => "a host name, or with a port or a path, and with -c link",
        Name::Strongest => "not for a Micro symbol",
        Name::MinVersion => "1 to 40, not for a Micro symbol",
        Name::MaxVersion => "1 to 40, at least --min-version, not for a Micro symbol",
        Name::Scale => "1 to 64, and not with both --module-mm and --dpi or --dpmm",
        Name::Quiet => "0 to 16",
        Name::ModuleMm => MODULE,
        Name::Dpi => DPI,
        Name::Dpmm => DPMM,
        Name::Inverted => "for terminal",
        Name::Title => "a text without control characters, for svg, png, eps and pdf",
        Name::At => "X,Y, each 0 to 18000, for zpl",
        Name::Output => OUTPUT,
        Name::Read | Name::Lines => "not with a text",
        Name::First => "0 to 1000000000, with --lines",
        Name::KeepGoing => "with --lines",
        Name::Copies => "1 to 99999999, for zpl",
        Name::Compressed => "for zpl",
        Name::Feed => "0 to 255, for escpos",
        Name::Cut => "for escpos",
        Name::Split => SPLIT,
        Name::Rotate => "0, 90, 180 or 270",
        Name::Verbose => "not with --lines, see --info",
        Name::Info => "not with the name of an output",
        Name::Dark => DARK,
        Name::Light => LIGHT,
        Name::AnyColors => "for svg, png, eps and pdf",
        Name::Hri => "with -c gs1, gs1-unchecked or link, for terminal, svg, png, eps, zpl and pdf",
        Name::NoKanji => "with -c bytes",
        Name::Upper => "with -c link",
        Name::Text | Name::AllowEmpty | Name::KeepNewline => "",
        Name::Help | Name::Version => "",
    }
}
