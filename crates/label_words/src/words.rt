//! The words of the command line: options with their values, and the text.
ghost use Rattle.std.specs.Prelude.{◌≡◌, ◌<◌, map, option_map};
ghost use Rattle.std.specs.Option.{option_copied};
ghost use Rattle.label_words.specs.Words.{named, picture_named, takes_value, is_text, looks_like_option};
ghost use Rattle.label_words.specs.Words.{option_number, value_of, file_of, value_said};
ghost use Rattle.label_words.specs.Words.{with, is_given, assigned, rest_after, joined_value, parted};
ghost use Rattle.label_words.specs.Words.{read_as_text, read_plain, read_name, read_word, values_in};
ghost use Rattle.label_words.specs.Values.{said, scan_of, scan_outcome, values_outcome, parted_of};
ghost use Rattle.label_words.specs.Values.{wrong_of};

/// An option, or the text.
#[derive(Clone, Copy, Debug, PartialEq, Eq)]
pub enum Name {
    Text,
    Format,
    Content,
    Level,
    Strongest,
    MinVersion,
    MaxVersion,
    Scale,
    Quiet,
    ModuleMm,
    Dpi,
    Inverted,
    Title,
    At,
    Read,
    Output,
    AllowEmpty,
    Help,
    Version,
    Lines,
    First,
    KeepGoing,
    KeepNewline,
    Copies,
    Compressed,
    Feed,
    Cut,
    Split,
    Rotate,
    Verbose,
    Info,
    Dark,
    Light,
    AnyColors,
    Domain,
    Hri,
    NoKanji,
    Dpmm,
    Upper,
}

/// Returns the option that a word names. After `--` come texts.
#[tactic(auto, unfolding(crate::specs::Words::named))]
fn named(word: &str) -> Option<Name>
    ensures { result ≡ named word.now }
{
    match word {
        "-f" | "--format" => Some(Name::Format),
        "-c" | "--content" => Some(Name::Content),
        "--no-kanji" => Some(Name::NoKanji),
        "--domain" => Some(Name::Domain),
        "--upper" => Some(Name::Upper),
        "-l" | "--level" => Some(Name::Level),
        "--strongest" => Some(Name::Strongest),
        "--min-version" => Some(Name::MinVersion),
        "--max-version" => Some(Name::MaxVersion),
        "-r" | "--read" => Some(Name::Read),
        "-o" | "--output" => Some(Name::Output),
        "--lines" => Some(Name::Lines),
        "--first" => Some(Name::First),
        "-k" | "--keep-going" => Some(Name::KeepGoing),
        "--keep-newline" => Some(Name::KeepNewline),
        "--split" => Some(Name::Split),
        "-v" | "--verbose" => Some(Name::Verbose),
        "--info" => Some(Name::Info),
        "--allow-empty" => Some(Name::AllowEmpty),
        "-h" | "--help" => Some(Name::Help),
        "-V" | "--version" => Some(Name::Version),
        "--" => Some(Name::Text),
        _ => picture_named(word),
    }
}

/// Returns the option of a picture that a word names.
#[tactic(auto, unfolding(crate::specs::Words::picture_named))]
fn picture_named(word: &str) -> Option<Name>
    ensures { result ≡ picture_named word.now }
{
    match word {
        "-s" | "--scale" => Some(Name::Scale),
        "-q" | "--quiet" => Some(Name::Quiet),
        "--module-mm" => Some(Name::ModuleMm),
        "--dpi" => Some(Name::Dpi),
        "--dpmm" => Some(Name::Dpmm),
        "--inverted" => Some(Name::Inverted),
        "--title" => Some(Name::Title),
        "--at" => Some(Name::At),
        "--copies" => Some(Name::Copies),
        "--compressed" => Some(Name::Compressed),
        "--feed" => Some(Name::Feed),
        "--cut" => Some(Name::Cut),
        "--rotate" => Some(Name::Rotate),
        "--dark" => Some(Name::Dark),
        "--light" => Some(Name::Light),
        "--any-colors" => Some(Name::AnyColors),
        "--hri" => Some(Name::Hri),
        _ => None,
    }
}

/// Whether an option takes a value: the next word.
fn takes_value(name: Name) -> bool
    ensures { result ≡ takes_value name }
{
    match name {
        Name::Strongest | Name::Inverted | Name::Lines | Name::AllowEmpty => false,
        Name::KeepGoing | Name::KeepNewline | Name::Help | Name::Version => false,
        Name::Compressed | Name::Cut | Name::Split => false,
        Name::Verbose | Name::Info | Name::AnyColors | Name::Hri => false,
        Name::NoKanji | Name::Upper => false,
        _ => true,
    }
}

/// Whether it is the text.
fn is_text(name: Name) -> bool
    ensures { result ≡ is_text name }
{
    match name {
        Name::Text => true,
        _ => false,
    }
}

/// The number of options.
pub const COUNT: usize = 39;

/// What is wrong with the words.
#[derive(Clone, Copy, Debug, PartialEq, Eq)]
pub enum Misuse<'a> {
    /// No option has this name.
    Unknown(&'a str),
    /// There is no word after this option, which needs one.
    NoValue(Name),
    /// There is a text already.
    SecondText(&'a str),
    /// The option has a value that it can't have, or does not go with the others.
    Invalid(Name),
    /// The title is too long for the format.
    LongTitle,
    /// The labels of lines or parts can't follow each other in this format.
    NeedsStream,
    /// Bytes that are no text would be written on a terminal.
    NeedsFile,
}

/// The last value of each option, and the text, by their numbers. The value of a flag is empty.
#[derive(Clone, Copy)]
pub struct Values<'a> {
    values: [Option<&'a str>; COUNT],
}

impl<'a> Values<'a> {
    /// Returns the value of an option, or `None` if it is not given.
    pub fn get(&self, name: Name) -> Option<&'a str>
        ensures { option_copied result ≡ value_of (said self.now) name }
    {
        value(&self.values, name)
    }

    /// Returns the name of the file that an option gives, or `None` if it is not given, or is `-`,
    /// which stands for standard input or output.
    pub fn file(&self, name: Name) -> Option<&'a str>
        ensures { option_copied result ≡ file_of (said self.now) name }
    {
        match self.get(name) {
            Some("-") => None,
            file => file,
        }
    }

    /// Returns the value of the option that is wrong, if it has one.
    pub fn wrong_value(&self, misuse: Misuse) -> Option<&'a str>
        ensures { option_copied result ≡ value_said (said self.now) (wrong_of misuse.entry) }
    {
        match misuse {
            Misuse::Invalid(name) if takes_value(name) => self.get(name),
            _ => None,
        }
    }

    /// Whether a flag is given.
    pub fn has(&self, name: Name) -> bool
        ensures { result ≡ is_given (said self.now) name }
    {
        self.get(name).is_some()
    }
}

/// The values so far, and the option whose value is the next word. If this is the text, all words
/// that follow are texts.
#[derive(Clone, Copy)]
pub struct Reading<'a> {
    pending: Option<Name>,
    values: [Option<&'a str>; COUNT],
}

/// Returns the number of an option, which is its place in `Values`.
fn number(name: Name) -> usize
    ensures is { result ≡ option_number name }
    ensures within { result < COUNT }
{
    name as usize
}

/// Returns the values with one more, which replaces an earlier one of the same option.
#[tactic(auto, using(crate::proofs::WordLemmas::set_value))]
fn with<'a>(mut values: [Option<&'a str>; COUNT], name: Name, word: &'a str) -> Reading<'a>
    ensures { scan_of result ≡ with (map option_copied values.entry) name word.entry.now }
{
    values[number(name)] = Some(word);
    Reading {
        pending: None,
        values,
    }
}

/// Returns the value of an option, if there is one.
#[tactic(auto, using(crate::proofs::WordLemmas::get_value))]
fn value<'a>(values: &[Option<&'a str>; COUNT], name: Name) -> Option<&'a str>
    ensures { option_copied result ≡ value_of (map option_copied values.now) name }
{
    values[number(name)]
}

/// Reads one word.
#[tactic(auto, unfolding(crate::specs::Words::read_word))]
fn read_word<'a>(reading: Reading<'a>, word: &'a str) -> Result<Reading<'a>, Misuse<'a>>
    ensures { scan_outcome result ≡ read_word (scan_of reading.entry) word.entry.now }
{
    let Reading { pending, values } = reading;
    match pending {
        Some(name) if is_text(name) => read_as_text(Some(name), values, word),
        Some(name) => Ok(with(values, name, word)),
        None => read_name(values, word),
    }
}

/// Reads a word that may name an option.
fn read_name<'a>(values: [Option<&'a str>; COUNT], word: &'a str) -> Result<Reading<'a>, Misuse<'a>>
    ensures { scan_outcome result
        ≡ read_name (map option_copied values.entry) (named word.entry.now) word.entry.now }
{
    match named(word) {
        Some(name) if takes_value(name) => Ok(Reading {
            pending: Some(name),
            values,
        }),
        Some(name) => Ok(with(values, name, "")),
        None => read_plain(values, word),
    }
}

/// Reads a word that is no option's name.
fn read_plain<'a>(
    values: [Option<&'a str>; COUNT],
    word: &'a str,
) -> Result<Reading<'a>, Misuse<'a>>
    ensures { scan_outcome result ≡ read_plain (map option_copied values.entry) word.entry.now }
{
    if !looks_like_option(word) {
        return read_as_text(None, values, word);
    }
    match parted(word) {
        Some((name, value)) => Ok(with(values, name, value)),
        None => Err(Misuse::Unknown(word)),
    }
}

/// Reads a text, after which `pending` is awaited.
fn read_as_text<'a>(
    pending: Option<Name>,
    values: [Option<&'a str>; COUNT],
    word: &'a str,
) -> Result<Reading<'a>, Misuse<'a>>
    ensures { scan_outcome result
        ≡ read_as_text pending (map option_copied values.entry) word.entry.now }
{
    if value(&values, Name::Text).is_some() {
        return Err(Misuse::SecondText(word));
    }
    let Reading { values, .. } = with(values, Name::Text, word);
    Ok(Reading { pending, values })
}

/// Returns the option and the value that a word has in it.
fn parted<'a>(word: &'a str) -> Option<(Name, &'a str)>
    ensures { option_map parted_of result ≡ parted word.now }
{
    match assigned(word) {
        Some(found) => Some(found),
        None => joined_value(word),
    }
}

/// Returns the option and the value of a word like `--scale=4`: the value comes after the
/// first `=`.
fn assigned<'a>(word: &'a str) -> Option<(Name, &'a str)>
    ensures { option_map parted_of result ≡ assigned word.now }
{
    let (before, value) = word.split_once('=')?;
    match named(before) {
        Some(name) if takes_value(name) && !is_text(name) => Some((name, value)),
        _ => None,
    }
}

/// Returns what comes after the start of a word, if it starts so.
fn rest_after<'a>(start: &str, word: &'a str) -> Option<&'a str>
    ensures { option_copied result ≡ rest_after start.now word.now }
{
    word.strip_prefix(start)
}

/// Returns the option and the value of a word like `-s4`.
fn joined_value<'a>(word: &'a str) -> Option<(Name, &'a str)>
    ensures { option_map parted_of result ≡ joined_value word.now }
{
    if let Some(value) = rest_after("-f", word) {
        Some((Name::Format, value))
    } else if let Some(value) = rest_after("-c", word) {
        Some((Name::Content, value))
    } else if let Some(value) = rest_after("-l", word) {
        Some((Name::Level, value))
    } else if let Some(value) = rest_after("-s", word) {
        Some((Name::Scale, value))
    } else if let Some(value) = rest_after("-q", word) {
        Some((Name::Quiet, value))
    } else if let Some(value) = rest_after("-r", word) {
        Some((Name::Read, value))
    } else if let Some(value) = rest_after("-o", word) {
        Some((Name::Output, value))
    } else {
        None
    }
}

/// Whether a word is written like an option: `-` and more.
fn looks_like_option(word: &str) -> bool
    ensures { result ≡ looks_like_option word.now }
{
    word.len() > 1 && word.as_bytes()[0] == b'-'
}

/// Returns what the words say. A word after an option that takes a value is this value; a word that
/// is written like an option must be one, with or without its value; another word is the text, and
/// so is one after `--`.
#[tactic(auto, using(crate::proofs::WordLemmas::scanned), unfolding(crate::specs::Words::values_in))]
pub fn read_words<'a>(words: &[&'a str]) -> Result<Values<'a>, Misuse<'a>>
    ensures { values_outcome result ≡ values_in (map (λ word. word.now) words.now) }
{
    let mut reading = Reading {
        pending: None,
        values: [None; COUNT],
    };
    for word in words {
        reading = read_word(reading, *word)?;
    }
    match reading.pending {
        Some(name) if !is_text(name) => Err(Misuse::NoValue(name)),
        _ => Ok(Values {
            values: reading.values,
        }),
    }
}
