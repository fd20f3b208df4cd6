//! Values of options as words: numbers, sizes in millimetres, positions and flags. `Rgb::of_word`
//! and `Ground::of_word` read colours.
ghost use Rattle.std.specs.Prelude.{◌≡◌, ◌≤◌};
ghost use Rattle.picture_settings.specs.OptionWords.{word_flag, word_number, word_tenths};
ghost use Rattle.picture_settings.specs.OptionWords.{word_thousandths, word_position, decimal_digit};
ghost use Rattle.picture_settings.specs.OptionWords.{fraction_tenths, fraction_thousandths};
ghost use Rattle.picture_settings.specs.OptionWords.{with_fraction};

/// Returns the number that decimal digits write, with or without a plus sign before them. Returns
/// `None` for another word, and for a number of 2^64 and more.
#[tactic(auto, using(crate::proofs::NumeralLemmas::parses, crate::proofs::NumeralLemmas::fails))]
pub fn number_of_word(word: &str) -> Option<usize>
    ensures { result ≡ word_number word.now }
{
    match word.parse::<usize>() {
        Ok(n) => Some(n),
        Err(_) => None,
    }
}

/// Returns the thousandths that a decimal number up to 10,000.999 writes: a number, and perhaps a
/// point with one to three digits after it. Returns `None` for another word.
pub fn thousandths_of_word(word: &str) -> Option<usize>
    ensures { result ≡ word_thousandths word.now }
{
    match word.split_once('.') {
        Some((whole, more)) => {
            let fraction = fraction_thousandths(more.as_bytes());
            with_fraction(1000, number_of_word(whole), fraction)
        }
        None => with_fraction(1000, number_of_word(word), Some(0)),
    }
}

/// Returns the tenths that a decimal number up to 10,000.9 writes: a number, and perhaps a point
/// with one digit after it. Returns `None` for another word.
pub fn tenths_of_word(word: &str) -> Option<usize>
    ensures { result ≡ word_tenths word.now }
{
    match word.split_once('.') {
        Some((whole, more)) => {
            with_fraction(10, number_of_word(whole), fraction_tenths(more.as_bytes()))
        }
        None => with_fraction(10, number_of_word(word), Some(0)),
    }
}

/// Returns the two numbers of `X,Y`, or `None` for another word.
pub fn position_of_word(word: &str) -> Option<(usize, usize)>
    ensures { result ≡ word_position word.now }
{
    let (x, y) = word.split_once(',')?;
    Some((number_of_word(x)?, number_of_word(y)?))
}

/// Returns the value of a flag, `true` or `false`, or `None` for another word.
pub fn flag_of_word(word: &str) -> Option<bool>
    ensures { result ≡ word_flag word.now }
{
    match word {
        "true" => Some(true),
        "false" => Some(false),
        _ => None,
    }
}

/// Returns the value of a decimal digit.
fn decimal_digit(byte: u8) -> Option<usize>
    ensures { result ≡ decimal_digit byte }
{
    match byte {
        b'0'..=b'9' => Some(usize::from(byte - b'0')),
        _ => None,
    }
}

/// Returns the tenths of one digit after a decimal point.
fn fraction_tenths(digits: &[u8]) -> Option<usize>
    ensures { result ≡ fraction_tenths digits.now }
{
    match digits {
        [tenths] => decimal_digit(*tenths),
        _ => None,
    }
}

/// Returns the thousandths of one to three digits after a decimal point.
fn fraction_thousandths(digits: &[u8]) -> Option<usize>
    ensures { result ≡ fraction_thousandths digits.now }
{
    match digits {
        [tenths] => Some(100 * decimal_digit(*tenths)?),
        [tenths, hundredths] => {
            Some(100 * decimal_digit(*tenths)? + 10 * decimal_digit(*hundredths)?)
        }
        [tenths, hundredths, rest] => {
            let tens = 100 * decimal_digit(*tenths)? + 10 * decimal_digit(*hundredths)?;
            Some(tens + decimal_digit(*rest)?)
        }
        _ => None,
    }
}

/// Returns the parts of a unit in a number up to 10,000 and more such parts, of which the unit has
/// `parts`.
fn with_fraction(parts: usize, whole: Option<usize>, more: Option<usize>) -> Option<usize>
    requires { parts ≤ 1000 }
    ensures { result ≡ with_fraction parts whole more }
{
    match (whole, more) {
        (Some(whole), Some(more)) if whole <= 10_000 && more < parts => Some(parts * whole + more),
        _ => None,
    }
}
