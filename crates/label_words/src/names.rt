//! Names of files with a number in them.
ghost use Rattle.std.specs.Prelude.{◌≡◌, ◌++◌, replicate, OnOk};
ghost use Rattle.std.specs.Option.{option_map};
ghost use Rattle.std.specs.String.{string_bytes};
ghost use Rattle.label_words.specs.Names.{width_in, numbering_in, numbered};
ghost use Rattle.label_words.specs.Numberings.{numbering_of};

use itoa::Buffer;
use std::alloc::AllocError;

/// A name with the place of a number.
#[derive(Clone, Copy, Debug, PartialEq, Eq)]
pub struct Numbering<'a> {
    /// What is before the number.
    pub before: &'a str,
    /// How many digits it has at least.
    pub width: usize,
    /// What is after it.
    pub after: &'a str,
}

/// Returns the least number of digits, by what is between `%` and `d`: nothing, or `0N` with N from
/// 1 to 9.
fn width_in(digits: &[u8]) -> Option<usize>
    ensures { result ≡ width_in digits.now }
{
    match digits {
        [] => Some(1),
        [b'0', n] if b'1' <= *n && *n <= b'9' => Some(usize::from(*n - b'0')),
        _ => None,
    }
}

/// Returns the place of the number in a name: `%d` or `%0Nd`, beside which there is no `%`.
pub fn numbering_in<'a>(name: &'a str) -> Option<Numbering<'a>>
    ensures { option_map numbering_of result ≡ numbering_in name.now }
{
    let (before, rest) = name.split_once('%')?;
    let (digits, after) = rest.split_once('d')?;
    if after.split_once('%').is_some() {
        return None;
    }
    let width = width_in(digits.as_bytes())?;
    Some(Numbering {
        before,
        width,
        after,
    })
}

/// Appends zeros to a text.
fn push_zeros(text: &mut String, count: usize) -> Result<(), AllocError>
    ensures { OnOk result (string_bytes text.new ≡ string_bytes text.old ++ replicate count 48) }
{
    for n in 0..count {
        text.push_str("0")?;
    }
    Ok(())
}

/// Makes a text the name with this number, before whose digits are zeros where they are too few. It
/// fails only for lack of memory.
pub fn write_numbered(text: &mut String, name: &Numbering, number: usize) -> Result<(), AllocError>
    ensures { OnOk result (string_bytes text.new ≡ numbered (numbering_of name.now) number) }
{
    let mut buffer = Buffer::new();
    let digits = buffer.format(number);
    text.clear();
    text.push_str(name.before)?;
    push_zeros(text, name.width.saturating_sub(digits.len()))?;
    text.push_str(digits)?;
    text.push_str(name.after)
}
