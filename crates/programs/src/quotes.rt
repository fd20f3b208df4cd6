//! Words in messages, which have no control character that reaches a terminal.
ghost use Rattle.std.specs.Prelude.{◌≡◌, ◌++◌, [], ◌∷◌, codes, flat_map, IsFalse, is_err};
ghost use Rattle.programs.specs.Devices.{output, Writes};
ghost use Rattle.programs.specs.Quotes.{is_shown, has_control, control_letter, quoted_byte};
ghost use Rattle.programs.specs.Quotes.{is_control, quoted_word, shown_word};

use crate::reports::push_pieces;
use crate::{Fault, Sink, push_all, write_all};

/// A word in a message.
#[derive(Clone, Copy, Debug, PartialEq, Eq)]
pub struct Word<'a> {
    pub text: &'a str,
    /// Whether it is in quotes even if it has no control character.
    pub in_quotes: bool,
}

/// Whether a text has a control character: of ASCII, or one from U+0080 to U+009F.
pub fn has_control(text: &str) -> bool
    ensures { result ≡ has_control text.now }
{
    let bytes = text.as_bytes();
    for i in 0..bytes.len() {
        let next = if i + 1 < bytes.len() { bytes[i + 1] } else { 0 };
        if is_control(bytes[i], next) {
            return true;
        }
    }
    false
}

/// Whether a byte is a control character of ASCII, or begins another one with the next.
fn is_control(first: u8, second: u8) -> bool
    ensures { result ≡ is_control first second }
{
    match first {
        0..=31 | 127 => true,
        0xC2 => 0x80 <= second && second <= 0x9F,
        _ => false,
    }
}

/// Whether a byte is a character of ASCII that is printed.
fn is_shown(byte: u8) -> bool
    ensures { result ≡ is_shown byte }
{
    matches!(byte, b' '..=b'~')
}

/// Returns the letter of a control character, if it has one.
fn control_letter(byte: u8) -> Option<u8>
    ensures { result ≡ control_letter byte }
{
    match byte {
        7 => Some(b'a'),
        8 => Some(b'b'),
        b'\t' => Some(b't'),
        b'\n' => Some(b'n'),
        11 => Some(b'v'),
        12 => Some(b'f'),
        b'\r' => Some(b'r'),
        _ => None,
    }
}

/// Writes a byte within quotes, after one that was escaped or was not.
fn push_byte<E: Sink>(errors: &mut E, byte: u8, escaped: bool) -> Result<(), Fault>
    requires { IsFalse (E.state errors.old).failed }
    ensures writes { Writes (output (E.state errors.old) (E.state errors.new))
        (quoted_byte escaped byte) }
    ensures failure { (E.state errors.new).failed ≡ is_err result }
{
    if byte == b'\'' {
        return push_all(errors, b"'\\''");
    }
    if is_shown(byte) {
        return if escaped {
            push_all(errors, &[b'\'', b'\'', byte])
        } else {
            push_all(errors, &[byte])
        };
    }
    let (high, middle, low) = (48 + byte / 64, 48 + byte / 8 % 8, 48 + byte % 8);
    match (control_letter(byte), escaped) {
        (Some(letter), true) => push_all(errors, &[b'\\', letter]),
        (Some(letter), false) => push_all(errors, &[b'\'', b'$', b'\'', b'\\', letter]),
        (None, true) => push_all(errors, &[b'\\', high, middle, low]),
        (None, false) => push_all(errors, &[b'\'', b'$', b'\'', b'\\', high, middle, low]),
    }
}

/// Writes a word in quotes, without a flush.
fn push_quoted<E: Sink>(errors: &mut E, word: &str) -> Result<(), Fault>
    requires { IsFalse (E.state errors.old).failed }
    ensures writes { Writes (output (E.state errors.old) (E.state errors.new))
        (quoted_word word.now) }
    ensures failure { (E.state errors.new).failed ≡ is_err result }
{
    push_all(errors, b"'")?;
    let mut escaped = false;
    for byte in word.as_bytes() {
        push_byte(errors, *byte, escaped)?;
        escaped = !is_shown(*byte);
    }
    push_all(errors, b"'")
}

/// Writes a word, without a flush: in quotes, if it has a control character or is to be in quotes.
#[tactic(auto, unfolding(crate::specs::Quotes::shown_word))]
fn push_word<E: Sink>(errors: &mut E, word: Word) -> Result<(), Fault>
    requires { IsFalse (E.state errors.old).failed }
    ensures writes { Writes (output (E.state errors.old) (E.state errors.new))
        (shown_word word.entry.in_quotes word.entry.text.now) }
    ensures failure { (E.state errors.new).failed ≡ is_err result }
{
    if word.in_quotes || has_control(word.text) {
        return push_quoted(errors, word.text);
    }
    push_all(errors, word.text.as_bytes())
}

/// Writes the name of the program, a word between the pieces of a text, and a newline, and flushes.
/// It fails with `Write` if the sink failed.
pub fn write_word_line<E: Sink>(
    errors: &mut E,
    program: &str,
    before: &[&str],
    word: Word,
    after: &[&str],
) -> Result<(), Fault>
    requires { IsFalse (E.state errors.old).failed }
    ensures { Writes (output (E.state errors.old) (E.state errors.new))
        (program.now ++ (codes ": " ++ (flat_map (λ piece. piece.now) before.now
        ++ (shown_word word.entry.in_quotes word.entry.text.now
        ++ (flat_map (λ piece. piece.now) after.now ++ 10 ∷ []))))) }
{
    push_all(errors, program.as_bytes())?;
    push_all(errors, b": ")?;
    push_pieces(errors, before)?;
    push_word(errors, word)?;
    push_pieces(errors, after)?;
    write_all(errors, b"\n")
}
