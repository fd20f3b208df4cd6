//! The lines of a text below a picture.
ghost use Rattle.std.specs.Prelude.{◌≡◌, ◌++◌, map, max, IfOk, OnOk};
ghost use Rattle.std.specs.String.{string_bytes};
ghost use Rattle.qrcode_render.specs.Captions.{all_lines, breaks_of, broken_lines};
ghost use Rattle.qrcode_render.specs.Captions.{caption_lines, character_bytes};
ghost use Rattle.qrcode_render.specs.Captions.{longest, next_character, one_line};

use std::alloc::{AllocError, Global};

/// Returns the lines below a picture that has room for this many bytes in a line: one, if the text
/// fits, else at least one for each of its own, which newlines end. It fails only for lack
/// of memory.
pub(crate) fn caption_lines(
    alloc: Global,
    text: &str,
    most: usize,
) -> Result<Vec<String>, AllocError>
    ensures { IfOk result (λ lines.
        map string_bytes lines.items ≡ caption_lines most text.now) }
{
    let line = one_line(alloc, text)?;
    if line.len() > most {
        return broken_lines(alloc, text, most);
    }
    let mut lines = Vec::new(alloc);
    lines.push(line)?;
    Ok(lines)
}

/// Returns the text on one line.
#[tactic(auto, unfolding(crate::specs::Captions::one_line))]
fn one_line(alloc: Global, text: &str) -> Result<String, AllocError>
    ensures { IfOk result (λ line. string_bytes line ≡ one_line text.now) }
{
    let mut line = String::new(alloc);
    for c in text.chars() {
        push_character(&mut line, c)?;
    }
    Ok(line)
}

/// Appends a character, unless it is a newline.
fn push_character(line: &mut String, c: char) -> Result<(), AllocError>
    ensures { OnOk result
        (string_bytes line.new ≡ string_bytes line.old ++ character_bytes c) }
{
    if c == '\n' { Ok(()) } else { line.push(c) }
}

/// Returns the lines of a text, of at most this many bytes.
#[tactic(auto, unfolding(crate::specs::Captions::broken_lines))]
fn broken_lines(alloc: Global, text: &str, most: usize) -> Result<Vec<String>, AllocError>
    ensures { IfOk result (λ lines.
        map string_bytes lines.items ≡ broken_lines most text.now) }
{
    let mut lines = Vec::new(alloc);
    let mut line = String::new(alloc);
    for c in text.chars() {
        push_next(alloc, &mut lines, &mut line, c, most)?;
    }
    all_lines(lines, line)
}

/// Returns all lines: those that are whole, and the one that goes on, unless it is empty.
fn all_lines(mut lines: Vec<String>, line: String) -> Result<Vec<String>, AllocError>
    ensures { IfOk result (λ all. map string_bytes all.items ≡ all_lines
        (breaks_of (map string_bytes lines.items) (string_bytes line))) }
{
    if !line.is_empty() {
        lines.push(line)?;
    }
    Ok(lines)
}

/// Appends a character to the line that goes on, which ends before it at a newline, or where it
/// has no room.
fn push_next(
    alloc: Global,
    lines: &mut Vec<String>,
    line: &mut String,
    c: char,
    most: usize,
) -> Result<(), AllocError>
    ensures { OnOk result
        (breaks_of (map string_bytes lines.new.items) (string_bytes line.new) ≡ next_character most
        (breaks_of (map string_bytes lines.old.items) (string_bytes line.old)) c) }
{
    if (c == '\n' || line.len() >= most) && !line.is_empty() {
        lines.push(String::from_str(alloc, line)?)?;
        line.clear();
    }
    push_character(line, c)
}

/// Returns the length of the longest line.
#[tactic(auto, unfolding(crate::specs::Captions::longest))]
pub(crate) fn longest(lines: &[String]) -> usize
    ensures { result ≡ longest (map string_bytes lines.now) }
{
    let mut most = 0;
    for line in lines {
        most = most.max(line.len());
    }
    most
}
