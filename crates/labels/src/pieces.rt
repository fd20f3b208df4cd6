//! Pieces of a line on standard error.
ghost use Rattle.std.specs.Prelude.{◌≡◌};
ghost use Rattle.labels.specs.Pieces.{digit_text, letter_text, unless_zero};

/// What the check digit should be comes after it.
pub const WOULD_BE: &str = "; the check digit would be ";

/// What the check characters should be comes after it.
pub const PAIR_WOULD_BE: &str = "; the pair would be ";

/// What is wrong with a text that does not begin with an element.
pub const NO_ELEMENTS: &str = "no elements, which are written as in (01)09506000134352";

/// Returns a text, or none if a byte is 0.
pub fn unless_zero(byte: u8, text: &'static str) -> &'static str
    ensures { result.now ≡ unless_zero byte text.now }
{
    if byte == 0 { "" } else { text }
}

/// Returns a digit as a text; of another byte there is none.
pub fn digit_text(byte: u8) -> &'static str
    ensures { result.now ≡ digit_text byte }
{
    match byte {
        b'0' => "0",
        b'1' => "1",
        b'2' => "2",
        b'3' => "3",
        b'4' => "4",
        b'5' => "5",
        b'6' => "6",
        b'7' => "7",
        b'8' => "8",
        b'9' => "9",
        _ => "",
    }
}

/// Returns a capital letter or a digit as a text; of another byte there is none.
pub fn letter_text(byte: u8) -> &'static str
    ensures { result.now ≡ letter_text byte }
{
    match byte {
        b'A' => "A",
        b'B' => "B",
        b'C' => "C",
        b'D' => "D",
        b'E' => "E",
        b'F' => "F",
        b'G' => "G",
        b'H' => "H",
        b'I' => "I",
        b'J' => "J",
        b'K' => "K",
        b'L' => "L",
        b'M' => "M",
        b'N' => "N",
        b'O' => "O",
        b'P' => "P",
        b'Q' => "Q",
        b'R' => "R",
        b'S' => "S",
        b'T' => "T",
        b'U' => "U",
        b'V' => "V",
        b'W' => "W",
        b'X' => "X",
        b'Y' => "Y",
        b'Z' => "Z",
        _ => digit_text(byte),
    }
}
