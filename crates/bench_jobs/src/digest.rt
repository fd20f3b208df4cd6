//! A digest of results, made by words of 64 bits, so that it costs little beside what it digests.
ghost use Rattle.std.specs.Prelude.{◌+◌, ◌≤◌, length};

use qrcode_core::symbol::Symbol;
use qrcode_core::traits::{ModuleSource, QrSymbol};
use qrcode_core::types::{Color, QrError, QrResult, Version};

/// The digest of what was taken so far.
#[derive(Clone, Copy)]
pub struct Digest {
    first: u64,
    second: u64,
    third: u64,
    fourth: u64,
}

impl Digest {
    /// Returns the digest of nothing.
    pub fn new() -> Digest {
        Digest {
            first: 1,
            second: 2,
            third: 3,
            fourth: 4,
        }
    }

    /// Returns the digest as one number.
    pub fn value(&self) -> u64 {
        let (one, two) = (
            mixed(self.first, self.second),
            mixed(self.third, self.fourth),
        );
        mixed(one, two)
    }

    /// Takes a number.
    pub fn number(&mut self, number: u64) {
        self.first = mixed(self.first, number);
    }

    /// Takes bytes.
    pub fn bytes(&mut self, bytes: &[u8]) {
        self.number(bytes.len() as u64);
        let blocks = bytes.len() / 32;
        for n in 0..blocks {
            let at = 32 * n;
            self.first = mixed(self.first, word_of(bytes, at));
            self.second = mixed(self.second, word_of(bytes, at + 8));
            self.third = mixed(self.third, word_of(bytes, at + 16));
            self.fourth = mixed(self.fourth, word_of(bytes, at + 24));
        }
        for n in 32 * blocks..bytes.len() {
            self.number(u64::from(bytes[n]));
        }
    }

    /// Takes colours.
    pub fn colors(&mut self, colors: &[Color]) {
        self.number(colors.len() as u64);
        let blocks = colors.len() / 16;
        for n in 0..blocks {
            let at = 16 * n;
            self.first = mixed(self.first, colors_of(colors, at));
            self.second = mixed(self.second, colors_of(colors, at + 8));
        }
        for n in 16 * blocks..colors.len() {
            self.number(colors[n] as u64);
        }
    }

    /// Takes a symbol, or the error in its place.
    pub fn symbol(&mut self, outcome: &QrResult<Symbol>) {
        match outcome {
            Ok(symbol) => {
                self.colors(symbol.modules());
                self.number(symbol.mask() as u64);
                self.number(symbol.error_correction_level() as u64);
            }
            Err(error) => self.error(error),
        }
    }

    /// Takes an error.
    pub fn error(&mut self, error: &QrError) {
        self.number(match error {
            QrError::DataTooLong => 101,
            QrError::InvalidCharacter { position, byte } => {
                1000 + (*position as u64)
                    .wrapping_mul(256)
                    .wrapping_add(u64::from(*byte))
                    % 100_000
            }
            QrError::OutOfMemory => 102,
            _ => 103,
        });
    }

    /// Takes the number of a version.
    pub fn version(&mut self, version: Version) {
        let number = match version {
            Version::Normal(n) => i64::from(n),
            Version::Micro(n) => 100 + i64::from(n),
        };
        self.number(number.unsigned_abs());
    }
}

/// Returns eight bytes as one number.
fn word_of(bytes: &[u8], at: usize) -> u64
    requires { at + 8 ≤ length bytes.now }
{
    u64::from(bytes[at])
        | u64::from(bytes[at + 1]) << 8
        | u64::from(bytes[at + 2]) << 16
        | u64::from(bytes[at + 3]) << 24
        | u64::from(bytes[at + 4]) << 32
        | u64::from(bytes[at + 5]) << 40
        | u64::from(bytes[at + 6]) << 48
        | u64::from(bytes[at + 7]) << 56
}

/// Returns eight colours as one number, a byte a colour.
fn colors_of(colors: &[Color], at: usize) -> u64
    requires { at + 8 ≤ length colors.now }
{
    (colors[at] as u64)
        | (colors[at + 1] as u64) << 8
        | (colors[at + 2] as u64) << 16
        | (colors[at + 3] as u64) << 24
        | (colors[at + 4] as u64) << 32
        | (colors[at + 5] as u64) << 40
        | (colors[at + 6] as u64) << 48
        | (colors[at + 7] as u64) << 56
}

/// Returns the state after a word. For one state, different words give different results.
fn mixed(state: u64, word: u64) -> u64 {
    (state ^ word)
        .wrapping_mul(0x9e37_79b9_7f4a_7c15)
        .rotate_left(29)
}
