//! A run of labels and tickets: each a symbol and its picture for a printer.
use crate::digest::Digest;
use crate::random::Random;
use crate::words;
use gs1::element_string;
use qrcode_core::options::SymbolOptions;
use qrcode_core::symbol::Symbol;
use qrcode_core::types::{EcLevel, QrResult};
use qrcode_render::{DrawOptions, Format, Settings, draw};
use std::alloc::{AllocError, Global};

/// The pictures of printers of 203 and 300 dots an inch, and some of other scales.
static SHAPES: [(Format, usize); 12] = [
    (Format::Zpl, 3),
    (Format::Pbm, 8),
    (Format::EscPos, 3),
    (Format::Zpl, 8),
    (Format::EscPos, 8),
    (Format::Zpl, 3),
    (Format::Pbm, 3),
    (Format::Zpl, 5),
    (Format::EscPos, 7),
    (Format::Pbm, 10),
    (Format::Terminal, 1),
    (Format::Zpl, 4),
];

/// Draws this many labels, each of another text.
pub fn run(alloc: Global, count: u64, mut random: Random) -> Result<Digest, AllocError> {
    let mut digest = Digest::new();
    for n in 0..count {
        let level = if n / 72 % 2 == 0 {
            EcLevel::M
        } else {
            EcLevel::Q
        };
        let result = label(alloc, &mut random, n % 7, level)?;
        digest.symbol(&result);
        if let Ok(symbol) = result {
            let (format, scale) = SHAPES[(n / 7 % 12) as usize];
            picture(alloc, &mut digest, &symbol, format, scale)?;
        }
    }
    Ok(digest)
}

/// Returns the symbol of a label's text.
fn label(
    alloc: Global,
    random: &mut Random,
    kind: u64,
    level: EcLevel,
) -> Result<QrResult<Symbol>, AllocError> {
    let length = random.below(60);
    Ok(match kind {
        0 => Symbol::new(alloc, &words::link(alloc, random, 8 + length / 2)?, level),
        1 => Symbol::new(alloc, &words::sentence(alloc, random, 60)?, level),
        2 => {
            let text = words::elements(alloc, random, 4 + length / 6)?;
            return carton(alloc, text.as_str(), level);
        }
        3 => Symbol::text(
            alloc,
            words::japanese(alloc, random, 8 + length / 2)?.as_str(),
            level,
        ),
        4 => Symbol::text(
            alloc,
            words::german(alloc, random, 20 + length)?.as_str(),
            level,
        ),
        5 => {
            let bytes = words::characters(alloc, random, &words::CODE, 20 + length)?;
            Symbol::new(alloc, &bytes, level)
        }
        _ => {
            let options = SymbolOptions::new(level).with_strongest();
            Symbol::bytes_with(
                alloc,
                &words::sentence(alloc, random, 20 + length)?,
                &options,
            )
        }
    })
}

/// Returns the symbol of GS1 elements.
fn carton(alloc: Global, text: &str, level: EcLevel) -> Result<QrResult<Symbol>, AllocError> {
    match element_string(alloc, text) {
        Ok(elements) => Ok(Symbol::elements(alloc, &elements, level)),
        Err(_) => Err(AllocError),
    }
}

/// Draws a picture, and digests it.
pub fn picture(
    alloc: Global,
    digest: &mut Digest,
    symbol: &Symbol,
    format: Format,
    scale: usize,
) -> Result<(), AllocError> {
    let settings = Settings {
        scale: Some(scale),
        ..Settings::default()
    };
    match DrawOptions::new(alloc, format, &settings) {
        Ok(options) => digest.bytes(&draw(alloc, symbol, &options)?),
        Err(_) => digest.number(104),
    }
    Ok(())
}
