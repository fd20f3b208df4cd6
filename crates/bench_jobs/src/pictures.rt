//! Pictures for a page or a print file.
use crate::digest::Digest;
use crate::labels::picture;
use crate::random::Random;
use crate::words;
use qrcode_core::symbol::Symbol;
use qrcode_core::types::EcLevel;
use qrcode_render::{DrawOptions, Format, Settings, draw};
use std::alloc::{AllocError, Global};

/// The formats with their scales.
static SHAPES: [(Format, usize); 8] = [
    (Format::Svg, 8),
    (Format::Png, 4),
    (Format::Png, 8),
    (Format::Eps, 8),
    (Format::Png, 10),
    (Format::Svg, 1),
    (Format::Png, 3),
    (Format::Png, 5),
];

/// The lengths of the texts: versions 3 to 11 mostly, and 26, 39 and 40 at times.
static LENGTHS: [usize; 10] = [30, 60, 90, 120, 150, 200, 45, 75, 1000, 2200];

/// Draws this many pictures, each of another text.
pub fn run(alloc: Global, count: u64, mut random: Random) -> Result<Digest, AllocError> {
    let mut digest = Digest::new();
    for n in 0..count {
        let length = LENGTHS[(n / 8 % 10) as usize] + random.below(16);
        let bytes = words::sentence(alloc, &mut random, length)?;
        match Symbol::new(alloc, &bytes, EcLevel::M) {
            Ok(symbol) => {
                let (format, scale) = SHAPES[(n % 8) as usize];
                if scale == 1 {
                    titled(alloc, &mut digest, &symbol, &mut random)?;
                } else {
                    picture(alloc, &mut digest, &symbol, format, scale)?;
                }
            }
            Err(error) => digest.error(&error),
        }
    }
    Ok(digest)
}

/// Draws the SVG of a symbol with a title, with modules of half a millimetre, and digests it.
fn titled(
    alloc: Global,
    digest: &mut Digest,
    symbol: &Symbol,
    random: &mut Random,
) -> Result<(), AllocError> {
    let title = words::german(alloc, random, 30)?;
    let settings = Settings {
        module_um: Some(500),
        title: Some(title.as_str()),
        ..Settings::default()
    };
    match DrawOptions::new(alloc, Format::Svg, &settings) {
        Ok(options) => digest.bytes(&draw(alloc, symbol, &options)?),
        Err(_) => digest.number(104),
    }
    Ok(())
}
