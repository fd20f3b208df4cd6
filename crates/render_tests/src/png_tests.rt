//! Files of PNG beside those of a build whose search for copies made the key of each place when it
//! looked at it. No clause says which copies are written, so lengths and digests are compared.
use qrcode_core::plugin::PluginError;
use qrcode_core::symbol::Symbol;
use qrcode_core::types::{EcLevel, QrResult};
use qrcode_render::png_file::png;
use qrcode_render::{Picture, RenderOptions};
use std::alloc::{AllocError, Global};

/// The quiet zone of the pictures, in modules.
const QUIET: usize = 4;

/// A file: the scale, how many bytes there are, and their digest.
type File = (usize, usize, u64);

/// The files of a symbol of version M3.
static MICRO: [File; 5] = [
    (1, 204, 0x4F9B_C0F3_3A0A_7327),
    (3, 257, 0xB55A_4B49_3F94_98DF),
    (4, 214, 0xB871_4ED3_72C7_807A),
    (8, 239, 0x3899_F174_F8B4_3BA1),
    (10, 329, 0x26CA_6574_C60B_AE72),
];

/// The files of a symbol of version 1.
static SMALLEST: [File; 5] = [
    (1, 236, 0x0930_CB39_3D4B_4F79),
    (3, 325, 0xAF4B_3244_D292_650E),
    (4, 263, 0xC172_D822_8850_5DBF),
    (8, 277, 0x82E5_7EDD_3304_2FCF),
    (10, 451, 0x0D21_283A_B97D_F105),
];

/// The files of a symbol of version 10.
static MIDDLE: [File; 5] = [
    (1, 669, 0x7942_22F1_E05B_B50C),
    (3, 1_158, 0x0B24_8AFA_12EC_E0F4),
    (4, 794, 0x816C_1ED7_C50B_16D3),
    (8, 1_054, 0x2BBF_3B9A_14B3_8862),
    (10, 1_720, 0xE6A6_6493_3720_F374),
];

/// The files of a symbol of version 40.
static LARGEST: [File; 5] = [
    (1, 4_567, 0xC4A0_FB25_9D45_59E7),
    (3, 8_488, 0xA11C_4489_7F95_B6E7),
    (4, 5_428, 0xE8AB_C81C_4595_715C),
    (8, 7_760, 0x1DA4_E0C1_BA79_966F),
    (10, 12_525, 0x992F_0870_9B30_9E34),
];

/// Returns the digest of bytes: FNV-1a of 64 bits.
fn digest(bytes: &[u8]) -> u64 {
    let mut hash = 0xCBF2_9CE4_8422_2325u64;
    for byte in bytes {
        hash = (hash ^ u64::from(*byte)).wrapping_mul(0x0000_0100_0000_01B3);
    }
    hash
}

/// Returns bytes without order.
fn message(alloc: Global, count: usize) -> Result<Vec<u8>, AllocError> {
    let mut bytes: Vec<u8> = Vec::new(alloc);
    let mut state = 2026u32;
    for n in 0..count {
        state = state.wrapping_mul(1_664_525).wrapping_add(1_013_904_223);
        bytes.push((state / 16_777_216) as u8)?;
    }
    Ok(bytes)
}

/// Returns the symbol of this many bytes.
fn symbol(alloc: Global, count: usize) -> QrResult<Symbol> {
    Symbol::new(alloc, &message(alloc, count)?, EcLevel::M)
}

/// Whether the files of a symbol are these.
fn are_files(alloc: Global, symbol: &Symbol, files: &[File]) -> Result<bool, PluginError> {
    for (scale, length, sum) in files {
        let options = RenderOptions::new(alloc, *scale, QUIET)?;
        let file = png(alloc, &Picture::of_symbol(symbol, options), None)?;
        if file.len() != *length || digest(&file) != *sum {
            return Ok(false);
        }
    }
    Ok(true)
}

/// Files of a Micro symbol.
#[test]
fn files_of_a_micro_symbol(rt: HostRuntime) {
    let alloc = rt.alloc();
    let bytes = message(alloc, 7).expect(&rt, "out of memory");
    let symbol = Symbol::micro(alloc, &bytes, EcLevel::L).expect(&rt, "a symbol");
    assert!(rt; are_files(alloc, &symbol, &MICRO).expect(&rt, "files"));
}

/// Files of a symbol of the smallest version.
#[test]
fn files_of_version_1(rt: HostRuntime) {
    let alloc = rt.alloc();
    let symbol = symbol(alloc, 14).expect(&rt, "a symbol");
    assert!(rt; are_files(alloc, &symbol, &SMALLEST).expect(&rt, "files"));
}

/// Files of a symbol of a middle version.
#[test]
fn files_of_version_10(rt: HostRuntime) {
    let alloc = rt.alloc();
    let symbol = symbol(alloc, 200).expect(&rt, "a symbol");
    assert!(rt; are_files(alloc, &symbol, &MIDDLE).expect(&rt, "files"));
}

/// Files of a symbol of the largest version.
#[test]
fn files_of_version_40(rt: HostRuntime) {
    let alloc = rt.alloc();
    let symbol = symbol(alloc, 2300).expect(&rt, "a symbol");
    assert!(rt; are_files(alloc, &symbol, &LARGEST).expect(&rt, "files"));
}
