//! Tests of symbols, which are read by the plain reader and compared with those of the
//! original crate.
use crate::grids::{hash, read};
use qrcode_core::symbol::{symbol, symbol_micro};
use qrcode_core::types::{EcLevel, QrError};
use std::alloc::Global;

static LEVELS: [EcLevel; 4] = [EcLevel::L, EcLevel::M, EcLevel::Q, EcLevel::H];

/// Returns an input of a kind: digits, Alphanumeric characters, bytes, pairs of Shift JIS, all of
/// them in turn, or one of three other sequences.
fn input(alloc: Global, kind: usize, count: usize) -> Option<Vec<u8>> {
    let signs = b"0123456789ABCDEFGHIJKLMNOPQRSTUVWXYZ $%*+-./:";
    let mut bytes = Vec::new(alloc);
    for i in 0..count {
        let low = |n: usize| (n & 255) as u8;
        let byte = match kind {
            0 => b'0' + (i.wrapping_mul(7).wrapping_add(3) % 256 % 10) as u8,
            1 => *signs.get(i.wrapping_mul(11).wrapping_add(15) % 45)?,
            2 => low(i.wrapping_mul(37).wrapping_add(161)),
            3 if i % 2 == 0 => 0x89 + (i / 2 % 6) as u8,
            3 => 0x40 + (i.wrapping_mul(5) % 60) as u8,
            4 => match (i / 9 % 4, i % 2) {
                (0, _) => b'0' + (i % 10) as u8,
                (1, _) => b'A' + (i % 26) as u8,
                (2, _) => b'a' + (i % 26) as u8,
                (_, 0) => 0x93,
                _ => 0x5f,
            },
            5 => b'a',
            6 if i % 2 == 0 => b'A',
            6 => b'1',
            _ => low(
                i.wrapping_mul(i)
                    .wrapping_mul(31)
                    .wrapping_add(i.wrapping_mul(17))
                    .wrapping_add(5),
            ),
        };
        bytes.push(byte).ok()?;
    }
    Some(bytes)
}

/// Results of the original crate (2.2.0, unmodified): kind and length of the input, level, whether
/// Micro, number of modules, payload bits, hash of the modules. If it returns an error, 1 for
/// `DataTooLong` and 2 for `InvalidVersion` in place of the number of modules.
static ANSWERS: [(usize, usize, usize, bool, usize, usize, u32); 100] = [
    (0, 41, 0, false, 441, 151, 0xeced6fbb),
    (0, 3058, 0, false, 14641, 10210, 0xe49f6242),
    (1, 395, 0, false, 3249, 2188, 0x0e2bdcf1),
    (1, 3184, 0, false, 24649, 17529, 0xf8b70957),
    (3, 974, 0, false, 8649, 6345, 0x7025ec1d),
    (5, 54, 0, false, 1089, 444, 0x77ec91a5),
    (5, 1528, 0, false, 16641, 12244, 0x60099ffe),
    (0, 11, 0, true, 225, 44, 0xc965523b),
    (0, 36, 0, false, 441, 134, 0xe2a2caf9),
    (1, 3, 0, true, 169, 21, 0x744757ed),
    (1, 28, 0, false, 625, 167, 0x3a0af2f7),
    (1, 60, 0, true, 1, 0, 0),
    (2, 20, 0, false, 625, 172, 0x036aa6b8),
    (2, 60, 0, true, 1, 0, 0),
    (3, 12, 0, false, 441, 90, 0x6d22d59b),
    (3, 36, 0, true, 1, 0, 0),
    (4, 4, 0, false, 441, 28, 0x4fe09b89),
    (4, 28, 0, true, 1, 0, 0),
    (4, 3391, 0, false, 1, 0, 0),
    (5, 20, 0, true, 1, 0, 0),
    (5, 225, 0, false, 2809, 1812, 0x855f5fe2),
    (6, 12, 0, true, 225, 72, 0x1fa47f81),
    (6, 37, 0, false, 625, 217, 0x84007367),
    (7, 4, 0, true, 225, 38, 0x09715841),
    (7, 29, 0, false, 625, 244, 0xab359fcb),
    (7, 60, 0, true, 1, 0, 0),
    (0, 1500, 1, false, 8649, 5016, 0xf4360477),
    (1, 62, 1, false, 1089, 354, 0x30b0f1fb),
    (1, 1732, 1, false, 16641, 9543, 0x1e293c9c),
    (3, 353, 1, false, 4761, 2330, 0x089c2167),
    (3, 2446, 1, false, 27225, 15915, 0x35cd8b2d),
    (5, 712, 1, false, 11025, 5716, 0xc4664a38),
    (0, 5, 1, false, 441, 31, 0xa7fffa85),
    (0, 29, 1, true, 289, 106, 0x060ce240),
    (0, 4388, 1, false, 25921, 14645, 0xbb2d1343),
    (1, 21, 1, true, 1, 0, 0),
    (1, 262, 1, false, 2809, 1454, 0xe65f34a2),
    (2, 13, 1, true, 289, 112, 0x850d8694),
    (2, 38, 1, false, 841, 316, 0x615e7003),
    (3, 5, 1, true, 225, 45, 0xa482d136),
    (3, 30, 1, false, 625, 207, 0xeff5242d),
    (3, 60, 1, true, 1, 0, 0),
    (4, 22, 1, false, 625, 151, 0xe915e35b),
    (4, 60, 1, true, 1, 0, 0),
    (5, 14, 1, false, 441, 124, 0x3afe40e9),
    (5, 38, 1, true, 1, 0, 0),
    (6, 6, 1, false, 441, 46, 0x0e51cb33),
    (6, 30, 1, true, 1, 0, 0),
    (6, 5385, 1, false, 1, 0, 0),
    (7, 22, 1, true, 1, 0, 0),
    (7, 299, 1, false, 4761, 2412, 0x9267daf3),
    (0, 490, 2, false, 4761, 1650, 0xeca3da49),
    (0, 3417, 2, false, 27225, 11408, 0xe9250e09),
    (1, 743, 2, false, 11025, 4102, 0xac827a81),
    (3, 90, 2, false, 1681, 597, 0x4d735d0c),
    (3, 1207, 2, false, 19881, 7883, 0x0fc3346e),
    (5, 292, 2, false, 5929, 2356, 0x4360c8b6),
    (5, 1580, 2, false, 31329, 12660, 0xb5046f90),
    (0, 23, 2, false, 441, 91, 0xcdee8f73),
    (0, 60, 2, true, 1, 0, 0),
    (1, 15, 2, false, 441, 96, 0x192bdfd3),
    (1, 39, 2, true, 1, 0, 0),
    (2, 7, 2, false, 441, 68, 0xe28669e5),
    (2, 31, 2, true, 1, 0, 0),
    (2, 6382, 2, false, 1, 0, 0),
    (3, 23, 2, true, 1, 0, 0),
    (3, 336, 2, false, 5929, 2198, 0x05187e65),
    (4, 15, 2, true, 289, 80, 0x7f8deb13),
    (4, 40, 2, false, 1089, 291, 0x6b9ec960),
    (5, 7, 2, true, 289, 64, 0xd185f096),
    (5, 32, 2, false, 841, 268, 0xf533351f),
    (5, 60, 2, true, 1, 0, 0),
    (6, 24, 2, false, 625, 145, 0xa0bf51d5),
    (6, 60, 2, true, 1, 0, 0),
    (7, 16, 2, false, 625, 140, 0x8941df63),
    (7, 40, 2, true, 1, 0, 0),
    (0, 139, 3, false, 1681, 478, 0x7021b6b1),
    (0, 1783, 3, false, 19881, 5962, 0x63dc575e),
    (1, 321, 3, false, 5929, 1781, 0xf79a8ad8),
    (1, 1775, 3, false, 31329, 9780, 0x3a76ab55),
    (3, 630, 3, false, 12769, 4109, 0x781c0bd7),
    (5, 85, 3, false, 2809, 692, 0x48028751),
    (5, 898, 3, false, 22201, 7204, 0x72145ef2),
    (0, 16, 3, true, 2, 0, 0),
    (0, 77, 3, false, 1089, 271, 0x3710297a),
    (1, 8, 3, true, 2, 0, 0),
    (1, 33, 3, false, 841, 195, 0x6cf93fcc),
    (2, 0, 3, true, 2, 0, 0),
    (2, 25, 3, false, 1089, 212, 0x94f307bc),
    (2, 60, 3, true, 2, 0, 0),
    (3, 17, 3, false, 841, 136, 0xf910af49),
    (3, 60, 3, true, 2, 0, 0),
    (4, 9, 3, false, 441, 44, 0x2b0bc273),
    (4, 33, 3, true, 2, 0, 0),
    (5, 1, 3, false, 441, 20, 0x4aceea53),
    (5, 25, 3, true, 2, 0, 0),
    (5, 400, 3, false, 10201, 3220, 0x3c7091f4),
    (6, 17, 3, true, 2, 0, 0),
    (6, 114, 3, false, 2401, 640, 0x7b289c4b),
    (7, 9, 3, true, 2, 0, 0),
];

/// Returns the number of modules, the payload bits and the hash of our symbol, or the number of
/// the error.
fn answer(
    alloc: Global,
    kind: usize,
    count: usize,
    level: usize,
    micro: bool,
) -> Option<(usize, usize, u32)> {
    let bytes = input(alloc, kind, count)?;
    let level = *LEVELS.get(level)?;
    let answer = if micro {
        symbol_micro(alloc, &bytes, level)
    } else {
        symbol(alloc, &bytes, level)
    };
    match answer {
        Ok(grid) => {
            let seen = read(alloc, &grid)?;
            if seen.bytes.as_slice() == bytes.as_slice() {
                Some((grid.len(), seen.payload, hash(&grid)))
            } else {
                None
            }
        }
        Err(QrError::DataTooLong) => Some((1, 0, 0)),
        Err(QrError::InvalidVersion { .. }) => Some((2, 0, 0)),
        Err(_) => None,
    }
}

#[test]
fn answers_as_the_original(rt: HostRuntime) {
    for row in &ANSWERS {
        let (kind, count, level, micro, modules, payload, sum) = *row;
        let got = answer(rt.alloc(), kind, count, level, micro);
        assert_eq!(rt;
            got,
            Some((modules, payload, sum)),
            "kind {kind}, {count} bytes, level {level}, {micro}"
        );
    }
}
