//! The generator polynomials of the numbers of error correction bytes that blocks of symbols have
//! (ISO/IEC 18004:2006, generator polynomials for Reed-Solomon error correction codewords), high
//! coefficients first.
ghost use Rattle.std.specs.Prelude.{◌≡◌, ◌+◌, ◌↔◌, IfSome, IsSome, IsTrue, length, slice_index};
ghost use Rattle.qrcode_grid.specs.Codes.{IsSound};
ghost use Rattle.qrcode_grid.specs.Generators.{has_generator};

static GENERATOR_2: [u8; 3] = [1, 3, 2];

static GENERATOR_5: [u8; 6] = [1, 31, 198, 63, 147, 116];

static GENERATOR_6: [u8; 7] = [1, 63, 1, 218, 32, 227, 38];

static GENERATOR_7: [u8; 8] = [1, 127, 122, 154, 164, 11, 68, 117];

static GENERATOR_8: [u8; 9] = [1, 255, 11, 81, 54, 239, 173, 200, 24];

static GENERATOR_10: [u8; 11] = [1, 216, 194, 159, 111, 199, 94, 95, 113, 157, 193];

static GENERATOR_13: [u8; 14] = [1, 137, 73, 227, 17, 177, 17, 52, 13, 46, 43, 83, 132, 120];

static GENERATOR_14: [u8; 15] = [
    1, 14, 54, 114, 70, 174, 151, 43, 158, 195, 127, 166, 210, 234, 163,
];

static GENERATOR_15: [u8; 16] = [
    1, 29, 196, 111, 163, 112, 74, 10, 105, 105, 139, 132, 151, 32, 134, 26,
];

static GENERATOR_16: [u8; 17] = [
    1, 59, 13, 104, 189, 68, 209, 30, 8, 163, 65, 41, 229, 98, 50, 36, 59,
];

static GENERATOR_17: [u8; 18] = [
    1, 119, 66, 83, 120, 119, 22, 197, 83, 249, 41, 143, 134, 85, 53, 125, 99, 79,
];

static GENERATOR_18: [u8; 19] = [
    1, 239, 251, 183, 113, 149, 175, 199, 215, 240, 220, 73, 82, 173, 75, 32, 67, 217, 146,
];

static GENERATOR_20: [u8; 21] = [
    1, 152, 185, 240, 5, 111, 99, 6, 220, 112, 150, 69, 36, 187, 22, 228, 198, 121, 121, 165, 174,
];

static GENERATOR_22: [u8; 23] = [
    1, 89, 179, 131, 176, 182, 244, 19, 189, 69, 40, 28, 137, 29, 123, 67, 253, 86, 218, 230, 26,
    145, 245,
];

static GENERATOR_24: [u8; 25] = [
    1, 122, 118, 169, 70, 178, 237, 216, 102, 115, 150, 229, 73, 130, 72, 61, 43, 206, 1, 237, 247,
    127, 217, 144, 117,
];

static GENERATOR_26: [u8; 27] = [
    1, 246, 51, 183, 4, 136, 98, 199, 152, 77, 56, 206, 24, 145, 40, 209, 117, 233, 42, 135, 68,
    70, 144, 146, 77, 43, 94,
];

static GENERATOR_28: [u8; 29] = [
    1, 252, 9, 28, 13, 18, 251, 208, 150, 103, 174, 100, 41, 167, 12, 247, 56, 117, 119, 233, 127,
    181, 100, 121, 147, 176, 74, 58, 197,
];

static GENERATOR_30: [u8; 31] = [
    1, 212, 246, 77, 73, 195, 192, 75, 98, 5, 70, 103, 177, 22, 217, 138, 51, 181, 246, 72, 25, 18,
    46, 228, 74, 216, 195, 11, 106, 130, 150,
];

/// Returns the generator polynomial of n correction bytes, if blocks of symbols have as many.
pub fn known_generator(n: usize) -> Option<&'static [u8]>
    ensures len { IfSome result (λ g. length g.now ≡ n + 1) }
    ensures first { IfSome result (λ g. slice_index g.now 0 ≡ 1) }
    ensures sound { IfSome result (λ g. IsSound n g.now) }
    ensures known { IsSome result ↔ IsTrue (has_generator n) }
{
    match n {
        2 => Some(&GENERATOR_2),
        5 => Some(&GENERATOR_5),
        6 => Some(&GENERATOR_6),
        7 => Some(&GENERATOR_7),
        8 => Some(&GENERATOR_8),
        10 => Some(&GENERATOR_10),
        13 => Some(&GENERATOR_13),
        14 => Some(&GENERATOR_14),
        15 => Some(&GENERATOR_15),
        16 => Some(&GENERATOR_16),
        17 => Some(&GENERATOR_17),
        18 => Some(&GENERATOR_18),
        20 => Some(&GENERATOR_20),
        22 => Some(&GENERATOR_22),
        24 => Some(&GENERATOR_24),
        26 => Some(&GENERATOR_26),
        28 => Some(&GENERATOR_28),
        30 => Some(&GENERATOR_30),
        _ => None,
    }
}
