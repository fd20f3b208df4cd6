//! The colours of a picture: of its dark modules, and of its ground.
ghost use Rattle.std.specs.Prelude.{◌≡◌, ◌<◌, ◌^◌};
ghost use Rattle.picture_settings.specs.Colors.{channel_light, is_readable, light_of};
ghost use Rattle.picture_settings.specs.Colors.{are_readable, dark_color, light_color};

/// A colour of sRGB.
#[derive(Clone, Copy, Debug, PartialEq, Eq)]
pub struct Rgb {
    pub red: u8,
    pub green: u8,
    pub blue: u8,
}

/// What is behind the dark modules.
#[derive(Clone, Copy, Debug, PartialEq, Eq)]
pub enum Ground {
    /// A colour.
    Color(Rgb),
    /// Nothing, so that what the picture lies on is seen. That is taken to be white.
    Transparent,
}

/// The colours of a picture. The default of each, and so of `Colors::default()`, is `None`: black
/// on white.
#[derive(Clone, Copy, Debug, Default, PartialEq, Eq)]
pub struct Colors {
    /// The colour of the dark modules.
    pub dark: Option<Rgb>,
    /// The ground: the light modules and the quiet zone.
    pub light: Option<Ground>,
}

/// Black, the default of dark modules.
pub const BLACK: Rgb = Rgb {
    red: 0,
    green: 0,
    blue: 0,
};

/// White, the default of the ground.
pub const WHITE: Rgb = Rgb {
    red: 255,
    green: 255,
    blue: 255,
};

/// No colours: black on white.
pub const NO_COLORS: Colors = Colors {
    dark: None,
    light: None,
};

/// The light of each value of a channel, in millionths (`laws::light_is_nearest`).
pub(crate) static LIGHT: [u32; 256] = [
    0, 304, 607, 911, 1_214, 1_518, 1_821, 2_125, 2_428, 2_732, 3_035, 3_347, 3_677, 4_025, 4_391,
    4_777, 5_182, 5_605, 6_049, 6_512, 6_995, 7_499, 8_023, 8_568, 9_134, 9_721, 10_330, 10_960,
    11_612, 12_286, 12_983, 13_702, 14_444, 15_209, 15_996, 16_807, 17_642, 18_500, 19_382, 20_289,
    21_219, 22_174, 23_153, 24_158, 25_187, 26_241, 27_321, 28_426, 29_557, 30_713, 31_896, 33_105,
    34_340, 35_601, 36_889, 38_204, 39_546, 40_915, 42_311, 43_735, 45_186, 46_665, 48_172, 49_707,
    51_269, 52_861, 54_480, 56_128, 57_805, 59_511, 61_246, 63_010, 64_803, 66_626, 68_478, 70_360,
    72_272, 74_214, 76_185, 78_187, 80_220, 82_283, 84_376, 86_500, 88_656, 90_842, 93_059, 95_307,
    97_587, 99_899, 102_242, 104_616, 107_023, 109_462, 111_932, 114_435, 116_971, 119_538,
    122_139, 124_772, 127_438, 130_136, 132_868, 135_633, 138_432, 141_263, 144_128, 147_027,
    149_960, 152_926, 155_926, 158_961, 162_029, 165_132, 168_269, 171_441, 174_647, 177_888,
    181_164, 184_475, 187_821, 191_202, 194_618, 198_069, 201_556, 205_079, 208_637, 212_231,
    215_861, 219_526, 223_228, 226_966, 230_740, 234_551, 238_398, 242_281, 246_201, 250_158,
    254_152, 258_183, 262_251, 266_356, 270_498, 274_677, 278_894, 283_149, 287_441, 291_771,
    296_138, 300_544, 304_987, 309_469, 313_989, 318_547, 323_143, 327_778, 332_452, 337_164,
    341_914, 346_704, 351_533, 356_400, 361_307, 366_253, 371_238, 376_262, 381_326, 386_429,
    391_572, 396_755, 401_978, 407_240, 412_543, 417_885, 423_268, 428_690, 434_154, 439_657,
    445_201, 450_786, 456_411, 462_077, 467_784, 473_531, 479_320, 485_150, 491_021, 496_933,
    502_886, 508_881, 514_918, 520_996, 527_115, 533_276, 539_479, 545_724, 552_011, 558_340,
    564_712, 571_125, 577_580, 584_078, 590_619, 597_202, 603_827, 610_496, 617_207, 623_960,
    630_757, 637_597, 644_480, 651_406, 658_375, 665_387, 672_443, 679_542, 686_685, 693_872,
    701_102, 708_376, 715_694, 723_055, 730_461, 737_910, 745_404, 752_942, 760_525, 768_151,
    775_822, 783_538, 791_298, 799_103, 806_952, 814_847, 822_786, 830_770, 838_799, 846_873,
    854_993, 863_157, 871_367, 879_622, 887_923, 896_269, 904_661, 913_099, 921_582, 930_111,
    938_686, 947_307, 955_973, 964_686, 973_445, 982_251, 991_102, 1_000_000,
];

impl Colors {
    /// Whether a reader can distinguish the dark modules from the ground: the ground is lighter,
    /// and the contrast ratio of WCAG 2.1 between them is 3 at least. A transparent ground is
    /// taken to be white.
    pub fn are_readable(self) -> bool
        ensures { result ≡ are_readable self }
    {
        is_readable(self.dark_color(), self.light_color())
    }

    /// Returns the colour of the dark modules.
    pub fn dark_color(self) -> Rgb
        ensures { result ≡ dark_color self }
    {
        self.dark.unwrap_or(BLACK)
    }

    /// Returns the colour of the ground, which is white if it is transparent.
    pub fn light_color(self) -> Rgb
        ensures { result ≡ light_color self }
    {
        match self.light {
            Some(Ground::Color(color)) => color,
            Some(Ground::Transparent) | None => WHITE,
        }
    }
}

/// Whether the contrast ratio between a dark colour and a light one is 3 at least.
fn is_readable(dark: Rgb, light: Rgb) -> bool
    ensures { result ≡ is_readable dark light }
{
    3 * (light_of(dark) + 500_000_000) <= light_of(light) + 500_000_000
}

/// Returns the relative luminance of a colour, in units of which white has 10^10.
fn light_of(color: Rgb) -> u64
    ensures exact { result ≡ light_of color }
    ensures small { result < 2 ^ 48 }
{
    2126 * channel_light(color.red)
        + 7152 * channel_light(color.green)
        + 722 * channel_light(color.blue)
}

/// Returns the light of a value of a channel, in millionths.
fn channel_light(value: u8) -> u64
    ensures exact { result ≡ channel_light value }
    ensures small { result < 2 ^ 32 }
{
    u64::from(LIGHT[usize::from(value)])
}
