//! The rows of the table of GS1 Application Identifiers, in the order of the GS1 General
//! Specifications, release 25 of 2025 ("GS1 Application Identifiers in numerical order", "Mandatory
//! associations of GS1 Application Identifiers" and "Invalid pairs of element strings") and the GS1
//! Digital Link Standard: URI Syntax, release 1.4 ("Primary identification keys"). The title of a
//! row stands after it or above it.

use crate::shapes::{
    AMOUNT, COUNTRIES, COUNTRY, COUPON, DATE, DATE_TIME, DAY, FLAG, GSRN, GTIN, GTIN_OR_ITIP, ITEM,
    ITIP, LETTERS, LOGISTIC, MEASURED, MODEL, N1_8, N1_15, N6, N13_CHECKED, N14_CHECKED,
    N18_CHECKED, RECIPIENT, SLIP, TEMPERATURE, TEXT35, TEXT40, TEXT70, TRADE, UNIT, X3, X20, X30,
    X30_KEY, numbers, parts, ranges,
};
use crate::table::Characters::{Base64, Capitals, Digits, Set39, Set82};
use crate::table::Check::{
    CheckDigit, Country, CountryOrAny, Coupon, Day, Escapes, Hour, HourMinute, Iban, Importer, Key,
    Latitude, LongDay, Longitude, Media, Minute, NoLeadingZero, Nonzero, Nothing, Padding, Second,
    Sequence, Sex, Winding, Zero,
};
use crate::table::Component::{Needed, Optional};
use crate::table::{Numbers, Ranges, Row};

/// A row of an identifier, or of several: their components, whether FNC1 follows, and what else
/// the row has.
macro_rules! row {
    ($number:literal, $parts:expr, $fnc1:expr $(, $column:ident: $value:expr)*) => {
        Row { first: $number, last: $number, parts: $parts $(, $column: $value)*, ..$fnc1 }
    };
    ($first:literal..=$last:literal, $parts:expr, $fnc1:expr $(, $column:ident: $value:expr)*) => {
        Row { first: $first, last: $last, parts: $parts $(, $column: $value)*, ..$fnc1 }
    };
}

/// FNC1 follows an element that is not the last.
const FNC1: Row = Row {
    first: 0,
    last: 0,
    parts: X20,
    fnc1: true,
    key: false,
    qualifiers: Numbers::NoNumber,
    other_qualifiers: Numbers::NoNumber,
    needs: Ranges::NoRange,
    also_needs: Ranges::NoRange,
    excludes: Ranges::NoRange,
};

/// No FNC1 does, since the length is predefined.
const FIXED: Row = Row {
    fnc1: false,
    ..FNC1
};

/// The rows.
#[rattlefmt::skip]
pub(crate) static TABLE: [Row; 202] = [
    row!(0, N18_CHECKED, FIXED, key: true), // SSCC
    // GTIN
    row!(1, N14_CHECKED, FIXED, key: true, qualifiers: numbers![22, 10, 21],
        other_qualifiers: numbers![235], excludes: ranges![(2, 2), (37, 37), (255, 255)]),
    // CONTENT
    row!(2, N14_CHECKED, FIXED, needs: ranges![(37, 37)],
        excludes: ranges![(1, 1), (3, 3), (255, 255)]),
    row!(3, N14_CHECKED, FIXED, excludes: TRADE), // MTO GTIN
    row!(10, X20, FNC1, needs: ITEM), // BATCH/LOT
    row!(11, DATE, FIXED, needs: ITEM), // PROD DATE
    row!(12, DATE, FIXED, needs: SLIP), // DUE DATE
    row!(13, DATE, FIXED, needs: ITEM), // PACK DATE
    row!(15, DATE, FIXED, needs: ITEM), // BEST BEFORE or BEST BY
    row!(16, DATE, FIXED, needs: ITEM), // SELL BY
    // USE BY or EXPIRY
    row!(17, DATE, FIXED, needs: ranges![(1, 3), (255, 255), (8006, 8006), (8026, 8026)]),
    row!(20, parts![Needed(Digits, 2, 2, Nothing)], FIXED, needs: ITEM), // VARIANT
    // SERIAL
    row!(21, X20, FNC1, needs: ranges![(1, 1), (3, 3), (8006, 8006)],
        excludes: ranges![(235, 235)]),
    row!(22, X20, FNC1, needs: GTIN), // CPV
    // TPX
    row!(235, parts![Needed(Set82, 1, 28, Nothing)], FNC1, needs: GTIN,
        excludes: ranges![(21, 21)]),
    row!(240, X30, FNC1, needs: ITEM), // ADDITIONAL ID
    row!(241, X30, FNC1, needs: ITEM), // CUST. PART No.
    row!(242, parts![Needed(Digits, 1, 6, Nothing)], FNC1, needs: ITEM), // MTO VARIANT
    row!(243, X20, FNC1, needs: GTIN), // PCN
    row!(250, X30, FNC1, needs: GTIN_OR_ITIP, also_needs: ranges![(21, 21)]), // SECONDARY SERIAL
    row!(251, X30, FNC1, needs: GTIN_OR_ITIP), // REF. TO SOURCE
    // GDTI
    row!(253, parts![Needed(Digits, 13, 13, CheckDigit), Optional(Set82, 1, 17, Nothing)], FNC1,
        key: true),
    row!(254, X20, FNC1, needs: ranges![(414, 414)]), // GLN EXTENSION COMPONENT
    // GCN
    row!(255, parts![Needed(Digits, 13, 13, CheckDigit), Optional(Digits, 1, 12, Nothing)], FNC1,
        key: true, excludes: ranges![(1, 2), (415, 415), (8006, 8006), (8020, 8020), (8026, 8026)]),
    row!(30, N1_8, FNC1, needs: TRADE), // VAR. COUNT
    row!(3100..=3105, N6, FIXED, needs: TRADE), // NET WEIGHT (kg)
    row!(3110..=3115, N6, FIXED, needs: TRADE), // LENGTH (m)
    row!(3120..=3125, N6, FIXED, needs: TRADE), // WIDTH (m)
    row!(3130..=3135, N6, FIXED, needs: TRADE), // HEIGHT (m)
    row!(3140..=3145, N6, FIXED, needs: TRADE), // AREA (m²)
    row!(3150..=3155, N6, FIXED, needs: TRADE), // NET VOLUME (l)
    row!(3160..=3165, N6, FIXED, needs: TRADE), // NET VOLUME (m³)
    row!(3200..=3205, N6, FIXED, needs: TRADE), // NET WEIGHT (lb)
    row!(3210..=3215, N6, FIXED, needs: TRADE), // LENGTH (in)
    row!(3220..=3225, N6, FIXED, needs: TRADE), // LENGTH (ft)
    row!(3230..=3235, N6, FIXED, needs: TRADE), // LENGTH (yd)
    row!(3240..=3245, N6, FIXED, needs: TRADE), // WIDTH (in)
    row!(3250..=3255, N6, FIXED, needs: TRADE), // WIDTH (ft)
    row!(3260..=3265, N6, FIXED, needs: TRADE), // WIDTH (yd)
    row!(3270..=3275, N6, FIXED, needs: TRADE), // HEIGHT (in)
    row!(3280..=3285, N6, FIXED, needs: TRADE), // HEIGHT (ft)
    row!(3290..=3295, N6, FIXED, needs: TRADE), // HEIGHT (yd)
    row!(3300..=3305, N6, FIXED, needs: LOGISTIC), // GROSS WEIGHT (kg)
    row!(3310..=3315, N6, FIXED, needs: LOGISTIC), // LENGTH (m), log
    row!(3320..=3325, N6, FIXED, needs: LOGISTIC), // WIDTH (m), log
    row!(3330..=3335, N6, FIXED, needs: LOGISTIC), // HEIGHT (m), log
    row!(3340..=3345, N6, FIXED, needs: LOGISTIC), // AREA (m²), log
    row!(3350..=3355, N6, FIXED, needs: LOGISTIC), // VOLUME (l), log
    row!(3360..=3365, N6, FIXED, needs: LOGISTIC), // VOLUME (m³), log
    row!(3370..=3375, N6, FIXED, needs: GTIN), // KG PER m²
    row!(3400..=3405, N6, FIXED, needs: LOGISTIC), // GROSS WEIGHT (lb)
    row!(3410..=3415, N6, FIXED, needs: LOGISTIC), // LENGTH (in), log
    row!(3420..=3425, N6, FIXED, needs: LOGISTIC), // LENGTH (ft), log
    row!(3430..=3435, N6, FIXED, needs: LOGISTIC), // LENGTH (yd), log
    row!(3440..=3445, N6, FIXED, needs: LOGISTIC), // WIDTH (in), log
    row!(3450..=3455, N6, FIXED, needs: LOGISTIC), // WIDTH (ft), log
    row!(3460..=3465, N6, FIXED, needs: LOGISTIC), // WIDTH (yd), log
    row!(3470..=3475, N6, FIXED, needs: LOGISTIC), // HEIGHT (in), log
    row!(3480..=3485, N6, FIXED, needs: LOGISTIC), // HEIGHT (ft), log
    row!(3490..=3495, N6, FIXED, needs: LOGISTIC), // HEIGHT (yd), log
    row!(3500..=3505, N6, FIXED, needs: TRADE), // AREA (in²)
    row!(3510..=3515, N6, FIXED, needs: TRADE), // AREA (ft²)
    row!(3520..=3525, N6, FIXED, needs: TRADE), // AREA (yd²)
    row!(3530..=3535, N6, FIXED, needs: LOGISTIC), // AREA (in²), log
    row!(3540..=3545, N6, FIXED, needs: LOGISTIC), // AREA (ft²), log
    row!(3550..=3555, N6, FIXED, needs: LOGISTIC), // AREA (yd²), log
    row!(3560..=3565, N6, FIXED, needs: TRADE), // NET WEIGHT (troy oz)
    row!(3570..=3575, N6, FIXED, needs: TRADE), // NET VOLUME (oz)
    row!(3600..=3605, N6, FIXED, needs: TRADE), // NET VOLUME (qt)
    row!(3610..=3615, N6, FIXED, needs: TRADE), // NET VOLUME (gal.)
    row!(3620..=3625, N6, FIXED, needs: LOGISTIC), // VOLUME (qt), log
    row!(3630..=3635, N6, FIXED, needs: LOGISTIC), // VOLUME (gal.), log
    row!(3640..=3645, N6, FIXED, needs: TRADE), // VOLUME (in³)
    row!(3650..=3655, N6, FIXED, needs: TRADE), // VOLUME (ft³)
    row!(3660..=3665, N6, FIXED, needs: TRADE), // VOLUME (yd³)
    row!(3670..=3675, N6, FIXED, needs: LOGISTIC), // VOLUME (in³), log
    row!(3680..=3685, N6, FIXED, needs: LOGISTIC), // VOLUME (ft³), log
    row!(3690..=3695, N6, FIXED, needs: LOGISTIC), // VOLUME (yd³), log
    row!(37, N1_8, FNC1, needs: UNIT, also_needs: ranges![(2, 2), (8026, 8026)]), // COUNT
    // AMOUNT
    row!(3900..=3909, N1_15, FNC1, needs: ranges![(255, 255), (8020, 8020)],
        excludes: ranges![(3910, 3919), (3940, 3943), (8111, 8111)]),
    // AMOUNT, with a currency
    row!(3910..=3919, AMOUNT, FNC1, needs: SLIP, excludes: ranges![(3900, 3909)]),
    // PRICE
    row!(3920..=3929, N1_15, FNC1, needs: GTIN, also_needs: MEASURED,
        excludes: ranges![(3930, 3939)]),
    // PRICE, with a currency
    row!(3930..=3939, AMOUNT, FNC1, needs: GTIN, also_needs: MEASURED,
        excludes: ranges![(3920, 3929)]),
    // PRCNT OFF
    row!(3940..=3943, parts![Needed(Digits, 4, 4, Nothing)], FNC1, needs: COUPON,
        excludes: ranges![(8111, 8111)]),
    // PRICE/UoM
    row!(3950..=3955, N6, FNC1, needs: MEASURED, excludes: ranges![(3920, 3939), (8005, 8005)]),
    row!(400, X30, FNC1), // ORDER NUMBER
    row!(401, X30_KEY, FNC1, key: true), // GINC
    row!(402, parts![Needed(Digits, 17, 17, CheckDigit)], FNC1, key: true), // GSIN
    row!(403, X30, FNC1, needs: UNIT), // ROUTE
    row!(410, N13_CHECKED, FIXED), // SHIP TO LOC
    row!(411, N13_CHECKED, FIXED), // BILL TO
    row!(412, N13_CHECKED, FIXED), // PURCHASE FROM
    row!(413, N13_CHECKED, FIXED), // SHIP FOR LOC
    // LOC No.
    row!(414, N13_CHECKED, FIXED, key: true, qualifiers: numbers![254],
        other_qualifiers: numbers![7040]),
    row!(415, N13_CHECKED, FIXED, key: true, qualifiers: numbers![8020], needs: SLIP), // PAY TO
    row!(416, N13_CHECKED, FIXED), // PROD/SERV LOC
    row!(417, N13_CHECKED, FIXED, key: true, qualifiers: numbers![7040]), // PARTY
    row!(420, X20, FNC1, excludes: ranges![(421, 421)]), // SHIP TO POST
    // SHIP TO POST, with a country
    row!(421, parts![Needed(Digits, 3, 3, Country), Needed(Set82, 1, 9, Nothing)], FNC1,
        excludes: ranges![(420, 420), (4307, 4307)]),
    row!(422, COUNTRY, FNC1, needs: ITEM, excludes: ranges![(426, 426)]), // ORIGIN
    // COUNTRY - INITIAL PROCESS
    row!(423, COUNTRIES, FNC1, needs: ITEM, excludes: ranges![(426, 426)]),
    row!(424, COUNTRY, FNC1, needs: ITEM, excludes: ranges![(426, 426)]), // COUNTRY - PROCESS
    row!(425, COUNTRIES, FNC1, needs: ITEM, excludes: ranges![(426, 426)]), // COUNTRY - DISASSEMBLY
    row!(426, COUNTRY, FNC1, needs: ITEM, excludes: ranges![(422, 425)]), // COUNTRY - FULL PROCESS
    row!(427, X3, FNC1, needs: ITEM, also_needs: ranges![(422, 422)]), // ORIGIN SUBDIVISION
    row!(4300, TEXT35, FNC1, needs: UNIT), // SHIP TO COMP
    row!(4301, TEXT35, FNC1, needs: UNIT), // SHIP TO NAME
    row!(4302, TEXT70, FNC1, needs: UNIT), // SHIP TO ADD1
    row!(4303, TEXT70, FNC1, needs: ranges![(4302, 4302)]), // SHIP TO ADD2
    row!(4304, TEXT70, FNC1, needs: ranges![(4302, 4302)]), // SHIP TO SUB
    row!(4305, TEXT70, FNC1, needs: ranges![(4302, 4302)]), // SHIP TO LOC
    row!(4306, TEXT70, FNC1, needs: ranges![(4302, 4302)]), // SHIP TO REG
    row!(4307, LETTERS, FNC1, needs: UNIT), // SHIP TO COUNTRY
    row!(4308, X30, FNC1, needs: UNIT), // SHIP TO PHONE
    // SHIP TO GEO
    row!(4309, parts![Needed(Digits, 10, 10, Latitude), Needed(Digits, 10, 10, Longitude)], FNC1,
        needs: UNIT),
    row!(4310, TEXT35, FNC1, needs: UNIT), // RTN TO COMP
    row!(4311, TEXT35, FNC1, needs: UNIT), // RTN TO NAME
    row!(4312, TEXT70, FNC1, needs: UNIT), // RTN TO ADD1
    row!(4313, TEXT70, FNC1, needs: ranges![(4312, 4312)]), // RTN TO ADD2
    row!(4314, TEXT70, FNC1, needs: ranges![(4312, 4312)]), // RTN TO SUB
    row!(4315, TEXT70, FNC1, needs: ranges![(4312, 4312)]), // RTN TO LOC
    row!(4316, TEXT70, FNC1, needs: ranges![(4312, 4312)]), // RTN TO REG
    row!(4317, LETTERS, FNC1, needs: UNIT), // RTN TO COUNTRY
    row!(4318, X20, FNC1, needs: UNIT), // RTN TO POST
    row!(4319, X30, FNC1, needs: UNIT), // RTN TO PHONE
    row!(4320, TEXT35, FNC1, needs: UNIT), // SRV DESCRIPTION
    row!(4321, FLAG, FNC1, needs: UNIT), // DANGEROUS GOODS
    row!(4322, FLAG, FNC1, needs: UNIT), // AUTH LEAVE
    row!(4323, FLAG, FNC1, needs: UNIT), // SIG REQUIRED
    row!(4324, DATE_TIME, FNC1, needs: UNIT), // NOT BEF DEL DT
    row!(4325, DATE_TIME, FNC1, needs: UNIT), // NOT AFT DEL DT
    row!(4326, DAY, FNC1, needs: UNIT), // REL DATE
    row!(4330, TEMPERATURE, FNC1, needs: UNIT), // MAX TEMP F
    row!(4331, TEMPERATURE, FNC1, needs: UNIT), // MAX TEMP C
    row!(4332, TEMPERATURE, FNC1, needs: UNIT), // MIN TEMP F
    row!(4333, TEMPERATURE, FNC1, needs: UNIT), // MIN TEMP C
    row!(7001, parts![Needed(Digits, 13, 13, Nothing)], FNC1, needs: ITEM), // NSN
    row!(7002, X30, FNC1, needs: ITEM), // MEAT CUT
    // EXPIRY TIME
    row!(7003, parts![Needed(Digits, 6, 6, Day), Needed(Digits, 4, 4, HourMinute)], FNC1,
        needs: ITEM),
    // ACTIVE POTENCY
    row!(7004, parts![Needed(Digits, 1, 4, Nothing)], FNC1, needs: ITEM,
        also_needs: ranges![(10, 10)]),
    row!(7005, parts![Needed(Set82, 1, 12, Nothing)], FNC1, needs: ITEM), // CATCH AREA
    row!(7006, DAY, FNC1, needs: ITEM), // FIRST FREEZE DATE
    // HARVEST DATE
    row!(7007, parts![Needed(Digits, 6, 6, Day), Optional(Digits, 6, 6, Day)], FNC1, needs: ITEM),
    row!(7008, X3, FNC1, needs: ITEM), // AQUATIC SPECIES
    row!(7009, parts![Needed(Set82, 1, 10, Nothing)], FNC1, needs: ITEM), // FISHING GEAR TYPE
    row!(7010, parts![Needed(Set82, 1, 2, Nothing)], FNC1, needs: ITEM), // PROD METHOD
    // TEST BY DATE
    row!(7011, parts![Needed(Digits, 6, 6, Day), Optional(Digits, 4, 4, HourMinute)], FNC1,
        needs: ITEM),
    row!(7020, X20, FNC1, needs: GTIN_OR_ITIP), // REFURB LOT
    row!(7021, X20, FNC1, needs: GTIN_OR_ITIP), // FUNC STAT
    row!(7022, X20, FNC1, needs: GTIN_OR_ITIP, also_needs: ranges![(7021, 7021)]), // REV STAT
    row!(7023, X30_KEY, FNC1), // GIAI - ASSEMBLY
    // PROCESSOR # s
    row!(7030..=7039, parts![Needed(Digits, 3, 3, CountryOrAny), Needed(Set82, 1, 27, Nothing)],
        FNC1, needs: ranges![(1, 2), (8006, 8006), (8026, 8026)]),
    // UIC+EXT
    row!(7040,
        parts![Needed(Digits, 1, 1, Nothing), Needed(Set82, 1, 1, Nothing),
            Needed(Set82, 1, 1, Nothing), Needed(Set82, 1, 1, Importer)], FNC1),
    row!(7041, parts![Needed(Capitals, 1, 4, Nothing)], FNC1, needs: UNIT), // UFRGT UNIT TYPE
    row!(710, X20, FNC1, needs: GTIN), // NHRN PZN
    row!(711, X20, FNC1, needs: GTIN), // NHRN CIP
    row!(712, X20, FNC1, needs: GTIN), // NHRN CN
    row!(713, X20, FNC1, needs: GTIN), // NHRN DRN
    row!(714, X20, FNC1, needs: GTIN), // NHRN AIM
    row!(715, X20, FNC1, needs: GTIN), // NHRN NDC
    row!(716, X20, FNC1, needs: GTIN), // NHRN AIC
    row!(717, X20, FNC1, needs: GTIN), // NHRN
    // CERT # s
    row!(7230..=7239, parts![Needed(Set82, 2, 2, Nothing), Needed(Set82, 1, 28, Nothing)], FNC1,
        needs: ranges![(1, 1), (8004, 8004)]),
    row!(7240, X20, FNC1, needs: GTIN_OR_ITIP), // PROTOCOL
    row!(7241, parts![Needed(Digits, 2, 2, Media)], FNC1, needs: GSRN), // AIDC MEDIA TYPE
    row!(7242, parts![Needed(Set82, 1, 25, Nothing)], FNC1, needs: GSRN), // VCN
    row!(7250, parts![Needed(Digits, 8, 8, LongDay)], FNC1, needs: RECIPIENT), // DOB
    // DOB TIME
    row!(7251, parts![Needed(Digits, 8, 8, LongDay), Needed(Digits, 4, 4, HourMinute)], FNC1,
        needs: RECIPIENT),
    row!(7252, parts![Needed(Digits, 1, 1, Sex)], FNC1, needs: RECIPIENT), // BIO SEX
    row!(7253, TEXT40, FNC1, needs: GSRN), // FAMILY NAME
    row!(7254, TEXT40, FNC1, needs: GSRN), // GIVEN NAME
    row!(7255, parts![Needed(Set82, 1, 10, Escapes)], FNC1, needs: GSRN), // SUFFIX
    // FULL NAME
    row!(7256, parts![Needed(Set82, 1, 90, Escapes)], FNC1, needs: GSRN,
        excludes: ranges![(7253, 7255)]),
    row!(7257, TEXT70, FNC1, needs: RECIPIENT), // PERSON ADDR
    // BIRTH SEQUENCE
    row!(7258, parts![Needed(Set82, 3, 3, Sequence)], FNC1, needs: RECIPIENT,
        also_needs: ranges![(7259, 7259)]),
    row!(7259, TEXT40, FNC1, needs: RECIPIENT), // BABY
    // DIMENSIONS
    row!(8001,
        parts![Needed(Digits, 4, 4, Nonzero), Needed(Digits, 5, 5, Nonzero),
            Needed(Digits, 3, 3, Nonzero), Needed(Digits, 1, 1, Winding),
            Needed(Digits, 1, 1, Nothing)], FNC1, needs: GTIN),
    row!(8002, X20, FNC1), // CMT No.
    // GRAI
    row!(8003,
        parts![Needed(Digits, 1, 1, Zero), Needed(Digits, 13, 13, CheckDigit),
            Optional(Set82, 1, 16, Nothing)], FNC1, key: true),
    row!(8004, X30_KEY, FNC1, key: true, qualifiers: numbers![7040]), // GIAI
    row!(8005, N6, FNC1, needs: TRADE), // PRICE PER UNIT
    // ITIP
    row!(8006, ITIP, FNC1, key: true, qualifiers: numbers![22, 10, 21],
        excludes: ranges![(1, 1), (37, 37)]),
    row!(8007, parts![Needed(Capitals, 5, 34, Iban)], FNC1, needs: ranges![(415, 415)]), // IBAN
    // PROD TIME
    row!(8008,
        parts![Needed(Digits, 6, 6, Day), Needed(Digits, 2, 2, Hour),
            Optional(Digits, 2, 2, Minute), Optional(Digits, 2, 2, Second)], FNC1, needs: ITEM),
    row!(8009, parts![Needed(Set82, 1, 50, Nothing)], FNC1, needs: ranges![(0, 1)]), // OPTSEN
    // CPID
    row!(8010, parts![Needed(Set39, 1, 30, Key)], FNC1, key: true, qualifiers: numbers![8011]),
    // CPID SERIAL
    row!(8011, parts![Needed(Digits, 1, 12, NoLeadingZero)], FNC1, needs: ranges![(8010, 8010)]),
    row!(8012, X20, FNC1, needs: GTIN_OR_ITIP), // VERSION
    row!(8013, MODEL, FNC1, key: true), // GMN
    row!(8014, MODEL, FNC1, key: true), // MUDI
    // GSRN - PROVIDER
    row!(8017, N18_CHECKED, FNC1, key: true, qualifiers: numbers![8019], excludes: RECIPIENT),
    row!(8018, N18_CHECKED, FNC1, key: true, qualifiers: numbers![8019]), // GSRN - RECIPIENT
    row!(8019, parts![Needed(Digits, 1, 10, Nothing)], FNC1, needs: GSRN), // SRIN
    row!(8020, parts![Needed(Set82, 1, 25, Nothing)], FNC1, needs: ranges![(415, 415)]), // REF No.
    // ITIP CONTENT
    row!(8026, ITIP, FNC1, needs: ranges![(37, 37)], excludes: ranges![(2, 2), (8006, 8006)]),
    // DIGSIG
    row!(8030, parts![Needed(Base64, 1, 90, Padding)], FNC1,
        needs: ranges![(0, 1), (253, 253), (255, 255), (8003, 8004), (8006, 8006), (8010, 8010),
            (8017, 8018)]),
    row!(8110, parts![Needed(Digits, 1, 70, Coupon(true))], FNC1), // a coupon
    row!(8111, parts![Needed(Digits, 4, 4, Nothing)], FNC1, needs: COUPON), // POINTS
    row!(8112, parts![Needed(Digits, 1, 70, Coupon(false))], FNC1), // an offer
    row!(8200, parts![Needed(Set82, 1, 70, Nothing)], FNC1, needs: GTIN), // PRODUCT URL
    row!(90, X30, FNC1), // INTERNAL
    row!(91..=99, parts![Needed(Set82, 1, 90, Nothing)], FNC1), // INTERNAL
];

/// The primary keys: the identifiers of the rows that say so.
pub(crate) static KEYS: [(usize, usize); 17] = [
    (0, 0),
    (1, 1),
    (253, 253),
    (255, 255),
    (401, 401),
    (402, 402),
    (414, 414),
    (415, 415),
    (417, 417),
    (8003, 8003),
    (8004, 8004),
    (8006, 8006),
    (8010, 8010),
    (8013, 8013),
    (8014, 8014),
    (8017, 8017),
    (8018, 8018),
];
