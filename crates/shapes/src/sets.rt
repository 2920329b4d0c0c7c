// The rows that units show, as sets of ten words: a byte an element, the first element the lowest, and of nine elements the ninth in the
// upper half of the eighth byte. What a set of ten does not need is 0. Each is held to the table of source 001 by one computed test.
ghost use Rattle.std.specs.Prelude.{◌≡◌};
ghost use Rattle.shapes.specs.Sets.{sets39, sets_codabar, sets_industrial, sets_digits, sets_ean};

// Code 39: the 43 characters by value, ten to a set. The ninth element is the highest digit, above the eighth.
const CODE39: [[u64; 10]; 5] = [
    [
        0x1103010303010101,
        0x3101010103010103,
        0x3101010103030101,
        0x1101010103030103,
        0x3101010303010101,
        0x1101010303010103,
        0x1101010303030101,
        0x3103010103010101,
        0x1103010103010103,
        0x1103010103030101,
    ],
    [
        0x3101030101010103,
        0x3101030101030101,
        0x1101030101030103,
        0x3101030301010101,
        0x1101030301010103,
        0x1101030301030101,
        0x3103030101010101,
        0x1103030101010103,
        0x1103030101030101,
        0x1103030301010101,
    ],
    [
        0x3301010101010103,
        0x3301010101030101,
        0x1301010101030103,
        0x3301010301010101,
        0x1301010301010103,
        0x1301010301030101,
        0x3303010101010101,
        0x1303010101010103,
        0x1303010101030101,
        0x1303010301010101,
    ],
    [
        0x3101010101010303,
        0x3101010101030301,
        0x1101010101030303,
        0x3101010301010301,
        0x1101010301010303,
        0x1101010301030301,
        0x3103010101010301,
        0x1103010101010303,
        0x1103010101030301,
        0x1101030103010301,
    ],
    [
        0x1301010103010301,
        0x1301030101010301,
        0x1301030103010101,
        0,
        0,
        0,
        0,
        0,
        0,
        0,
    ],
];

// Codabar: the 16 characters that stand inside, then, in a set of their own, the letters A to D.
const CODABAR: [[u64; 10]; 3] = [
    [
        0x03030101010101,
        0x01030301010101,
        0x03010103010101,
        0x01010101010303,
        0x01030101030101,
        0x01030101010103,
        0x03010101010301,
        0x01010301010301,
        0x01010101030301,
        0x01010103010103,
    ],
    [
        0x01010303010101,
        0x01010103030101,
        0x03010301010103,
        0x03010101030103,
        0x01010301030103,
        0x03010301030101,
        0,
        0,
        0,
        0,
    ],
    [
        0x01030103030101,
        0x03010103010301,
        0x03030103010101,
        0x01030303010101,
        0,
        0,
        0,
        0,
        0,
        0,
    ],
];

// Industrial: five bars carry the digit, and the spaces between them are narrow.
const INDUSTRIAL: [[u64; 10]; 1] = [[
    0x1103010301010101,
    0x3101010101010103,
    0x3101010101030101,
    0x1101010101030103,
    0x3101010301010101,
    0x1101010301010103,
    0x1101010301030101,
    0x3103010101010101,
    0x1103010101010103,
    0x1103010101030101,
]];

// Matrix, and Interleaved, whose pairs are woven of them: five elements carry the digit.
const DIGITS: [[u64; 10]; 1] = [[
    0x0103030101,
    0x0301010103,
    0x0301010301,
    0x0101010303,
    0x0301030101,
    0x0101030103,
    0x0101030301,
    0x0303010101,
    0x0103010103,
    0x0103010301,
]];

// EAN and UPC: left odd, left even, right.
const EAN: [[u64; 10]; 3] = [
    [
        0x01010203, 0x01020202, 0x02020102, 0x01010401, 0x02030101, 0x01030201, 0x04010101,
        0x02010301, 0x03010201, 0x02010103,
    ],
    [
        0x03020101, 0x02020201, 0x02010202, 0x01040101, 0x01010302, 0x01020301, 0x01010104,
        0x01030102, 0x01020103, 0x03010102,
    ],
    [
        0x01010203, 0x01020202, 0x02020102, 0x01010401, 0x02030101, 0x01030201, 0x04010101,
        0x02010301, 0x03010201, 0x02010103,
    ],
];

// Stays as five functions: each is public under its own name, and their arrays differ in size.
pub fn code39() -> [[u64; 10]; 5]
    ensures { result ≡ sets39 }
{
    CODE39
}

pub fn codabar() -> [[u64; 10]; 3]
    ensures { result ≡ sets_codabar }
{
    CODABAR
}

pub fn industrial() -> [[u64; 10]; 1]
    ensures { result ≡ sets_industrial }
{
    INDUSTRIAL
}

pub fn digits() -> [[u64; 10]; 1]
    ensures { result ≡ sets_digits }
{
    DIGITS
}

pub fn ean() -> [[u64; 10]; 3]
    ensures { result ≡ sets_ean }
{
    EAN
}
