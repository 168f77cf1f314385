// The two coax codes of W8 of paper 02: their numbers, and Tables 101-3 and 101-4 of source document 001.
// What they mean is defined in specs/: the tables in CoaxTables, the codes in Coax.
ghost use Rattle.std.specs.Prelude.{◌≡◌};
ghost use Rattle.rules.specs.Matrix as matrix;
ghost use Rattle.rules.specs.Matrix.{places_of_payload};
ghost use Rattle.rules.specs.Coax.{coax_size, coax_columns, coax_lines, coax_code, coax_number, coax_format};
ghost use Rattle.rules.specs.Terms as terms;

use crate::{CoaxCode, Limits};

// The block rows of both, and as many parity columns.
pub const ROWS: usize = 5;

// The block columns of each.
pub const LONG_COLUMNS: usize = 45;

pub const SHORT_COLUMNS: usize = 33;

// The bytes of the longer word's payload, of its parity, and of the whole word: room enough for the shorter one's.
pub const PAYLOAD_BYTES: usize = 1800;

pub const PARITY_BYTES: usize = 225;

pub const WORD_BYTES: usize = 2025;

// Table 101-3, a line for each column, its entries by row: the print is upright, and this is the print on its side.
const LONG: [[i16; ROWS]; LONG_COLUMNS] = [
    [93, 274, 134, -1, 253],
    [271, 115, 355, -1, 273],
    [-1, 329, 175, 184, 90],
    [83, 338, 24, 70, -1],
    [26, 124, 253, 247, -1],
    [208, -1, 242, 14, 151],
    [245, 293, -1, 22, 311],
    [200, -1, 187, 7, 320],
    [-1, 69, 94, 285, 339],
    [175, 64, 26, 54, -1],
    [331, 342, 87, -1, 295],
    [17, -1, 302, 352, 148],
    [86, 88, -1, 26, 48],
    [-1, 139, 191, 108, 91],
    [337, -1, 323, 10, 62],
    [-1, 137, 22, 298, 100],
    [238, 212, -1, 123, 232],
    [81, -1, 245, 139, 146],
    [-1, 157, 294, 117, 200],
    [307, 195, 240, -1, 135],
    [-1, 357, 84, 336, 12],
    [165, 81, 76, 49, -1],
    [-1, 194, 342, 202, 179],
    [47, 1, 345, 359, -1],
    [76, 159, 174, 342, -1],
    [73, 56, 269, -1, 232],
    [150, 72, 329, 224, -1],
    [349, 126, -1, 106, 21],
    [139, 277, 214, -1, 331],
    [331, 156, -1, 273, 313],
    [118, 32, -1, 177, 349],
    [345, 111, -1, 245, 34],
    [27, 175, -1, 98, 97],
    [294, -1, 218, 355, 187],
    [-1, 306, 104, 178, 38],
    [145, 224, 40, 176, -1],
    [279, -1, 197, 147, 235],
    [97, 206, 73, -1, 52],
    [106, -1, 229, 280, 170],
    [160, 29, 63, -1, 58],
    [143, 106, -1, -1, -1],
    [-1, 334, 270, -1, -1],
    [-1, -1, 72, 221, -1],
    [-1, -1, -1, 208, 257],
    [-1, -1, -1, -1, 0],
];

// Table 101-4, the same.
const SHORT: [[i16; ROWS]; SHORT_COLUMNS] = [
    [142, 54, 63, 28, 52],
    [158, 172, 11, 160, 159],
    [113, 145, 112, 102, 75],
    [124, 28, 114, 44, 74],
    [92, 55, 61, 8, 46],
    [44, 19, 123, 84, 71],
    [93, 159, 72, 126, 42],
    [70, 22, 55, 9, 11],
    [172, 96, 114, 169, 108],
    [3, 12, 20, 174, 153],
    [25, 85, 53, 147, -1],
    [44, -1, 114, 24, 72],
    [141, 128, 42, 145, -1],
    [160, 5, 33, -1, 163],
    [50, 158, 4, 26, -1],
    [45, 120, 66, -1, 9],
    [118, 51, 163, -1, 2],
    [84, 171, 50, -1, 168],
    [-1, 65, 46, 67, 158],
    [64, 141, 17, 82, -1],
    [66, -1, 175, 4, 1],
    [97, 42, -1, 177, 49],
    [1, 83, -1, 151, 89],
    [115, 7, -1, 131, 63],
    [8, -1, 92, 139, 179],
    [108, 39, -1, 117, 10],
    [-1, 121, 41, 36, 75],
    [-1, 84, 138, 18, 161],
    [22, 101, -1, -1, -1],
    [-1, 171, 34, -1, -1],
    [-1, -1, 74, 23, -1],
    [-1, -1, -1, 8, 177],
    [-1, -1, -1, -1, 19],
];

// Hands out the lines of a code's table, one for each block column. No other function names the constants.
pub fn table(code: CoaxCode) -> &'static [[i16; ROWS]]
    ensures { result.now ≡ coax_lines code }
{
    match code {
        CoaxCode::Long => &LONG,
        CoaxCode::Short => &SHORT,
    }
}

// The bits of a block.
pub fn size(code: CoaxCode) -> usize
    ensures { result ≡ coax_size code }
{
    match code {
        CoaxCode::Long => 360,
        CoaxCode::Short => 180,
    }
}

// The block columns.
pub fn columns(code: CoaxCode) -> usize
    ensures { result ≡ coax_columns code }
{
    match code {
        CoaxCode::Long => LONG_COLUMNS,
        CoaxCode::Short => SHORT_COLUMNS,
    }
}

// The payload places: the bits of a payload.
pub fn payload_places(code: CoaxCode) -> usize
    ensures { result ≡ places_of_payload (coax_code code) }
{
    match code {
        CoaxCode::Long => 14400,
        CoaxCode::Short => 5040,
    }
}

// The checks, and as many parity places.
pub fn checks(code: CoaxCode) -> usize
    ensures { result ≡ matrix.checks (coax_code code) }
{
    match code {
        CoaxCode::Long => 1800,
        CoaxCode::Short => 900,
    }
}

// The places of a word.
pub fn places(code: CoaxCode) -> usize
    ensures { result ≡ matrix.places (coax_code code) }
{
    match code {
        CoaxCode::Long => 16200,
        CoaxCode::Short => 5940,
    }
}

// The number by which a stream says that it serves this code.
pub fn number(code: CoaxCode) -> usize
    ensures { result ≡ coax_number code }
{
    match code {
        CoaxCode::Long => 2,
        CoaxCode::Short => 3,
    }
}

// What the code asks of a stream.
pub fn limits(code: CoaxCode) -> Limits
    ensures { result ≡ terms.limits (coax_format code) }
{
    Limits {
        number: number(code),
        most: payload_places(code),
        used: checks(code),
    }
}
