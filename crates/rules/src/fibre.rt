// The fibre code: its numbers, as paper 01 names them under 'Numbers', and Table 142-1.
// What they mean is defined in specs/: `fibre` in Table, and `fibre_format` in Formats.
ghost use Rattle.std.specs.Prelude.{◌≡◌, ◌<◌};
ghost use Rattle.rules.specs.Matrix.{entry};
ghost use Rattle.rules.specs.Table.{fibre, lines};
ghost use Rattle.rules.specs.Formats.{fibre_kept};
ghost use Rattle.rules.specs.Terms as terms;

use crate::Limits;

// The number by which a stream says that it serves this code.
pub const NUMBER: usize = 1;

// The bits of a block, the block rows, and the block columns, of which the first carry payload.
pub const SIZE: usize = 256;

pub const ROWS: usize = 12;

pub const COLUMNS: usize = 69;

pub const PAYLOAD_COLUMNS: usize = 57;

// The places of a full word: payload places, and then as many parity places as there are checks.
pub const PAYLOAD_PLACES: usize = 14592;

pub const CHECKS: usize = 3072;

pub const PLACES: usize = 17664;

// Their bytes.
pub const PAYLOAD_BYTES: usize = 1824;

pub const PARITY_BYTES: usize = 384;

pub const WORD_BYTES: usize = 2208;

// The least and the most payload bits, and the bits of a data block.
pub const PAYLOAD_LEAST: usize = 1;

pub const PAYLOAD_MOST: usize = 14392;

pub const DATA_BLOCK: usize = 257;

// The tail of a line word: the sent parity places, and the delimiter's bits. A delimiter is at most the largest.
pub const SENT_PLACES: usize = 2560;

pub const DELIMITER_PLACES: usize = 10;

pub const DELIMITER_MOST: usize = 1023;

pub const TAIL_BITS: usize = 2570;

pub const TAIL_BYTES: usize = 322;

// The bytes of the longest line word.
pub const LINE_BYTES: usize = 2121;

// The bytes of the sent parity.
pub const SENT_BYTES: usize = 320;

// The bytes of the two lists that a call is lent: of the payload places, and of the parity places.
pub const FIRST_BYTES: usize = 29184;

pub const SECOND_BYTES: usize = 6144;

// Table 142-1, as printed: 69 lines of 12 entries, C1 to C12.
const TABLE: [[i16; ROWS]; COLUMNS] = [
    [80, -1, -1, 105, -1, -1, 137, -1, -1, 0, 209, 53],
    [-1, 0, 91, -1, 170, 46, -1, 118, 208, -1, -1, -1],
    [-1, -1, -1, -1, 250, -1, 104, 15, 0, -1, 252, 93],
    [60, 0, 74, 87, -1, 37, -1, -1, -1, 123, -1, -1],
    [169, -1, -1, -1, -1, -1, 238, 93, 0, -1, 39, 216],
    [-1, 0, 237, 43, 195, 49, -1, -1, -1, 41, -1, -1],
    [11, -1, 202, -1, 139, 150, -1, -1, 0, 191, -1, -1],
    [-1, 0, -1, 165, -1, -1, 228, 228, -1, -1, 159, 57],
    [143, -1, -1, -1, -1, 65, -1, -1, 0, 211, 69, 9],
    [-1, 0, 201, 180, 135, -1, 225, 78, -1, -1, -1, -1],
    [-1, -1, 136, -1, -1, -1, 247, -1, 0, 217, 37, 130],
    [222, 0, -1, 80, 92, 177, -1, 16, -1, -1, -1, -1],
    [-1, -1, 178, 227, -1, 144, -1, 0, -1, 243, 134, -1],
    [59, 0, -1, -1, 147, -1, 191, -1, 251, -1, -1, 130],
    [-1, -1, 239, 221, -1, 70, -1, 48, 0, 97, -1, -1],
    [218, 0, -1, -1, 1, -1, 177, -1, -1, -1, 201, 238],
    [-1, -1, 183, 77, -1, 95, -1, 0, -1, 252, 49, -1],
    [-1, 0, -1, -1, -1, -1, 255, -1, 44, -1, -1, -1],
    [178, 0, -1, -1, -1, -1, -1, -1, 123, -1, -1, -1],
    [-1, -1, 217, 0, -1, 221, -1, -1, -1, -1, -1, -1],
    [-1, 0, -1, -1, 13, -1, -1, 62, -1, -1, -1, -1],
    [-1, -1, 232, -1, -1, -1, -1, -1, -1, 0, 104, -1],
    [-1, -1, -1, -1, -1, -1, 192, 0, -1, -1, -1, 144],
    [-1, -1, -1, -1, 98, 192, -1, -1, 0, -1, -1, -1],
    [105, 0, -1, 16, -1, -1, -1, -1, -1, -1, -1, -1],
    [-1, -1, 169, -1, -1, 128, -1, 0, -1, -1, -1, -1],
    [-1, -1, -1, -1, 142, -1, -1, -1, 0, -1, 129, -1],
    [19, 0, -1, -1, -1, -1, 51, -1, -1, -1, -1, -1],
    [-1, -1, -1, -1, -1, 214, -1, -1, -1, 0, -1, 162],
    [-1, -1, -1, 252, -1, -1, -1, -1, -1, -1, 157, 0],
    [126, -1, -1, -1, 225, -1, -1, 0, -1, -1, -1, -1],
    [-1, -1, -1, 96, -1, -1, -1, -1, 0, 41, -1, -1],
    [-1, 0, 129, -1, -1, -1, 195, -1, -1, -1, -1, -1],
    [-1, -1, 60, 0, -1, -1, -1, -1, -1, -1, 222, -1],
    [211, -1, -1, -1, -1, 51, 0, -1, -1, -1, -1, -1],
    [-1, -1, -1, -1, -1, -1, -1, -1, 0, 29, -1, 175],
    [-1, 0, -1, -1, 23, -1, -1, 112, -1, -1, -1, -1],
    [-1, -1, -1, -1, 108, -1, 172, -1, -1, 0, -1, -1],
    [-1, -1, -1, 17, -1, 100, -1, 0, -1, -1, -1, -1],
    [-1, 0, 19, -1, -1, -1, -1, -1, -1, -1, -1, 145],
    [247, -1, 76, -1, -1, -1, -1, -1, 0, -1, -1, -1],
    [-1, -1, -1, -1, -1, 19, -1, -1, -1, -1, 139, 0],
    [255, -1, -1, -1, -1, -1, -1, -1, -1, 0, 39, -1],
    [-1, 0, -1, -1, -1, -1, 219, -1, 153, -1, -1, -1],
    [-1, -1, -1, 219, 0, 235, -1, -1, -1, -1, -1, -1],
    [85, -1, -1, -1, -1, -1, -1, 0, -1, -1, -1, 36],
    [-1, -1, 77, -1, 0, -1, 236, -1, -1, -1, -1, -1],
    [-1, 0, -1, 198, -1, -1, -1, -1, -1, 193, -1, -1],
    [-1, -1, -1, 165, -1, -1, -1, -1, 0, -1, 203, -1],
    [-1, -1, -1, -1, -1, -1, 136, 0, -1, 145, -1, -1],
    [-1, -1, 2, -1, -1, -1, -1, 0, -1, -1, 94, -1],
    [-1, -1, -1, -1, 135, -1, -1, -1, 0, -1, -1, 91],
    [246, 0, -1, -1, -1, 4, -1, -1, -1, -1, -1, -1],
    [94, -1, -1, 36, -1, -1, 0, -1, -1, -1, -1, -1],
    [-1, -1, 101, -1, -1, -1, -1, -1, -1, 0, -1, 22],
    [-1, -1, -1, -1, -1, 251, -1, 22, 0, -1, -1, -1],
    [-1, 0, -1, -1, 121, -1, -1, -1, -1, -1, 194, -1],
    [-1, -1, 217, -1, 0, -1, 159, -1, -1, -1, -1, -1],
    [-1, -1, -1, 171, -1, 109, -1, -1, -1, -1, -1, 0],
    [242, -1, -1, -1, -1, -1, -1, -1, -1, -1, 3, 0],
    [-1, 0, -1, -1, -1, -1, 10, -1, -1, -1, -1, 212],
    [-1, -1, 48, -1, -1, -1, -1, 0, -1, 140, -1, -1],
    [-1, -1, -1, -1, -1, -1, -1, 0, -1, 46, 43, -1],
    [-1, -1, -1, 228, 0, -1, -1, -1, -1, -1, 153, -1],
    [129, -1, -1, -1, -1, 140, -1, -1, -1, -1, -1, 0],
    [-1, -1, -1, -1, -1, -1, 5, -1, 0, 58, -1, -1],
    [19, -1, -1, -1, 46, -1, -1, -1, 0, -1, -1, -1],
    [58, 0, 172, 39, 242, 193, 25, 120, 16, 202, 207, 69],
    [27, -1, 42, 234, 228, 241, 94, 192, 0, 215, 109, 88],
];

// What the code asks of a stream.
pub fn limits() -> Limits
    ensures { result ≡ terms.limits fibre_kept }
{
    Limits {
        number: NUMBER,
        most: PAYLOAD_MOST,
        used: CHECKS,
    }
}

// Hands out the table, which is built once: a constant that is indexed in a loop would be built anew at each read. No
// other function names the constant, so the checker walks its 828 entries once.
pub fn table() -> &'static [[i16; ROWS]; COLUMNS]
    ensures { result.now ≡ lines }
{
    &TABLE
}

// The entry of block row i, block column j, both counted from 0. For crates above, which show that both are in range.
pub fn entry_at(i: usize, j: usize) -> i16
    requires { (i < fibre.rows) × (j < fibre.columns) }
    ensures { result ≡ entry fibre i j }
{
    table()[j][i]
}
