// Parity of the coax codes: finds the one whose own checks are given, by a recipe of each.
// Its function serves the crates above, which show what it requires; no user calls it.
ghost use Rattle.std.specs.Prelude.{◌≡◌, ◌≤◌, length};
ghost use Rattle.rules.specs.Bits.{need};
ghost use Rattle.rules.specs.Matrix as matrix;
ghost use Rattle.rules.specs.Coax.{coax_code};
ghost use Rattle.rules.specs.Words.{OwnChecks};
ghost use Rattle.parity.specs.CoaxRecipes.{coax_steps};

use rules::{CoaxCode, coax};

// The bytes of all 10 registers, each of a block's bits. The first five hold the checks at the start, and the last five
// the parity at the end. Room enough for the longer code's.
const REGISTER_BYTES: usize = 450;

// The recipe of the longer code, a step to a line: its target, its source and its turn, as the fibre code's is written.
// The turn's part above 255 stands first. The parity columns are a staircase: each block follows from the one before.
const LONG: [u32; 9] = [
    0x05_00_d9,
    0x06_01_1a,
    0x06_05_84,
    0x1_07_02_20,
    0x07_06_c6,
    0x08_03_98,
    0x08_07_0d,
    0x09_04_00,
    0x1_09_08_01,
];

// The recipe of the shorter code.
const SHORT: [u32; 9] = [
    0x05_00_9e, 0x06_01_09, 0x06_05_6e, 0x07_02_6a, 0x07_06_8c, 0x08_03_ac, 0x08_07_0f, 0x09_04_a1,
    0x09_08_9e,
];

// The recipe of a code.
fn recipe_of(code: CoaxCode) -> &'static [u32; 9]
    ensures { result.now ≡ coax_steps code }
{
    match code {
        CoaxCode::Long => &LONG,
        CoaxCode::Short => &SHORT,
    }
}

// Finds the parity whose own checks are the first bits given.
pub fn solve(code: CoaxCode, checks: &[u8], parity: &mut [u8])
    requires { (need (matrix.checks (coax_code code)) ≤ length checks.now)
        × (length parity.old ≡ need (matrix.checks (coax_code code))) }
    ensures { OwnChecks (coax_code code) checks.now parity.new }
{
    let size = coax::size(code);
    let all = coax::checks(code);
    let recipe = recipe_of(code);
    let mut registers = [0u8; REGISTER_BYTES];
    bits::add_run(&mut registers, 0, checks, 0, all);
    solving::follow(&mut registers, size, recipe);
    bits::clear(parity, parity.len());
    bits::add_run(parity, 0, &registers, all, all);
}
