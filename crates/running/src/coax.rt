// The running checks of the coax codes: a line of a code's table is handed on for each block.
ghost use Rattle.std.specs.Prelude.{◌+◌, ◌*◌, ◌≤◌, length};
ghost use Rattle.rules.specs.Bits.{bit, need, placed, Adds};
ghost use Rattle.rules.specs.Matrix.{checks, places_of_payload, check};
ghost use Rattle.rules.specs.Coax.{coax_code};
ghost use Rattle.running.specs.Running.{blocks_of};

use rules::{CoaxCode, coax};

// Adds the blocks of the word from `from` on and below `to`: j is the block's number and its line's.
pub fn add_blocks(code: CoaxCode, sums: &mut [u8], word: &[u8], from: usize, to: usize)
    requires { (need (checks (coax_code code)) ≤ length sums.old) × (from ≤ to) × (to ≤ (coax_code code).columns)
        × ((coax_code code).size * to ≤ 8 * length word.now) }
    ensures { Adds sums.old sums.new
        (λ n. check (coax_code code) n (blocks_of (coax_code code).size word.now from to)) }
{
    let size = coax::size(code);
    let table = coax::table(code);
    for j in from..to {
        super::add_line(sums, word, size, j, &table[j]);
    }
}

// Adds the first `count` bits of a piece, which stand at the places from `held` on.
pub fn add_piece(code: CoaxCode, sums: &mut [u8], held: usize, count: usize, piece: &[u8])
    requires { (need (checks (coax_code code)) ≤ length sums.old) × (held + count ≤ places_of_payload (coax_code code))
        × (count ≤ 8 * length piece.now) }
    ensures { Adds sums.old sums.new
        (λ n. check (coax_code code) n (placed held count (bit piece.now))) }
{
    let mut word = [0u8; coax::PAYLOAD_BYTES];
    bits::add_run(&mut word, held, piece, 0, count);
    let size = coax::size(code);
    add_blocks(
        code,
        sums,
        &word,
        held / size,
        (held + count).div_ceil(size),
    );
}
