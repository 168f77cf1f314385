// The running checks of the fibre code: a line of the table is handed on for each block. The bits of a payload
// reach them in inner order, picked by the first list.
ghost use Rattle.std.specs.Prelude.{◌+◌, ◌*◌, ◌≤◌, length};
ghost use Rattle.rules.specs.Bits.{bit, need, placed, Adds};
ghost use Rattle.rules.specs.Lists.{Listed};
ghost use Rattle.rules.specs.Matrix.{checks, places_of_payload, check};
ghost use Rattle.rules.specs.Table.{fibre};
ghost use Rattle.rules.specs.Words.{reordered};
ghost use Rattle.rules.specs.Terms.{by_first};
ghost use Rattle.running.specs.Running.{blocks_of};

use rules::fibre;

// Adds the blocks of the word from `from` on and below `to`: j is the block's number and its line's.
pub fn add_blocks(sums: &mut [u8], word: &[u8], from: usize, to: usize)
    requires { (need (checks fibre) ≤ length sums.old) × (from ≤ to) × (to ≤ fibre.columns)
        × (fibre.size * to ≤ 8 * length word.now) }
    ensures { Adds sums.old sums.new
        (λ n. check fibre n (blocks_of fibre.size word.now from to)) }
{
    let table = fibre::table();
    for j in from..to {
        super::add_line(sums, word, fibre::SIZE, j, &table[j]);
    }
}

// Adds the first `count` bits of a piece, which stand at the padded-payload places from `held` on. By the first list
// they go anywhere among the inner places, so all blocks of these are added.
pub fn add_piece(sums: &mut [u8], held: usize, count: usize, piece: &[u8], first: &[u8])
    requires { (need (checks fibre) ≤ length sums.old) × (held + count ≤ places_of_payload fibre)
        × (count ≤ 8 * length piece.now) × Listed (places_of_payload fibre) first.now }
    ensures { Adds sums.old sums.new
        (λ n. check fibre n (reordered (by_first first.now) (placed held count (bit piece.now)))) }
{
    let mut outer = [0u8; fibre::PAYLOAD_BYTES];
    bits::add_run(&mut outer, held, piece, 0, count);
    let mut inner = [0u8; fibre::PAYLOAD_BYTES];
    lists::pick(&mut inner, first, &outer);
    add_blocks(sums, &inner, 0, fibre::PAYLOAD_COLUMNS);
}
