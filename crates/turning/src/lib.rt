// Adds turned blocks: the one way in which bits reach the checks.
// A block of any size is two runs. A part, of 256 bits from a byte on, is added faster, by quarters: a quarter is 64 of
// its bits, as one number, the first bit lowest.
// Its functions serve the crates above, which show what they require; no user calls them.
#![tactic(auto)]

ghost use Rattle.std.specs.Prelude.{◌≡◌, ℕ, ◌+◌, ◌*◌, ◌%◌, ◌^◌, ◌≤◌, ◌<◌, length, drop};
ghost use Rattle.rules.specs.Bits.{bit, zeros, run, placed, Adds};
ghost use Rattle.numbers.specs.Numbers.{Holds, Replaced};
ghost use Rattle.turning.specs.Quarters.{HoldsAll};
ghost use Rattle.turning.specs.Turning.{turned, part_bits, part_bytes, held_bits};

// The bits of a part, four numbers, and its bytes.
pub const PART_BITS: usize = 256;

pub const PART_BYTES: usize = 32;

// The bytes in which a block is held while it is added within the same bytes: of at most 512 bits.
const HELD_BYTES: usize = 64;

// A part by its four quarters.
#[derive(Clone, Copy)]
struct Part {
    first: u64,
    second: u64,
    third: u64,
    fourth: u64,
}

// Quarter `index` of the part that begins at byte `from`, turned.
fn quarter_at(s: &[u8], from: usize, turn: usize, index: usize) -> u64
    requires { (from + part_bytes ≤ length s.now) × (turn < part_bits) × (index < 4) }
    ensures { Holds result (λ k. turned part_bits (drop from s.now) turn (64 * index + k)) }
{
    let seen = 64 * index + turn;
    let low = numbers::load(s, from + 8 * (seen / 64 % 4));
    let high = numbers::load(s, from + 8 * ((seen / 64 + 1) % 4));
    numbers::across(low, high, seen % 64)
}

impl Part {
    // The part of sums that begins at byte `at`, with the part of `block` that begins at byte `from`, turned, added.
    // The quarters are spelt out, so that no loop is left.
    fn sum(sums: &[u8], at: usize, block: &[u8], from: usize, turn: usize) -> Part
        requires { (at + part_bytes ≤ length sums.now) × (from + part_bytes ≤ length block.now) × (turn < part_bits) }
        ensures { HoldsAll result (λ n.
            (bit sums.now (8 * at + n) + turned part_bits (drop from block.now) turn n) % 2) }
    {
        Part {
            first: numbers::load(sums, at) ^ quarter_at(block, from, turn, 0),
            second: numbers::load(sums, at + 8) ^ quarter_at(block, from, turn, 1),
            third: numbers::load(sums, at + 16) ^ quarter_at(block, from, turn, 2),
            fourth: numbers::load(sums, at + 24) ^ quarter_at(block, from, turn, 3),
        }
    }

    // Makes the quarters the part of s that begins at byte `at`.
    fn store(self, s: &mut [u8], at: usize)
        requires { at + part_bytes ≤ length s.old }
        ensures { (f : ℕ → ℕ) → HoldsAll self f → Replaced s.old s.new at part_bits f }
    {
        numbers::store(s, at, self.first);
        numbers::store(s, at + 8, self.second);
        numbers::store(s, at + 16, self.third);
        numbers::store(s, at + 24, self.fourth);
    }
}

// Adds a part, turned, to one of sums.
pub fn add_turned(sums: &mut [u8], block: &[u8], turn: usize)
    requires { (length sums.old ≡ part_bytes) × (length block.now ≡ part_bytes) × (turn < part_bits) }
    ensures { Adds sums.old sums.new (run part_bits (turned part_bits block.now turn) zeros) }
{
    Part::sum(sums, 0, block, 0, turn).store(sums, 0);
}

// The same where the part, from byte `from` on, and the sums, from byte `to` on, are of the same bytes: these cannot be
// lent twice, once to be written.
pub fn add_within(s: &mut [u8], to: usize, from: usize, turn: usize)
    requires { (to + part_bytes ≤ length s.old) × (from + part_bytes ≤ length s.old) × (turn < part_bits) }
    ensures { Adds s.old s.new
        (placed (8 * to) part_bits (turned part_bits (drop from s.old) turn)) }
{
    Part::sum(s, to, s, from, turn).store(s, to);
}

// Adds the block of `size` bits that stands in `word` from place `from` on, turned, to the bits of `sums` from place
// `at` on. Both places may be inside a byte: two runs.
pub fn add_block(sums: &mut [u8], at: usize, word: &[u8], from: usize, size: usize, turn: usize)
    requires { (turn < size) × (at + size < 2 ^ 64) × (from + size < 2 ^ 64) × (at + size ≤ 8 * length sums.old)
        × (from + size ≤ 8 * length word.now) }
    ensures { Adds sums.old sums.new
        (placed at size (λ t. bit word.now (from + (t + turn) % size))) }
{
    let rest = size - turn;
    bits::add_run(sums, at, word, from + turn, rest);
    bits::add_run(sums, at + rest, word, from, turn);
}

// The same where the block, from place `from` on, and the sums, from place `to` on, are of the same bytes. The block is
// held first, as its bits may change while they are added, and can't be lent while they are written.
pub fn add_block_within(s: &mut [u8], to: usize, from: usize, size: usize, turn: usize)
    requires { (turn < size) × (to + size < 2 ^ 64) × (from + size < 2 ^ 64) × (to + size ≤ 8 * length s.old)
        × (from + size ≤ 8 * length s.old) × (size ≤ held_bits) }
    ensures { Adds s.old s.new (placed to size (λ t. bit s.old (from + (t + turn) % size))) }
{
    let mut held = [0u8; HELD_BYTES];
    bits::add_run(&mut held, 0, s, from, size);
    add_block(s, to, &held, 0, size, turn);
}
