// The running checks: the one way in which bits reach them, for any code. A block that holds such bits is added,
// turned, once for each entry of its line of the table. A module for each code holds its table.
// Its functions serve the crates above, which show what they require; no user calls them.
#![tactic(auto)]

pub mod coax;
pub mod fibre;

ghost use Rattle.std.specs.Prelude.{◌+◌, ◌*◌, ◌%◌, ◌<◌, T, length};
ghost use Rattle.rules.specs.Bits.{bit, placed, Adds};
ghost use Rattle.rules.specs.Terms.{proper, Proper, spot, through};
ghost use Rattle.running.specs.Running.{HasBlocks};
ghost use Rattle.turning.specs.Turning.{part_bits};

// Adds block j of the word, turned, to block i of the checks, where blocks are parts of 32 bytes: the part that starts
// at byte 32j is handed on.
fn add_part(checks: &mut [u8], word: &[u8], i: usize, j: usize, turn: usize)
    requires { HasBlocks part_bits (i + 1) checks.old × HasBlocks part_bits (j + 1) word.now × (turn < part_bits) }
    ensures { Adds checks.old checks.new
        (placed (part_bits * i) part_bits (λ t. bit word.now (part_bits * j + (t + turn) % part_bits))) }
{
    let at = turning::PART_BYTES * i;
    let from = turning::PART_BYTES * j;
    turning::add_turned(
        &mut checks[at..at + turning::PART_BYTES],
        &word[from..from + turning::PART_BYTES],
        turn,
    );
}

// Adds what the entry a of block row i takes from block j of the word to block i of the checks. A zero block takes
// nothing.
fn add_entry(checks: &mut [u8], word: &[u8], size: usize, i: usize, j: usize, a: i16)
    requires { HasBlocks size (i + 1) checks.old × HasBlocks size (j + 1) word.now × T (proper size a) }
    ensures { Adds checks.old checks.new
        (placed (size * i) size (spot size a (λ t. bit word.now (size * j + t)))) }
{
    let Ok(turn) = usize::try_from(a) else {
        return;
    };
    if size == turning::PART_BITS {
        add_part(checks, word, i, j, turn);
        return;
    }
    turning::add_block(checks, size * i, word, size * j, size, turn);
}

// Adds block j of the word, by the entries of its line of the table.
pub fn add_line(checks: &mut [u8], word: &[u8], size: usize, j: usize, line: &[i16])
    requires { HasBlocks size (length line.now) checks.old × HasBlocks size (j + 1) word.now × (0 < size)
        × Proper size line.now }
    ensures { Adds checks.old checks.new
        (through size line.now (λ t. bit word.now (size * j + t))) }
{
    for (i, a) in line.iter().enumerate() {
        add_entry(checks, word, size, i, j, *a);
    }
}
