// Numbers of 64 bits in bytes, at any place: read, stored and added. The first bit of a number is its lowest.
// A place is its byte and its weight there, as a slice may have more bits than a usize can count. They are two
// arguments, as every clause speaks of each.
// Its functions serve the crates above, which show what they require; no user calls them.
#![tactic(auto)]

ghost use Rattle.std.specs.Prelude.{◌≡◌, ◌+◌, ◌*◌, ◌/◌, ◌%◌, ◌^◌, ◌≤◌, ◌<◌, length};
ghost use Rattle.rules.specs.Bits.{bit, run, placed, Adds};
ghost use Rattle.rules.specs.Matrix.{total};
ghost use Rattle.rules.specs.Words.{digit};
ghost use Rattle.numbers.specs.Numbers.{Holds, Replaced, LowestOne};

// The eight bytes from `at` on.
pub fn load(s: &[u8], at: usize) -> u64
    requires { at + 8 ≤ length s.now }
    ensures { Holds result (λ k. bit s.now (8 * at + k)) }
{
    let mut bytes = [0u8; 8];
    bytes.copy_from_slice(&s[at..at + 8]);
    u64::from_le_bytes(bytes)
}

// The 64 bits from `turn` on of two numbers, one after the other. A shift by 64 is not allowed, so it is split. Joined
// by `|`, they compile to a double shift.
pub fn across(low: u64, high: u64, turn: usize) -> u64
    requires { turn < 64 }
    ensures { Holds result (λ k. run 64 (digit low) (digit high) (k + turn)) }
{
    (low >> turn) | ((high << 1) << (63 - turn))
}

// The 64 bits from a place on. Where it is inside a byte, the last of them are in a ninth.
pub fn number_at(s: &[u8], byte: usize, weight: usize) -> u64
    requires { (8 * byte + weight + 64 ≤ 8 * length s.now) × (weight < 8) }
    ensures { Holds result (λ k. bit s.now (8 * byte + weight + k)) }
{
    let last = byte + (weight + 63) / 8;
    across(load(s, byte), u64::from(s[last]), weight)
}

// The bytes from `byte` on to the end of s, at most eight, as one number.
fn end_at(s: &[u8], byte: usize) -> u64
    requires { (byte ≤ length s.now) × (length s.now ≤ byte + 8) }
    ensures { Holds result (λ k. bit s.now (8 * byte + k)) }
{
    let mut bytes = [0u8; 8];
    bytes[..s.len() - byte].copy_from_slice(&s[byte..]);
    u64::from_le_bytes(bytes)
}

// The 64 bits from a place on. Those past the end of s are 0: no byte there is read.
pub fn rest_at(s: &[u8], byte: usize, weight: usize) -> u64
    requires { (byte ≤ length s.now) × (weight < 8) }
    ensures { Holds result (λ k. bit s.now (8 * byte + weight + k)) }
{
    if 8 < s.len() - byte {
        return number_at(s, byte, weight);
    }
    end_at(s, byte) >> weight
}

// Makes `number` the eight bytes of s from `at` on.
pub fn store(s: &mut [u8], at: usize, number: u64)
    requires { at + 8 ≤ length s.old }
    ensures { Replaced s.old s.new at 64 (digit number) }
{
    s[at..at + 8].copy_from_slice(&number.to_le_bytes());
}

// Adds the lowest eight bits of a number to a byte.
fn add_byte(s: &mut [u8], at: usize, number: u64)
    requires { at < length s.old }
    ensures { Adds s.old s.new (placed (8 * at) 8 (digit number)) }
{
    s[at] ^= (number % 256) as u8;
}

// Adds a number to the 64 bits from a place on. The bits that leave its eight bytes go to a ninth.
pub fn add_number(s: &mut [u8], byte: usize, weight: usize, number: u64)
    requires { (8 * byte + weight + 64 ≤ 8 * length s.old) × (weight < 8) }
    ensures { Adds s.old s.new (placed (8 * byte + weight) 64 (digit number)) }
{
    let last = byte + (weight + 63) / 8;
    let sum = load(s, byte) ^ (number << weight);
    store(s, byte, sum);
    add_byte(s, last, (number >> 1) >> (63 - weight));
}

// Adds the lowest `count` bits of a number to those from a place on, and touches no byte that has none of them. The
// loop goes by the byte's number, which is in the shift too.
pub fn add_rest(s: &mut [u8], byte: usize, weight: usize, number: u64, count: usize)
    requires { (8 * byte + weight + count ≤ 8 * length s.old) × (weight < 8) × (0 < count) × (count < 64) }
    ensures { Adds s.old s.new (placed (8 * byte + weight) count (digit number)) }
{
    let kept = number % (1 << count);
    add_byte(s, byte, kept << weight);
    for i in 1..(weight + count).div_ceil(8) {
        add_byte(s, byte + i, kept >> (8 * i - weight));
    }
}

// The lowest place of a number that is 1, or 64.
pub fn lowest_one(number: u64) -> usize
    ensures { LowestOne number result }
{
    number.trailing_zeros() as usize
}

// How many bits of a number are 1.
pub fn ones_in(number: u64) -> usize
    ensures { result ≡ total 64 (digit number) }
{
    number.count_ones() as usize
}
