// Bits in bytes: read, added, moved in runs, cleared, copied, searched and counted.
// Bit n is in byte n / 8, with weight 2 to the power n mod 8. A slice may have more bits than a usize can count.
// Bits move by numbers of 64, and those that are left at the end by one number more. Loops go by the number's count, as
// a number may stand at any place of each run.
// Its functions serve the crates above, which show what they require; no user calls them.
#![tactic(auto)]

ghost use Rattle.std.specs.Prelude.{◌≡◌, ◌++◌, ℕ, ◌+◌, ◌*◌, ◌/◌, ◌%◌, ◌^◌, ◌≤◌, ◌<◌, length};
ghost use Rattle.std.specs.Prelude.{drop, replicate, unwrap_or, IfSome};
ghost use Rattle.rules.specs.Bits.{bit, need, placed, Adds};
ghost use Rattle.rules.specs.Matrix.{total};
ghost use Rattle.bits.specs.Searches.{FirstSet, FirstDifference};

// The bytes that a run of bits takes.
pub fn needed(bits: usize) -> usize
    ensures { result ≡ need bits }
{
    bits.div_ceil(8)
}

// The bit at a place.
pub fn bit_at(s: &[u8], place: usize) -> u8
    requires { place < 8 * length s.now }
    ensures { result ≡ bit s.now place }
{
    (s[place / 8] >> (place % 8)) % 2
}

// Adds `count` bits of `from`, those from `start` on, to the bits of `s` from `at` on. Both places may be inside a
// byte.
pub fn add_run(s: &mut [u8], at: usize, from: &[u8], start: usize, count: usize)
    requires { (at + count ≤ 8 * length s.old) × (start + count ≤ 8 * length from.now) }
    ensures { Adds s.old s.new (placed at count (λ t. bit from.now (start + t))) }
{
    let whole = count / 64;
    for k in 0..whole {
        let number = numbers::number_at(from, start / 8 + 8 * k, start % 8);
        numbers::add_number(s, at / 8 + 8 * k, at % 8, number);
    }
    let left = count % 64;
    if left == 0 {
        return;
    }
    let number = numbers::rest_at(from, start / 8 + 8 * whole, start % 8);
    numbers::add_rest(s, at / 8 + 8 * whole, at % 8, number, left);
}

// Puts the first `count` bits of `from` where the first bits of `s` are 0: whole bytes are copied.
pub fn put_first(s: &mut [u8], from: &[u8], count: usize)
    requires { (count ≤ 8 * length s.old) × (count ≤ 8 * length from.now) × ((n : ℕ) → n < count → bit s.old n ≡ 0) }
    ensures { Adds s.old s.new (placed 0 count (bit from.now)) }
{
    let whole = count / 8;
    copy(&mut s[..whole], &from[..whole]);
    add_run(s, 8 * whole, from, 8 * whole, count % 8);
}

// Sets the first `count` bytes to 0.
pub fn clear(s: &mut [u8], count: usize)
    requires { count ≤ length s.old }
    ensures { s.new ≡ replicate count 0 ++ drop count s.old }
{
    s[..count].fill(0);
}

// Makes all of `to` equal to `from`. By a loop, which compiles to memcpy: where both slices come from C, the library's
// copy_from_slice compiles to memmove, which the header does not ask of a host.
pub fn copy(to: &mut [u8], from: &[u8])
    requires { length to.old ≡ length from.now }
    ensures { to.new ≡ from.now }
{
    for i in 0..from.len() {
        to[i] = from[i];
    }
}

// The lowest place that is 1, of those from `from` on and below `to`.
pub fn first_set(s: &[u8], from: usize, to: usize) -> Option<usize>
    requires { (from ≤ to) × (to ≤ 8 * length s.now) }
    ensures place { FirstSet s.now from to (unwrap_or result to) }
    ensures below { IfSome result (λ place. place < to) }
{
    let whole = (to - from) / 64;
    for k in 0..whole {
        let number = numbers::number_at(s, from / 8 + 8 * k, from % 8);
        if number != 0 {
            return Some(from + 64 * k + numbers::lowest_one(number));
        }
    }
    let place = numbers::lowest_one(numbers::rest_at(s, from / 8 + 8 * whole, from % 8));
    if place < (to - from) % 64 {
        return Some(from + 64 * whole + place);
    }
    None
}

// The lowest of `count` places at which the bits of `s` from `at` on differ from those of `other` from `start` on. It
// is `first_set` of a sum that stands nowhere; the laws of both are the same.
pub fn first_difference(
    s: &[u8],
    at: usize,
    other: &[u8],
    start: usize,
    count: usize,
) -> Option<usize>
    requires { (at + count ≤ 8 * length s.now) × (start + count ≤ 8 * length other.now) }
    ensures place { FirstDifference (λ n. bit s.now (at + n)) (λ n. bit other.now (start + n)) count
        (unwrap_or result count) }
    ensures below { IfSome result (λ place. place < count) }
{
    let whole = count / 64;
    for k in 0..whole {
        let number = numbers::number_at(s, at / 8 + 8 * k, at % 8)
            ^ numbers::number_at(other, start / 8 + 8 * k, start % 8);
        if number != 0 {
            return Some(64 * k + numbers::lowest_one(number));
        }
    }
    let number = numbers::rest_at(s, at / 8 + 8 * whole, at % 8)
        ^ numbers::rest_at(other, start / 8 + 8 * whole, start % 8);
    let place = numbers::lowest_one(number);
    if place < count % 64 {
        return Some(64 * whole + place);
    }
    None
}

// How many bits of all of `s` are 1. By a loop: a `sum` over numbers leaves open that it fits.
pub fn count_ones(s: &[u8]) -> usize
    requires { 8 * length s.now < 2 ^ 64 }
    ensures { result ≡ total (8 * length s.now) (bit s.now) }
{
    let whole = s.len() / 8;
    let mut count: usize = 0;
    for k in 0..whole {
        count += numbers::ones_in(numbers::load(s, 8 * k));
    }
    count + numbers::ones_in(numbers::rest_at(s, 8 * whole, 0))
}
