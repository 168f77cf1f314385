// Lists that reorder places: read, made, tested, and used to pick bits. An entry is two bytes, the low byte first, and
// is known by its number.
// Its functions serve the crates above, which show what they require; no user calls them.
#![tactic(auto)]

ghost use Rattle.std.specs.Prelude.{◌≡◌, ℕ, ◌+◌, ◌*◌, ◌≤◌, ◌<◌, length, get_or, unwrap_or, IfSome};
ghost use Rattle.rules.specs.Lists.{entry_of, Plain};
ghost use Rattle.rules.specs.Matrix.{places_of_payload};
ghost use Rattle.rules.specs.Table.{fibre};
ghost use Rattle.lists.specs.Picked.{Names, PickedByte, Picked, Kept, FirstShortened};
ghost use Rattle.lists.specs.Picked.{Marked, AllMarked, Tested, FirstFault};

use rules::fibre;

// Entry t of a list.
fn entry(list: &[u8], t: usize) -> usize
    requires { 2 * t + 1 < length list.now }
    ensures { result ≡ entry_of list.now t }
{
    usize::from(u16::from_le_bytes([list[2 * t], list[2 * t + 1]]))
}

// The bits that eight entries name, from entry 8 i on, as a byte.
fn byte_named(list: &[u8], from: &[u8], i: usize) -> u8
    requires { Names list.now (8 * i + 8) (8 * length from.now) }
    ensures { PickedByte list.now from.now i result }
{
    let mut byte: u8 = 0;
    for k in 0..8 {
        byte |= bits::bit_at(from, entry(list, 8 * i + k)) << k;
    }
    byte
}

// Picks bits by a list: bit t of `to` is the bit of `from` that entry t names.
pub fn pick(to: &mut [u8], list: &[u8], from: &[u8])
    requires { Names list.now (8 * length to.old) (8 * length from.now) }
    ensures { Picked list.now from.now to.old to.new }
{
    for (i, byte) in to.iter_mut().enumerate() {
        *byte = byte_named(list, from, i);
    }
}

// Marks each place that an entry names, and the place after all for each entry that names none.
fn mark(list: &[u8], places: usize, marks: &mut [u8])
    requires { (2 * places ≤ length list.now) × (length marks.old ≡ places + 1) × ((p : ℕ) → get_or marks.old p 0 ≡ 0) }
    ensures { Marked places places list.now marks.new }
{
    for t in 0..places {
        marks[entry(list, t).min(places)] = 1;
    }
}

// Whether each of so many places has a mark.
fn all_marked(marks: &[u8], places: usize) -> bool
    requires { places ≤ length marks.now }
    ensures { AllMarked places marks.now result }
{
    marks[..places].iter().copied().min() != Some(0)
}

// Whether a list is a reordering of so many places: each entry leaves a mark, and then every place must have one.
// `marks` has a place more than these, for entries that name none; all are 0.
pub fn reorders(list: &[u8], places: usize, marks: &mut [u8]) -> bool
    requires { (length marks.old ≡ places + 1) × ((p : ℕ) → get_or marks.old p 0 ≡ 0) × (places ≤ 65536) }
    ensures { Tested places list.now result }
{
    if list.len() != 2 * places {
        return false;
    }
    mark(list, places, marks);
    all_marked(marks, places)
}

// Keeps of the bits of `mask` those that are 1 in `word` too. By the index: in a `zip` the invariant cannot name a
// slice that is written.
fn keep(mask: &mut [u8], word: &[u8])
    requires { length mask.old ≤ length word.now }
    ensures { Kept word.now mask.old mask.new }
{
    for (i, byte) in mask.iter_mut().enumerate() {
        *byte &= word[i];
    }
}

// The lowest inner place that is shortened and 1: shortened where the first list names a place from `count` on. The
// outer places that are shortened are picked into inner order.
pub fn first_shortened(count: usize, word: &[u8], first: &[u8]) -> Option<usize>
    requires { (count ≤ places_of_payload fibre)
        × (places_of_payload fibre ≤ 8 * length word.now)
        × Names first.now (places_of_payload fibre) (places_of_payload fibre) }
    ensures place { FirstShortened (places_of_payload fibre) count first.now word.now
        (unwrap_or result (places_of_payload fibre)) }
    ensures below { IfSome result (λ place. place < places_of_payload fibre) }
{
    let mut inner = [255u8; fibre::PAYLOAD_BYTES];
    let mut outer = [255u8; fibre::PAYLOAD_BYTES];
    bits::add_run(&mut outer, 0, &inner, 0, count);
    pick(&mut inner, first, &outer);
    keep(&mut inner, word);
    bits::first_set(&inner, 0, fibre::PAYLOAD_PLACES)
}

// Makes a list that changes nothing.
pub fn fill_plain(list: &mut [u8], places: usize)
    requires { (length list.old ≡ 2 * places) × (places ≤ 65536) }
    ensures { Plain places list.new }
{
    for t in 0..places {
        list[2 * t..2 * t + 2].copy_from_slice(&(t as u16).to_le_bytes());
    }
}

// The lowest entry at fault: it names no place, or one that an entry before it names. For a reader who asks what is
// wrong with a list; `marks` as above. The place after all is marked first, so that an entry that names none finds a
// mark too.
pub fn first_fault(list: &[u8], places: usize, marks: &mut [u8]) -> Option<usize>
    requires { (length list.now ≡ 2 * places)
        × (length marks.old ≡ places + 1)
        × ((p : ℕ) → get_or marks.old p 0 ≡ 0) }
    ensures entry { FirstFault places list.now (unwrap_or result places) }
    ensures below { IfSome result (λ entry. entry < places) }
{
    marks[places] = 1;
    for t in 0..places {
        let place = entry(list, t).min(places);
        if marks[place] != 0 {
            return Some(t);
        }
        marks[place] = 1;
    }
    None
}
