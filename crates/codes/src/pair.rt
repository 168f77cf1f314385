// The two lists that a fibre command is lent, joined to one pair: where a pair is cut, the one that changes nothing,
// how LISTS names one, and what is answered of one.
ghost use Rattle.std.specs.Prelude.{◌≡◌, ◌≤◌, length, take, IfSome};
ghost use Rattle.io.specs.Counts.{IsPrefixLen};
ghost use Rattle.codes.specs.Codes.{first_in, second_in, pair_bytes, PlainPair, CutAt, PairSaid};

use crate::{Code, Served};
use answers::Said;
use console::files;
use kinds::System;
use rules::fibre;

// The bytes of both lists.
pub const BYTES: usize = 35328;

// Where a pair is cut: after its first list, or where it ends before that. The operation then refuses it by 16.
pub fn cut(pair: &[u8]) -> usize
    ensures prefix_len { IsPrefixLen result pair.now }
    ensures cut_at { CutAt pair.now result }
{
    if pair.len() < fibre::FIRST_BYTES {
        return pair.len();
    }
    fibre::FIRST_BYTES
}

// Both lists of a pair.
pub fn split(pair: &[u8]) -> (&[u8], &[u8])
    ensures first { result.0.now ≡ first_in pair.now }
    ensures second { result.1.now ≡ second_in pair.now }
{
    pair.split_at(cut(pair))
}

// Makes the pair that changes nothing at the start of a room, and answers its length. A slice lent out of the room would
// leave open what the room holds then.
pub fn fill_plain(room: &mut [u8]) -> usize
    requires { pair_bytes ≤ length room.old }
    ensures prefix_len { IsPrefixLen result room.new }
    ensures plain_pair { PlainPair (take result room.new) }
{
    lists::fill_plain(&mut room[0..fibre::FIRST_BYTES], fibre::PAYLOAD_PLACES);
    lists::fill_plain(&mut room[fibre::FIRST_BYTES..BYTES], fibre::CHECKS);
    BYTES
}

// Reads the pair that LISTS names: `plain` names the one that changes nothing, and all else a file. What is wrong with
// the file is said.
pub fn read_at<'a>(rt: &impl System, name: &[u8], room: &'a mut [u8]) -> Option<&'a [u8]>
    requires { pair_bytes ≤ length room.old }
    ensures { IfSome result (λ lists. length lists.now ≤ length room.old) }
{
    Some(match name {
        b"plain" => {
            let size = fill_plain(room);
            &room[..size]
        }
        _ => files::read_at(rt, name, room)?,
    })
}

// What a command of this code is served by: its pair is read. LISTS is argument 2, and a coax command has none.
pub fn read<'a>(rt: &impl System, code: Code, room: &'a mut [u8]) -> Option<Served<'a>>
    requires { pair_bytes ≤ length room.old }
    ensures code { IfSome result (λ served. served.code ≡ code) }
    ensures lists { IfSome result (λ served. length served.lists.now ≤ length room.old) }
{
    let Code::Fibre = code else {
        return Some(Served { code, lists: b"" });
    };
    let mut name = io::buffer();
    let name = files::path(rt, 2, &mut name)?;
    let lists = read_at(rt, name, room)?;
    Some(Served { code, lists })
}

// What is answered of a pair.
pub fn answer(pair: &[u8]) -> Said
    ensures { PairSaid pair.now result }
{
    let (first, second) = split(pair);
    match refusals::bad_lists(first, second) {
        Ok(()) => Said::Reordering,
        Err(refusal) => Said::Refused(refusal),
    }
}
