// The commands over whole words: each reads its arguments and its files, calls one operation, says what it answers and
// tells the exit status. What is wrong with an output is said before anything is computed.
// A file is read into a buffer that is longer than any operation's bytes, so that the operation refuses what is too
// long. LISTS is read after the output is found, and before any other file. A command without a status has said what is
// wrong with an argument or a file.
#![tactic(auto)]

pub mod pairs;

ghost use Rattle.std.specs.Prelude.{◌+◌, ◌^◌, ◌<◌};
ghost use Rattle.rules.specs.Promises.{WordChecked, LineChecked};
ghost use Rattle.rules.specs.Coax.{CoaxChecked};
ghost use Rattle.answers.specs.Answers.{Says};
ghost use Rattle.codes.specs.Codes.{fibre_in};

use answers::{Said, Status};
use codes::{Code, Served, pair};
use console::{arguments, decimals, files, say};
use kinds::System;
use outputs::Output;
use rules::CoaxCode;

// Does a command that takes so many arguments. Where it is given more or fewer, says what it needs.
fn taking<F: FnOnce() -> Option<Status>>(
    rt: &impl System,
    count: usize,
    needs: &[u8],
    command: F,
) -> Status
    requires { F.pre command }
{
    if arguments::count(rt) != count {
        return say::fault(needs);
    }
    command().unwrap_or(Status::Trouble)
}

// Encodes the payload that was read into OUT.
fn encode_into(
    rt: &impl System,
    served: Served,
    output: Output,
    bits: usize,
    payload: &[u8],
    delimiter: usize,
) -> Status {
    let mut word = [0u8; rules::fibre::LINE_BYTES];
    match served.encode(bits, payload, delimiter, &mut word) {
        Ok(()) => output.write(rt, served.code.encoded(bits, &word)),
        Err(why) => say::answer(Said::Refused(why)),
    }
}

// Encodes PAYLOAD, argument i, into OUT, the next.
fn encode_file(
    rt: &impl System,
    code: Code,
    bits: usize,
    delimiter: usize,
    i: usize,
) -> Option<Status>
    requires { i + 1 < 2 ^ 64 }
{
    let mut path = io::buffer();
    let output = outputs::find(rt, i + 1, &mut path)?;
    let mut lists = io::large_buffer();
    let served = pair::read(rt, code, &mut lists)?;
    let mut payload = io::buffer();
    let payload = files::read(rt, i, &mut payload)?;
    Some(encode_into(rt, served, output, bits, payload, delimiter))
}

fn encode_fibre(rt: &impl System) -> Option<Status> {
    let bits = Code::Fibre.payload_bits(rt, 3)?;
    let delimiter = decimals::argument(rt, 4, b"DELIMITER", b"0 to 1023")?;
    encode_file(rt, Code::Fibre, bits, delimiter, 5)
}

// encode LISTS BITS DELIMITER PAYLOAD OUT
pub fn encode(rt: &impl System) -> Status {
    taking(
        rt,
        7,
        b"encode needs\nLISTS BITS DELIMITER PAYLOAD OUT",
        || encode_fibre(rt),
    )
}

// A coax word has no delimiter.
fn encode_one(rt: &impl System, code: Code) -> Option<Status> {
    let bits = code.payload_bits(rt, 4)?;
    encode_file(rt, code, bits, codes::NO_DELIMITER, 5)
}

// coax CODE encode BITS PAYLOAD OUT
pub fn encode_coax(rt: &impl System, coax: CoaxCode) -> Status {
    taking(
        rt,
        7,
        b"encode needs BITS PAYLOAD OUT",
        || encode_one(rt, Code::Coax(coax)),
    )
}

// Completes the word that was read into OUT.
fn complete_into(
    rt: &impl System,
    served: Served,
    output: Output,
    bits: usize,
    word: &mut [u8],
) -> Status {
    match served.complete(bits, word) {
        Ok(()) => output.write(rt, word),
        Err(why) => say::answer(Said::Refused(why)),
    }
}

// Completes WORD, argument i + 1, into OUT, the next. BITS is argument i.
fn complete_file(rt: &impl System, code: Code, i: usize) -> Option<Status>
    requires { i + 2 < 2 ^ 64 }
{
    let bits = code.payload_bits(rt, i)?;
    let mut path = io::buffer();
    let output = outputs::find(rt, i + 2, &mut path)?;
    let mut lists = io::large_buffer();
    let served = pair::read(rt, code, &mut lists)?;
    let mut word = io::buffer();
    let word = files::read(rt, i + 1, &mut word)?;
    Some(complete_into(rt, served, output, bits, word))
}

// complete LISTS BITS WORD OUT
pub fn complete(rt: &impl System) -> Status {
    taking(rt, 6, b"complete needs LISTS BITS WORD OUT", || {
        complete_file(rt, Code::Fibre, 3)
    })
}

// coax CODE complete BITS WORD OUT
pub fn complete_coax(rt: &impl System, coax: CoaxCode) -> Status {
    taking(rt, 7, b"complete needs BITS WORD OUT", || {
        complete_file(rt, Code::Coax(coax), 4)
    })
}

// What is said of a full word.
pub fn word_answer(lists: &[u8], bits: usize, word: &[u8]) -> Said
    ensures { Says (WordChecked (fibre_in lists.now) bits word.now) result }
{
    Said::Judged(codes::check_word(lists, bits, word))
}

// What is said of a coax word.
pub fn coax_answer(code: CoaxCode, bits: usize, word: &[u8]) -> Said
    ensures { Says (CoaxChecked code bits word.now) result }
{
    Said::Judged(coax::check(code, bits, word))
}

// Says the answer to a word by its code.
fn say_answer(served: Served, bits: usize, word: &[u8]) -> Status {
    match served.code {
        Code::Fibre => say::answer(word_answer(served.lists, bits, word)),
        Code::Coax(coax) => say::answer(coax_answer(coax, bits, word)),
    }
}

// Checks WORD, argument i + 1. BITS is argument i.
fn check_file(rt: &impl System, code: Code, i: usize) -> Option<Status>
    requires { i + 1 < 2 ^ 64 }
{
    let bits = code.payload_bits(rt, i)?;
    let mut lists = io::large_buffer();
    let served = pair::read(rt, code, &mut lists)?;
    let mut word = io::buffer();
    let word = files::read(rt, i + 1, &mut word)?;
    Some(say_answer(served, bits, word))
}

// word LISTS BITS WORD
pub fn check_word(rt: &impl System) -> Status {
    taking(rt, 5, b"word needs LISTS BITS WORD", || {
        check_file(rt, Code::Fibre, 3)
    })
}

// coax CODE word BITS WORD
pub fn check_coax(rt: &impl System, coax: CoaxCode) -> Status {
    taking(
        rt,
        6,
        b"word needs BITS WORD",
        || check_file(rt, Code::Coax(coax), 4),
    )
}

// What is said of a line word.
pub fn line_answer(lists: &[u8], bits: usize, line: &[u8], delimiter: usize) -> Said
    ensures { Says (LineChecked (fibre_in lists.now) bits line.now delimiter) result }
{
    Said::Judged(codes::check_line(lists, bits, line, delimiter))
}

// Checks LINE.
fn check_line_file(rt: &impl System) -> Option<Status> {
    let bits = Code::Fibre.payload_bits(rt, 3)?;
    let delimiter = decimals::argument(rt, 4, b"DELIMITER", b"0 to 1023")?;
    let mut lists = io::large_buffer();
    let served = pair::read(rt, Code::Fibre, &mut lists)?;
    let mut line = io::buffer();
    let line = files::read(rt, 5, &mut line)?;
    let answer = line_answer(served.lists, bits, line, delimiter);
    Some(say::answer(answer))
}

// line LISTS BITS DELIMITER LINE
pub fn check_line(rt: &impl System) -> Status {
    taking(
        rt,
        6,
        b"line needs LISTS BITS DELIMITER LINE",
        || check_line_file(rt),
    )
}
