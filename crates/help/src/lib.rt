// What the program says of itself, in lines of at most 40 characters: its commands, its answers and its refusals.
#![tactic(auto)]

use answers::Status;
use console::{arguments, decimals, say};
use std::rt::Env;

pub fn version() -> Status {
    say::text(b"birdovesta 4\n")
}

fn all() -> Status {
    say::text(
        b"lessons [VECTORS]\n\
        encode LISTS BITS DELIMITER PAYLOAD OUT\n\
        complete LISTS BITS WORD OUT\n\
        word LISTS BITS WORD\n\
        line LISTS BITS DELIMITER LINE\n\
        stream LISTS DELIMITER OUT\n\
        [BITS PIECE]...\n\
        lists OUT\n\
        lists check FILE\n\
        coax CODE encode BITS PAYLOAD OUT\n\
        coax CODE complete BITS WORD OUT\n\
        coax CODE word BITS WORD\n\
        coax CODE stream OUT [BITS PIECE]...\n\
        help [COMMAND]\n\
        help refusal [NUMBER]\n\
        help ANSWER, such as help check\n\
        LISTS: plain, or a file; help lists\n\
        OUT is written, or replaced whole.\n\
        exit 0: written, held, accepted,\n\
        right, reordering\n\
        exit 1: not accepted, or a wrong lesson\n\
        exit 2: refused\n\
        exit 3: wrong use, a file, not built\n",
    )
}

fn lessons() -> Status {
    say::text(
        b"lessons [VECTORS]\n\
        VECTORS: a file as in docs/VECTORS.md,\n\
        else vectors.txt where it is there\n\
        Nothing is written.\n\
        answers: right NAME, wrong NAME\n\
        refusals: none\n",
    )
}

fn encode() -> Status {
    say::text(
        b"encode LISTS BITS DELIMITER PAYLOAD OUT\n\
        LISTS: plain, or a file; help lists\n\
        BITS: 257 to 14392, a multiple of 257\n\
        DELIMITER: 0 to 1023\n\
        PAYLOAD: a file of BITS bits\n\
        OUT: the line word, BITS + 2570 bits,\n\
        written or replaced whole\n\
        answers: written BYTES\n\
        refusals, in order: 16 1 10 2 3 4\n",
    )
}

fn complete() -> Status {
    say::text(
        b"complete LISTS BITS WORD OUT\n\
        LISTS: plain, or a file; help lists\n\
        BITS: 257 to 14392, a multiple of 257\n\
        WORD: a full word, 2208 bytes,\n\
        in inner order; any parity\n\
        OUT: the word with its parity,\n\
        written or replaced whole\n\
        answers: written BYTES\n\
        refusals, in order: 16 1 10 2 8\n",
    )
}

fn word() -> Status {
    say::text(
        b"word LISTS BITS WORD\n\
        LISTS: plain, or a file; help lists\n\
        BITS: 257 to 14392, a multiple of 257\n\
        WORD: a full word, 2208 bytes,\n\
        in inner order\n\
        Nothing is written.\n\
        answers: accepted, shortened, check\n\
        refusals, in order: 16 1 10 2\n",
    )
}

fn line() -> Status {
    say::text(
        b"line LISTS BITS DELIMITER LINE\n\
        LISTS: plain, or a file; help lists\n\
        BITS: 257 to 14392, a multiple of 257\n\
        DELIMITER: 0 to 1023\n\
        LINE: a line word, BITS + 2570 bits\n\
        Nothing is written.\n\
        answers: accepted, parity, delimiter\n\
        refusals, in order: 16 1 10 2 3 4\n",
    )
}

fn stream() -> Status {
    say::text(
        b"stream LISTS DELIMITER OUT\n\
        [BITS PIECE]...\n\
        LISTS: plain, or a file; help lists\n\
        DELIMITER: 0 to 1023\n\
        OUT: the parity and the delimiter\n\
        that follow the payload, 322 bytes,\n\
        written or replaced whole\n\
        BITS: 0 to 14392\n\
        PIECE: a file of BITS bits\n\
        answers: piece NUMBER held BITS,\n\
        then written BYTES\n\
        refusals of a piece, in order: 16 2 3 6\n\
        A refused piece is left out.\n\
        refusals at the end, in order: 16 1 10 4\n",
    )
}

fn lists() -> Status {
    say::text(
        b"lists OUT\n\
        lists check FILE\n\
        OUT: the pair that plain names,\n\
        written or replaced whole\n\
        FILE: a pair to test; what is at fault\n\
        is said on standard error\n\
        LISTS of the fibre commands: plain, or a\n\
        file of two lists, joined: 35328 bytes\n\
        An entry has two bytes, low byte first.\n\
        first list: 14592 entries; entry t names\n\
        the padded place that goes to inner t\n\
        second list: 3072 entries; entry t names\n\
        the inner parity that goes out as t\n\
        plain changes nothing. It does not give\n\
        the published words.\n\
        A file named plain is typed ./plain and\n\
        one named check ./check\n\
        answers: written BYTES, reordering\n\
        refusals: 16\n",
    )
}

fn coax() -> Status {
    say::text(
        b"coax CODE encode BITS PAYLOAD OUT\n\
        coax CODE complete BITS WORD OUT\n\
        coax CODE word BITS WORD\n\
        coax CODE stream OUT [BITS PIECE]...\n\
        CODE: 16200 or 5940, the word's bits\n\
        BITS: 14400 with 16200, 5040 with 5940;\n\
        those of a PIECE may be fewer\n\
        PAYLOAD: a file of 1800 or 630 bytes\n\
        WORD: a file of 2025 or 743 bytes,\n\
        for complete with any parity\n\
        PIECE: a file of BITS bits\n\
        OUT: the word, or of stream its parity\n\
        alone, 225 or 113 bytes,\n\
        written or replaced whole\n\
        answers: written, accepted, check;\n\
        of stream, piece NUMBER held BITS first\n\
        refusals of encode, in order: 1 2\n\
        of complete and word, in order: 1 2 3\n\
        of a piece, in order: 2 3 6\n\
        of a stream's end: 1\n",
    )
}

fn help() -> Status {
    say::text(
        b"help [COMMAND]\n\
        help refusal [NUMBER]\n\
        help ANSWER, such as help check\n\
        Nothing is written.\n\
        refusals: none\n",
    )
}

// Every refusal: its number, when it is given, where that differs also when with coax, and what to do.
// include/birdovesta.h has the same words.
fn refusal(number: usize) -> Option<&'static [u8]> {
    let text: &'static [u8] = match number {
        1 => b"refusal 1\n\
            bits is 0 or above 14392\n\
            coax: bits is not 14400 or 5040\n\
            Give 257 to 14392, or these with coax.\n",
        2 => b"refusal 2\ntoo many or too few bytes\nGive just the bytes that the bits take.\n",
        3 => b"refusal 3\nan unused high bit is 1\nSet the last byte's high bits to 0.\n",
        4 => b"refusal 4\nthe delimiter is above 1023\nGive 0 to 1023.\n",
        5 => b"refusal 5\nthe output is shorter than needed\nLend more bytes from C.\n",
        6 => b"refusal 6\n\
            more than 14392 bits with this piece\n\
            coax: more than 14400 or 5040\n\
            Begin the next word with it.\n",
        7 => b"refusal 7\n\
            the stream's state is not allowed\n\
            It claims above 14392 bits;\n\
            coax: above 14400 or 5040,\n\
            or a 1 is past the checks in use.\n\
            Begin a new stream.\n",
        8 => b"refusal 8\na shortened place is 1\nSet it to 0. The command word names it.\n",
        10 => b"refusal 10\nbits is not a multiple of 257\nGive whole data blocks of 257 bits.\n",
        12 =>
            b"refusal 12\nthe stream serves another code\nGive it to the calls of its own code.\n",
        16 =>
            b"refusal 16\na list is no reordering of its places\nName each place once; lists check FILE.\n",
        17 => b"refusal 17\nthe stream is not 400 bytes\nLend all 400 bytes from C.\n",
        _ => return None,
    };
    Some(text)
}

fn refusals() -> Status {
    (0..18)
        .filter_map(refusal)
        .fold(Status::Fine, |status, text| status.max(say::text(text)))
}

// help refusal [NUMBER]
fn of_refusals(rt: &impl Env) -> Status {
    if arguments::count(rt) == 3 {
        return refusals();
    }
    let Some(number) = decimals::argument(rt, 3, b"NUMBER", b"1 to 17") else {
        return Status::Trouble;
    };
    match refusal(number) {
        Some(text) => say::text(text),
        None => say::fault(b"no refusal has this number"),
    }
}

// An answer by its first word: what it means, and what to do.
fn of_answer(word: &[u8]) -> Status {
    match word {
        b"accepted" => say::text(b"accepted\nThe word is right.\nNothing need be done.\n"),
        b"check" => say::text(
            b"check ROW fails COUNT\n\
            ROW is the lowest check that fails,\n\
            COUNT how many do. Send the word anew.\n",
        ),
        b"shortened" => say::text(
            b"shortened PLACE\n\
            PLACE is the lowest inner place that\n\
            is shortened and 1. Set it to 0.\n",
        ),
        b"parity" => say::text(
            b"parity PLACE\n\
            PLACE is the lowest sent parity bit\n\
            that is wrong. Right lists? Send anew.\n",
        ),
        b"delimiter" => say::text(
            b"delimiter BIT\n\
            BIT is the lowest delimiter bit that\n\
            differs. Give the one that was sent.\n",
        ),
        _ => of_progress(word),
    }
}

fn of_progress(word: &[u8]) -> Status {
    match word {
        b"written" => say::text(b"written BYTES\nOUT has so many bytes.\nNothing need be done.\n"),
        b"reordering" => say::text(
            b"reordering\n\
            Both lists name each place once.\n\
            Nothing need be done.\n",
        ),
        b"piece" | b"held" => say::text(
            b"piece NUMBER held BITS\n\
            The stream holds so many bits now.\n\
            The end takes as many as encode does.\n",
        ),
        b"refused" => say::text(
            b"refused pieces COUNT\n\
            So many pieces were left out.\n\
            Look for: piece NUMBER refusal\n",
        ),
        b"right" | b"wrong" => say::text(
            b"right NAME, wrong NAME\n\
            This lesson or vector is as expected,\n\
            or not: then read it again.\n",
        ),
        _ => say::fault(b"no help for that; type birdovesta help"),
    }
}

// A command by its name, or an answer.
fn of_word(name: &[u8]) -> Status {
    match name {
        b"lessons" => lessons(),
        b"encode" => encode(),
        b"complete" => complete(),
        b"word" => word(),
        b"line" => line(),
        b"stream" => stream(),
        b"lists" => lists(),
        b"coax" => coax(),
        b"help" => help(),
        _ => of_answer(name),
    }
}

// help [COMMAND], help refusal [NUMBER], help ANSWER
pub fn say(rt: &impl Env) -> Status {
    let count = arguments::count(rt);
    if count == 2 {
        return all();
    }
    let mut word = [0u8; 16];
    match arguments::word(rt, 2, &mut word) {
        b"refusal" if count < 5 => of_refusals(rt),
        name if count == 3 => of_word(name),
        _ => say::fault(b"help needs one word, or refusal NUMBER"),
    }
}
