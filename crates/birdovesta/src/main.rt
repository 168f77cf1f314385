// The program: each command hands files of bytes to the proved libraries and says what they answer.
#![tactic(auto)]

use answers::Status;
use commands::pairs;
use console::{arguments, say};
use kinds::System;
use lessons::{sheet, tally};
use rules::CoaxCode;

// lessons [VECTORS]
fn lessons(rt: &impl System) -> Status {
    if 3 < arguments::count(rt) {
        return say::fault(b"lessons needs nothing, or one VECTORS");
    }
    let mut text = io::large_buffer();
    let Some(text) = vectors::read(rt, &mut text) else {
        return Status::Trouble;
    };
    if text.len() == 65536 {
        return say::fault(b"VECTORS is too long; cut it in two");
    }
    let mut tally = sheet::run();
    coax_lessons::run(&mut tally);
    tally::total(vectors::run(rt, text, tally))
}

fn unknown() -> Status {
    say::fault(b"no such command; type birdovesta help")
}

fn run_coax(rt: &impl System, code: CoaxCode, command: &[u8]) -> Status {
    match command {
        b"encode" => commands::encode_coax(rt, code),
        b"complete" => commands::complete_coax(rt, code),
        b"word" => commands::check_coax(rt, code),
        b"stream" => pieces::feed_coax(rt, code),
        _ => unknown(),
    }
}

// coax CODE COMMAND ARGUMENT..
fn coax(rt: &impl System) -> Status {
    if arguments::count(rt) < 4 {
        return say::fault(b"coax needs CODE and a command");
    }
    let mut name = [0u8; 16];
    let Some(code) = codes::find(arguments::word(rt, 2, &mut name)) else {
        return say::fault(b"CODE is 16200 or 5940");
    };
    let mut command = [0u8; 16];
    run_coax(rt, code, arguments::word(rt, 3, &mut command))
}

fn run(rt: &impl System, command: &[u8]) -> Status {
    match command {
        b"lessons" => lessons(rt),
        b"encode" => commands::encode(rt),
        b"complete" => commands::complete(rt),
        b"word" => commands::check_word(rt),
        b"line" => commands::check_line(rt),
        b"stream" => pieces::feed_fibre(rt),
        b"lists" => pairs::run(rt),
        b"coax" => coax(rt),
        b"help" | b"--help" | b"-h" => help::say(rt),
        b"--version" => help::version(),
        _ => unknown(),
    }
}

fn main(rt: HostRuntime) {
    let mut command = [0u8; 16];
    say::exit(run(&rt, arguments::word(&rt, 1, &mut command)));
}
