// What the commands share: answers and faults said in plain lines, decimal numbers, and files of bytes to read.
#![tactic(auto)]

pub mod arguments;
pub mod decimals;
pub mod files;
pub mod say;
