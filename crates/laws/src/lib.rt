// The laws that the crates above lean on: bits in bytes, runs of bits, refusals and verdicts. No code.
#![tactic(auto)]
