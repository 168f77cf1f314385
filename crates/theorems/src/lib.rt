// What follows from the promises alone: the three demands sentence by sentence, any two outcomes that fit one promise
// are equal, the operations agree with each other, and what the C host is told can be read back. No code.
#![tactic(auto)]
