// Recipes: how to find the blocks that have given checks. Laws only, in proofs/; there is no code.
#![tactic(auto)]
