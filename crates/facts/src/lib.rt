// Facts to teach from: what holds of full words by the matrix alone, over any block size and table, and for Table
// 142-1. No code.
#![tactic(auto)]
